// What follows the key in a place, class by class: straight-line tests of bytes, since every call tests the whole store. Tests that need no
// order are joined by `&`, which makes no branch.
#![tactic(auto)]

ghost use Rattle.std.specs.Prelude.{◌≡◌, ◌≤◌, true, false, ◌&&◌, length, nat_le};
ghost use Rattle.store.specs.Layout.{place_width};
ghost use Rattle.class_tables.specs.Built.{cat_of, by_product};
ghost use Rattle.class_tests.specs.ContentTests.{pointer_test};
ghost use Rattle.class_tests.specs.Tests.{entry_test, front_test, port_front};

use class_tables::Product;
use class_tables::built::{by, provisioned};
use class_tables::slots::slot_of;

// Is a number in a range, both ends in it? It compiles to one comparison.
fn between(x: u16, low: u16, high: u16) -> bool
    ensures { result ≡ (nat_le low x && nat_le x high) }
{
    (low..=high).contains(&x)
}

// A port's TPType, 1 or 2, with its TPPointer: of type 1 it names a UNI, which has a slot in this product, else it may be
// anything.
fn pointer_legal(product: Product, c: &[u8]) -> bool
    requires { 12 ≤ length c.now }
    ensures { result ≡ pointer_test product c.now }
{
    if c[3] == 1 {
        slot_of(product, 11, octets::number_at(c, 4)).is_some()
    } else {
        c[3] == 2
    }
}

// Do the contents of a 45 and its 46 leave no room in their place? Large's do. One question with two answers, where each product could have its
// own: so the loop around `profile_ok` is compiled once for each answer, without a test of the product in it.
fn profile_fills(product: Product) -> bool
    ensures { result ≡ by_product product false true false }
{
    by(product, false, true, false)
}

// A place of a bridge service profile, 45, with its 46, whose contents may be anything. Meter has no bridges.
pub fn profile_ok(product: Product, c: &[u8]) -> bool
    requires { length c.now ≡ place_width }
    ensures { result ≡ entry_test (cat_of product) 45 c.now }
{
    let age = between(octets::number_at(c, 5), 0x0600, 0x2800);
    let hello = between(octets::number_at(c, 7), 0x0100, 0x0A00);
    let delay = between(octets::number_at(c, 9), 0x0400, 0x1E00);
    let legal = (c[0] <= 1) & (c[1] <= 1) & (c[2] <= 1) & age & hello & delay;
    if profile_fills(product) {
        legal
    } else {
        legal & provisioned(product) & octets::zeros_from(c, 31)
    }
}

// How many bytes of a port's place may be other than zero in some product: the zeros behind them are tested for all ports at once.
pub const PORT_FRONT: usize = 13;

// A place of a port, 47, but for the zeros that every product has there. The bridge that it names may since be gone, so that pointer isn't judged.
pub fn port_ok(product: Product, c: &[u8]) -> bool
    requires { length c.now ≡ place_width }
    ensures { result ≡ front_test (cat_of product) 47 port_front c.now }
{
    let pointer = pointer_legal(product, c);
    let priority = octets::number_at(c, 6);
    let cost = octets::number_at(c, 8);
    // LANFCSInd is below this: Small doesn't keep it, and Meter has no ports, so that nothing is legal
    let end = by(product, 1, 2, 0);
    pointer & (priority <= 255) & (1 <= cost) & (c[10] <= 1) & (c[11] <= 1) & (c[12] < end)
}
