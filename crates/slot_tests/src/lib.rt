// The instances that are there by themselves: straight-line tests of their contents, which have a slot each, and of their alarms. Tests that need
// no order are joined by `&`, which makes no branch.
#![tactic(auto)]

ghost use Rattle.std.specs.Prelude.{◌≡◌, length};
ghost use Rattle.rules.specs.Legal.{automatic_keys};
ghost use Rattle.store.specs.Layout.{slot_count, slot_width, slots_length};
ghost use Rattle.class_tables.specs.Built.{cat_of};
ghost use Rattle.class_tests.specs.ContentTests.{contents_test};
ghost use Rattle.slot_tests.specs.Tests.{slots_test, alarms_test, unis_test};

use class_tables::Product;
use class_tables::built::by;
use store::layout::{SLOT, SLOT_COUNT};

// The contents of a UNI, 11.
fn uni_legal(product: Product, c: &[u8]) -> bool
    requires { length c.now ≡ slot_width }
    ensures { result ≡ contents_test product 11 c.now }
{
    let common = ((c[3] == 0) | (c[3] == 3)) & (c[4] <= 1) & (c[5] <= 1);
    match product {
        Product::Small => common,
        Product::Large => common & (c[9] <= 2) & (c[12] <= 2) & (c[13] <= 1),
        Product::Meter => (c[2] <= 1) & (c[3] <= 1),
    }
}

// The slots of Large, each with a UNI. All are tested: a branch for each would cost more.
fn unis_legal(product: Product, b: &[u8]) -> bool
    requires { length b.now ≡ slots_length }
    ensures { result ≡ unis_test product slot_count b.now }
{
    let mut legal = true;
    for j in 0..SLOT_COUNT {
        let at = j * SLOT;
        let end = at + SLOT;
        legal &= uni_legal(product, &b[at..end]);
    }
    legal
}

// The slots: in Large four UNIs, in Small and Meter one, and zeros.
pub fn slots_ok(product: Product, b: &[u8]) -> bool
    requires { length b.now ≡ slots_length }
    ensures { result ≡ slots_test (cat_of product) (automatic_keys (cat_of product)) b.now }
{
    match product {
        Product::Large => unis_legal(product, b),
        Product::Small | Product::Meter => {
            uni_legal(product, &b[..SLOT]) & octets::zeros_from(b, by(product, 6, SLOT, 4))
        }
    }
}

// Alarms, a byte for each slot: only a UNI's alarm 0, the top bit, is declared.
pub fn alarms_ok(product: Product, b: &[u8]) -> bool
    requires { length b.now ≡ slot_count }
    ensures { result ≡ alarms_test (cat_of product) (automatic_keys (cat_of product)) b.now }
{
    match product {
        // The last slot's test stands apart, so that a must-fail edit can bend it alone.
        Product::Large => {
            let others = b[..3]
                .iter()
                .fold(true, |declared, x| declared & (*x % 128 == 0));
            others & (b[3] % 128 == 0)
        }
        Product::Small | Product::Meter => {
            (b[0] % 128 == 0) & octets::zeros_from(b, by(product, 1, SLOT_COUNT, 1))
        }
    }
}
