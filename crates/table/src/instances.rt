// Where an instance's contents stand in the bytes of a table.
ghost use Rattle.std.specs.Prelude.{◌≡◌, ◌+◌, ◌*◌, ◌≤◌};
ghost use Rattle.rules.specs.Catalogue.{key};
ghost use Rattle.store.specs.Positions.{position};
ghost use Rattle.store.specs.Layout.{place_width, slot_at, place_at, key_length};
ghost use Rattle.class_tables.specs.Built.{cat_of};
ghost use Rattle.rules.specs.Legal.{automatic_keys};
ghost use Rattle.table.specs.Spots.{at_position, spot_among};
ghost use Rattle.table.specs.Live.{there_in};
ghost use Rattle.table.specs.Places.{InShape, keys_in};
ghost use Rattle.class_tables.specs.Finding.{found_of};
ghost use Rattle.class_tables.specs.declared.Product.{Product};

use class_tables::{Product, classes, slots};
use store::layout::{KEY, PLACE, PLACES, SLOT, SLOTS};

// The contents of a class in the place of a created instance.
fn in_place(b: &[u8], leader: u16, number: u16, inside: usize) -> Option<usize>
    requires { InShape b.now × (inside ≤ place_width) }
    ensures { found_of result ≡ at_position (λ j. place_at j + key_length + inside) (position (key leader number) (keys_in b.now)) }
{
    let j = super::place_of(b, octets::key_of(leader, number))?;
    Some(PLACES + PLACE * j + KEY + inside)
}

// The contents of an instance that is there by itself, class 2 apart.
fn in_slot(product: Product, class: u16, number: u16) -> Option<usize>
    ensures { found_of result ≡ at_position slot_at (position (key class number) (automatic_keys (cat_of product))) }
{
    let j = slots::slot_of(product, class, number)?;
    Some(SLOTS + SLOT * j)
}

// Where the contents of an instance begin; class 2's in front.
pub fn locate(b: &[u8], product: Product, class: u16, number: u16) -> Option<usize>
    requires { InShape b.now }
    ensures { found_of result ≡ spot_among (cat_of product) (keys_in b.now) class number }
{
    let leader = classes::leader_of(product, class);
    if classes::is_created(product, leader) {
        return in_place(b, leader, number, classes::inside(product, class));
    }
    if classes::is_ont_data(class, number) {
        return Some(0);
    }
    in_slot(product, class, number)
}

// Is the instance there?
pub fn is_there(b: &[u8], product: Product, class: u16, number: u16) -> bool
    requires { InShape b.now }
    ensures { result ≡ there_in (cat_of product) b.now class number }
{
    locate(b, product, class, number).is_some()
}
