// The instances that are there by themselves, class 2 left out: each has a slot of its own.
ghost use Rattle.std.specs.Prelude.{◌≡◌, ◌<◌, Some, None, length, get_or};
ghost use Rattle.rules.specs.Catalogue.{key};
ghost use Rattle.rules.specs.Legal.{automatic_keys};
ghost use Rattle.store.specs.Positions.{position};
ghost use Rattle.class_tables.specs.Built.{cat_of, by_product};
ghost use Rattle.class_tables.specs.Finding.{found_of};

use super::built::by;
use super::{Instance, Product};

// How many slots the product has.
pub fn slots(product: Product) -> usize
    ensures { result ≡ length (automatic_keys (cat_of product)) }
{
    by(product, 1, 4, 1)
}

// A slot that Large alone has.
fn only_large(product: Product, j: usize) -> Option<usize>
    ensures { result ≡ by_product product None (Some j) None }
{
    by(product, None, Some(j), None)
}

// 11 Ethernet UNI
fn uni_slot(product: Product, number: u16) -> Option<usize>
    ensures { found_of result ≡ position (key 11 number) (automatic_keys (cat_of product)) }
{
    match number {
        0x0101 => Some(0),
        0x0102 => only_large(product, 1),
        0x0103 => only_large(product, 2),
        0x0104 => only_large(product, 3),
        _ => None,
    }
}

// Which slot an instance has, if it is there by itself.
pub fn slot_of(product: Product, class: u16, number: u16) -> Option<usize>
    ensures { found_of result ≡ position (key class number) (automatic_keys (cat_of product)) }
{
    match class {
        11 => uni_slot(product, number),
        _ => None,
    }
}

// The instance whose slot this is.
pub fn slot_instance(product: Product, j: usize) -> Instance
    requires { j < length (automatic_keys (cat_of product)) }
    ensures { key result.class result.number ≡ get_or (automatic_keys (cat_of product)) j 0 }
{
    let number = match j {
        0 => 0x0101,
        1 => 0x0102,
        2 => 0x0103,
        _ => 0x0104,
    };
    Instance { class: 11, number }
}
