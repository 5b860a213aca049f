// How many bytes the attributes of each class take.
ghost use Rattle.std.specs.Prelude.{◌≡◌};
ghost use Rattle.rules.specs.Masks.{total};
ghost use Rattle.rules.specs.Catalogue.{size_of, carried_numbers};
ghost use Rattle.class_tables.specs.Built.{class_for};
ghost use Rattle.class_tables.specs.Sizes.{size_digits};

use super::Product;
use super::built::by;

// The sizes of a class's attributes, a hexadecimal digit each: attribute 1's is the top one of sixteen.
// A digit holds at most 15, so no attribute may have more bytes (the rules allow 25): the checker refuses a table in which one has.
pub fn sizes(product: Product, class: u16) -> u64
    ensures { result ≡ size_digits (class_for product class) }
{
    match class {
        2 => 0x1000000000000000,
        11 => by(
            product,
            0x1111110000000000,
            0x1111111212111000,
            0x1100110000000000,
        ),
        45 => by(product, 0x1112222000000000, 0x1112222000000000, 0),
        46 => by(product, 0x6284120000000000, 0x6284122200000000, 0),
        47 => by(product, 0x2112221100000000, 0x2112221110000000, 0),
        _ => 0,
    }
}

// How many bytes a Create of the class carries for what it keeps.
pub fn carried_size(product: Product, class: u16) -> usize
    ensures { result ≡ total (size_of (class_for product class)) (carried_numbers (class_for product class)) }
{
    match class {
        45 => by(product, 11, 11, 0),
        47 => by(product, 12, 13, 0),
        _ => 0,
    }
}
