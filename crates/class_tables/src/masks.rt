// The attributes of each class as masks: attribute 1 is the top bit of sixteen.
ghost use Rattle.std.specs.Prelude.{◌≡◌};
ghost use Rattle.rules.specs.Maps.{keys};
ghost use Rattle.rules.specs.Masks.{mask};
ghost use Rattle.rules.specs.Catalogue.{stored_numbers, carried_numbers};
ghost use Rattle.class_tables.specs.Built.{class_for};
ghost use Rattle.class_tables.specs.Masks.{writable_numbers};

use super::Product;
use super::built::by;

pub fn supported_mask(product: Product, class: u16) -> u16
    ensures { result ≡ mask (keys (class_for product class).attributes) }
{
    match class {
        2 => 0x8000,
        11 => by(product, 0xFC00, 0xFFF8, 0xCC00),
        45 => by(product, 0xFE00, 0xFE00, 0),
        46 => by(product, 0xFC00, 0xFF00, 0),
        47 => by(product, 0xFF00, 0xFF80, 0),
        _ => 0,
    }
}

// Those that are W: a Set may write them where the class has it, and a reset does.
pub fn writable_mask(product: Product, class: u16) -> u16
    ensures { result ≡ mask (writable_numbers (class_for product class)) }
{
    match class {
        2 => 0x8000,
        11 => by(product, 0xB800, 0xB9F8, 0x8800),
        45 => by(product, 0xFE00, 0xFE00, 0),
        47 => by(product, 0x0F00, 0x0F80, 0),
        _ => 0,
    }
}

// Those that a Create carries.
pub fn carried_mask(product: Product, class: u16) -> u16
    ensures { result ≡ mask (carried_numbers (class_for product class)) }
{
    match class {
        45 => by(product, 0xFE00, 0xFE00, 0),
        47 => by(product, 0xFF00, 0xFF80, 0),
        _ => 0,
    }
}

pub fn stored_mask(product: Product, class: u16) -> u16
    ensures { result ≡ mask (stored_numbers (class_for product class)) }
{
    match class {
        2 => 0x8000,
        11 => by(product, 0xFC00, 0xFFF8, 0xCC00),
        45 => by(product, 0xFE00, 0xFE00, 0),
        46 => by(product, 0xB400, 0xB700, 0),
        47 => by(product, 0xFF00, 0xFF80, 0),
        _ => 0,
    }
}
