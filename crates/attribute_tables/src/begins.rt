// Where the content of a stored attribute begins in its instance's contents: what `attribute_of` says of it too, asked alone, since to make the whole line
// for one number takes 55 instructions more an attribute (docs/SPEED.md, "Looking things up"). What begins at 0 isn't listed.
ghost use Rattle.std.specs.Prelude.{◌≡◌, true};
ghost use Rattle.rules.specs.Catalogue.{attribute, supported, is_stored};
ghost use Rattle.class_tables.specs.Built.{class_for};
ghost use Rattle.class_tables.specs.Describes.{offset_of};

use class_tables::Product;
use class_tables::built::by;

// 11 Ethernet UNI; Meter's has no attributes 3 and 4
fn uni_begin(product: Product, n: u16) -> usize
    requires { (supported (class_for product 11) n ≡ true) × (is_stored (attribute (class_for product 11) n).source ≡ true) }
    ensures { result ≡ offset_of (class_for product 11) n }
{
    match n {
        2 => 1,
        3 => 2,
        4 => 3,
        5 => by(product, 4, 4, 2),
        6 => by(product, 5, 5, 3),
        7 => 6,
        8 => 7,
        9 => 9,
        10 => 10,
        11 => 12,
        12 => 13,
        13 => 14,
        _ => 0,
    }
}

// 45 bridge service profile
fn profile_begin(product: Product, n: u16) -> usize
    requires { (supported (class_for product 45) n ≡ true) × (is_stored (attribute (class_for product 45) n).source ≡ true) }
    ensures { result ≡ offset_of (class_for product 45) n }
{
    match n {
        2 => 1,
        3 => 2,
        4 => 3,
        5 => 5,
        6 => 7,
        7 => 9,
        _ => 0,
    }
}

// 46 bridge configuration
fn bridge_begin(product: Product, n: u16) -> usize
    requires { (supported (class_for product 46) n ≡ true) × (is_stored (attribute (class_for product 46) n).source ≡ true) }
    ensures { result ≡ offset_of (class_for product 46) n }
{
    match n {
        3 => 6,
        4 => 14,
        6 => 18,
        7 => 20,
        8 => 22,
        _ => 0,
    }
}

// 47 port configuration
fn port_begin(product: Product, n: u16) -> usize
    requires { (supported (class_for product 47) n ≡ true) × (is_stored (attribute (class_for product 47) n).source ≡ true) }
    ensures { result ≡ offset_of (class_for product 47) n }
{
    match n {
        2 => 2,
        3 => 3,
        4 => 4,
        5 => 6,
        6 => 8,
        7 => 10,
        8 => 11,
        9 => 12,
        _ => 0,
    }
}

// Where the content of a stored attribute begins in its instance's contents.
pub fn begin_of(product: Product, class: u16, n: u16) -> usize
    requires { (supported (class_for product class) n ≡ true) × (is_stored (attribute (class_for product class) n).source ≡ true) }
    ensures { result ≡ offset_of (class_for product class) n }
{
    match class {
        11 => uni_begin(product, n),
        45 => profile_begin(product, n),
        46 => bridge_begin(product, n),
        47 => port_begin(product, n),
        _ => 0,
    }
}
