// How attributes are read: what `attribute_of` says of them too, asked alone, since to make the whole line for one thing of it takes 55 instructions more
// an attribute (docs/SPEED.md, "Looking things up").
ghost use Rattle.std.specs.Prelude.{◌≡◌, true};
ghost use Rattle.rules.specs.Catalogue.{attribute, supported};
ghost use Rattle.class_tables.specs.Built.{class_for};
ghost use Rattle.attribute_tables.specs.Readings.{reading_by};

use class_tables::Product;

// How an attribute is read: from its own bytes, or from elsewhere.
#[derive(Clone, Copy, Debug, PartialEq, Eq)]
pub enum Reading {
    Own,
    // this attribute of the created instance that its own came with
    OfCreator(u16),
    // the number of instances of a class that name its own in an attribute (class, attribute)
    CountOf(u16, u16),
}

// How an attribute is read. Meter has no class 46, so the product isn't asked.
pub fn reading_of(product: Product, class: u16, n: u16) -> Reading
    requires { supported (class_for product class) n ≡ true }
    ensures { result ≡ reading_by (attribute (class_for product class) n).source }
{
    match class {
        46 => match n {
            2 => Reading::OfCreator(4),
            5 => Reading::CountOf(47, 1),
            _ => Reading::Own,
        },
        _ => Reading::Own,
    }
}
