#![tactic(auto)]
// The mask of a Set or a Get, weighed against what its class has.
ghost use Rattle.std.specs.Prelude.{◌≡◌};
ghost use Rattle.rules.specs.Masks.{named, mask, total};
ghost use Rattle.rules.specs.Catalogue.{size_of};
ghost use Rattle.rules.specs.Commands.{unsupported, unwritable};
ghost use Rattle.class_tables.specs.Built.{class_for};
ghost use Rattle.class_tables.specs.declared.Product.{Product};

use class_tables::{Product, masks, sizes};

// The mask of those that the class doesn't have.
pub fn unsupported(product: Product, class: u16, asked: u16) -> u16
    ensures { result ≡ mask (unsupported (class_for product class) (named asked)) }
{
    bits::without(asked, masks::supported_mask(product, class))
}

// The mask of those that the class has and a Set may not write.
pub fn unwritable(product: Product, class: u16, asked: u16) -> u16
    ensures { result ≡ mask (unwritable (class_for product class) (named asked)) }
{
    let there = bits::common(asked, masks::supported_mask(product, class));
    bits::without(there, masks::writable_mask(product, class))
}

// How many bytes their contents take together.
pub fn total_size(product: Product, class: u16, asked: u16) -> usize
    ensures { result ≡ total (size_of (class_for product class)) (named asked) }
{
    let sizes = sizes::sizes(product, class);
    let mut sum = 0;
    for n in bits::named(asked) {
        sum += bits::digit(sizes, n);
    }
    sum
}
