// An instance's attributes, cut into sections: in order while they fit in 26 bytes.
ghost use Rattle.std.specs.Prelude.{◌≡◌, length};
ghost use Rattle.rules.specs.Maps.{given, nth};
ghost use Rattle.rules.specs.Masks.{named, mask};
ghost use Rattle.rules.specs.Catalogue.{size_of};
ghost use Rattle.rules.specs.Walks.{sections_of};
ghost use Rattle.class_tables.specs.Built.{class_for};
ghost use Rattle.upload_sections.specs.Cuts.{first_cut};
ghost use Rattle.class_tables.specs.declared.Product.{Product};

use class_tables::{Product, masks, sizes};

// How many bytes of contents a section shows.
const ROOM: usize = 26;

// The first section of the attributes that remain. The compiler asks for the class's sizes once, before the loop.
pub fn first_section(product: Product, class: u16, remaining: u16) -> u16
    ensures { result ≡ mask (first_cut (size_of (class_for product class)) 0 (named remaining)) }
{
    let mut used = 0;
    let mut section = 0;
    for n in bits::named(remaining) {
        used += bits::digit(sizes::sizes(product, class), n);
        if ROOM < used {
            return section;
        }
        section += bits::bit_of(n);
    }
    section
}

// How many sections an instance of a class has. A `while`, since no index is counted: it ends when no attribute is left, and each turn takes as many as fit.
pub fn section_count(product: Product, class: u16) -> usize
    ensures { result ≡ length (sections_of (class_for product class)) }
{
    let mut left = masks::supported_mask(product, class);
    let mut count = 0;
    while bits::how_many(left) != 0 {
        left -= first_section(product, class, left);
        count += 1;
    }
    count
}

// The n-th section of an instance of a class; no attributes past the last.
pub fn section_mask(product: Product, class: u16, n: usize) -> u16
    ensures { result ≡ given (nth (sections_of (class_for product class)) n) 0 mask }
{
    let mut left = masks::supported_mask(product, class);
    for _ in 0..n {
        left -= first_section(product, class, left);
    }
    first_section(product, class, left)
}
