#![tactic(auto)]
// The sections that a MIB upload shows: how the instances of a table are cut, how many sections there are, and which is the n-th.
pub mod cuts;
pub mod entries;

ghost use Rattle.std.specs.Prelude.{◌≡◌, ◌<◌, Some, length};
ghost use Rattle.rules.specs.Walks.{sections_of};
ghost use Rattle.class_tables.specs.Built.{cat_of, class_for};
ghost use Rattle.table.specs.Places.{InShape, keys_in};
ghost use Rattle.upload_sections.specs.Sections.{class_sections, sections_in, Found};
ghost use Rattle.class_tables.specs.declared.Product.{Product};

use class_tables::classes::MOST_CLASSES;
use class_tables::{Product, classes};
use table::Shown;

// How many sections the instances of a class have, each of which has so many.
fn class_total(b: &[u8], product: Product, class: u16, each: usize) -> usize
    requires { InShape b.now × (each ≡ length (sections_of (class_for product class))) }
    ensures { result ≡ length (class_sections (cat_of product) (keys_in b.now) class) }
{
    entries::instance_count(b, product, class) * each
}

// How many sections the table in a block has. The loop's bound is a constant, so that the compiler can unroll it: docs/SPEED.md has what it saves.
pub fn section_total(b: &[u8], product: Product) -> usize
    requires { InShape b.now }
    ensures { result ≡ length (sections_in (cat_of product) (keys_in b.now)) }
{
    let mut total = 0;
    for j in 0..MOST_CLASSES {
        let Some(class) = classes::class_at(product, j) else {
            return total;
        };
        total += class_total(b, product, class, cuts::section_count(product, class));
    }
    total
}

// The n-th section of a class's instances, each of which has so many.
fn class_section(b: &[u8], product: Product, class: u16, each: usize, n: usize) -> Shown
    requires { InShape b.now × (each ≡ length (sections_of (class_for product class))) × (n < length (class_sections (cat_of product) (keys_in b.now) class)) }
    ensures { Found (cat_of product) (keys_in b.now) (class_sections (cat_of product) (keys_in b.now) class) n (Some result) }
{
    let spot = entries::instance_at(b, product, class, n / each);
    Shown {
        class,
        number: spot.number,
        at: spot.at,
        mask: cuts::section_mask(product, class, n % each),
    }
}

// The n-th section of the table in a block, if it has as many.
pub fn section_at(b: &[u8], product: Product, n: usize) -> Option<Shown>
    requires { InShape b.now }
    ensures { Found (cat_of product) (keys_in b.now) (sections_in (cat_of product) (keys_in b.now)) n result }
{
    let mut left = n;
    for j in 0..MOST_CLASSES {
        let class = classes::class_at(product, j)?;
        let each = cuts::section_count(product, class);
        let some = class_total(b, product, class, each);
        if left < some {
            return Some(class_section(b, product, class, each, left));
        }
        left -= some;
    }
    None
}
