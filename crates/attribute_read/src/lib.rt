#![tactic(auto)]
// The contents of attributes, read out of the bytes of a table: the live one, or the frozen copy of an upload.
ghost use Rattle.std.specs.Prelude.{◌≡◌, true, ◌+◌, ◌≤◌, ◌<◌, length, drop};
ghost use Rattle.rules.specs.Bytes.{byte, bytes, laid};
ghost use Rattle.rules.specs.Masks.{named};
ghost use Rattle.rules.specs.Catalogue.{attribute, supported, size_of, is_stored};
ghost use Rattle.store.specs.Layout.{place_width, places_at};
ghost use Rattle.class_tables.specs.Built.{cat_of, class_for};
ghost use Rattle.table.specs.Places.{InShape, how_many_hold, chosen};
ghost use Rattle.attribute_read.specs.Values.{in_entry, item_of, shown, values_at, Within, Fits, Packable};
ghost use Rattle.octets.proofs.Parted.{part};
ghost use Rattle.class_tables.specs.declared.Product.{Product};

use attribute_tables::readings::Reading;
use attribute_tables::{begins, readings};
use class_tables::{Product, classes, sizes};
use table::{Shown, Which};

// Where an attribute's content comes from.
#[derive(Clone, Copy, Debug, PartialEq, Eq)]
pub enum Origin {
    // the bytes of the table from this place on
    At(usize),
    // the number of places that are of this class and hold the instance's number here in their contents
    Count(u16, usize),
}

// An attribute of an instance: how many bytes it has, and where they come from.
#[derive(Clone, Copy, Debug, PartialEq, Eq)]
pub struct Item {
    pub size: usize,
    pub origin: Origin,
}

// Where the content of a stored attribute begins in its entry.
fn in_entry(product: Product, class: u16, n: u16) -> usize
    requires { (supported (class_for product class) n ≡ true) × (is_stored (attribute (class_for product class) n).source ≡ true) }
    ensures { result ≡ in_entry (cat_of product) class n }
{
    classes::inside(product, class) + begins::begin_of(product, class, n)
}

// How many bytes an attribute has.
fn size_of(product: Product, class: u16, n: u16) -> usize
    requires { supported (class_for product class) n ≡ true }
    ensures { result ≡ size_of (class_for product class) n }
{
    bits::digit(sizes::sizes(product, class), n)
}

// An attribute of an instance whose contents begin at `at`: its size, and where its content comes from.
fn item_for(product: Product, class: u16, n: u16, at: usize) -> Item
    requires { Within (cat_of product) class at × (supported (class_for product class) n ≡ true) }
    ensures { result ≡ item_of (cat_of product) class at n }
{
    let origin = match readings::reading_of(product, class, n) {
        Reading::OfCreator(m) => {
            let entry = at - classes::inside(product, class);
            Origin::At(entry + in_entry(product, classes::leader_of(product, class), m))
        }
        Reading::CountOf(d, m) => Origin::Count(d, in_entry(product, d, m)),
        Reading::Own => Origin::At(at + begins::begin_of(product, class, n)),
    };
    Item {
        size: size_of(product, class, n),
        origin,
    }
}

// How many places of one of two tables are of a class and hold a number.
fn naming(live: &[u8], frozen: &[u8], which: Which, class: u16, at: usize, number: u16) -> usize
    requires { InShape (chosen which live.now frozen.now) × (at + 2 ≤ place_width) }
    ensures { result
        ≡ how_many_hold class at number (byte (chosen which live.now frozen.now) 1) (drop places_at (chosen which live.now frozen.now)) }
{
    let b = match which {
        Which::Live => live,
        Which::Frozen => frozen,
    };
    table::naming(b, class, at, number)
}

// Writes a count, which is below 256, into so many bytes.
fn put_count(count: usize, size: usize, out: &mut [u8], to: usize)
    requires { (count < 256) × (1 ≤ size) × (to + size ≤ length out.old) }
    ensures { out.new ≡ laid to (bytes size count) out.old }
{
    let last = to + size - 1;
    out[to..last].fill(0);
    out[last] = count as u8;
}

// Writes one attribute.
fn put<'a>(
    live: &'a [u8],
    frozen: &'a [u8],
    which: Which,
    number: u16,
    x: Item,
    out: &mut [u8],
    to: usize,
)
    requires { Fits which live.now frozen.now x to (length out.old) }
    ensures { out.new ≡ laid to (shown (chosen which live.now frozen.now) number x) out.old }
{
    match x.origin {
        Origin::At(o) => {
            let part = table::attribute_part(live, frozen, which, o, x.size);
            octets::copy_in(out, to, part);
        }
        Origin::Count(class, o) => {
            let count = naming(live, frozen, which, class, o, number);
            put_count(count, x.size, out, to);
        }
    }
}

// Writes the contents of the attributes that are shown, one after another, from the start of `out`.
pub fn pack<'a>(
    live: &'a [u8],
    frozen: &'a [u8],
    which: Which,
    product: Product,
    what: Shown,
    out: &mut [u8],
)
    requires { Packable product which live.now frozen.now what.class what.number what.at what.mask (length out.old) }
    ensures { out.new
        ≡ laid 0 (values_at (cat_of product) (chosen which live.now frozen.now) what.class what.number what.at (named what.mask)) out.old }
{
    let mut to = 0;
    for n in bits::named(what.mask) {
        let x = item_for(product, what.class, n, what.at);
        put(live, frozen, which, what.number, x, out, to);
        to += x.size;
    }
}
