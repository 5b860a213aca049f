// The entries of a table: the instances that are there by themselves, then the created ones, each for those that come with it too.
ghost use Rattle.std.specs.Prelude.{◌≡◌, ◌+◌, ◌<◌, length, get_or};
ghost use Rattle.rules.specs.State.{class_of, number_of};
ghost use Rattle.store.specs.Layout.{slot_count, place_count};
ghost use Rattle.class_tables.specs.Built.{cat_of};
ghost use Rattle.table.specs.Places.{InShape, keys_in};
ghost use Rattle.upload_sections.specs.Sections.{entry_keys, entry_key, numbers_in, entry_begin, BeginsAt};
ghost use Rattle.class_tables.specs.declared.Product.{Product};

use class_tables::{Instance, Product, classes, slots};
use store::layout::{KEY, PLACE, PLACES, SLOT, SLOTS};

// An instance of a class: its number, and where its contents begin in the block.
#[derive(Clone, Copy, Debug, PartialEq, Eq)]
pub struct Spot {
    pub number: u16,
    pub at: usize,
}

// How many entries there are.
fn entry_count(b: &[u8], product: Product) -> usize
    requires { InShape b.now }
    ensures { result ≡ length (entry_keys (cat_of product) (keys_in b.now)) }
{
    slots::slots(product) + table::in_use(b)
}

// The instance that leads the i-th entry.
fn entry_at(b: &[u8], product: Product, i: usize) -> Instance
    requires { InShape b.now × (i < length (entry_keys (cat_of product) (keys_in b.now))) }
    ensures { (result.class ≡ class_of (entry_key (cat_of product) (keys_in b.now) i)) × (result.number ≡ number_of (entry_key (cat_of product) (keys_in b.now) i)) }
{
    let n = slots::slots(product);
    if i < n {
        return slots::slot_instance(product, i);
    }
    let p = PLACES + PLACE * (i - n);
    Instance {
        class: octets::number_at(b, p),
        number: octets::number_at(b, p + 2),
    }
}

// How many instances of a class there are.
pub fn instance_count(b: &[u8], product: Product, class: u16) -> usize
    requires { InShape b.now }
    ensures { result ≡ length (numbers_in (cat_of product) (keys_in b.now) class) }
{
    let leader = classes::leader_of(product, class);
    let n = entry_count(b, product);
    let mut count: usize = 0;
    for i in 0..n {
        if entry_at(b, product, i).class == leader {
            count += 1;
        }
    }
    count
}

// Where the contents of an instance of a class begin, if its entry is the i-th.
fn begin_in(product: Product, class: u16, i: usize) -> usize
    requires { i < slot_count + place_count }
    ensures { result ≡ entry_begin (cat_of product) class i }
{
    let n = slots::slots(product);
    if i < n {
        return SLOTS + SLOT * i;
    }
    PLACES + PLACE * (i - n) + KEY + classes::inside(product, class)
}

// The j-th instance of a class.
pub fn instance_at(b: &[u8], product: Product, class: u16, j: usize) -> Spot
    requires { InShape b.now × (j < length (numbers_in (cat_of product) (keys_in b.now) class)) }
    ensures { (result.number ≡ get_or (numbers_in (cat_of product) (keys_in b.now) class) j 0) × BeginsAt (cat_of product) (keys_in b.now) class result.number result.at }
{
    let leader = classes::leader_of(product, class);
    let n = entry_count(b, product);
    let mut left = j;
    for i in 0..n {
        let e = entry_at(b, product, i);
        if e.class == leader {
            if left == 0 {
                return Spot {
                    number: e.number,
                    at: begin_in(product, class, i),
                };
            }
            left -= 1;
        }
    }
    // the class has more than j instances
    unreachable!()
}
