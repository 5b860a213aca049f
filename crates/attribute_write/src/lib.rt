#![tactic(auto)]
// Values laid into an instance's contents in the bytes of a table, one attribute after another.
ghost use Rattle.std.specs.Prelude.{◌≡◌, [], ◌∷◌, ◌+◌, ◌≤◌, length};
ghost use Rattle.rules.specs.Bytes.{bytes, laid};
ghost use Rattle.rules.specs.Masks.{named};
ghost use Rattle.rules.specs.Catalogue.{size_of};
ghost use Rattle.rules.specs.Commands.{cut};
ghost use Rattle.class_tables.specs.Built.{class_for};
ghost use Rattle.attribute_write.specs.Lays.{laid_values, firsts, leading_class, Laying, LayingFirsts};
ghost use Rattle.class_tables.specs.declared.Product.{Product};

use attribute_tables::begins;
use class_tables::{Product, Way, classes, sizes};

// Writes values, one after another in v, of the attributes that a mask names: the instance's contents begin at a place.
pub fn lay_values(b: &mut [u8], at: usize, product: Product, class: u16, asked: u16, v: &[u8])
    requires { Laying (class_for product class) at (named asked) v.now b.old }
    ensures { b.new ≡ laid_values (class_for product class) at (cut (size_of (class_for product class)) (named asked) v.now) b.old }
{
    let sizes = sizes::sizes(product, class);
    let mut from = 0;
    for n in bits::named(asked) {
        let end = from + bits::digit(sizes, n);
        octets::copy_in(b, at + begins::begin_of(product, class, n), &v[from..end]);
        from = end;
    }
}

// Writes a number into so many bytes, the highest first.
fn put_bytes(b: &mut [u8], at: usize, size: usize, x: u16)
    requires { at + size ≤ length b.old }
    ensures { b.new ≡ laid at (bytes size x) b.old }
{
    let mut rest = x;
    for i in (0..size).rev() {
        b[at + i] = octets::low(rest);
        rest /= 256;
    }
}

// Writes the first content of one attribute.
fn lay_first(b: &mut [u8], at: usize, product: Product, class: u16, n: u16, from: &[u8])
    requires { LayingFirsts (class_for product class) (leading_class product class) at (n ∷ []) from.now b.old }
    ensures { b.new
        ≡ laid_values (class_for product class) at (firsts (class_for product class) (leading_class product class) from.now (n ∷ [])) b.old }
{
    let a = attribute_tables::attribute_of(product, class, n);
    let way = a.way;
    let place = at + a.at;
    match way {
        Way::First(x) => put_bytes(b, place, a.size, x),
        Way::Copied(m) => {
            let start = begins::begin_of(product, classes::leader_of(product, class), m);
            let end = start + a.size;
            octets::copy_in(b, place, &from[start..end]);
        }
        Way::Carried => {}
        Way::OfCreator(_) => {}
        Way::CountOf(_, _) => {}
    }
}

// Writes the first contents of the attributes that a mask names; `from` are the contents of the leading instance.
pub fn lay_firsts(b: &mut [u8], at: usize, product: Product, class: u16, asked: u16, from: &[u8])
    requires { LayingFirsts (class_for product class) (leading_class product class) at (named asked) from.now b.old }
    ensures { b.new
        ≡ laid_values (class_for product class) at (firsts (class_for product class) (leading_class product class) from.now (named asked)) b.old }
{
    for n in bits::named(asked) {
        lay_first(b, at, product, class, n, from);
    }
}
