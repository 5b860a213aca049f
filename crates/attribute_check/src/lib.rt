#![tactic(auto)]
// Is a content legal, and which of several aren't?
ghost use Rattle.std.specs.Prelude.{◌≡◌, ◌+◌, ◌≤◌, ℕ, Some, length};
ghost use Rattle.rules.specs.Bytes.{number};
ghost use Rattle.rules.specs.Masks.{named, mask, total};
ghost use Rattle.rules.specs.Catalogue.{size_of};
ghost use Rattle.store.specs.Layout.{contents_width};
ghost use Rattle.class_tables.specs.Built.{cat_of, class_for};
ghost use Rattle.class_tables.specs.Describes.{Looked};
ghost use Rattle.table.specs.Places.{InShape};
ghost use Rattle.attribute_check.specs.Judges.{is_in, value_of, fixed_at, legal_at, legal_by, bad_among, looked_at, is_met, Judgeable};
ghost use Rattle.class_tables.specs.declared.Product.{Product};

use attribute_tables::{begins, content_rules, judge};
use class_tables::{Attribute, Product, Rule, Verdict, masks, sizes};
use table::instances;

// The number in a content of one or two bytes; 0 for wider ones, which aren't judged.
fn value_in(v: &[u8]) -> u16
    ensures { result ≡ value_of v.now }
{
    if v.len() == 1 {
        return u16::from(v[0]);
    }
    if v.len() == 2 {
        return octets::number_at(v, 0);
    }
    0
}

// The number in an attribute of one byte that rules may look at.
fn looked(product: Product, class: u16, n: u16, own: &[u8], at: usize) -> u16
    requires { Looked (class_for product class) n × (at + contents_width (class_for product class) ≤ length own.now) }
    ensures { result ≡ number (fixed_at (class_for product class) own.now at n) }
{
    u16::from(own[at + begins::begin_of(product, class, n)])
}

// The number in the attribute of the same instance that a pointer is judged by. Where it is by none, `judge` asks the line and reads no number.
fn condition_of(a: Attribute, product: Product, class: u16, own: &[u8], at: usize) -> u16
    requires { Judgeable (class_for product class) a × (at + contents_width (class_for product class) ≤ length own.now) }
    ensures { result ≡ looked_at a.rule a.only_if (fixed_at (class_for product class) own.now at) }
{
    match (a.rule, a.only_if) {
        (Rule::Pointer(_), Some(n)) => looked(product, class, n, own, at),
        _ => 0,
    }
}

// Is `v` a legal content of the attribute of this line, of an instance whose contents begin at `at` in `own`? For a report, which has the line at hand.
pub fn is_legal(
    live: &[u8],
    product: Product,
    class: u16,
    a: Attribute,
    v: &[u8],
    own: &[u8],
    at: usize,
) -> bool
    requires { InShape live.now × Judgeable (class_for product class) a × (length v.now ≡ a.size)
        × (at + contents_width (class_for product class) ≤ length own.now) }
    ensures { result ≡ legal_by (is_in (cat_of product) live.now) (class_for product class) own.now at a v.now }
{
    let condition = condition_of(a, product, class, own, at);
    let verdict = judge::judge(a, value_in(v), condition);
    match verdict {
        Verdict::Fine => true,
        Verdict::Bad => false,
        Verdict::Asks(c, i) => instances::is_there(live, product, c, i),
    }
}

// Is a pointer of this instance judged? Always if `only_if` names no attribute; else only if that attribute's content is 1.
fn condition_met(product: Product, class: u16, only_if: Option<u16>, own: &[u8], at: usize) -> bool
    requires { ((n : ℕ) → only_if ≡ Some n → Looked (class_for product class) n) × (at + contents_width (class_for product class) ≤ length own.now) }
    ensures { result ≡ is_met only_if (fixed_at (class_for product class) own.now at) }
{
    match only_if {
        Some(n) => looked(product, class, n, own, at) == 1,
        None => true,
    }
}

// Is `v` a legal content of attribute n of an instance whose contents begin at `at` in `own`? It asks the tables for the rule alone:
// one function for this and `is_legal` was tried, and takes 143 instructions and more in a Delete and a Create, as it isn't put into the loop (D103).
fn fits(live: &[u8], product: Product, class: u16, n: u16, v: &[u8], own: &[u8], at: usize) -> bool
    requires { InShape live.now × (1 ≤ n) × (n ≤ 16) × (length v.now ≡ size_of (class_for product class) n)
        × (at + contents_width (class_for product class) ≤ length own.now) }
    ensures { result ≡ legal_at (is_in (cat_of product) live.now) (class_for product class) own.now at n v.now }
{
    // of an attribute that there isn't, nothing is judged
    if bits::common(bits::bit_of(n), masks::supported_mask(product, class)) == 0 {
        return true;
    }
    let value = value_in(v);
    let rule = content_rules::rule_of(product, class, n);
    match rule {
        Rule::Any => true,
        Rule::Range(low, high) => (low <= value) & (value <= high),
        Rule::Listed(one, other) => (value == one) | (value == other),
        Rule::Pointer(c) => {
            let only_if = content_rules::only_if_of(product, class, n);
            if !condition_met(product, class, only_if, own, at) {
                return true;
            }
            instances::is_there(live, product, c, value)
        }
    }
}

// The mask of those attributes whose content, cut off `v` one after another, isn't legal.
pub fn bad_mask(
    live: &[u8],
    product: Product,
    class: u16,
    asked: u16,
    v: &[u8],
    own: &[u8],
    at: usize,
) -> u16
    requires { InShape live.now × (total (size_of (class_for product class)) (named asked) ≤ length v.now)
        × (at + contents_width (class_for product class) ≤ length own.now) }
    ensures { result ≡ mask (bad_among (is_in (cat_of product) live.now) (class_for product class) own.now at (named asked) v.now) }
{
    let sizes = sizes::sizes(product, class);
    let mut from = 0;
    let mut bad = 0;
    for n in bits::named(asked) {
        let to = from + bits::digit(sizes, n);
        let bit = bits::bit_of(n);
        if !fits(live, product, class, n, &v[from..to], own, at) {
            bad += bit;
        }
        from = to;
    }
    bad
}
