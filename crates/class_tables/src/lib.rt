// What the engine knows of a class, as tables: the products' catalogues as code. Beside it `attribute_tables` has what is known of each attribute, and
// `class_tests`, `slot_tests` and `place_runs` test a whole store's contents; no other crate has a branch for a class or a product.
#![tactic(auto)]

pub mod built;
pub mod classes;
pub mod masks;
pub mod sizes;
pub mod slots;

#[derive(Clone, Copy, Debug, PartialEq, Eq)]
pub enum Product {
    Small,
    Large,
    Meter,
}

// A number that no built product has.
#[derive(Clone, Copy, Debug, PartialEq, Eq)]
pub struct NotBuilt;

// What contents of an attribute are legal.
#[derive(Clone, Copy, Debug, PartialEq, Eq)]
pub enum Rule {
    Any,
    // from the first to the second
    Range(u16, u16),
    // the first or the second
    Listed(u16, u16),
    // the number of an existing instance of this class
    Pointer(u16),
}

// Every attribute can be read; these are its further rights.
#[derive(Clone, Copy, Debug, PartialEq, Eq)]
pub enum Rights {
    R,
    W,
    C,
    Wc,
    L,
}

// Where an attribute's content comes from.
#[derive(Clone, Copy, Debug, PartialEq, Eq)]
pub enum Way {
    // stored, and this number at first
    First(u16),
    // stored, and carried by the Create
    Carried,
    // stored, and at first what the Create carried for this attribute
    Copied(u16),
    // read as this attribute of the created instance that its own came with
    OfCreator(u16),
    // read as the number of instances of a class that name its own in an attribute (class, attribute)
    CountOf(u16, u16),
}

#[derive(Clone, Copy, Debug, PartialEq, Eq)]
pub struct Attribute {
    pub size: usize,
    // where it stands in its instance's stored contents; 0 if it isn't stored
    pub at: usize,
    pub rights: Rights,
    // a report of it sends a notification
    pub avc: bool,
    pub way: Way,
    pub rule: Rule,
    // a pointer is judged only where this attribute of its instance is 1; none: always
    pub only_if: Option<u16>,
}

// An attribute that a Create carries behind the rest, that must be zero and isn't kept.
#[derive(Clone, Copy, Debug, PartialEq, Eq)]
pub struct Unkept {
    pub number: u16,
    pub size: usize,
}

// A content is legal, or not, or legal if this instance (class, number) is there.
#[derive(Clone, Copy, Debug, PartialEq, Eq)]
pub enum Verdict {
    Fine,
    Bad,
    Asks(u16, u16),
}

#[derive(Clone, Copy, Debug, PartialEq, Eq)]
pub struct Instance {
    pub class: u16,
    pub number: u16,
}
