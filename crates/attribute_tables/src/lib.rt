// The attributes of each class, a line each, in the order of document 01, and whether a content is legal by its line; and of each attribute alone where
// its content begins, how it is read, its rule, and what a pointer is judged by.
#![tactic(auto)]

pub mod begins;
pub mod content_rules;
pub mod judge;
pub mod readings;

ghost use Rattle.std.specs.Prelude.{◌≡◌};
ghost use Rattle.class_tables.specs.Meaning.{line, kept_line, carried_line, absent_line, with_avc, judged_if};
ghost use Rattle.class_tables.specs.Lines.{ont_data_lines, uni_lines, large_uni_lines, meter_uni_lines, profile_lines, bridge_lines, large_bridge_lines, port_lines};
ghost use Rattle.class_tables.specs.Lines.{large_port_lines, small_lines, large_lines, meter_lines, lines_in, line_in};
ghost use Rattle.class_tables.specs.Describes.{Describes};

use class_tables::{Attribute, Product, Rights, Rule, Way};

// A line: no report of it sends a notification, and its content is always judged.
fn one(size: usize, at: usize, rights: Rights, way: Way, rule: Rule) -> Attribute
    ensures { result ≡ line size at rights way rule }
{
    Attribute {
        size,
        at,
        rights,
        avc: false,
        way,
        rule,
        only_if: None,
    }
}

// A line that is stored, and `first` at first.
fn kept(size: usize, at: usize, rights: Rights, first: u16, rule: Rule) -> Attribute
    ensures { result ≡ kept_line size at rights first rule }
{
    one(size, at, rights, Way::First(first), rule)
}

// A line that is stored, and that the Create carries.
fn carried(size: usize, at: usize, rights: Rights, rule: Rule) -> Attribute
    ensures { result ≡ carried_line size at rights rule }
{
    one(size, at, rights, Way::Carried, rule)
}

// What stands for an attribute that there isn't.
fn absent() -> Attribute
    ensures { result ≡ absent_line }
{
    kept(0, 0, Rights::R, 0, Rule::Any)
}

// Each report of it sends a notification.
fn notified(a: Attribute) -> Attribute
    ensures { result ≡ with_avc a }
{
    Attribute { avc: true, ..a }
}

// Its pointer is judged only where attribute `number` is 1.
fn judged_if(number: u16, a: Attribute) -> Attribute
    ensures { result ≡ judged_if number a }
{
    Attribute {
        only_if: Some(number),
        ..a
    }
}

// 2 ONT data
fn ont_data(number: u16) -> Attribute
    ensures { result ≡ line_in ont_data_lines number }
{
    match number {
        // sync counter
        1 => kept(1, 0, Rights::W, 0, Rule::Any),
        _ => absent(),
    }
}

// 11 Ethernet UNI
fn uni(number: u16) -> Attribute
    ensures { result ≡ line_in uni_lines number }
{
    match number {
        // expected type, sensed type, auto detection, loopback, admin state, operational state
        1 => kept(1, 0, Rights::W, 0, Rule::Any),
        2 => notified(kept(1, 1, Rights::L, 0, Rule::Any)),
        3 => kept(1, 2, Rights::W, 0, Rule::Any),
        4 => kept(1, 3, Rights::W, 0, Rule::Listed(0, 3)),
        5 => kept(1, 4, Rights::W, 0, Rule::Range(0, 1)),
        6 => notified(kept(1, 5, Rights::L, 0, Rule::Range(0, 1))),
        _ => absent(),
    }
}

// 11 Ethernet UNI, with what Large has beside it
fn large_uni(number: u16) -> Attribute
    ensures { result ≡ line_in large_uni_lines number }
{
    match number {
        // configuration, max frame, DTE/DCE, pause, bridged or IP, ARC, ARC interval
        7 => kept(1, 6, Rights::L, 0, Rule::Any),
        8 => kept(2, 7, Rights::W, 1518, Rule::Any),
        9 => kept(1, 9, Rights::W, 0, Rule::Range(0, 2)),
        10 => kept(2, 10, Rights::W, 0, Rule::Any),
        11 => kept(1, 12, Rights::W, 2, Rule::Range(0, 2)),
        12 => kept(1, 13, Rights::W, 0, Rule::Range(0, 1)),
        13 => kept(1, 14, Rights::W, 0, Rule::Any),
        _ => uni(number),
    }
}

// 11 Ethernet UNI, as far as Meter has it
fn meter_uni(number: u16) -> Attribute
    ensures { result ≡ line_in meter_uni_lines number }
{
    match number {
        // expected type, sensed type, admin state, operational state
        1 => kept(1, 0, Rights::W, 0, Rule::Any),
        2 => notified(kept(1, 1, Rights::L, 0, Rule::Any)),
        5 => kept(1, 2, Rights::W, 0, Rule::Range(0, 1)),
        6 => notified(kept(1, 3, Rights::L, 0, Rule::Range(0, 1))),
        _ => absent(),
    }
}

// 45 bridge service profile
fn profile(number: u16) -> Attribute
    ensures { result ≡ line_in profile_lines number }
{
    match number {
        // spanning tree, learning, ATM port bridging, Priority, MaxAge, HelloTime, ForwardDelay
        1 => carried(1, 0, Rights::Wc, Rule::Range(0, 1)),
        2 => carried(1, 1, Rights::Wc, Rule::Range(0, 1)),
        3 => carried(1, 2, Rights::Wc, Rule::Range(0, 1)),
        4 => carried(2, 3, Rights::Wc, Rule::Any),
        5 => carried(2, 5, Rights::Wc, Rule::Range(0x0600, 0x2800)),
        6 => carried(2, 7, Rights::Wc, Rule::Range(0x0100, 0x0A00)),
        7 => carried(2, 9, Rights::Wc, Rule::Range(0x0400, 0x1E00)),
        _ => absent(),
    }
}

// 46 bridge configuration
fn bridge(number: u16) -> Attribute
    ensures { result ≡ line_in bridge_lines number }
{
    match number {
        // MAC, BridgePriority, DesignatedRoot, RootPathCost, BridgePortCount, RootPortNum
        1 => kept(6, 0, Rights::L, 0, Rule::Any),
        2 => one(2, 0, Rights::R, Way::OfCreator(4), Rule::Any),
        3 => kept(8, 6, Rights::L, 0, Rule::Any),
        4 => kept(4, 14, Rights::L, 0, Rule::Any),
        5 => one(1, 0, Rights::R, Way::CountOf(47, 1), Rule::Any),
        6 => kept(2, 18, Rights::L, 0, Rule::Any),
        _ => absent(),
    }
}

// 46 bridge configuration, with what Large has beside it
fn large_bridge(number: u16) -> Attribute
    ensures { result ≡ line_in large_bridge_lines number }
{
    match number {
        // HelloTime, ForwardDelay
        7 => one(2, 20, Rights::L, Way::Copied(6), Rule::Any),
        8 => one(2, 22, Rights::L, Way::Copied(7), Rule::Any),
        _ => bridge(number),
    }
}

// 47 port configuration
fn port(number: u16) -> Attribute
    ensures { result ≡ line_in port_lines number }
{
    match number {
        // BridgeIdPointer, PortNum, TPType, TPPointer, PortPriority, PortPathCost, spanning tree, encapsulation
        1 => carried(2, 0, Rights::C, Rule::Pointer(45)),
        2 => carried(1, 2, Rights::C, Rule::Any),
        3 => carried(1, 3, Rights::C, Rule::Listed(1, 2)),
        4 => judged_if(3, carried(2, 4, Rights::C, Rule::Pointer(11))),
        5 => carried(2, 6, Rights::Wc, Rule::Range(0, 255)),
        6 => carried(2, 8, Rights::Wc, Rule::Range(1, 65535)),
        7 => carried(1, 10, Rights::Wc, Rule::Range(0, 1)),
        8 => carried(1, 11, Rights::Wc, Rule::Range(0, 1)),
        _ => absent(),
    }
}

// 47 port configuration, with what Large has beside it
fn large_port(number: u16) -> Attribute
    ensures { result ≡ line_in large_port_lines number }
{
    match number {
        // LANFCSInd
        9 => carried(1, 12, Rights::Wc, Rule::Range(0, 1)),
        _ => port(number),
    }
}

// The classes of Small.
fn small(class: u16, number: u16) -> Attribute
    ensures { result ≡ line_in (lines_in small_lines class) number }
{
    match class {
        2 => ont_data(number),
        11 => uni(number),
        45 => profile(number),
        46 => bridge(number),
        47 => port(number),
        _ => absent(),
    }
}

// The classes of Large.
fn large(class: u16, number: u16) -> Attribute
    ensures { result ≡ line_in (lines_in large_lines class) number }
{
    match class {
        2 => ont_data(number),
        11 => large_uni(number),
        45 => profile(number),
        46 => large_bridge(number),
        47 => large_port(number),
        _ => absent(),
    }
}

// The classes of Meter.
fn meter(class: u16, number: u16) -> Attribute
    ensures { result ≡ line_in (lines_in meter_lines class) number }
{
    match class {
        2 => ont_data(number),
        11 => meter_uni(number),
        _ => absent(),
    }
}

// An attribute of a class; a line of size 0 for what the product doesn't have.
pub fn attribute_of(product: Product, class: u16, number: u16) -> Attribute
    ensures { Describes product class number result }
{
    match product {
        Product::Small => small(class, number),
        Product::Large => large(class, number),
        Product::Meter => meter(class, number),
    }
}
