// The rule of an attribute's contents, and what a pointer is judged by: what `attribute_of` says of them too, asked alone, since to make the whole line for
// one thing of it takes 55 instructions more an attribute (docs/SPEED.md, "Looking things up").
// The product isn't asked: where a product has an attribute, its rule is the one that Large has.
ghost use Rattle.std.specs.Prelude.{◌≡◌, true};
ghost use Rattle.rules.specs.Catalogue.{supported};
ghost use Rattle.class_tables.specs.Built.{class_for};
ghost use Rattle.class_tables.specs.Lines.{large_uni_lines, profile_lines, large_port_lines, line_in, line_for};

use class_tables::{Product, Rule};

// 11 Ethernet UNI
fn uni_rule(n: u16) -> Rule
    ensures { result ≡ (line_in large_uni_lines n).rule }
{
    match n {
        // loopback, admin state, operational state, DTE/DCE, bridged or IP, ARC
        4 => Rule::Listed(0, 3),
        5 => Rule::Range(0, 1),
        6 => Rule::Range(0, 1),
        9 => Rule::Range(0, 2),
        11 => Rule::Range(0, 2),
        12 => Rule::Range(0, 1),
        _ => Rule::Any,
    }
}

// 45 bridge service profile
fn profile_rule(n: u16) -> Rule
    ensures { result ≡ (line_in profile_lines n).rule }
{
    match n {
        // spanning tree, learning, ATM port bridging, MaxAge, HelloTime, ForwardDelay
        1 => Rule::Range(0, 1),
        2 => Rule::Range(0, 1),
        3 => Rule::Range(0, 1),
        5 => Rule::Range(0x0600, 0x2800),
        6 => Rule::Range(0x0100, 0x0A00),
        7 => Rule::Range(0x0400, 0x1E00),
        _ => Rule::Any,
    }
}

// 47 port configuration
fn port_rule(n: u16) -> Rule
    ensures { result ≡ (line_in large_port_lines n).rule }
{
    match n {
        // BridgeIdPointer, TPType, TPPointer, PortPriority, PortPathCost, spanning tree, encapsulation, LANFCSInd
        1 => Rule::Pointer(45),
        3 => Rule::Listed(1, 2),
        4 => Rule::Pointer(11),
        5 => Rule::Range(0, 255),
        6 => Rule::Range(1, 65535),
        7 => Rule::Range(0, 1),
        8 => Rule::Range(0, 1),
        9 => Rule::Range(0, 1),
        _ => Rule::Any,
    }
}

// The rule for an attribute's contents.
pub fn rule_of(product: Product, class: u16, n: u16) -> Rule
    requires { supported (class_for product class) n ≡ true }
    ensures { result ≡ (line_for product class n).rule }
{
    match class {
        11 => uni_rule(n),
        45 => profile_rule(n),
        47 => port_rule(n),
        _ => Rule::Any,
    }
}

// By which attribute of its instance a pointer is judged, if by one: only where that one's content is 1.
pub fn only_if_of(product: Product, class: u16, n: u16) -> Option<u16>
    requires { supported (class_for product class) n ≡ true }
    ensures { result ≡ (line_for product class n).only_if }
{
    match class {
        47 => match n {
            // TPPointer, by TPType
            4 => Some(3),
            _ => None,
        },
        _ => None,
    }
}
