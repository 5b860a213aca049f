// What numbers are called in document 01. A number without a name is told as a number.
ghost use Rattle.std.specs.Prelude.{◌≡◌, Some, codes};
ghost use Rattle.std.specs.Option.{option_map};
ghost use Rattle.text_buffer.specs.Tables.{nth_name};
ghost use Rattle.bench_names.specs.Naming.{message_names, result_names, drop_reasons, class_name, instance_name, attribute_names};
ghost use Rattle.bench_names.specs.Told.{named, called, call_of, alarm_name, drop_text};

use std::fmt;
use text_buffer::text::HexNumber;

// What a number is called: its name, or where it has none a word and the number.
#[derive(Clone, Copy)]
pub struct Called {
    name: Option<&'static str>,
    word: &'static str,
    number: u8,
}

impl fmt::Display for Called {
    ghost output = { λ call. Some (call_of call) };

    fn fmt<W: fmt::Write>(&self, f: &mut fmt::Formatter<W>) -> fmt::Result {
        match self.name {
            Some(name) => f.write_str(name),
            None => write!(f, "{} {}", self.word, self.number),
        }
    }
}

// The name of a message: 4 to 15 are commands and their replies.
#[tactic(auto, using(crate::proofs::Tables::no_message), unfolding(crate::specs::Naming::message_names, text_buffer::specs::Tables::behind, text_buffer::specs::Tables::first_name))]
fn message_name(number: u8) -> Option<&'static str>
    ensures { option_map (λ name. name.now) result ≡ named (nth_name number message_names) }
{
    match number {
        4 => Some("Create"),
        6 => Some("Delete"),
        8 => Some("Set"),
        9 => Some("Get"),
        11 => Some("Get all alarms"),
        12 => Some("Get all alarms next"),
        13 => Some("MIB upload"),
        14 => Some("MIB upload next"),
        15 => Some("MIB reset"),
        _ => None,
    }
}

// A message by its number.
pub fn message(number: u8) -> Called
    ensures { call_of result ≡ called (named (nth_name number message_names)) (codes "message") number }
{
    Called {
        name: message_name(number),
        word: "message",
        number,
    }
}

// A class by its number.
#[derive(Clone, Copy)]
pub struct Class(pub u16);

impl fmt::Display for Class {
    ghost output = { λ class. Some (class_name class.0) };

    #[tactic(auto, using(crate::proofs::Tables::other_class), unfolding(crate::specs::Naming::class_name))]
    fn fmt<W: fmt::Write>(&self, f: &mut fmt::Formatter<W>) -> fmt::Result {
        match self.0 {
            2 => f.write_str("ONT data"),
            11 => f.write_str("Ethernet UNI"),
            45 => f.write_str("Bridge service profile"),
            46 => f.write_str("Bridge configuration"),
            47 => f.write_str("Port configuration"),
            class => write!(f, "unknown class {}", HexNumber(class)),
        }
    }
}

// An instance: its class and its number.
#[derive(Clone, Copy)]
pub struct Instance {
    pub class: u16,
    pub number: u16,
}

impl fmt::Display for Instance {
    ghost output = { λ instance. Some (instance_name instance.class instance.number) };

    fn fmt<W: fmt::Write>(&self, f: &mut fmt::Formatter<W>) -> fmt::Result {
        write!(f, "{} {}", Class(self.class), HexNumber(self.number))
    }
}

// The name of an attribute of the ONT data.
#[tactic(auto, using(crate::proofs::Tables::no_data_attribute), unfolding(crate::specs::Naming::attribute_names, text_buffer::specs::Tables::behind, text_buffer::specs::Tables::first_name))]
fn data_attribute_name(number: u8) -> Option<&'static str>
    ensures { option_map (λ name. name.now) result ≡ named (nth_name number (attribute_names 2)) }
{
    match number {
        1 => Some("sync counter"),
        _ => None,
    }
}

// The name of an attribute of the UNI.
#[tactic(auto, using(crate::proofs::Tables::no_uni_attribute), unfolding(crate::specs::Naming::attribute_names, text_buffer::specs::Tables::behind, text_buffer::specs::Tables::first_name))]
fn uni_attribute_name(number: u8) -> Option<&'static str>
    ensures { option_map (λ name. name.now) result ≡ named (nth_name number (attribute_names 11)) }
{
    match number {
        1 => Some("expected type"),
        2 => Some("sensed type"),
        3 => Some("auto detection"),
        4 => Some("loopback"),
        5 => Some("admin state"),
        6 => Some("operational state"),
        7 => Some("configuration"),
        8 => Some("max frame"),
        9 => Some("DTE/DCE"),
        10 => Some("pause"),
        11 => Some("bridged or IP"),
        12 => Some("ARC"),
        13 => Some("ARC interval"),
        _ => None,
    }
}

// The name of an attribute of a bridge service profile.
#[tactic(auto, using(crate::proofs::Tables::no_profile_attribute), unfolding(crate::specs::Naming::attribute_names, text_buffer::specs::Tables::behind, text_buffer::specs::Tables::first_name))]
fn profile_attribute_name(number: u8) -> Option<&'static str>
    ensures { option_map (λ name. name.now) result ≡ named (nth_name number (attribute_names 45)) }
{
    match number {
        1 => Some("spanning tree"),
        2 => Some("learning"),
        3 => Some("ATM port bridging"),
        4 => Some("Priority"),
        5 => Some("MaxAge"),
        6 => Some("HelloTime"),
        7 => Some("ForwardDelay"),
        _ => None,
    }
}

// The name of an attribute of a bridge configuration.
#[tactic(auto, using(crate::proofs::Tables::no_bridge_attribute), unfolding(crate::specs::Naming::attribute_names, text_buffer::specs::Tables::behind, text_buffer::specs::Tables::first_name))]
fn bridge_attribute_name(number: u8) -> Option<&'static str>
    ensures { option_map (λ name. name.now) result ≡ named (nth_name number (attribute_names 46)) }
{
    match number {
        1 => Some("MAC"),
        2 => Some("BridgePriority"),
        3 => Some("DesignatedRoot"),
        4 => Some("RootPathCost"),
        5 => Some("BridgePortCount"),
        6 => Some("RootPortNum"),
        7 => Some("HelloTime"),
        8 => Some("ForwardDelay"),
        _ => None,
    }
}

// The name of an attribute of a port configuration.
#[tactic(auto, using(crate::proofs::Tables::no_port_attribute), unfolding(crate::specs::Naming::attribute_names, text_buffer::specs::Tables::behind, text_buffer::specs::Tables::first_name))]
fn port_attribute_name(number: u8) -> Option<&'static str>
    ensures { option_map (λ name. name.now) result ≡ named (nth_name number (attribute_names 47)) }
{
    match number {
        1 => Some("BridgeIdPointer"),
        2 => Some("PortNum"),
        3 => Some("TPType"),
        4 => Some("TPPointer"),
        5 => Some("PortPriority"),
        6 => Some("PortPathCost"),
        7 => Some("spanning tree"),
        8 => Some("encapsulation"),
        9 => Some("LANFCSInd"),
        _ => None,
    }
}

// The name of an attribute of a class, counted from 1.
#[tactic(auto, using(crate::proofs::Tables::no_class))]
fn attribute_name(class: u16, number: u8) -> Option<&'static str>
    ensures { option_map (λ name. name.now) result ≡ named (nth_name number (attribute_names class)) }
{
    match class {
        2 => data_attribute_name(number),
        11 => uni_attribute_name(number),
        45 => profile_attribute_name(number),
        46 => bridge_attribute_name(number),
        47 => port_attribute_name(number),
        _ => None,
    }
}

// An attribute of a class by its number.
pub fn attribute(class: u16, number: u8) -> Called
    ensures { call_of result ≡ called (named (nth_name number (attribute_names class))) (codes "attribute") number }
{
    Called {
        name: attribute_name(class, number),
        word: "attribute",
        number,
    }
}

// An alarm of a class by its number.
pub fn alarm(class: u16, number: u8) -> Called
    ensures { call_of result ≡ called (alarm_name class number) (codes "alarm") number }
{
    Called {
        name: (class == 11 && number == 0).then_some("LAN loss of signal"),
        word: "alarm",
        number,
    }
}

// The name of a result.
#[tactic(auto, using(crate::proofs::Tables::no_result), unfolding(crate::specs::Naming::result_names, text_buffer::specs::Tables::behind, text_buffer::specs::Tables::first_name))]
fn result_name(number: u8) -> Option<&'static str>
    ensures { option_map (λ name. name.now) result ≡ named (nth_name number result_names) }
{
    match number {
        0 => Some("done"),
        1 => Some("no place"),
        2 => Some("command not supported"),
        3 => Some("bad parameter"),
        4 => Some("unknown class"),
        5 => Some("unknown instance"),
        7 => Some("instance exists"),
        9 => Some("attribute failed"),
        _ => None,
    }
}

// A result by its number.
pub fn result(number: u8) -> Called
    ensures { call_of result ≡ called (named (nth_name number result_names)) (codes "result") number }
{
    Called {
        name: result_name(number),
        word: "result",
        number,
    }
}

// Why a call was dropped, by the drop's number.
#[tactic(auto, using(crate::proofs::Tables::no_reason), unfolding(crate::specs::Naming::drop_reasons, text_buffer::specs::Tables::behind, text_buffer::specs::Tables::first_name))]
fn drop_reason(number: u8) -> &'static str
    ensures { result.now ≡ nth_name number drop_reasons }
{
    match number {
        1 => "reply buffer under 48 bytes",
        2 => "store unsound: power on first",
        3 => "message not 48 bytes",
        4 => "device not 0x0A",
        5 => "top three type bits not 0, 1, 0",
        6 => "correlation id 0",
        7 => "bytes 40-43 wrong",
        11 => "no such instance",
        12 => "attribute not L here, or alarm not declared",
        13 => "content of wrong length or not legal",
        _ => "",
    }
}

// A drop by its number, and why.
#[derive(Clone, Copy)]
pub struct Dropped(pub u8);

impl fmt::Display for Dropped {
    ghost output = { λ drop. Some (drop_text drop.0) };

    fn fmt<W: fmt::Write>(&self, f: &mut fmt::Formatter<W>) -> fmt::Result {
        write!(f, "dropped {}: {}", self.0, drop_reason(self.0))
    }
}
