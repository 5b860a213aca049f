// What is asked for, in words: a command, or a message that is none; a report; an alarm.
use super::masks::{Contents, Names};
use super::replies::instance_of;
use bench_names::names::{Instance, alarm, attribute, message};
use bench_names::reads::{byte_at, number_at, part};
use class_tables::Product;
use class_tables::masks::carried_mask;
use message_frame::commands::Command;
use std::fmt;
use text_buffer::text::{HexNumber, Hexes};

// The names that a Get asks for.
fn write_wanted<W: fmt::Write>(f: &mut fmt::Formatter<W>, names: Names) -> fmt::Result {
    if names.mask == 0 {
        return f.write_str(": no attribute");
    }
    write!(f, ": {names}")
}

// A command's attributes and their contents.
fn write_contents<W: fmt::Write>(
    f: &mut fmt::Formatter<W>,
    class: u16,
    mask: u16,
    values: &[u8],
) -> fmt::Result {
    let names = Names { class, mask };
    write!(f, "{}", Contents { names, values })
}

// What a command carries, by its number.
fn write_carried<W: fmt::Write>(f: &mut fmt::Formatter<W>, m: &[u8]) -> fmt::Result {
    let class = number_at(m, 4);
    let head = number_at(m, 8);
    match Command::try_from(byte_at(m, 2) % 32) {
        // Large carries all that Small does
        Ok(Command::Create) => {
            let carried = carried_mask(Product::Large, class);
            write_contents(f, class, carried, part(m, 8, 40))
        }
        Ok(Command::Set) => write_contents(f, class, head, part(m, 10, 40)),
        Ok(Command::Get) => write_wanted(f, Names { class, mask: head }),
        Ok(Command::AlarmsNext | Command::UploadNext) => write!(f, ", section {head}"),
        _ => Ok(()),
    }
}

// A command: its name, its instance, its id and what it carries.
fn write_command<W: fmt::Write>(f: &mut fmt::Formatter<W>, m: &[u8]) -> fmt::Result {
    let name = message(byte_at(m, 2) % 32);
    let instance = instance_of(m);
    let id = HexNumber(number_at(m, 0));
    write!(f, "{name}, {instance}, id {id}")?;
    write_carried(f, m)
}

// A message as it is handed to the engine.
#[derive(Clone, Copy)]
pub struct Message<'a>(pub &'a [u8]);

impl fmt::Display for Message<'_> {
    fn fmt<W: fmt::Write>(&self, f: &mut fmt::Formatter<W>) -> fmt::Result {
        let m = self.0;
        let kind = byte_at(m, 2);
        if m.len() != 48 {
            return write!(f, "message of length {}", m.len());
        }
        if kind / 32 != 2 {
            return write!(f, "message of type 0x{kind:02X}");
        }
        write_command(f, m)
    }
}

// A report's content; of a long one only how long it is.
fn write_given<W: fmt::Write>(f: &mut fmt::Formatter<W>, content: &[u8]) -> fmt::Result {
    match content.len() {
        0 => f.write_str("nothing"),
        1..=32 => write!(f, "{}", Hexes(content)),
        length => write!(f, "{length} bytes"),
    }
}

// A local report of an attribute.
#[derive(Clone, Copy)]
pub struct Report<'a> {
    pub instance: Instance,
    pub attribute: u8,
    pub content: &'a [u8],
}

impl fmt::Display for Report<'_> {
    fn fmt<W: fmt::Write>(&self, f: &mut fmt::Formatter<W>) -> fmt::Result {
        let name = attribute(self.instance.class, self.attribute);
        write!(f, "report, {}, {name} = ", self.instance)?;
        write_given(f, self.content)
    }
}

// A local report of an alarm.
#[derive(Clone, Copy)]
pub struct Raised {
    pub instance: Instance,
    pub alarm: u8,
    pub on: bool,
}

impl fmt::Display for Raised {
    fn fmt<W: fmt::Write>(&self, f: &mut fmt::Formatter<W>) -> fmt::Result {
        let name = alarm(self.instance.class, self.alarm);
        let state = if self.on { "on" } else { "off" };
        write!(f, "alarm, {}, {name} {state}", self.instance)
    }
}
