// What is sent, in words: a reply, by the number of its message, or a notification.
use super::alarms::Alarms;
use super::masks::{Contents, Marked, Names};
use bench_names::names::{Instance, message, result};
use bench_names::reads::{byte_at, number_at, part};
use class_tables::Product;
use class_tables::masks::writable_mask;
use message_frame::commands::Command;
use std::fmt;

// The instance that a message is about.
pub(crate) fn instance_of(m: &[u8]) -> Instance {
    Instance {
        class: number_at(m, 4),
        number: number_at(m, 6),
    }
}

// How many sections a walk has.
fn write_count<W: fmt::Write>(f: &mut fmt::Formatter<W>, m: &[u8]) -> fmt::Result {
    match number_at(m, 8) {
        1 => f.write_str("1 section"),
        count => write!(f, "{count} sections"),
    }
}

// A Set's result, with the attributes that failed, and why: those in its second mask may not be written, or else have a content that isn't legal.
// What is writable is asked of Large: an attribute of another product is writable there exactly if it is here (`products/Rights.same_W_in_large`).
fn write_set<W: fmt::Write>(f: &mut fmt::Formatter<W>, m: &[u8]) -> fmt::Result {
    let class = number_at(m, 4);
    let failed = number_at(m, 11);
    let writable = writable_mask(Product::Large, class);
    let unsupported = marked("unsupported", class, number_at(m, 9));
    let fixed = marked("not writable", class, failed & !writable);
    let illegal = marked("content not legal", class, failed & writable);
    write!(f, "{}{unsupported}{fixed}{illegal}", result(byte_at(m, 8)))
}

fn marked(word: &'static str, class: u16, mask: u16) -> Marked {
    Marked {
        word,
        names: Names { class, mask },
    }
}

// A Create's result, with the attributes whose values are bad.
fn write_create<W: fmt::Write>(f: &mut fmt::Formatter<W>, m: &[u8]) -> fmt::Result {
    let bad = marked("bad values", number_at(m, 4), number_at(m, 9));
    write!(f, "{}{bad}", result(byte_at(m, 8)))
}

// A Get's result, with the attributes that it shows and what it names as unsupported.
fn write_get<W: fmt::Write>(f: &mut fmt::Formatter<W>, m: &[u8]) -> fmt::Result {
    let class = number_at(m, 4);
    let shown = contents(class, number_at(m, 9), part(m, 11, 36));
    let unsupported = marked("unsupported", class, number_at(m, 36));
    write!(f, "{}{shown}{unsupported}", result(byte_at(m, 8)))
}

fn contents(class: u16, mask: u16, values: &[u8]) -> Contents<'_> {
    Contents {
        names: Names { class, mask },
        values,
    }
}

// The instance of a section; none where the walk has no such section.
fn section_of(m: &[u8]) -> Option<Instance> {
    let class = number_at(m, 8);
    let number = number_at(m, 10);
    (class != 0).then_some(Instance { class, number })
}

// A section of an upload.
fn write_upload_section<W: fmt::Write>(f: &mut fmt::Formatter<W>, m: &[u8]) -> fmt::Result {
    match section_of(m) {
        None => f.write_str("no such section"),
        Some(instance) => {
            let shown = contents(instance.class, number_at(m, 12), part(m, 14, 40));
            write!(f, "{instance}{shown}")
        }
    }
}

// A section of an alarm walk.
fn write_alarm_section<W: fmt::Write>(f: &mut fmt::Formatter<W>, m: &[u8]) -> fmt::Result {
    match section_of(m) {
        None => f.write_str("no such section"),
        Some(instance) => {
            let alarms = Alarms {
                class: instance.class,
                bitmap: part(m, 12, 40),
            };
            write!(f, "{instance}, {alarms}")
        }
    }
}

// What a reply holds, by the number of its message.
fn write_held<W: fmt::Write>(f: &mut fmt::Formatter<W>, m: &[u8]) -> fmt::Result {
    match Command::try_from(byte_at(m, 2) % 32) {
        Ok(Command::Create) => write_create(f, m),
        Ok(Command::Set) => write_set(f, m),
        Ok(Command::Get) => write_get(f, m),
        Ok(Command::AllAlarms | Command::Upload) => write_count(f, m),
        Ok(Command::AlarmsNext) => write_alarm_section(f, m),
        Ok(Command::UploadNext) => write_upload_section(f, m),
        _ => write!(f, "{}", result(byte_at(m, 8))),
    }
}

// A reply: its name, its instance and what it holds.
fn write_reply<W: fmt::Write>(f: &mut fmt::Formatter<W>, m: &[u8]) -> fmt::Result {
    let name = message(byte_at(m, 2) % 32);
    let instance = instance_of(m);
    write!(f, "{name} reply, {instance}: ")?;
    write_held(f, m)
}

// An alarm notification: its instance, its number and the alarms that are on.
fn write_alarm_notification<W: fmt::Write>(f: &mut fmt::Formatter<W>, m: &[u8]) -> fmt::Result {
    let instance = instance_of(m);
    let number = byte_at(m, 39);
    let alarms = Alarms {
        class: instance.class,
        bitmap: part(m, 8, 36),
    };
    write!(f, "Alarm, {instance}, number {number}: {alarms}")
}

// A notification that an attribute's value changed.
fn write_change<W: fmt::Write>(f: &mut fmt::Formatter<W>, m: &[u8]) -> fmt::Result {
    let instance = instance_of(m);
    let shown = contents(instance.class, number_at(m, 8), part(m, 10, 40));
    write!(f, "Attribute value change, {instance}{shown}")
}

// A message that the engine sends.
#[derive(Clone, Copy)]
pub struct Sent<'a>(pub &'a [u8]);

impl fmt::Display for Sent<'_> {
    fn fmt<W: fmt::Write>(&self, f: &mut fmt::Formatter<W>) -> fmt::Result {
        match byte_at(self.0, 2) {
            0x10 => write_alarm_notification(f, self.0),
            0x11 => write_change(f, self.0),
            _ => write_reply(f, self.0),
        }
    }
}
