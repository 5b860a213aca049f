// One line of a bench script, read: what it asks for, or where and why it can't be read.
#![tactic(auto)]

ghost use Rattle.std.specs.Prelude.{◌≡◌, ◌<◌, ◌≤◌, length};
ghost use Rattle.script_values.specs.HexBytes.{Gives};
ghost use Rattle.bench_script.specs.Lines as lines;

use script_values::{Rest, Three, Why, Word, Wrong, digit};

// What a line asks for.
#[derive(Clone, Copy, Debug, PartialEq, Eq)]
pub enum Asked {
    // 1 for the small product, 2 for the large one, 3 for the meter: the number that the entry `power_on` takes,
    // since this crate stands below `class_tables`, which has the products as an enum
    Power(u8),
    // so many bytes, the first ones of the lent buffer
    Message(usize),
    // contents of so many bytes, the first ones of the lent buffer
    Report {
        class: u16,
        number: u16,
        attribute: u8,
        length: usize,
    },
    Alarm {
        class: u16,
        number: u16,
        alarm: u8,
        on: bool,
    },
    Upload,
    Alarms,
}

// The first word of a line.
#[derive(Clone, Copy, Debug, PartialEq, Eq)]
pub enum Call {
    Power,
    Report,
    Alarm,
    Upload,
    Alarms,
    Other,
}

// What was asked for, if nothing follows.
#[tactic(auto, unfolding(crate::specs::Lines::if_last))]
fn if_last(asked: Asked, rest: Rest) -> Result<Asked, Wrong>
    ensures { result ≡ lines.if_last asked rest.entry.text.now rest.entry.at }
{
    let place = rest.blanks_end();
    if place < rest.text.len() {
        return Err(Wrong {
            place,
            why: Why::TooMuch,
        });
    }
    Ok(asked)
}

// The number of the product that a word names.
#[tactic(auto, unfolding(crate::specs::Lines::product_named))]
fn product_named(word: &[u8]) -> Option<u8>
    ensures { result ≡ lines.product_named word.now }
{
    match word {
        b"small" => Some(1),
        b"large" => Some(2),
        b"meter" => Some(3),
        _ => None,
    }
}

// power small|large|meter
fn power(rest: Rest) -> Result<Asked, Wrong>
    ensures { result ≡ lines.power rest.entry.text.now rest.entry.at }
{
    let word = rest.next_word()?;
    let product = product_named(&rest.text[word.from..word.to]).ok_or(Wrong {
        place: word.from,
        why: Why::NotAProduct,
    })?;
    if_last(Asked::Power(product), rest.behind(word.to))
}

// Does a word say that an alarm is on, or that it is off?
#[tactic(auto, unfolding(crate::specs::Lines::said_on))]
fn said_on(word: &[u8]) -> Option<bool>
    ensures { result ≡ lines.said_on word.now }
{
    match word {
        b"on" => Some(true),
        b"off" => Some(false),
        _ => None,
    }
}

// The end of an alarm's line.
fn on_or_off(rest: Rest, three: Three) -> Result<Asked, Wrong>
    ensures { result ≡ lines.on_or_off rest.entry.text.now three rest.entry.at }
{
    let word = rest.next_word()?;
    let on = said_on(&rest.text[word.from..word.to]).ok_or(Wrong {
        place: word.from,
        why: Why::NotOnOrOff,
    })?;
    let alarm = Asked::Alarm {
        class: three.class,
        number: three.number,
        alarm: three.third,
        on,
    };
    if_last(alarm, rest.behind(word.to))
}

// alarm CLASS INSTANCE NUMBER on|off
fn alarm(rest: Rest) -> Result<Asked, Wrong>
    ensures { result ≡ lines.alarm rest.entry.text.now rest.entry.at }
{
    let three = rest.three_numbers()?;
    on_or_off(rest.behind(three.next), three)
}

// report CLASS INSTANCE ATTRIBUTE BYTES
fn report(rest: Rest, bytes: &mut [u8]) -> Result<Asked, Wrong>
    ensures { Gives (lines.report (length bytes.old) rest.entry.text.now rest.entry.at) result bytes.old bytes.new }
{
    let three = rest.three_numbers()?;
    let length = rest.behind(three.next).hex_bytes(bytes)?;
    Ok(Asked::Report {
        class: three.class,
        number: three.number,
        attribute: three.third,
        length,
    })
}

// A message in hex.
fn message(rest: Rest, bytes: &mut [u8]) -> Result<Asked, Wrong>
    requires { rest.at < length rest.text.now }
    ensures { Gives (lines.message (length bytes.old) rest.entry.text.now rest.entry.at) result bytes.old bytes.new }
{
    if digit(rest.text[rest.at]).is_none() {
        return Err(Wrong {
            place: rest.at,
            why: Why::UnknownWord,
        });
    }
    let length = rest.hex_bytes(bytes)?;
    Ok(Asked::Message(length))
}

// Which call a word stands for.
#[tactic(auto, unfolding(crate::specs::Lines::call_of))]
fn call_of(word: &[u8]) -> Call
    ensures { result ≡ lines.call_of word.now }
{
    match word {
        b"power" => Call::Power,
        b"report" => Call::Report,
        b"alarm" => Call::Alarm,
        b"upload" => Call::Upload,
        b"alarms" => Call::Alarms,
        _ => Call::Other,
    }
}

// What a call asks for whose word stands in a line, or a message that begins there.
fn read_call(call: Call, line: Rest, word: Word, bytes: &mut [u8]) -> Result<Asked, Wrong>
    requires { word.from < length line.text.now }
    ensures { Gives (lines.read_call (length bytes.old) line.entry.text.now word call) result bytes.old bytes.new }
{
    let rest = line.behind(word.to);
    match call {
        Call::Power => power(rest),
        Call::Report => report(rest, bytes),
        Call::Alarm => alarm(rest),
        Call::Upload => if_last(Asked::Upload, rest),
        Call::Alarms => if_last(Asked::Alarms, rest),
        Call::Other => message(line.behind(word.from), bytes),
    }
}

// What a text without a comment asks for.
fn read_text(text: &[u8], bytes: &mut [u8]) -> Result<Option<Asked>, Wrong>
    ensures { Gives (lines.read_text (length bytes.old) text.now) result bytes.old bytes.new }
{
    let line = Rest { text, at: 0 };
    let Ok(word) = line.next_word() else {
        return Ok(None);
    };
    let call = call_of(&text[word.from..word.to]);
    let asked = read_call(call, line, word, bytes)?;
    Ok(Some(asked))
}

// What a line, without its line end, asks for; nothing, if it is blank or a comment. A message's bytes and a report's
// contents are laid into `bytes` from its start on; where they don't fit, the line is wrong.
pub fn read_line(line: &[u8], bytes: &mut [u8]) -> Result<Option<Asked>, Wrong>
    ensures is { Gives (lines.read (length bytes.old) line.now) result bytes.old bytes.new }
    ensures fits { lines.bytes_of result ≤ length bytes.old }
{
    let whole = Rest { text: line, at: 0 };
    let end = whole.run_end(|c| c != b'#');
    read_text(&line[..end], bytes)
}
