// What a line of a bench script is made of: runs of bytes, words, numbers, and bytes in hex; and why a line can't be read.
#![tactic(auto)]

ghost use Rattle.std.specs.Prelude.{◌≡◌, ℕ, Bool, ◌+◌, ◌-◌, ◌^◌, ◌<◌, ◌≤◌, length, drop, IfOk, IfSome, Some, slice_index};
ghost use Rattle.script_values.specs.Reasons.{reason};
ghost use Rattle.script_values.specs.Runs.{Computes, Within, is_blank, is_gap, digit_in, run_end, next_word};
ghost use Rattle.script_values.specs.Numbers.{digits_at, next_number, number_in, three_numbers};
ghost use Rattle.script_values.specs.HexBytes.{Gives, hex_digit, hex_from};

use std::fmt;

// Why a line can't be read.
#[derive(Clone, Copy, Debug, PartialEq, Eq)]
pub enum Why {
    // the first word is no call, and does not begin with a hex digit
    UnknownWord,
    // a byte among hex digits that is none
    NotHex,
    // a hex digit without the second one of its pair
    HalfByte,
    // a byte in a number that is no digit of it, or no digit at all
    NotANumber,
    // the digit with which a number becomes greater than allowed
    NumberTooLarge,
    // the line ends where a word is due
    MissingWord,
    // a word behind the end of a call
    TooMuch,
    // neither `on` nor `off`
    NotOnOrOff,
    // neither `small`, `large` nor `meter`
    NotAProduct,
    // a byte for which the lent buffer has no room
    TooLong,
}

impl fmt::Display for Why {
    ghost output = { λ why. Some (reason why) };

    fn fmt<W: fmt::Write>(&self, f: &mut fmt::Formatter<W>) -> fmt::Result {
        f.write_str(match self {
            Why::UnknownWord => "no call begins with this word",
            Why::NotHex => "this is no hex digit",
            Why::HalfByte => "this hex digit has no second one",
            Why::NotANumber => "this is no number",
            Why::NumberTooLarge => "this number is too large",
            Why::MissingWord => "a word is missing here",
            Why::TooMuch => "this is too much",
            Why::NotOnOrOff => "this is neither on nor off",
            Why::NotAProduct => "this is neither small, large nor meter",
            Why::TooLong => "there is no room for more bytes",
        })
    }
}

// Where a line can't be read: the column, counted from 0, of the first byte that can't be; and why.
#[derive(Clone, Copy, Debug, PartialEq, Eq)]
pub struct Wrong {
    pub place: usize,
    pub why: Why,
}

// Where a word stands in a line.
#[derive(Clone, Copy, Debug, PartialEq, Eq)]
pub struct Word {
    pub from: usize,
    pub to: usize,
}

// A number and where its word ends.
#[derive(Clone, Copy, Debug, PartialEq, Eq)]
pub struct Number {
    pub value: u16,
    pub next: usize,
}

// The three numbers that a report and an alarm begin with, and where they end.
#[derive(Clone, Copy, Debug, PartialEq, Eq)]
pub struct Three {
    pub class: u16,
    pub number: u16,
    pub third: u8,
    pub next: usize,
}

// What is left of a line: its text, and the place up to which it is read.
#[derive(Clone, Copy)]
pub struct Rest<'a> {
    pub text: &'a [u8],
    pub at: usize,
}

// Is it a space, a tab or a carriage return?
#[tactic(auto, unfolding(crate::specs::Runs::is_blank))]
fn is_blank(c: u8) -> bool
    ensures { result ≡ is_blank c }
{
    matches!(c, b' ' | b'\t' | b'\r')
}

// Is it passed over between hex digits: a blank or an underscore?
#[tactic(auto, unfolding(crate::specs::Runs::is_gap))]
fn is_gap(c: u8) -> bool
    ensures { result ≡ is_gap c }
{
    c == b'_' || is_blank(c)
}

// The digit of a base that a byte is.
#[tactic(auto, unfolding(crate::specs::Runs::digit_in))]
fn digit_in(c: u8, base: u8) -> Option<u8>
    requires { (2 ≤ base) × (base ≤ 16) }
    ensures value { result ≡ digit_in base c }
    ensures within { IfSome result (λ d. d < base) }
{
    let digit = char::from(c).to_digit(u32::from(base))?;
    Some(digit as u8)
}

// The hex digit that a byte is.
pub fn digit(c: u8) -> Option<u8>
    ensures value { result ≡ digit_in 16 c }
    ensures within { IfSome result (λ d. d < 16) }
{
    digit_in(c, 16)
}

// The number in digits, the first of which stands at a place.
fn digits(text: &[u8], place: usize, base: u8, limit: u16) -> Result<u16, Wrong>
    requires based { (2 ≤ base) × (base ≤ 16) }
    requires placed { place + length text.now < 2 ^ 64 }
    ensures value { result ≡ digits_at base limit place text.now }
    ensures within { IfOk result (λ v. v ≤ limit) }
{
    if text.is_empty() {
        return Err(Wrong {
            place,
            why: Why::NotANumber,
        });
    }
    let mut value: u16 = 0;
    for (i, c) in text.iter().enumerate() {
        let place = place + i;
        let digit = digit_in(*c, base).ok_or(Wrong {
            place,
            why: Why::NotANumber,
        })?;
        let more = u32::from(value) * u32::from(base) + u32::from(digit);
        if u32::from(limit) < more {
            return Err(Wrong {
                place,
                why: Why::NumberTooLarge,
            });
        }
        value = more as u16;
    }
    Ok(value)
}

// The number that a word at a place holds.
fn number_in(word: &[u8], place: usize, limit: u16) -> Result<u16, Wrong>
    requires { place + length word.now < 2 ^ 64 }
    ensures value { result ≡ number_in limit place word.now }
    ensures within { IfOk result (λ v. v ≤ limit) }
{
    match word.strip_prefix(b"0x") {
        Some(after) => digits(after, place + 2, 16, limit),
        None => digits(word, place, 10, limit),
    }
}

impl<'a> Rest<'a> {
    // The same text, read up to another place.
    pub fn behind(self, at: usize) -> Rest<'a>
        ensures text { result.text ≡ self.entry.text }
        ensures at { result.at ≡ at }
    {
        Rest { at, ..self }
    }

    // Where a run of bytes ends that pass a test.
    pub fn run_end<F: Fn(u8) -> bool>(self, goes_on: F) -> usize
        requires { F.IsAlwaysCallable goes_on }
        ensures run { (p : ℕ → Bool) → Computes (F.post goes_on) p → result ≡ run_end p self.entry.text.now self.entry.at }
        ensures within { (self.entry.at ≤ result) × (result ≤ self.entry.at + (length self.entry.text.now - self.entry.at)) }
    {
        let Rest { text, at } = self;
        for i in at..text.len() {
            if !goes_on(text[i]) {
                return i;
            }
        }
        at.max(text.len())
    }

    // Where the blanks end.
    pub fn blanks_end(self) -> usize
        ensures run { result ≡ run_end is_blank self.entry.text.now self.entry.at }
        ensures within { (self.entry.at ≤ result) × (result ≤ self.entry.at + (length self.entry.text.now - self.entry.at)) }
    {
        self.run_end(is_blank)
    }

    // Where the blanks and underscores between hex digits end.
    fn gaps_end(self) -> usize
        ensures run { result ≡ run_end is_gap self.entry.text.now self.entry.at }
        ensures within { (self.entry.at ≤ result) × (result ≤ self.entry.at + (length self.entry.text.now - self.entry.at)) }
    {
        self.run_end(is_gap)
    }

    // The next word.
    pub fn next_word(self) -> Result<Word, Wrong>
        ensures value { result ≡ next_word self.entry.text.now self.entry.at }
        ensures within { IfOk result (λ w. Within self.entry.text.now w) }
    {
        let from = self.blanks_end();
        if self.text.len() <= from {
            return Err(Wrong {
                place: from,
                why: Why::MissingWord,
            });
        }
        let to = self.behind(from).run_end(|c| !is_blank(c));
        Ok(Word { from, to })
    }

    // The number in the next word.
    fn number(self, limit: u16) -> Result<Number, Wrong>
        ensures value { result ≡ next_number limit self.entry.text.now self.entry.at }
        ensures within { IfOk result (λ n. n.value ≤ limit) }
    {
        let word = self.next_word()?;
        let value = number_in(&self.text[word.from..word.to], word.from, limit)?;
        Ok(Number {
            value,
            next: word.to,
        })
    }

    // The next three numbers.
    pub fn three_numbers(self) -> Result<Three, Wrong>
        ensures { result ≡ three_numbers self.entry.text.now self.entry.at }
    {
        let class = self.number(u16::MAX)?;
        let number = self.behind(class.next).number(u16::MAX)?;
        let third = self.behind(number.next).number(255)?;
        Ok(Three {
            class: class.value,
            number: number.value,
            third: third.value as u8,
            next: third.next,
        })
    }

    // The hex digit that the byte at a place is.
    #[tactic(auto, unfolding(crate::specs::HexBytes::hex_digit))]
    fn hex_digit(self, place: usize) -> Result<u8, Wrong>
        requires { place < length self.text.now }
        ensures value { result ≡ hex_digit place (slice_index self.entry.text.now place) }
        ensures within { IfOk result (λ d. d < 16) }
    {
        digit(self.text[place]).ok_or(Wrong {
            place,
            why: Why::NotHex,
        })
    }

    // Reads bytes in hex, up to the end of the text, into a buffer, and says how many there are.
    pub fn hex_bytes(self, bytes: &mut [u8]) -> Result<usize, Wrong>
        ensures { Gives (hex_from (length bytes.old) self.entry.text.now self.entry.at) result bytes.old bytes.new }
    {
        let mut n = 0;
        let mut i = self.gaps_end();
        // A turn reads two digits, each with the gaps behind it: a `for` over the bytes would keep the first one in a flag.
        while i < self.text.len() {
            let high = self.hex_digit(i)?;
            let j = self.behind(i + 1).gaps_end();
            if self.text.len() <= j {
                return Err(Wrong {
                    place: i,
                    why: Why::HalfByte,
                });
            }
            let low = self.hex_digit(j)?;
            if bytes.len() <= n {
                return Err(Wrong {
                    place: i,
                    why: Why::TooLong,
                });
            }
            bytes[n] = high * 16 + low;
            n += 1;
            i = self.behind(j + 1).gaps_end();
        }
        Ok(n)
    }
}
