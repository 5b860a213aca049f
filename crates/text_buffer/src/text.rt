// Hex digits, in capitals.
ghost use Rattle.std.specs.Prelude.{◌≡◌, ◌<◌, ◌∷◌, [], Some};
ghost use Rattle.text_buffer.specs.Groups.{begins_group, gap, grouped};
ghost use Rattle.text_buffer.specs.Digits.{hex_digit, hex, hexes, hex_number};
ghost use Rattle.std.specs.Fmt.{WritesOnOk};

use std::fmt;

// The hex digit of a number below 16.
#[tactic(auto, unfolding(crate::specs::Digits::hex_digits))]
fn digit(value: u8) -> &'static str
    requires { value < 16 }
    ensures { result.now ≡ hex_digit value ∷ [] }
{
    match value {
        0 => "0",
        1 => "1",
        2 => "2",
        3 => "3",
        4 => "4",
        5 => "5",
        6 => "6",
        7 => "7",
        8 => "8",
        9 => "9",
        10 => "A",
        11 => "B",
        12 => "C",
        13 => "D",
        14 => "E",
        15 => "F",
        _ => unreachable!(),
    }
}

// A byte's two digits: a message has 48 bytes, and `{byte:02X}` takes five times as long.
fn write_byte<W: fmt::Write>(f: &mut fmt::Formatter<W>, byte: u8) -> fmt::Result
    ensures { WritesOnOk W.write_str_gives f.old result (hex byte) f.new }
{
    f.write_str(digit(byte / 16))?;
    f.write_str(digit(byte % 16))
}

// A byte or a number of two bytes prints in decimal; these print in hex. Bytes, with nothing between them.
#[derive(Clone, Copy)]
pub struct Hexes<'a>(pub &'a [u8]);

impl fmt::Display for Hexes<'_> {
    ghost output = { λ bytes. Some (hexes bytes.0.now) };

    fn fmt<W: fmt::Write>(&self, f: &mut fmt::Formatter<W>) -> fmt::Result {
        for &byte in self.0 {
            write_byte(f, byte)?;
        }
        Ok(())
    }
}

// A number of two bytes, as 0x and four digits.
#[derive(Clone, Copy)]
pub struct HexNumber(pub u16);

impl fmt::Display for HexNumber {
    ghost output = { λ number. Some (hex_number number.0) };

    fn fmt<W: fmt::Write>(&self, f: &mut fmt::Formatter<W>) -> fmt::Result {
        let number = self.0;
        write!(f, "0x{number:04X}")
    }
}

// Does a new group of digits begin at this byte of a message? Id, type, device, class, instance, then four bytes each.
fn begins_group(i: usize) -> bool
    ensures { result ≡ begins_group i }
{
    matches!(i, 2 | 3 | 4 | 6) || (8 <= i && i % 4 == 0)
}

// The blank before a group.
#[tactic(auto, unfolding(crate::specs::Groups::gap))]
fn gap(i: usize) -> &'static str
    ensures { result.now ≡ gap i }
{
    if begins_group(i) { " " } else { "" }
}

// A message, in groups.
#[derive(Clone, Copy)]
pub struct Groups<'a>(pub &'a [u8]);

impl fmt::Display for Groups<'_> {
    ghost output = { λ message. Some (grouped 0 message.0.now) };

    fn fmt<W: fmt::Write>(&self, f: &mut fmt::Formatter<W>) -> fmt::Result {
        for (i, &byte) in self.0.iter().enumerate() {
            f.write_str(gap(i))?;
            write_byte(f, byte)?;
        }
        Ok(())
    }
}
