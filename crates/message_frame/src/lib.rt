// The 48 bytes of a message: as they come in, and as they go out.
#![tactic(auto)]

pub mod commands;
pub mod drops;

ghost use Rattle.std.specs.Prelude.{◌≡◌, [], ◌∷◌, ◌++◌, ◌≤◌, length, take, drop};
ghost use Rattle.rules.specs.Bytes.{bytes, fill};
ghost use Rattle.rules.specs.Maps.{same, first_that_applies};
ghost use Rattle.rules.specs.Messages.{trailer, checksum, message_drops, framed};
ghost use Rattle.message_frame.specs.Drops.{drop_of};

use drops::DropReason;

// Are bytes 40 to 43 the fixed ones?
fn has_trailer(m: &[u8]) -> bool
    requires { 48 ≤ length m.now }
    ensures { result ≡ same (take 4 (drop 40 m.now)) trailer }
{
    // compared byte by byte: `m[40..44] == [0, 0, 0, 0x28]` calls std's comparison of slices, about 18 instructions more for each command
    (m[40] == 0) & (m[41] == 0) & (m[42] == 0) & (m[43] == 0x28)
}

// The drop that a message asks for by itself, 3 to 7.
pub fn message_drop(m: &[u8]) -> Result<(), DropReason>
    ensures { drop_of result ≡ first_that_applies (message_drops m.now) }
{
    if m.len() != 48 {
        return Err(DropReason::WrongLength);
    }
    if m[3] != 0x0A {
        return Err(DropReason::WrongDevice);
    }
    if m[2] / 32 != 2 {
        return Err(DropReason::WrongType);
    }
    if (m[0] == 0) & (m[1] == 0) {
        return Err(DropReason::NoCorrelationId);
    }
    if !has_trailer(m) {
        return Err(DropReason::WrongFixedBytes);
    }
    Ok(())
}

// Writes the eight bytes that a message begins with.
fn put_header(h: &mut [u8], id: u16, kind: u8, class: u16, number: u16)
    requires { length h.old ≡ 8 }
    ensures { h.new ≡ bytes 2 id ++ (kind ∷ 0x0A ∷ (bytes 2 class ++ bytes 2 number)) }
{
    octets::put_number(h, 0, id);
    h[2] = kind;
    h[3] = 0x0A;
    octets::put_number(h, 4, class);
    octets::put_number(h, 6, number);
}

// Writes contents that are all zero, the fixed bytes and a zero checksum.
fn put_rest(r: &mut [u8])
    requires { length r.old ≡ 40 }
    ensures { r.new ≡ fill 32 [] ++ (trailer ++ checksum) }
{
    r.fill(0);
    r[35] = 0x28;
}

// Begins a message in the first 48 bytes of a buffer: its frame, with contents that are all zero.
pub fn begin(buffer: &mut [u8], id: u16, kind: u8, class: u16, number: u16)
    requires { 48 ≤ length buffer.old }
    ensures { buffer.new ≡ framed (bytes 2 id) kind (bytes 2 class ++ bytes 2 number) [] ++ drop 48 buffer.old }
{
    put_header(&mut buffer[0..8], id, kind, class, number);
    put_rest(&mut buffer[8..48]);
}
