// Reading a message whose length isn't known: what isn't there counts as zero.
ghost use Rattle.std.specs.Prelude.{◌≡◌, get_or};

// The byte at a place.
pub fn byte_at(s: &[u8], i: usize) -> u8
    ensures { result ≡ get_or s.now i 0 }
{
    s.get(i).copied().unwrap_or(0)
}

// The number in two bytes at a place.
pub fn number_at(s: &[u8], i: usize) -> u16 {
    match part(s, i, s.len()) {
        [high, low, ..] => u16::from_be_bytes([*high, *low]),
        _ => 0,
    }
}

// The bytes from a place to another; none where they aren't all there.
pub fn part(s: &[u8], from: usize, to: usize) -> &[u8] {
    s.get(from..to).unwrap_or(&[])
}
