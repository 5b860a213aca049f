#![tactic(auto)]
// Masks of attributes, a digit for each attribute, bitmaps of alarms, and the numbers that go from 255 back to 1.
ghost use Rattle.std.specs.Prelude.{◌≡◌, ◌-◌, ◌^◌, ◌<◌, ◌≤◌, false, ◌≢◌, length, bit_and, slice_index_or, slice_set};
ghost use Rattle.std.specs.Iterator.{YieldsFirst, item_count};
ghost use Rattle.rules.specs.Bytes.{bits, bits_from};
ghost use Rattle.rules.specs.Masks.{named};
ghost use Rattle.rules.specs.Messages.{next_number};
ghost use Rattle.bits.specs.Digits.{digit};
ghost use Rattle.bits.specs.Firsts.{First};

// The number after another, for the sync counter and the alarm number: 254 to 255, 255 to 1, never to 0.
pub fn next_number(x: u8) -> u8
    ensures { result ≡ next_number x }
{
    x.wrapping_add(1).max(1)
}

// The mask of attribute n alone.
pub fn bit_of(n: u16) -> u16
    requires { (1 ≤ n) × (n ≤ 16) }
    ensures { result ≡ 2 ^ (16 - n) }
{
    32768 >> (n - 1)
}

// The first attribute that a mask names: with its bit taken out, the mask names the others.
pub fn first_named(mask: u16) -> u16
    requires { mask ≢ 0 }
    ensures { First mask result }
{
    (mask.leading_zeros() + 1) as u16
}

// The attributes that a mask names, in order: leading zeros give the next one, ones how many remain.
#[derive(Drop)]
pub struct Attributes {
    left: u16,
}

// The attributes that a mask names.
pub fn named(mask: u16) -> Attributes
    ensures { result.left ≡ mask }
{
    Attributes { left: mask }
}

impl Iterator for Attributes {
    type Item = u16;

    ghost next_gives = { YieldsFirst (λ s. named s.left) };

    ghost remaining = { item_count (λ s. named s.left) };

    fn next(&mut self) -> Option<u16> {
        if how_many(self.left) == 0 {
            return None;
        }
        let n = first_named(self.left);
        self.left -= bit_of(n);
        Some(n)
    }
}

// How many attributes a mask names.
pub fn how_many(mask: u16) -> u32
    ensures { result ≡ length (named mask) }
{
    mask.count_ones()
}

// The attributes of a mask that are not in another.
pub fn without(m: u16, other: u16) -> u16
    ensures { result ≡ bit_and m (65535 - other) }
{
    m & !other
}

// The attributes that two masks have in common.
pub fn common(m: u16, other: u16) -> u16
    ensures { result ≡ bit_and m other }
{
    m & other
}

// Attribute n's of sixteen hexadecimal digits, the top one first.
pub fn digit(x: u64, n: u16) -> usize
    requires { (1 ≤ n) × (n ≤ 16) }
    ensures { result ≡ digit x n }
{
    ((x >> (64 - 4 * n)) & 15) as usize
}

// Is alarm n of eight on? Alarm 0 is the top bit.
pub fn alarm_on(b: u8, n: u8) -> bool
    requires { n < 8 }
    ensures { result ≡ slice_index_or (bits 8 b) n false }
{
    (b >> (7 - n)) & 1 == 1
}

// Eight alarms with alarm n turned on or off.
pub fn alarm_turned(b: u8, n: u8, on: bool) -> u8
    requires { n < 8 }
    ensures { result ≡ bits_from 0 (slice_set (bits 8 b) n on) }
{
    if on { b | (128 >> n) } else { b & !(128 >> n) }
}
