// The table in its bytes: where an instance stands, and what is read and written there. A table's bytes, called a block, are
// one byte in front, the number of places in use, the slots, and the places, those in use first (`store::layout`).
#![tactic(auto)]

pub mod counter;
pub mod instances;

ghost use Rattle.std.specs.Prelude.{◌≡◌, [], ◌∷◌, suc, ◌+◌, ◌-◌, ◌<◌, ◌≤◌, length, take, drop};
ghost use Rattle.rules.specs.Maps.{is_some};
ghost use Rattle.rules.specs.Bytes.{byte, laid};
ghost use Rattle.store.specs.Layout.{place_count, place_width, place_length, place_at, in_use_at, places_at};
ghost use Rattle.store.specs.Positions.{position};
ghost use Rattle.table.specs.Spots.{rank, Ranked, inserted, removed};
ghost use Rattle.table.specs.Places.{InShape, keys_in, how_many_hold, chosen};
ghost use Rattle.class_tables.specs.Finding.{found_of};

use store::layout::{IN_USE, KEY, PLACE, PLACES};

// The live table, or the frozen copy of an upload.
#[derive(Clone, Copy, Debug, PartialEq, Eq)]
pub enum Which {
    Live,
    Frozen,
}

// Attributes of an instance, those of a mask, to be read from the bytes of a table; its contents begin at `at`.
#[derive(Clone, Copy, Debug, PartialEq, Eq)]
pub struct Shown {
    pub class: u16,
    pub number: u16,
    pub at: usize,
    pub mask: u16,
}

// How many places of a block are in use.
pub fn in_use(b: &[u8]) -> usize
    requires { in_use_at < length b.now }
    ensures { result ≡ byte b.now in_use_at }
{
    octets::wide(b[IN_USE]) as usize
}

// Halves what is open: of a key whose rank is `low` or up to `by + by - 1` more, a bound from which the rank is at most `by - 1` more. The key of the last
// of the next `by` places tells; where there aren't as many places, nothing needs to be looked at.
fn past(b: &[u8], n: usize, low: usize, by: usize, key: u32) -> usize
    requires { InShape b.now × (n ≡ byte b.now in_use_at) × (1 ≤ by) × (by ≤ place_count) × Ranked low (by + by) key (keys_in b.now) }
    ensures { Ranked result by key (keys_in b.now) }
{
    let next = low + by;
    if next <= n {
        if octets::key_at(b, PLACES + PLACE * (next - 1)) <= key {
            return next;
        }
    }
    low
}

// How many places, whose keys rise, have a key that isn't greater: where an instance of this key is put in. The search halves, in at most six looks
// at a key, which is enough for 63 places; without a loop it takes fewer instructions (docs/SPEED.md, "Finding an instance").
pub fn rank_of(b: &[u8], key: u32) -> usize
    requires { InShape b.now }
    ensures { result ≡ rank key (keys_in b.now) }
{
    let n = in_use(b);
    let to_32 = past(b, n, 0, 32, key);
    let to_16 = past(b, n, to_32, 16, key);
    let to_8 = past(b, n, to_16, 8, key);
    let to_4 = past(b, n, to_8, 4, key);
    let to_2 = past(b, n, to_4, 2, key);
    past(b, n, to_2, 1, key)
}

// Has a place this key, whose rank is j? If one has, it is the last of the j places whose keys aren't greater.
pub fn has_key(b: &[u8], key: u32, j: usize) -> bool
    requires { InShape b.now × (j ≡ rank key (keys_in b.now)) }
    ensures { result ≡ is_some (position key (keys_in b.now)) }
{
    if j == 0 {
        return false;
    }
    key == octets::key_at(b, PLACES + PLACE * (j - 1))
}

// Which place has a key, if one has.
pub fn place_of(b: &[u8], key: u32) -> Option<usize>
    requires { InShape b.now }
    ensures { found_of result ≡ position key (keys_in b.now) }
{
    let j = rank_of(b, key);
    if has_key(b, key, j) {
        return Some(j - 1);
    }
    None
}

// How many places are of a class and hold a number in two bytes of their contents.
pub fn naming(b: &[u8], class: u16, at: usize, number: u16) -> usize
    requires { InShape b.now × (at + 2 ≤ place_width) }
    ensures { result ≡ how_many_hold class at number (byte b.now in_use_at) (drop places_at b.now) }
{
    let n = in_use(b);
    let mut count: usize = 0;
    for i in 0..n {
        let p = PLACES + PLACE * i;
        // the number first: as a rule fewer places hold it than are of the class
        if octets::number_at(b, p + (KEY + at)) == number {
            if octets::number_at(b, p) == class {
                count += 1;
            }
        }
    }
    count
}

// Puts a place in at position j, below the number of places in use or at it: those behind it move up.
pub fn insert_place(b: &mut [u8], j: usize, r: &[u8])
    requires { InShape b.old × (byte b.old in_use_at < place_count) × (j ≤ byte b.old in_use_at) × (length r.now ≡ place_length) }
    ensures { b.new ≡ laid in_use_at (suc (byte b.old in_use_at) ∷ []) (inserted (place_at j) r.now b.old) }
{
    let n = b[IN_USE];
    let a = PLACES + PLACE * j;
    octets::insert_front(&mut b[a..], r);
    b[IN_USE] = n + 1;
}

// Takes the place at position j out: those behind it move down, and zeros follow.
pub fn remove_place(b: &mut [u8], j: usize)
    requires { InShape b.old × (j < byte b.old in_use_at) }
    ensures { b.new ≡ laid in_use_at ((byte b.old in_use_at - 1) ∷ []) (removed (place_at j) place_length b.old) }
{
    let n = b[IN_USE];
    let a = PLACES + PLACE * j;
    octets::remove_front(&mut b[a..], PLACE);
    b[IN_USE] = n - 1;
}

// Returns an attribute's bytes from one of two lent slices, live table or frozen copy.
pub fn attribute_part<'a>(
    live: &'a [u8],
    frozen: &'a [u8],
    which: Which,
    at: usize,
    size: usize,
) -> &'a [u8]
    requires { (at + size ≤ length live.now) × (at + size ≤ length frozen.now) }
    ensures { result.now ≡ take size (drop at (chosen which live.now frozen.now)) }
{
    let e = at + size;
    match which {
        Which::Live => &live[at..e],
        Which::Frozen => &frozen[at..e],
    }
}
