// Set: writes attributes of an instance, all that it names or none.
#![tactic(auto)]

ghost use Rattle.std.specs.Prelude.{◌≡◌, ◌+◌, ◌≤◌, ◌<◌, length, replicate};
ghost use Rattle.rules.specs.Masks.{named};
ghost use Rattle.rules.specs.Commands.{set};
ghost use Rattle.rules.specs.Run.{store_length};
ghost use Rattle.store.specs.Layout.{contents_width};
ghost use Rattle.class_tables.specs.Built.{cat_of, class_for};
ghost use Rattle.table.specs.Places.{InShape};
ghost use Rattle.attribute_write.specs.Lays.{Laying};
ghost use Rattle.sound_store.specs.Held.{state_in, Sound, Leaves};
ghost use Rattle.outcome.specs.Refusals.{contents_of};
ghost use Rattle.set_command.specs.Sets.{SetJudged, bad_at, set_contents, refusing, written, live_in, SetAt};

use class_tables::{Product, classes};
use outcome::refusals::Refusal;
use store::layout::{LIVE_AT, LIVE_END};
use table::{counter, instances};

// Where the values begin in a Set's contents, and where these end.
const VALUES: usize = 2;

const VALUES_END: usize = 32;

// The most bytes that a Set has room for.
const SET_ROOM: usize = 30;

// What is wrong with a Set: every attribute that it may not name, or, if there is none and the values fit, every one whose content isn't legal.
// Flags beside masks, and not a Result, since document 02 asks this leaf to report both: every bad bit, and whether any was unsupported or unwritable (`SetJudged`).
#[derive(Clone, Copy, Debug, PartialEq, Eq)]
pub struct Judged {
    // those that the class doesn't have
    pub unsupported: u16,
    // those that a Set may not write; where contents are judged, those whose content isn't legal
    pub failed: u16,
    // is any unsupported or unwritable? Then only these show, and no content is judged: behind an unsupported one it couldn't even be found.
    pub barred: bool,
    // do the values take more bytes than a Set has room for? Then no content is judged either.
    pub long: bool,
}

// Judges what a Set names and carries for an instance whose contents begin at a place.
fn judge_set(b: &[u8], product: Product, class: u16, at: usize, asked: u16, v: &[u8]) -> Judged
    requires { InShape b.now × (at + contents_width (class_for product class) ≤ length b.now) × (length v.now ≡ 30) }
    ensures { SetJudged (class_for product class) asked (bad_at product class at asked v.now b.now) result }
{
    let unsupported = mask_tests::unsupported(product, class, asked);
    let unwritable = mask_tests::unwritable(product, class, asked);
    let barred = (unsupported != 0) | (unwritable != 0);
    let long = mask_tests::total_size(product, class, asked) > SET_ROOM;
    if barred | long {
        return Judged {
            unsupported: unsupported,
            failed: unwritable,
            barred: barred,
            long: long,
        };
    }
    let bad = attribute_check::bad_mask(b, product, class, asked, v, b, at);
    Judged {
        unsupported: unsupported,
        failed: bad,
        barred: barred,
        long: long,
    }
}

// What refuses a Set of an instance whose contents begin at a place; nothing is changed here.
fn set_refusal(
    b: &[u8],
    product: Product,
    class: u16,
    at: usize,
    asked: u16,
    v: &[u8],
) -> Result<(), Refusal>
    requires { InShape b.now × (at + contents_width (class_for product class) ≤ length b.now) × (length v.now ≡ 30) }
    ensures { set_contents result ≡ refusing product class at asked v.now b.now }
{
    if asked == 0 {
        return Err(Refusal::BadParameter);
    }
    let found = judge_set(b, product, class, at, asked, v);
    if !found.barred & found.long {
        return Err(Refusal::BadParameter);
    }
    if (found.unsupported != 0) | (found.failed != 0) {
        return Err(Refusal::AttributesFailed {
            unsupported: found.unsupported,
            failed: found.failed,
        });
    }
    Ok(())
}

// Writes the values of a Set, and moves the counter on unless they are the counter.
fn write_set(b: &mut [u8], product: Product, class: u16, at: usize, asked: u16, v: &[u8])
    requires { Laying (class_for product class) at (named asked) v.now b.old × (0 < length b.old) }
    ensures { b.new ≡ written product class at asked v.now b.old }
{
    attribute_write::lay_values(b, at, product, class, asked, v);
    if class != classes::ONT_DATA {
        counter::move_counter(b);
    }
}

// Answers a Set of an instance whose contents begin at a place of the live table.
fn set_at(
    store: &mut [u8],
    product: Product,
    class: u16,
    at: usize,
    v: &[u8],
) -> Result<(), Refusal>
    requires { (store_length ≤ length store.old) × InShape (live_in store.old)
        × (at + contents_width (class_for product class) ≤ length (live_in store.old)) × (length v.now ≡ 32) }
    ensures { SetAt product class at v.now store.old store.new (contents_of result (replicate 32 0)) }
{
    let asked = octets::number_at(v, 0);
    let values = &v[VALUES..VALUES_END];
    set_refusal(&store[LIVE_AT..LIVE_END], product, class, at, asked, values)?;
    write_set(
        &mut store[LIVE_AT..LIVE_END],
        product,
        class,
        at,
        asked,
        values,
    );
    Ok(())
}

// Answers a Set; `v` are the contents of its message.
pub fn set(
    store: &mut [u8],
    product: Product,
    class: u16,
    number: u16,
    v: &[u8],
) -> Result<(), Refusal>
    requires { Sound product store.old × (length v.now ≡ 32) }
    ensures { Leaves product (set (cat_of product) (state_in product store.old) class number v.now)
        store.old store.new (contents_of result (replicate 32 0)) }
{
    let Some(at) = instances::locate(&store[LIVE_AT..LIVE_END], product, class, number) else {
        return Err(Refusal::UnknownInstance);
    };
    set_at(store, product, class, at, v)
}
