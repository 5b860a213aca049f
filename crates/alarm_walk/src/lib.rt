// Get all alarms and its Next: the alarms are frozen when they are asked for, then shown instance by instance.
#![tactic(auto)]

ghost use Rattle.std.specs.Prelude.{◌≡◌, [], ◌∷◌, ◌++◌, ◌<◌, ◌≤◌, length, replicate, MatchOption};
ghost use Rattle.rules.specs.Bytes.{bytes, fill};
ghost use Rattle.rules.specs.Walks.{all_alarms, alarms_next};
ghost use Rattle.sound_store.specs.Held.{state_in, Sound, Leaves};
ghost use Rattle.alarm_walk.specs.OnBytes.{count_on, place_on};
ghost use Rattle.store.specs.Layout.{slot_count};
ghost use Rattle.class_tables.specs.declared.Product.{Product};

use class_tables::{Product, classes, slots};
use store::layout::{ALARM_NUMBER, ALARMS_AT, SLOT_COUNT, WALK_AT};

// The frozen alarms stand behind the mark of the walk.
const FROZEN_AT: usize = WALK_AT + 1;

// How many bytes have an alarm that is on.
fn how_many_on(b: &[u8]) -> u16
    requires { length b.now ≤ slot_count }
    ensures { result ≡ count_on b.now }
{
    b.iter().filter(|x| **x != 0).count() as u16
}

// Where the n-th byte stands that has an alarm that is on, counted from 0, if there are so many.
fn nth_on(b: &[u8], n: u16) -> Option<usize>
    ensures { MatchOption result (place_on n b.now ≡ length b.now) (λ i. (i ≡ place_on n b.now) × (i < length b.now)) }
{
    b.iter()
        .enumerate()
        .filter(|(_, x)| **x != 0)
        .nth(usize::from(n))
        .map(|(i, _)| i)
}

// Get all alarms: freezes the alarms, sets the alarm number to 0, and tells how many instances have alarms that are on.
pub fn all_alarms(store: &mut [u8], product: Product, class: u16, number: u16, out: &mut [u8])
    requires { Sound product store.old × (out.old ≡ replicate 32 0) }
    ensures { Leaves product (all_alarms (state_in product store.old) class number) store.old store.new out.new }
{
    if !classes::is_ont_data(class, number) {
        return;
    }
    let e = ALARMS_AT + slots::slots(product);
    let n = how_many_on(&store[ALARMS_AT..e]);
    store[ALARM_NUMBER] = 0;
    octets::freeze(store, ALARMS_AT, WALK_AT, SLOT_COUNT);
    octets::put_number(out, 0, n);
}

// Writes an instance's class, number and alarms into contents that are all zero. (What it has in common with `upload_walk::put_head`
// are two calls of `put_number`, which a function for both would say no plainer.)
fn show(out: &mut [u8], class: u16, number: u16, alarms: u8)
    requires { out.old ≡ replicate 32 0 }
    ensures { out.new ≡ fill 32 (bytes 2 class ++ bytes 2 number ++ alarms ∷ []) }
{
    octets::put_number(out, 0, class);
    octets::put_number(out, 2, number);
    out[4] = alarms;
}

// Get all alarms next: class, number and alarms of the n-th instance of the frozen walk.
pub fn alarms_next(
    store: &[u8],
    product: Product,
    class: u16,
    number: u16,
    v: &[u8],
    out: &mut [u8],
)
    requires { Sound product store.now × (length v.now ≡ 32) × (out.old ≡ replicate 32 0) }
    ensures { out.new ≡ fill 32 (alarms_next (state_in product store.now) class number v.now).1 }
{
    if !classes::is_ont_data(class, number) {
        return;
    }
    if store[WALK_AT] == 0 {
        return;
    }
    let n = slots::slots(product);
    let e = FROZEN_AT + n;
    if let Some(j) = nth_on(&store[FROZEN_AT..e], octets::number_at(v, 0)) {
        let shown = slots::slot_instance(product, j);
        show(out, shown.class, shown.number, store[FROZEN_AT + j]);
    }
}
