// Create: a new instance of a created class, with those that come with it.
#![tactic(auto)]

ghost use Rattle.std.specs.Prelude.{◌≡◌, true, false, ◌<◌, ◌≤◌, length, replicate};
ghost use Rattle.rules.specs.Bytes.{byte, fill};
ghost use Rattle.rules.specs.Masks.{mask};
ghost use Rattle.rules.specs.Catalogue.{is_created, key};
ghost use Rattle.rules.specs.State.{holds};
ghost use Rattle.rules.specs.Commands.{new_entry, carried_by, create};
ghost use Rattle.store.specs.Layout.{place_count, place_width, place_length, in_use_at, live_at, block_length, entry_bytes, place};
ghost use Rattle.octets.proofs.Parted.{part};
ghost use Rattle.class_tables.specs.Built.{cat_of, class_for};
ghost use Rattle.table.specs.Places.{InShape, keys_in};
ghost use Rattle.table.specs.Spots.{rank};
ghost use Rattle.sound_store.specs.Held.{state_in, Sound, Leaves};
ghost use Rattle.outcome.specs.Refusals.{contents_of};
ghost use Rattle.create_command.specs.New.{with_others, unkept_bad, bad_carried, with_place};

use class_tables::{Product, classes, masks, sizes};
use outcome::refusals::Refusal;
use store::layout::{ENTRY, KEY, LIVE_AT, LIVE_END, PLACE, PLACE_COUNT};
use table::counter;

// Writes the first contents of the stored attributes that no Create carries; `own` has those of the leading instance.
fn lay_others(c: &mut [u8], product: Product, class: u16, own: &[u8])
    requires { (length c.old ≡ place_width) × (length own.now ≡ place_width) }
    ensures { c.new ≡ with_others product class own.now c.old }
{
    let others = bits::without(
        masks::stored_mask(product, class),
        masks::carried_mask(product, class),
    );
    attribute_write::lay_firsts(
        c,
        classes::inside(product, class),
        product,
        class,
        others,
        own,
    );
}

// Writes the contents of a new instance and of those that come with it. What a Create carries is all that its class stores, in the same
// order, so that the bytes stand as they come and nothing else is laid beside them.
fn new_contents(c: &mut [u8], product: Product, class: u16, v: &[u8])
    requires { (c.old ≡ replicate place_width 0) × (is_created (class_for product class).creation ≡ true) × (length v.now ≡ 32) }
    ensures { c.new ≡ fill place_width (entry_bytes (new_entry (cat_of product) class (carried_by (class_for product class) v.now))) }
{
    let mut own = [0u8; ENTRY];
    let size = sizes::carried_size(product, class);
    octets::copy_in(&mut own, 0, &v[0..size]);
    octets::copy_in(c, 0, &own);
    if let Some(companion) = classes::companion_of(product, class) {
        lay_others(c, product, companion, &own);
    }
}

// Writes the place of a new instance.
fn new_place(r: &mut [u8], product: Product, class: u16, number: u16, v: &[u8])
    requires { (r.old ≡ replicate place_length 0) × (is_created (class_for product class).creation ≡ true) × (length v.now ≡ 32) }
    ensures { r.new ≡ place (key class number, new_entry (cat_of product) class (carried_by (class_for product class) v.now)) }
{
    octets::put_number(r, 0, class);
    octets::put_number(r, 2, number);
    new_contents(&mut r[KEY..], product, class, v);
}

// The mask of what a Create carries, isn't kept, and isn't zero as it must be: one attribute, or none.
fn unkept_bit(product: Product, class: u16, v: &[u8]) -> u16
    requires { length v.now ≡ 32 }
    ensures { result ≡ mask (unkept_bad (class_for product class) v.now) }
{
    let Some(u) = classes::unkept(product, class) else {
        return 0;
    };
    let from = sizes::carried_size(product, class);
    let to = from + u.size;
    if octets::zeros(&v[from..to]) {
        return 0;
    }
    bits::bit_of(u.number)
}

// The mask of all that is bad in a Create; `r` is the new place.
fn bad_in_create(live: &[u8], product: Product, class: u16, v: &[u8], r: &[u8]) -> u16
    requires { InShape live.now × (is_created (class_for product class).creation ≡ true) × (length v.now ≡ 32) × (length r.now ≡ place_length) }
    ensures { result ≡ mask (bad_carried (cat_of product) live.now (class_for product class) r.now v.now) }
{
    let carried = masks::carried_mask(product, class);
    attribute_check::bad_mask(live, product, class, carried, v, r, KEY)
        + unkept_bit(product, class, v)
}

// Puts a place into a live table as the j-th, and moves the counter on.
fn put_in(b: &mut [u8], j: usize, r: &[u8])
    requires { InShape b.old × (byte b.old in_use_at < place_count) × (j ≤ byte b.old in_use_at) × (length r.now ≡ place_length) }
    ensures { b.new ≡ with_place j r.now b.old }
{
    table::insert_place(b, j, r);
    counter::move_counter(b);
}

// Answers a Create of an instance that isn't there; its place would be the j-th. What a Create asks for travels as product, class, number and `v`: tried as one
// struct, it needed ghost fields that its number and its bytes fit their types, beside the two facts that it would have kept.
fn create_absent(
    store: &mut [u8],
    j: usize,
    product: Product,
    class: u16,
    number: u16,
    v: &[u8],
) -> Result<(), Refusal>
    requires { Sound product store.old × (is_created (class_for product class).creation ≡ true) × (length v.now ≡ 32)
        × (holds (cat_of product) (state_in product store.old).table class number ≡ false)
        × (j ≡ rank (key class number) (keys_in (part live_at block_length store.old))) }
    ensures { Leaves product (create (cat_of product) (state_in product store.old) class number v.now)
        store.old store.new (contents_of result (replicate 32 0)) }
{
    let mut r = [0u8; PLACE];
    new_place(&mut r, product, class, number, v);
    let bad = bad_in_create(&store[LIVE_AT..LIVE_END], product, class, v, &r);
    if bad != 0 {
        return Err(Refusal::BadValues(bad));
    }
    if table::in_use(&store[LIVE_AT..LIVE_END]) >= PLACE_COUNT {
        return Err(Refusal::NoPlace);
    }
    put_in(&mut store[LIVE_AT..LIVE_END], j, &r);
    Ok(())
}

// Answers a Create of an instance of a created class. One search tells whether it is there, and where it would be put.
pub fn create(
    store: &mut [u8],
    product: Product,
    class: u16,
    number: u16,
    v: &[u8],
) -> Result<(), Refusal>
    requires { Sound product store.old × (is_created (class_for product class).creation ≡ true) × (length v.now ≡ 32) }
    ensures { Leaves product (create (cat_of product) (state_in product store.old) class number v.now)
        store.old store.new (contents_of result (replicate 32 0)) }
{
    let key = octets::key_of(class, number);
    let j = table::rank_of(&store[LIVE_AT..LIVE_END], key);
    if table::has_key(&store[LIVE_AT..LIVE_END], key, j) {
        return Err(Refusal::InstanceExists);
    }
    create_absent(store, j, product, class, number, v)
}
