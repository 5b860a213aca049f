// MIB reset, and the fresh store of a power-on: first contents.
#![tactic(auto)]

ghost use Rattle.std.specs.Prelude.{◌≡◌, ◌≤◌, length, replicate};
ghost use Rattle.rules.specs.Masks.{mask};
ghost use Rattle.rules.specs.Legal.{automatic_keys};
ghost use Rattle.rules.specs.Commands.{reset};
ghost use Rattle.rules.specs.Run.{fresh, store_length};
ghost use Rattle.store.specs.Layout.{block_length, slots_at, places_at};
ghost use Rattle.class_tables.specs.Built.{cat_of, class_for};
ghost use Rattle.sound_store.specs.Held.{state_in, Sound, stored, Leaves};
ghost use Rattle.outcome.specs.Refusals.{contents_of};
ghost use Rattle.reset_command.specs.Resets.{begun, slots_begun, block_reset};

use class_tables::{Product, masks, slots};
use outcome::refusals::Refusal;
use store::layout::{
    IN_USE, LIVE_AT, LIVE_END, PLACES, PRODUCT, SLOT, SLOTS, STORE, UPLOAD_AT, UPLOAD_END, WALK_AT,
    WALK_END,
};
use table::instances;

// The attributes of a class whose first contents are written: every stored one, or those that a Set may write.
// A flag for one of two tables: a closure in its place would need a clause on what it returns, which names both tables again.
fn begun(product: Product, class: u16, every: bool) -> u16
    ensures { result ≡ mask (begun every (class_for product class)) }
{
    if every {
        masks::stored_mask(product, class)
    } else {
        masks::writable_mask(product, class)
    }
}

// Writes first contents into the slots of a block: of every stored attribute, or of those that a Set may write.
fn begin_slots(b: &mut [u8], product: Product, every: bool)
    requires { places_at ≤ length b.old }
    ensures { b.new ≡ slots_begun (cat_of product) every (automatic_keys (cat_of product)) slots_at b.old }
{
    for j in 0..slots::slots(product) {
        let i = slots::slot_instance(product, j);
        let class = i.class;
        attribute_write::lay_firsts(
            b,
            SLOTS + SLOT * j,
            product,
            class,
            begun(product, class, every),
            b"",
        );
    }
}

// Writes the store of a product that has just been powered on.
pub fn write_fresh(store: &mut [u8], product: Product)
    requires { store_length ≤ length store.old }
    ensures { store.new ≡ stored product (fresh (cat_of product)) store.old }
{
    octets::zero(&mut store[0..STORE]);
    store[PRODUCT] = u8::from(product);
    begin_slots(&mut store[LIVE_AT..LIVE_END], product, true);
}

// Resets the live block: the counter and the number of places in use, the slots, the places.
fn reset_block(b: &mut [u8], product: Product)
    requires { length b.old ≡ block_length }
    ensures { b.new ≡ block_reset (cat_of product) b.old }
{
    b[0] = 0;
    b[IN_USE] = 0;
    begin_slots(b, product, false);
    octets::zero(&mut b[PLACES..]);
}

// Answers a MIB reset.
pub fn reset(store: &mut [u8], product: Product, class: u16, number: u16) -> Result<(), Refusal>
    requires { Sound product store.old }
    ensures { Leaves product (reset (cat_of product) (state_in product store.old) class number)
        store.old store.new (contents_of result (replicate 32 0)) }
{
    if !instances::is_there(&store[LIVE_AT..LIVE_END], product, class, number) {
        return Err(Refusal::UnknownInstance);
    }
    reset_block(&mut store[LIVE_AT..LIVE_END], product);
    octets::zero(&mut store[WALK_AT..WALK_END]);
    octets::zero(&mut store[UPLOAD_AT..UPLOAD_END]);
    Ok(())
}
