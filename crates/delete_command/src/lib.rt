// Delete: a created instance goes, with those that came with it.
#![tactic(auto)]

ghost use Rattle.std.specs.Prelude.{◌≡◌, true, ◌<◌, replicate};
ghost use Rattle.rules.specs.Bytes.{byte};
ghost use Rattle.rules.specs.Catalogue.{is_created};
ghost use Rattle.rules.specs.Commands.{delete};
ghost use Rattle.class_tables.specs.Built.{cat_of, class_for};
ghost use Rattle.table.specs.Places.{InShape};
ghost use Rattle.sound_store.specs.Held.{state_in, Sound, Leaves};
ghost use Rattle.outcome.specs.Refusals.{contents_of};
ghost use Rattle.delete_command.specs.Without.{without_place};

use class_tables::Product;
use outcome::refusals::Refusal;
use store::layout::{LIVE_AT, LIVE_END};
use table::counter;

// Takes a place out of a live table, and moves the counter on.
fn take_out(b: &mut [u8], j: usize)
    requires { InShape b.old × (j < byte b.old 1) }
    ensures { b.new ≡ without_place j b.old }
{
    table::remove_place(b, j);
    counter::move_counter(b);
}

// Answers a Delete of an instance of a created class.
pub fn delete(store: &mut [u8], product: Product, class: u16, number: u16) -> Result<(), Refusal>
    requires { Sound product store.old × (is_created (class_for product class).creation ≡ true) }
    ensures { Leaves product (delete (cat_of product) (state_in product store.old) class number) store.old store.new (contents_of result (replicate 32 0)) }
{
    let key = octets::key_of(class, number);
    let Some(j) = table::place_of(&store[LIVE_AT..LIVE_END], key) else {
        return Err(Refusal::UnknownInstance);
    };
    take_out(&mut store[LIVE_AT..LIVE_END], j);
    Ok(())
}
