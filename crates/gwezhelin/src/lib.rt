// The engine for C: thin over the entries, one number for each outcome. include/gwezhelin.h tells a firmware engineer the same;
// gwezhelin_c exports these functions.
#![tactic(auto)]

ghost use Rattle.std.specs.Prelude.{◌≡◌, not, [], eqb};
ghost use Rattle.rules.specs.Run.{message, attribute_report, alarm_report, store_length};
ghost use Rattle.rules.specs.Products.{built_products};
ghost use Rattle.store.specs.Entries.{enter, power_on};
ghost use Rattle.outcome.specs.Outcomes.{outcome_of, started_of};
ghost use Rattle.gwezhelin.specs.Numbers.{number_for, start_number_for, Returns, StartReturns};

use message_frame::drops::DropReason;
use outcome::Outcome;

// A call's number: 0 for a message to send, 255 for nothing to send, else the drop.
fn number(called: Result<Outcome, DropReason>) -> u8
    ensures { result ≡ number_for (outcome_of called []) }
{
    match called {
        Ok(Outcome::Answered) => 0,
        Ok(Outcome::Quiet) => 255,
        Err(dropped) => u8::from(dropped),
    }
}

// A power-on's number: 0, or the drop. (A function for this and `number` would have to turn each result into a third one first.)
fn start_number(started: Result<(), DropReason>) -> u8
    ensures { result ≡ start_number_for (started_of started) }
{
    match started {
        Ok(()) => 0,
        Err(reason) => u8::from(reason),
    }
}

// How many bytes a store has.
pub fn gwz_store_size() -> usize
    ensures { result ≡ store_length }
{
    store::layout::STORE
}

// Writes the fresh state of a product.
pub fn gwz_power_on(store: &mut [u8], product: u8) -> u8
    ensures { StartReturns result store.new (power_on built_products product store.old) }
{
    start_number(engine::power_on(store, product))
}

// A message from the exchange.
pub fn gwz_handle(store: &mut [u8], m: &[u8], reply: &mut [u8]) -> u8
    ensures { Returns result store.new reply.new (enter built_products (message m.now) store.old reply.old) }
{
    number(engine::handle(store, m, reply))
}

// A local report of an attribute's new content.
pub fn gwz_report_attribute(
    store: &mut [u8],
    class_id: u16,
    instance: u16,
    attribute: u8,
    content: &[u8],
    reply: &mut [u8],
) -> u8
    ensures { Returns result store.new reply.new
        (enter built_products (attribute_report class_id instance attribute content.now) store.old reply.old) }
{
    number(engine::report_attribute(store, class_id, instance, attribute, content, reply))
}

// A local report of an alarm: `on` 0 clears it, anything else raises it.
pub fn gwz_report_alarm(
    store: &mut [u8],
    class_id: u16,
    instance: u16,
    alarm: u8,
    on: u8,
    reply: &mut [u8],
) -> u8
    ensures { Returns result store.new reply.new
        (enter built_products (alarm_report class_id instance alarm (not (eqb on 0))) store.old reply.old) }
{
    number(engine::report_alarm(store, class_id, instance, alarm, on != 0, reply))
}
