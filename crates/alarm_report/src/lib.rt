// The report that an alarm is raised or cleared: the alarm's bit in the store, and the notification.
#![tactic(auto)]

ghost use Rattle.std.specs.Prelude.{◌≡◌, [], ◌∷◌, ◌++◌, ◌<◌, ◌≤◌, length, drop, Ok};
ghost use Rattle.rules.specs.Maps.{given};
ghost use Rattle.rules.specs.Bytes.{byte, laid};
ghost use Rattle.rules.specs.Messages.{next_number};
ghost use Rattle.rules.specs.Reports.{report_alarm};
ghost use Rattle.rules.specs.Run.{store_length};
ghost use Rattle.store.specs.Layout.{slot_count, alarm_number_at};
ghost use Rattle.class_tables.specs.Built.{cat_of};
ghost use Rattle.class_tables.specs.Finding.{found_of};
ghost use Rattle.sound_store.specs.Held.{state_in, Sound};
ghost use Rattle.outcome.specs.Outcomes.{left_by, leaves};
ghost use Rattle.alarm_report.specs.Turned.{notice, turning, turned_at};
ghost use Rattle.class_tables.specs.declared.Product.{Product};

use class_tables::{Product, classes, slots};
use message_frame::drops::DropReason;
use outcome::Outcome;
use store::layout::{ALARM_NUMBER, ALARMS_AT, ALARMS_END, LIVE_AT, LIVE_END};
use table::instances;

// The type of an alarm's notification.
const ALARM: u8 = 0x10;

// Where the first byte of the alarms and the alarm number stand in a notification.
const BITMAP: usize = 8;

const SEQUENCE: usize = 39;

// Turns an alarm on or off in a slot's byte, and answers that byte as it is now. Nothing if the alarm was so already.
fn turn(alarms: &mut [u8], slot: usize, alarm: u8, on: bool) -> Option<u8>
    requires { (slot < length alarms.old) × (alarm < 8) }
    ensures { (found_of result ≡ turning (byte alarms.old slot) alarm on)
        × (alarms.new ≡ given (found_of result) alarms.old (λ y. laid slot (y ∷ []) alarms.old)) }
{
    let was = alarms[slot];
    if bits::alarm_on(was, alarm) == on {
        return None;
    }
    let is = bits::alarm_turned(was, alarm, on);
    alarms[slot] = is;
    Some(is)
}

// Moves the alarm number on, and writes the notification of an instance's alarms into a buffer's first 48 bytes: it has the new number.
fn notify(store: &mut [u8], class: u16, number: u16, alarms: u8, reply: &mut [u8])
    requires { (store_length ≤ length store.old) × (48 ≤ length reply.old) }
    ensures { (store.new ≡ laid alarm_number_at (next_number (byte store.old alarm_number_at) ∷ []) store.old)
        × (reply.new ≡ notice class number alarms (next_number (byte store.old alarm_number_at)) ++ drop 48 reply.old) }
{
    let sequence = bits::next_number(store[ALARM_NUMBER]);
    store[ALARM_NUMBER] = sequence;
    message_frame::begin(reply, 0, ALARM, class, number);
    reply[BITMAP] = alarms;
    reply[SEQUENCE] = sequence;
}

// Turns an alarm on or off in a slot's byte of a store. If it was not so already, the notification tells it.
fn turn_in(
    store: &mut [u8],
    slot: usize,
    class: u16,
    number: u16,
    alarm: u8,
    on: bool,
    reply: &mut [u8],
) -> Outcome
    requires { (store_length ≤ length store.old) × (slot < slot_count) × (alarm < 8) × (48 ≤ length reply.old) }
    ensures { left_by (Ok result) store.new reply.new ≡ turned_at slot class number alarm on store.old reply.old }
{
    match turn(&mut store[ALARMS_AT..ALARMS_END], slot, alarm, on) {
        Some(alarms) => {
            notify(store, class, number, alarms, reply);
            Outcome::Answered
        }
        None => Outcome::Quiet,
    }
}

// Takes the report of an alarm. Only an instance that is there by itself, and so has a slot, can have alarms.
pub fn report_alarm(
    store: &mut [u8],
    product: Product,
    class: u16,
    number: u16,
    alarm: u8,
    on: bool,
    reply: &mut [u8],
) -> Result<Outcome, DropReason>
    requires { Sound product store.old × (48 ≤ length reply.old) }
    ensures { left_by result store.new reply.new
        ≡ leaves product (state_in product store.old) store.old reply.old
        (report_alarm (cat_of product) (state_in product store.old) class number alarm on) }
{
    let Some(slot) = slots::slot_of(product, class, number) else {
        if instances::is_there(&store[LIVE_AT..LIVE_END], product, class, number) {
            return Err(DropReason::NotReported);
        }
        return Err(DropReason::NoSuchInstance);
    };
    if !classes::alarm_declared(product, class, alarm) {
        return Err(DropReason::NotReported);
    }
    Ok(turn_in(store, slot, class, number, alarm, on, reply))
}
