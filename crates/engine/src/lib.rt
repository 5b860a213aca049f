// The entries of the engine: for every input one outcome, one store and one reply buffer, those that the rules name.
#![tactic(auto)]

ghost use Rattle.std.specs.Prelude.{◌≡◌, ◌≤◌, length, Ok};
ghost use Rattle.rules.specs.Run.{message, attribute_report, alarm_report, answer_anew, handle};
ghost use Rattle.rules.specs.Products.{built_products};
ghost use Rattle.store.specs.Entries.{enter, power_on};
ghost use Rattle.class_tables.specs.Built.{cat_of};
ghost use Rattle.sound_store.specs.Held.{state_in, Sound};
ghost use Rattle.outcome.specs.Outcomes.{left_by, leaves, started_of};
ghost use Rattle.engine.specs.Entering.{Enters};

use class_tables::Product;
use message_frame::drops::DropReason;
use outcome::Outcome;
use store::layout::{MEMORY_AT, MEMORY_END, PRODUCT, REPLY, STORE};

// Answers a command that is no repeat, and remembers it.
fn answer_anew(store: &mut [u8], product: Product, m: &[u8], reply: &mut [u8])
    requires { Sound product store.old × (length m.now ≡ 48) × (48 ≤ length reply.old) }
    ensures { left_by (Ok Outcome.Answered) store.new reply.new
        ≡ leaves product (state_in product store.old) store.old reply.old
        (answer_anew (cat_of product) (state_in product store.old) m.now) }
{
    let kind = m[2] % 32;
    let class = octets::number_at(m, 4);
    let number = octets::number_at(m, 6);
    message_frame::begin(reply, octets::number_at(m, 0), 0x20 + kind, class, number);
    command_dispatch::perform(
        store,
        product,
        kind,
        class,
        number,
        &m[8..40],
        &mut reply[8..40],
    );
    remembered_command::remember(&mut store[MEMORY_AT..MEMORY_END], m, reply);
}

// What a message does to a sound store.
fn take_message(
    store: &mut [u8],
    product: Product,
    m: &[u8],
    reply: &mut [u8],
) -> Result<Outcome, DropReason>
    requires { Sound product store.old × (48 ≤ length reply.old) }
    ensures { left_by result store.new reply.new
        ≡ leaves product (state_in product store.old) store.old reply.old (handle (cat_of product) (state_in product store.old) m.now) }
{
    message_frame::message_drop(m)?;
    if remembered_command::is_repeat(&store[MEMORY_AT..MEMORY_END], m) {
        remembered_command::recall(&store[MEMORY_AT..MEMORY_END], reply);
    } else {
        answer_anew(store, product, m, reply);
    }
    Ok(Outcome::Answered)
}

// What every call begins with: room for a reply, and a sound store; the product is the one whose store it is.
fn begin(store: &[u8], room: usize) -> Result<Product, DropReason>
    ensures { Enters room store.now result }
{
    if room < REPLY {
        return Err(DropReason::ShortReply);
    }
    if soundness::store_ok(store) {
        Product::try_from(store[PRODUCT]).map_err(|_| DropReason::UnsoundStore)
    } else {
        Err(DropReason::UnsoundStore)
    }
}

// A message from the exchange.
pub fn handle(store: &mut [u8], m: &[u8], reply: &mut [u8]) -> Result<Outcome, DropReason>
    ensures { left_by result store.new reply.new ≡ enter built_products (message m.now) store.old reply.old }
{
    let product = begin(store, reply.len())?;
    take_message(store, product, m, reply)
}

// A local report that an attribute has a new content.
pub fn report_attribute(
    store: &mut [u8],
    class: u16,
    number: u16,
    attribute: u8,
    content: &[u8],
    reply: &mut [u8],
) -> Result<Outcome, DropReason>
    ensures { left_by result store.new reply.new
        ≡ enter built_products (attribute_report class number attribute content.now) store.old reply.old }
{
    let product = begin(store, reply.len())?;
    attribute_report::report_attribute(store, product, class, number, attribute, content, reply)
}

// A local report that an alarm is raised or cleared.
pub fn report_alarm(
    store: &mut [u8],
    class: u16,
    number: u16,
    alarm: u8,
    on: bool,
    reply: &mut [u8],
) -> Result<Outcome, DropReason>
    ensures { left_by result store.new reply.new ≡ enter built_products (alarm_report class number alarm on) store.old reply.old }
{
    let product = begin(store, reply.len())?;
    alarm_report::report_alarm(store, product, class, number, alarm, on, reply)
}

// The fresh state of the product that a number names.
pub fn power_on(store: &mut [u8], product: u8) -> Result<(), DropReason>
    ensures { (started_of result, store.new) ≡ power_on built_products product store.old }
{
    if store.len() < STORE {
        return Err(DropReason::UnsoundStore);
    }
    let Ok(built) = Product::try_from(product) else {
        return Err(DropReason::NotReported);
    };
    reset_command::write_fresh(store, built);
    Ok(())
}
