// A command goes to the function that answers it.
#![tactic(auto)]

ghost use Rattle.std.specs.Prelude.{◌≡◌, false, length, replicate, OnErr};
ghost use Rattle.rules.specs.Maps.{among};
ghost use Rattle.rules.specs.Messages.{without_result};
ghost use Rattle.rules.specs.Run.{answer};
ghost use Rattle.class_tables.specs.Built.{cat_of};
ghost use Rattle.message_frame.specs.Commands.{command_number};
ghost use Rattle.outcome.specs.Refusals.{contents_of};
ghost use Rattle.sound_store.specs.Held.{state_in, Sound, Leaves};

use class_tables::{Product, classes};
use message_frame::commands::Command;
use outcome::refusals::{Refusal, put_refusal};

// A command that is no walk: the class is known, the command is for it, and then the command's own results.
fn with_result(
    store: &mut [u8],
    product: Product,
    command: Command,
    class: u16,
    number: u16,
    v: &[u8],
    out: &mut [u8],
) -> Result<(), Refusal>
    requires { Sound product store.old × (among (command_number command) without_result ≡ false) × (length v.now ≡ 32) × (out.old ≡ replicate 32 0) }
    ensures answered { Leaves product (answer (cat_of product) (state_in product store.old) (command_number command) class number v.now)
        store.old store.new (contents_of result out.new) }
    ensures unchanged { OnErr result (out.new ≡ out.old) }
{
    if !classes::known(product, class) {
        return Err(Refusal::UnknownClass);
    }
    if !classes::allows(product, class, u8::from(command)) {
        return Err(Refusal::NotSupported);
    }
    match command {
        Command::Create => create_command::create(store, product, class, number, v),
        Command::Delete => delete_command::delete(store, product, class, number),
        Command::Set => set_command::set(store, product, class, number, v),
        Command::Get => get_command::get(store, product, class, number, v, out),
        Command::Reset => reset_command::reset(store, product, class, number),
        _ => unreachable!(),
    }
}

// The command with this number; what a refusal leaves of the contents is zero still.
fn command(
    store: &mut [u8],
    product: Product,
    kind: u8,
    class: u16,
    number: u16,
    v: &[u8],
    out: &mut [u8],
) -> Result<(), Refusal>
    requires { Sound product store.old × (length v.now ≡ 32) × (out.old ≡ replicate 32 0) }
    ensures answered { Leaves product (answer (cat_of product) (state_in product store.old) kind class number v.now)
        store.old store.new (contents_of result out.new) }
    ensures unchanged { OnErr result (out.new ≡ out.old) }
{
    let Ok(command) = Command::try_from(kind) else {
        return Err(Refusal::NotSupported);
    };
    match command {
        Command::AllAlarms => alarm_walk::all_alarms(store, product, class, number, out),
        Command::AlarmsNext => alarm_walk::alarms_next(store, product, class, number, v, out),
        Command::Upload => upload_walk::upload(store, product, class, number, out),
        Command::UploadNext => upload_walk::upload_next(store, product, class, number, v, out),
        _ => return with_result(store, product, command, class, number, v, out),
    }
    Ok(())
}

// Answers a command: `v` are its 32 bytes of contents, `out` those of its reply.
pub fn perform(
    store: &mut [u8],
    product: Product,
    kind: u8,
    class: u16,
    number: u16,
    v: &[u8],
    out: &mut [u8],
)
    requires { Sound product store.old × (length v.now ≡ 32) × (out.old ≡ replicate 32 0) }
    ensures { Leaves product (answer (cat_of product) (state_in product store.old) kind class number v.now)
        store.old store.new out.new }
{
    if let Err(refusal) = command(store, product, kind, class, number, v, out) {
        put_refusal(out, refusal);
    }
}
