// The Get command: reads attributes of an instance, and changes nothing.
#![tactic(auto)]

ghost use Rattle.std.specs.Prelude.{◌≡◌, true, ◌++◌, ◌∷◌, length, replicate, OnErr};
ghost use Rattle.std.proofs.Math.Option.{some};
ghost use Rattle.rules.specs.Maps.{first_that_applies};
ghost use Rattle.rules.specs.Bytes.{bytes, fill};
ghost use Rattle.rules.specs.Masks.{named};
ghost use Rattle.rules.specs.Commands.{get, get_results};
ghost use Rattle.rules.specs.Messages.{done};
ghost use Rattle.class_tables.specs.Built.{cat_of, class_for};
ghost use Rattle.class_tables.specs.declared.Product.{Product};
ghost use Rattle.table.specs.declared.Which.TheVariants.{Live};
ghost use Rattle.table.specs.Places.{InShape, keys_in};
ghost use Rattle.table.specs.Spots.{spot_among};
ghost use Rattle.sound_store.specs.Held.{Sound, state_in};
ghost use Rattle.attribute_read.specs.Values.{values_at, Packable};
ghost use Rattle.outcome.specs.Refusals.{contents_of};
ghost use Rattle.get_command.specs.Gets.{get_contents, answer_at};

use class_tables::Product;
use outcome::refusals::Refusal;
use store::layout::{LIVE_AT, LIVE_END};
use table::{Shown, Which, instances};

// The most bytes that the reply to a Get has room for.
const GET_ROOM: usize = 25;

// The first of the results of a Get that applies to an instance that is there.
fn get_refusal(product: Product, class: u16, asked: u16) -> Result<(), Refusal>
    ensures { get_contents result ≡ first_that_applies (get_results true (class_for product class) asked) }
{
    if asked == 0 {
        return Err(Refusal::BadParameter);
    }
    let missing = mask_tests::unsupported(product, class, asked);
    if missing != 0 {
        return Err(Refusal::AttributesMissing(missing));
    }
    if mask_tests::total_size(product, class, asked) > GET_ROOM {
        return Err(Refusal::BadParameter);
    }
    Ok(())
}

// Answers with the mask and the contents that it names, of an instance whose contents begin at a place of the block.
fn show(b: &[u8], product: Product, what: Shown, out: &mut [u8])
    requires { Packable product Live b.now b.now what.class what.number what.at what.mask 25 × (out.old ≡ replicate 32 0) }
    ensures { out.new ≡ fill 32 (done ∷ bytes 2 what.mask ++ values_at (cat_of product) b.now what.class what.number what.at (named what.mask)) }
{
    octets::put_number(out, 1, what.mask);
    attribute_read::pack(b, b, Which::Live, product, what, &mut out[3..28]);
}

// Answers a Get of an instance whose contents begin at a place of the live table.
fn get_at(b: &[u8], product: Product, what: Shown, out: &mut [u8]) -> Result<(), Refusal>
    requires { InShape b.now × (spot_among (cat_of product) (keys_in b.now) what.class what.number ≡ some what.at) × (out.old ≡ replicate 32 0) }
    ensures contents { contents_of result out.new ≡ fill 32 (answer_at product b.now what.class what.number what.at what.mask) }
    ensures unchanged { OnErr result (out.new ≡ out.old) }
{
    get_refusal(product, what.class, what.mask)?;
    show(b, product, what, out);
    Ok(())
}

// Answers with the contents that the mask in `v` names, or with the refusal.
pub fn get(
    store: &[u8],
    product: Product,
    class: u16,
    number: u16,
    v: &[u8],
    out: &mut [u8],
) -> Result<(), Refusal>
    requires { Sound product store.now × (length v.now ≡ 32) × (out.old ≡ replicate 32 0) }
    ensures contents { contents_of result out.new ≡ fill 32 (get (cat_of product) (state_in product store.now) class number v.now).1 }
    ensures unchanged { OnErr result (out.new ≡ out.old) }
{
    let mask = octets::number_at(v, 0);
    let b = &store[LIVE_AT..LIVE_END];
    let Some(at) = instances::locate(b, product, class, number) else {
        return Err(Refusal::UnknownInstance);
    };
    get_at(
        b,
        product,
        Shown {
            class,
            number,
            at,
            mask,
        },
        out,
    )
}
