// The equipment reports a new content of one of its own attributes: it is written, and sent on if it is new.
#![tactic(auto)]

ghost use Rattle.std.specs.Prelude.{◌≡◌, not, [], ◌∷◌, ◌++◌, ◌+◌, ◌≤◌, length, take, drop};
ghost use Rattle.rules.specs.Maps.{same, first_that_applies};
ghost use Rattle.rules.specs.Bytes.{bytes, laid};
ghost use Rattle.rules.specs.Masks.{mask};
ghost use Rattle.rules.specs.Messages.{avc_type, notification};
ghost use Rattle.rules.specs.Reports.{report_attribute};
ghost use Rattle.store.specs.Layout.{contents_width};
ghost use Rattle.class_tables.specs.Built.{cat_of, class_for};
ghost use Rattle.class_tables.specs.Meaning.{reports};
ghost use Rattle.message_frame.specs.Drops.{drop_of};
ghost use Rattle.table.specs.Places.{InShape};
ghost use Rattle.outcome.specs.Outcomes.{left_by, leaves};
ghost use Rattle.sound_store.specs.Held.{Sound, state_in};
ghost use Rattle.attribute_check.specs.Judges.{is_in, Judgeable};
ghost use Rattle.attribute_report.specs.Spotted.{content_drops};

use class_tables::{Attribute, Product, Rights};
use message_frame::drops::DropReason;
use outcome::Outcome;
use store::layout::{LIVE_AT, LIVE_END};
use table::instances;

// The type of the message that an attribute has a new value.
const AVC: u8 = 0x11;

// Is an attribute with these rights one that the equipment reports?
fn is_reported(rights: Rights) -> bool
    ensures { result ≡ reports rights }
{
    rights == Rights::L
}

// Whether a content can be reported for the attribute of this line, of an instance whose contents begin at `spot`.
fn content_drop(
    live: &[u8],
    product: Product,
    class: u16,
    a: Attribute,
    content: &[u8],
    spot: usize,
) -> Result<(), DropReason>
    requires { InShape live.now × Judgeable (class_for product class) a × (spot + contents_width (class_for product class) ≤ length live.now) }
    ensures { drop_of result ≡ first_that_applies
        (content_drops (is_in (cat_of product) live.now) (class_for product class) live.now spot a content.now) }
{
    if !is_reported(a.rights) {
        return Err(DropReason::NotReported);
    }
    if content.len() != a.size {
        return Err(DropReason::BadContent);
    }
    if !attribute_check::is_legal(live, product, class, a, content, live, spot) {
        return Err(DropReason::BadContent);
    }
    Ok(())
}

// Writes bytes at a place, and says whether others stood there.
fn write(b: &mut [u8], at: usize, v: &[u8]) -> bool
    requires { at + length v.now ≤ length b.old }
    ensures { (b.new ≡ laid at v.now b.old) × (result ≡ not (same v.now (take (length v.now) (drop at b.old)))) }
{
    let is_new = !octets::same_bytes(v, &b[at..at + v.len()]);
    octets::copy_in(b, at, v);
    is_new
}

// Makes the notification of one attribute and its content.
fn notify(reply: &mut [u8], class: u16, number: u16, attribute: u16, content: &[u8])
    requires { (48 ≤ length reply.old) × (1 ≤ attribute) × (attribute ≤ 16) × (length content.now ≤ 30) }
    ensures { reply.new ≡ notification avc_type class number (bytes 2 (mask (attribute ∷ [])) ++ content.now) ++ drop 48 reply.old }
{
    message_frame::begin(reply, 0, AVC, class, number);
    octets::put_number(reply, 8, bits::bit_of(attribute));
    octets::copy_in(reply, 10, content);
}

// A report of an attribute's content: dropped; or written, and a notification made if it is new and its changes are sent.
pub fn report_attribute(
    store: &mut [u8],
    product: Product,
    class: u16,
    number: u16,
    attribute: u8,
    content: &[u8],
    reply: &mut [u8],
) -> Result<Outcome, DropReason>
    requires { Sound product store.old × (48 ≤ length reply.old) }
    ensures { left_by result store.new reply.new
        ≡ leaves product (state_in product store.old) store.old reply.old
        (report_attribute (cat_of product) (state_in product store.old) class number attribute content.now) }
{
    let n = u16::from(attribute);
    let live = &store[LIVE_AT..LIVE_END];
    let spot = instances::locate(live, product, class, number).ok_or(DropReason::NoSuchInstance)?;
    let a = attribute_tables::attribute_of(product, class, n);
    content_drop(live, product, class, a, content, spot)?;
    let is_new = write(&mut store[LIVE_AT..LIVE_END], spot + a.at, content);
    if is_new & a.avc {
        notify(reply, class, number, n, content);
        return Ok(Outcome::Answered);
    }
    Ok(Outcome::Quiet)
}
