#![tactic(auto)]
// MIB upload and MIB upload next: the first freezes the table, the second shows a section of what was frozen.
ghost use Rattle.std.specs.Prelude.{◌≡◌, ◌++◌, length, replicate};
ghost use Rattle.rules.specs.Bytes.{bytes, fill, laid};
ghost use Rattle.rules.specs.Walks.{upload, upload_next};
ghost use Rattle.class_tables.specs.Built.{cat_of};
ghost use Rattle.sound_store.specs.Held.{Sound, state_in, Leaves};
ghost use Rattle.upload_walk.specs.SectionBytes.{frozen_block, section_bytes, Showable};

use class_tables::{Product, classes};
use store::layout::{LIVE_AT, LIVE_END, TABLE, TABLE_AT, UPLOAD_AT, UPLOAD_END};
use table::{Shown, Which};

// MIB upload: freezes the table, and answers how many sections it has.
pub fn upload(store: &mut [u8], product: Product, class: u16, number: u16, out: &mut [u8])
    requires { Sound product store.old × (out.old ≡ replicate 32 0) }
    ensures { Leaves product (upload (cat_of product) (state_in product store.old) class number) store.old store.new out.new }
{
    if classes::is_ont_data(class, number) {
        let n = upload_sections::section_total(&store[LIVE_AT..LIVE_END], product);
        octets::freeze(store, TABLE_AT, UPLOAD_AT, TABLE);
        octets::put_number(out, 0, n as u16);
    }
}

// Writes what a section begins with: class, instance, mask.
fn put_head(what: Shown, out: &mut [u8])
    requires { length out.old ≡ 32 }
    ensures { out.new ≡ laid 0 (bytes 2 what.class ++ bytes 2 what.number ++ bytes 2 what.mask) out.old }
{
    octets::put_number(out, 0, what.class);
    octets::put_number(out, 2, what.number);
    octets::put_number(out, 4, what.mask);
}

// Writes a section of the frozen table, the values behind its head.
fn show(store: &[u8], product: Product, what: Shown, out: &mut [u8])
    requires { Showable product store.now what.class what.number what.at what.mask × (length out.old ≡ 32) }
    ensures { out.new ≡ laid 0 (section_bytes (cat_of product) (frozen_block store.now) what.class what.number what.at what.mask) out.old }
{
    put_head(what, out);
    attribute_read::pack(
        &store[LIVE_AT..LIVE_END],
        &store[UPLOAD_AT..UPLOAD_END],
        Which::Frozen,
        product,
        what,
        &mut out[6..32],
    );
}

// MIB upload next: shows the section whose number the contents begin with, if a table was frozen and has it.
pub fn upload_next(
    store: &[u8],
    product: Product,
    class: u16,
    number: u16,
    v: &[u8],
    out: &mut [u8],
)
    requires { Sound product store.now × (length v.now ≡ 32) × (out.old ≡ replicate 32 0) }
    ensures { out.new ≡ fill 32 (upload_next (cat_of product) (state_in product store.now) class number v.now).1 }
{
    if classes::is_ont_data(class, number) & (store[UPLOAD_AT] == 1) {
        let n = usize::from(octets::number_at(v, 0));
        let section = upload_sections::section_at(&store[UPLOAD_AT..UPLOAD_END], product, n);
        if let Some(what) = section {
            show(store, product, what, out);
        }
    }
}
