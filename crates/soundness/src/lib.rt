// Is a store sound? A test for each part, over the part's own bytes; what is known of a class stands in `class_tests`. Tests that need no
// order are joined by `&`, which makes no branch.
#![tactic(auto)]

ghost use Rattle.std.specs.Prelude.{◌≡◌, ◌+◌, ◌≤◌, length, take, drop};
ghost use Rattle.rules.specs.Maps.{◌and◌};
ghost use Rattle.rules.specs.Legal.{automatic_keys};
ghost use Rattle.rules.specs.Run.{store_length};
ghost use Rattle.rules.specs.Products.{built_products};
ghost use Rattle.class_tables.specs.Built.{cat_of};
ghost use Rattle.store.specs.Layout.{slot_count, block_length, memory_length};
ghost use Rattle.store.specs.Decode.{sound};
ghost use Rattle.slot_tests.specs.Tests.{alarms_test};
ghost use Rattle.soundness.specs.Tests.{table_test, memory_test, optional_test, store_test};

use class_tables::Product;
use store::layout::{
    ALARMS_AT, ALARMS_END, BLOCK, IN_USE, LIVE_AT, LIVE_END, MEMORY_AT, MEMORY_END, PLACE_COUNT,
    PLACES, PRODUCT, SLOTS, STORE, UPLOAD_AT, UPLOAD_END, WALK, WALK_AT, WALK_END,
};

// A block's table: how many places are in use, the slots, the places. The byte in front may be anything.
fn table_ok(product: Product, b: &[u8]) -> bool
    requires { length b.now ≡ block_length }
    ensures { result ≡ table_test (cat_of product) (drop 1 b.now) }
{
    let n = usize::from(b[IN_USE]);
    if PLACE_COUNT < n {
        return false;
    }
    if !slot_tests::slots_ok(product, &b[SLOTS..PLACES]) {
        return false;
    }
    place_runs::places_ok(product, n, &b[PLACES..BLOCK])
}

// The part of the remembered command: none, or one that was not dropped for its header.
fn memory_part_ok(b: &[u8]) -> bool
    requires { length b.now ≡ 1 + memory_length }
    ensures { result ≡ optional_test memory_test b.now }
{
    if b[0] == 0 {
        return octets::zeros_from(b, 1);
    }
    (b[0] == 1) & (b[4] == 0x0A) & (b[3] / 32 == 2) & !((b[1] == 0) & (b[2] == 0))
}

// The part of the alarm walk: none, or its alarms.
fn walk_part_ok(product: Product, b: &[u8]) -> bool
    requires { length b.now ≡ 1 + slot_count }
    ensures { result ≡ optional_test (alarms_test (cat_of product) (automatic_keys (cat_of product))) b.now }
{
    if b[0] == 0 {
        return octets::zeros_from(b, 1);
    }
    (b[0] == 1) & slot_tests::alarms_ok(product, &b[1..WALK])
}

// The live block, and the part of the upload: none, or its table. A table that equals the live one isn't tested again.
fn tables_ok(product: Product, live: &[u8], upload: &[u8]) -> bool
    requires { (length live.now ≡ block_length) × (length upload.now ≡ block_length) }
    ensures { result ≡ (table_test (cat_of product) (drop 1 live.now) and optional_test (table_test (cat_of product)) upload.now) }
{
    if !table_ok(product, live) {
        return false;
    }
    if upload[0] == 0 {
        return octets::zeros_from(upload, 1);
    }
    if upload[0] != 1 {
        return false;
    }
    if bulk_octets::alike(&live[1..BLOCK], &upload[1..BLOCK]) {
        return true;
    }
    table_ok(product, upload)
}

// The parts of a store of one product. Product, alarm number and class 2 may be any byte.
fn parts_ok(product: Product, s: &[u8]) -> bool
    requires { store_length ≤ length s.now }
    ensures { result ≡ store_test (cat_of product) (take store_length s.now) }
{
    memory_part_ok(&s[MEMORY_AT..MEMORY_END])
        & slot_tests::alarms_ok(product, &s[ALARMS_AT..ALARMS_END])
        & walk_part_ok(product, &s[WALK_AT..WALK_END])
        & tables_ok(product, &s[LIVE_AT..LIVE_END], &s[UPLOAD_AT..UPLOAD_END])
}

// Is a store sound?
pub fn store_ok(s: &[u8]) -> bool
    ensures { result ≡ sound built_products s.now }
{
    if s.len() < STORE {
        return false;
    }
    match Product::try_from(s[PRODUCT]) {
        Ok(product) => parts_ok(product, s),
        Err(_) => false,
    }
}
