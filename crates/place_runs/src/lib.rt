// The places of a table, tested run by run. Those of one class stand together, and their keys rise, so that one comparison tells that a place is of
// the run's class and comes after the one before it. A class that can be created has its loop here, and its test of a place in `class_tests`.
#![tactic(auto)]

ghost use Rattle.std.specs.Prelude.{◌≡◌, ◌+◌, ◌-◌, ◌*◌, ◌≤◌, ◌&&◌, length, drop, nat_le, nat_lt};
ghost use Rattle.rules.specs.Catalogue.{key};
ghost use Rattle.store.specs.Layout.{place_length, places_length, place_count};
ghost use Rattle.class_tables.specs.Built.{cat_of};
ghost use Rattle.place_runs.specs.Tests.{places_test};
ghost use Rattle.place_runs.specs.Runs.{place_in, InPlaces, run_end};

use class_tables::Product;
use class_tests::PORT_FRONT;
use store::layout::{ENTRY, KEY, PLACE};

// The first key of a class, and the first one behind it.
const PROFILES: u32 = 45 * 65536;

const PROFILES_END: u32 = 46 * 65536;

const PORTS: u32 = 47 * 65536;

const PORTS_END: u32 = 48 * 65536;

// How many bytes of a port's place are zero in every product.
const SPARE: usize = ENTRY - PORT_FRONT;

// Is a key `low` or more, and below `top`? One comparison: what is below `low` wraps to above the range.
fn in_run(k: u32, low: u32, top: u32) -> bool
    requires { low ≤ top }
    ensures { result ≡ (nat_le low k && nat_lt k top) }
{
    k.wrapping_sub(low) < top - low
}

// The bytes of place i.
fn place_at(b: &[u8], i: usize) -> &[u8]
    requires { (i + 1) * place_length ≤ length b.now }
    ensures { (result.now ≡ place_in b.now i) × (length result.now ≡ place_length) }
{
    let a = i * PLACE;
    let e = a + PLACE;
    &b[a..e]
}

// The bytes of a place behind its first n.
fn behind(r: &[u8], n: usize) -> &[u8]
    requires { n ≤ length r.now }
    ensures { (result.now ≡ drop n r.now) × (length result.now ≡ length r.now - n) }
{
    &r[n..]
}

// The run of bridge service profiles, 45, from a place on. It and `ports` differ in the class, its test and the bytes gathered: one loop for both, over a
// closure, with the bytes gathered behind it, was tried, and takes 3,276 instructions for the test of a full table where these take 2,512.
fn profiles(product: Product, b: &[u8], from: usize, n: usize) -> Option<usize>
    requires { InPlaces b.now from n }
    ensures { result ≡ run_end (cat_of product) 45 b.now (n - from) from (key 45 0) }
{
    let mut low = PROFILES;
    for i in from..n {
        let r = place_at(b, i);
        let k = octets::key_at(r, 0);
        if !in_run(k, low, PROFILES_END) {
            return Some(i);
        }
        if !class_tests::profile_ok(product, behind(r, KEY)) {
            return None;
        }
        low = k + 1;
    }
    Some(n)
}

// The run of ports, 47, from a place on. The zeros behind the contents are gathered over the run, and tested once.
fn ports(product: Product, b: &[u8], from: usize, n: usize) -> Option<usize>
    requires { InPlaces b.now from n }
    ensures { result ≡ run_end (cat_of product) 47 b.now (n - from) from (key 47 0) }
{
    let mut spare = [0u8; SPARE];
    let mut low = PORTS;
    let mut end = from;
    for i in from..n {
        let r = place_at(b, i);
        let k = octets::key_at(r, 0);
        if !in_run(k, low, PORTS_END) {
            break;
        }
        if !class_tests::port_ok(product, behind(r, KEY)) {
            return None;
        }
        bulk_octets::gather(&mut spare, behind(r, KEY + PORT_FRONT));
        low = k + 1;
        end = i + 1;
    }
    octets::zeros(&spare).then_some(end)
}

// So many places, whose keys rise, then zeros: a run of each class in their order.
pub fn places_ok(product: Product, n: usize, b: &[u8]) -> bool
    requires { (n ≤ place_count) × (length b.now ≡ places_length) }
    ensures { result ≡ places_test (cat_of product) n 0 b.now }
{
    let Some(to_ports) = profiles(product, b, 0, n) else {
        return false;
    };
    let Some(end) = ports(product, b, to_ports, n) else {
        return false;
    };
    (end == n) & octets::zeros_from(b, n * PLACE)
}
