// Whether an image is well-formed: the scan that every call makes first, so it returns at the first test that fails and
// reads nothing that its test does not need.
ghost use Rattle.std.specs.Prelude.{◌≡◌, ◌&&◌, ◌+◌, ◌-◌, ◌%◌, ◌≤◌, ◌<◌, length, ltb};
ghost use Rattle.fields.specs.Field.{field, fields_at, ones, twos};
ghost use Rattle.machine.specs.WellFormed.{pairs_ok, recalls_ok, all_at_most, head_ok, heads_ok};
ghost use Rattle.machine.specs.Stores.{of_owners};
ghost use Rattle.image.specs.Layout.{place_of, slots, highest, stride, count_in, paths_in, owners_in, head_size, image_length};
ghost use Rattle.image.specs.Records.{head_at};
ghost use Rattle.image.specs.View.{table_of, view};
ghost use Rattle.image.specs.Formed.{all_kept, statuses_ok, marks_ok, flags_ok, entry_formed};
ghost use Rattle.image.specs.Promises.{TellsFormed};

use crate::entry::place_of;
use crate::layout::{
    APPLIED_AT, CHANGE_AT, CHANGE_ORDINAL_IN, COMMITTED_AT, COMMITTED_REVISION_AT,
    CONFIGURATION_AT, CONNECTED_IN, COUNT_IN, FOLDED_AT, HIGHEST_ORDINAL, HIGHEST_PACKED,
    IMAGE_LENGTH, INDEX_IN, LAST_AT, MASTERSHIP_AT, NODES, ORDINAL_IN, OWNERS_AT, OWNERS_IN,
    PATHS_IN, PHASE_IN, REMEMBERS_AT, REVISION_IN, RING, ROLLBACK_ORDINAL_IN, RUNNING_AT,
    SECOND_PATH_IN, SLOTS, STRIDE, TABLE_LENGTH, TARGET_IN, THIRD_PATH_IN, VALUE_SIZE, node_at,
};
use fields::{get, get_four};

// The four statuses of the entry at a place, in one number.
fn statuses_formed(s: &[u8], at: usize) -> bool
    requires { at + stride ≤ length s.now }
    ensures { result ≡ statuses_ok s.now at }
{
    get::<u16>(s, at) <= HIGHEST_PACKED
}

// The owners that entry n at a place remembers.
fn recalls_formed(s: &[u8], at: usize, n: usize) -> bool
    requires { (n ≤ highest) × (at + stride ≤ length s.now) }
    ensures { result ≡ recalls_ok n (fields_at s.now (at + owners_in) twos) }
{
    let i = n as u16;
    let o = get_four::<u16>(s, at + OWNERS_IN);
    ((o[0] < i) & (o[1] < i)) & ((o[2] < i) & (o[3] < i))
}

// The phase, r.index, the owners remembered and the two ordinals of entry n at a place.
fn marks_formed(s: &[u8], at: usize, n: usize) -> bool
    requires { (n ≤ highest) × (at + stride ≤ length s.now) }
    ensures { result ≡ marks_ok s.now at n }
{
    let phase = get::<u8>(s, at + PHASE_IN);
    if phase < 1 {
        return false;
    }
    if 2 < phase {
        return false;
    }
    let index = get::<u16>(s, at + INDEX_IN) as usize;
    if n <= index {
        return false;
    }
    if recalls_formed(s, at, n) {
        if HIGHEST_ORDINAL < get::<u32>(s, at + CHANGE_ORDINAL_IN) {
            return false;
        }
        return get::<u32>(s, at + ROLLBACK_ORDINAL_IN) <= HIGHEST_ORDINAL;
    }
    false
}

// Whether the second of the two paths at a place is above the first and below 32.
fn rises(s: &[u8], at: usize) -> bool
    requires { at + 2 ≤ length s.now }
    ensures { result ≡ (ltb (field s.now at 1) (field s.now (at + 1) 1) && ltb (field s.now (at + 1) 1) 32) }
{
    let a = get::<u8>(s, at);
    let b = get::<u8>(s, at + 1);
    if b <= a {
        return false;
    }
    b < 32
}

// The number of pairs, and as many paths, of the entry at a place.
fn pairs_formed(s: &[u8], at: usize) -> bool
    requires { at + stride ≤ length s.now }
    ensures { result ≡ pairs_ok (field s.now (at + count_in) 1) (fields_at s.now (at + paths_in) ones) }
{
    let n = get::<u8>(s, at + COUNT_IN);
    if n < 1 {
        return false;
    }
    if 4 < n {
        return false;
    }
    if 32 <= get::<u8>(s, at + PATHS_IN) {
        return false;
    }
    if n < 2 {
        return true;
    }
    if rises(s, at + PATHS_IN) {
        if n < 3 {
            return true;
        }
        if rises(s, at + SECOND_PATH_IN) {
            if n < 4 {
                return true;
            }
            return rises(s, at + THIRD_PATH_IN);
        }
        return false;
    }
    false
}

// Entry n, at its place.
fn entry_formed(s: &[u8], at: usize, n: usize) -> bool
    requires { (at ≡ place_of n) × ((n ≤ highest) × (length s.now ≡ image_length)) }
    ensures { result ≡ entry_formed s.now n }
{
    if statuses_formed(s, at) {
        if marks_formed(s, at, n) {
            return pairs_formed(s, at);
        }
        return false;
    }
    false
}

// Entries b + 1 to n, where their slots lie one after another.
fn run_formed(s: &[u8], b: usize, n: usize) -> bool
    requires { (b ≤ n) × ((b % slots + (n - b) ≤ slots) × ((n ≤ highest) × (length s.now ≡ image_length))) }
    ensures { result ≡ all_kept (entry_formed s.now) b n }
{
    let mut at = place_of(b + 1);
    for i in b..n {
        if !entry_formed(s, at, i + 1) {
            return false;
        }
        at += STRIDE;
    }
    true
}

// Entries b + 1 to n, no more than the ring has: up to the ring's end, and from its start on.
fn entries_formed(s: &[u8], b: usize, n: usize) -> bool
    requires { (b ≤ n) × ((n - b ≤ slots) × ((n ≤ highest) × (length s.now ≡ image_length))) }
    ensures { result ≡ all_kept (entry_formed s.now) b n }
{
    let end = b + (RING - b % RING);
    if n <= end {
        return run_formed(s, b, n);
    }
    if run_formed(s, b, end) {
        return run_formed(s, end, n);
    }
    false
}

// A head where the highest number given is n.
fn head_formed(s: &[u8], at: usize, n: u16) -> bool
    requires { at + head_size ≤ length s.now }
    ensures { result ≡ head_ok n (head_at s.now at) }
{
    let i = get::<u16>(s, at);
    let t = get::<u16>(s, at + TARGET_IN);
    let v = get::<u16>(s, at + REVISION_IN);
    let o = get::<u32>(s, at + ORDINAL_IN);
    ((i <= n) & ((t <= n) & (v <= n))) & (o <= HIGHEST_ORDINAL)
}

// Whether each owner is at most n. No test in the loop but its own, so that a machine makes many of them at once.
fn owners_formed(s: &[u8], n: u16) -> bool
    requires { length s.now ≡ image_length }
    ensures { result ≡ all_at_most n (table_of s.now of_owners) }
{
    let mut ok = true;
    for k in 0..TABLE_LENGTH {
        let owner = get::<u16>(s, OWNERS_AT + VALUE_SIZE * k);
        ok = ok & (owner <= n);
    }
    ok
}

// The two heads, Committed's change, the owners and the master, where the highest number given is n.
fn heads_formed(s: &[u8], n: u16) -> bool
    requires { length s.now ≡ image_length }
    ensures { result ≡ heads_ok (view s.now) n }
{
    let committed = head_formed(s, COMMITTED_AT, n);
    let applied = head_formed(s, APPLIED_AT, n);
    let change = get::<u16>(s, CHANGE_AT);
    let revision = get::<u16>(s, COMMITTED_REVISION_AT);
    let owners = owners_formed(s, change);
    let master = get::<u8>(s, MASTERSHIP_AT);
    (committed & applied) & (((change <= n) & ((revision <= change) & owners)) & (master <= 8))
}

// The configuration's state, and the flags of the target and the nodes.
fn flags_formed(s: &[u8]) -> bool
    requires { length s.now ≡ image_length }
    ensures { result ≡ flags_ok s.now }
{
    let state = get::<u8>(s, CONFIGURATION_AT);
    let running = get::<u8>(s, RUNNING_AT);
    let remembers = get::<u8>(s, REMEMBERS_AT);
    let mut ok = (running <= 1) & (remembers <= 1);
    for k in 0..NODES {
        ok = ok & (get::<u8>(s, node_at(k) + CONNECTED_IN) <= 1);
    }
    ((1 <= state) & (state <= 3)) & ok
}

// Whether the bytes, whatever they are and however many, are a well-formed image.
pub fn well_formed(s: &[u8]) -> bool
    ensures { TellsFormed s.now result }
{
    if s.len() != IMAGE_LENGTH {
        return false;
    }
    let n = get::<u16>(s, LAST_AT);
    let b = get::<u16>(s, FOLDED_AT);
    if n < b {
        return false;
    }
    if SLOTS < n - b {
        return false;
    }
    let heads = heads_formed(s, n);
    let flags = flags_formed(s);
    if heads & flags {
        return entries_formed(s, b as usize, n as usize);
    }
    false
}
