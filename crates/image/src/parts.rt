// What the log leaves beside it: the highest number given, the last fold, Committed's change, the heads and the tables of
// values.
ghost use Rattle.std.specs.Prelude.{◌≡◌, ◌+◌, ◌≤◌, ◌<◌, length};
ghost use Rattle.image.specs.Layout.{image_length, head_size, table_size};
ghost use Rattle.image.specs.Promises.{TellsLast, TellsFolded, StoresFolded, LoadsChange, StoresChange, LoadsHead, StoresHead, PlacesTable, LoadsValue, StoresValue, ClearsTarget, WritesDiffering};
ghost use Rattle.image.specs.Differing.{WritesPath};

use crate::layout::{
    APPLIED_VALUES_AT, BASE_AT, CHANGE_AT, COMMITTED_VALUES_AT, FOLDED_AT, LAST_AT, ORDINAL_IN,
    REVISION_IN, TABLE_LENGTH, TARGET_IN, TARGET_VALUES_AT, VALUE_SIZE,
};
use fields::{get, put};
use kinds::{Head, Number, Ordinal};

// ---- the highest number given, the last fold, and Committed's change

// The highest number given.
pub fn last_number(s: &[u8]) -> u16
    requires { image_length ≤ length s.now }
    ensures { TellsLast s.now result }
{
    get::<u16>(s, LAST_AT)
}

// 0 where nothing is folded.
pub fn last_fold(s: &[u8]) -> u16
    requires { image_length ≤ length s.now }
    ensures { TellsFolded s.now result }
{
    get::<u16>(s, FOLDED_AT)
}

// The last fold, put in its place.
pub fn store_fold(s: &mut [u8], n: Number)
    requires { image_length ≤ length s.old }
    ensures { StoresFolded s.old n s.new }
{
    put(s, FOLDED_AT, n.get());
}

// Committed's change.
pub fn load_change(s: &[u8]) -> Number
    requires { image_length ≤ length s.now }
    ensures { LoadsChange s.now result }
{
    Number::of(get::<u16>(s, CHANGE_AT))
}

// Committed's change, put in its place.
pub fn store_change(s: &mut [u8], n: Number)
    requires { image_length ≤ length s.old }
    ensures { StoresChange s.old n s.new }
{
    put(s, CHANGE_AT, n.get());
}

// ---- a head, at its place

// The head at a place: Committed's or Applied's.
pub fn load_head(s: &[u8], at: usize) -> Head
    requires { at + head_size ≤ length s.now }
    ensures { LoadsHead s.now at result }
{
    let index = Number::of(get::<u16>(s, at));
    let target = Number::of(get::<u16>(s, at + TARGET_IN));
    let revision = Number::of(get::<u16>(s, at + REVISION_IN));
    let ordinal = Ordinal::of(get::<u32>(s, at + ORDINAL_IN));
    Head {
        index,
        target,
        revision,
        ordinal,
    }
}

// A head, put at a place.
pub fn store_head(s: &mut [u8], at: usize, h: Head)
    requires { at + head_size ≤ length s.old }
    ensures { StoresHead s.old at h s.new }
{
    let index = h.index;
    let target = h.target;
    let revision = h.revision;
    let ordinal = h.ordinal;
    put(s, at, index.get());
    put(s, at + TARGET_IN, target.get());
    put(s, at + REVISION_IN, revision.get());
    put(s, at + ORDINAL_IN, ordinal.get());
}

// ---- a table of values, at its place

// Where a table lies by its number: 1 Committed's, 2 Applied's, 3 the target's, 4 the base.
pub fn table_place(table: u16) -> usize
    ensures { PlacesTable table result }
{
    if table == 1 {
        return COMMITTED_VALUES_AT;
    }
    if table == 2 {
        return APPLIED_VALUES_AT;
    }
    if table == 3 {
        return TARGET_VALUES_AT;
    }
    BASE_AT
}

// The value of a path; 0 where there is no such path.
pub fn load_value(s: &[u8], at: usize, p: u8) -> u16
    requires { at + table_size ≤ length s.now }
    ensures { LoadsValue s.now at p result }
{
    let k = usize::from(p);
    if k < TABLE_LENGTH {
        return get::<u16>(s, at + VALUE_SIZE * k);
    }
    0
}

// Nothing is stored where there is no such path.
pub fn store_value(s: &mut [u8], at: usize, p: u8, v: u16)
    requires { at + table_size ≤ length s.old }
    ensures { StoresValue s.old at p v s.new }
{
    let k = usize::from(p);
    if k < TABLE_LENGTH {
        put(s, at + VALUE_SIZE * k, v);
        return;
    }
}

// ---- all of the target's values

// Every one 0.
pub fn clear_target(s: &mut [u8])
    requires { image_length ≤ length s.old }
    ensures { ClearsTarget s.old s.new }
{
    for k in 0..TABLE_LENGTH {
        put(s, TARGET_VALUES_AT + VALUE_SIZE * k, 0u16);
    }
}

// One path's value is Applied's now: 1 where it differed.
fn write_path(s: &mut [u8], k: usize) -> u16
    requires { (k < 32) × (image_length ≤ length s.old) }
    ensures { WritesPath s.old k result s.new }
{
    let v = get::<u16>(s, APPLIED_VALUES_AT + VALUE_SIZE * k);
    let w = get::<u16>(s, TARGET_VALUES_AT + VALUE_SIZE * k);
    if w == v {
        return 0;
    }
    put(s, TARGET_VALUES_AT + VALUE_SIZE * k, v);
    1
}

// Those that differ from Applied's are Applied's now; answers how many. No other is written.
pub fn write_differing(s: &mut [u8]) -> u16
    requires { image_length ≤ length s.old }
    ensures { WritesDiffering s.old result s.new }
{
    let mut count = 0;
    for k in 0..TABLE_LENGTH {
        count += write_path(s, k);
    }
    count
}
