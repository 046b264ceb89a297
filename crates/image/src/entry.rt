// An entry of the log: its slot of the ring, and the record there.
ghost use Rattle.std.specs.Prelude.{◌≡◌, ◌+◌, ◌≤◌, ◌<◌, length};
ghost use Rattle.fields.specs.Field.{field, put_fields};
ghost use Rattle.image.specs.Layout.{highest, code_widths, mark_widths, image_length, place_of, index_in, paths_in};
ghost use Rattle.image.specs.Records.{codes, marks, to_side, last_of};
ghost use Rattle.image.specs.Promises.{LoadsEntry, StoresEntry, TellsCarried, Grows};

use crate::layout::{
    CHANGE_ORDINAL_IN, COUNT_IN, INDEX_IN, KEPT_IN, LAST_AT, OWNERS_IN, PATHS_IN, PHASE_IN, RING,
    ROLLBACK_ORDINAL_IN, STRIDE, VALUES_IN,
};
use crate::statuses::{apply_in, change_in, commit_in, pack, rollback_in};
use fields::{get, get_four, put, put_four};
use kinds::{Number, Ordinal, Side, Transaction};

// Where the entry of number n lies: at its slot of the ring. No other function says it.
pub fn place_of(n: usize) -> usize
    requires { 1 ≤ n }
    ensures { result ≡ place_of n }
{
    STRIDE * ((n - 1) % RING)
}

// A side: its two statuses in one number, its ordinal at a place.
fn load_side(s: &[u8], h: u16, o: usize) -> Side
    requires { (h ≤ 1337) × (o + 4 ≤ length s.now) }
    ensures { result ≡ to_side h (field s.now o 4) }
{
    let commit = commit_in(h);
    let apply = apply_in(h);
    let ordinal = Ordinal::of(get::<u32>(s, o));
    Side {
        commit,
        apply,
        ordinal,
    }
}

// The entry of number n, at its slot of the ring.
pub fn load_entry(s: &[u8], n: u16) -> Transaction
    requires { (1 ≤ n) × (image_length ≤ length s.now) }
    ensures { LoadsEntry s.now n result }
{
    let at = place_of(n as usize);
    let statuses = get::<u16>(s, at);
    let change = load_side(s, change_in(statuses), at + CHANGE_ORDINAL_IN);
    let rollback = load_side(s, rollback_in(statuses), at + ROLLBACK_ORDINAL_IN);
    let phase = get::<u8>(s, at + PHASE_IN);
    let count = get::<u8>(s, at + COUNT_IN);
    let index = Number::of(get::<u16>(s, at + INDEX_IN));
    let paths = get_four::<u8>(s, at + PATHS_IN);
    let values = get_four::<u16>(s, at + VALUES_IN);
    let kept = get_four::<u16>(s, at + KEPT_IN);
    let owners = get_four::<u16>(s, at + OWNERS_IN);
    Transaction {
        phase,
        count,
        paths,
        values,
        change,
        rollback,
        index,
        kept,
        owners,
    }
}

// Whether a side of the entry of number n carries the ordinal after a. Of the entry no more is read.
pub fn carries_next(s: &[u8], n: u16, a: Ordinal) -> bool
    requires { (1 ≤ n) × (image_length ≤ length s.now) }
    ensures { TellsCarried s.now n a result }
{
    let at = place_of(n as usize);
    let change = Ordinal::of(get::<u32>(s, at + CHANGE_ORDINAL_IN));
    let rollback = Ordinal::of(get::<u32>(s, at + ROLLBACK_ORDINAL_IN));
    let by_change = change.follows(a);
    let by_rollback = rollback.follows(a);
    by_change | by_rollback
}

fn store_codes(s: &mut [u8], at: usize, t: Transaction)
    requires { at + index_in ≤ length s.old }
    ensures { s.new ≡ put_fields s.old at code_widths (codes t) }
{
    put(s, at, pack(t));
    put(s, at + PHASE_IN, t.phase);
    put(s, at + COUNT_IN, t.count);
}

fn store_marks(s: &mut [u8], at: usize, t: Transaction)
    requires { at + paths_in ≤ length s.old }
    ensures { s.new ≡ put_fields s.old (at + index_in) mark_widths (marks t) }
{
    let x = t.change;
    let y = t.rollback;
    let i = t.index;
    let a = x.ordinal;
    let b = y.ordinal;
    put(s, at + INDEX_IN, i.get());
    put(s, at + CHANGE_ORDINAL_IN, a.get());
    put(s, at + ROLLBACK_ORDINAL_IN, b.get());
}

// The entry of number n, put in its slot of the ring.
pub fn store_entry(s: &mut [u8], n: u16, t: Transaction)
    requires { (1 ≤ n) × (image_length ≤ length s.old) }
    ensures { StoresEntry s.old n t s.new }
{
    let at = place_of(n as usize);
    let paths = t.paths;
    let values = t.values;
    let kept = t.kept;
    let owners = t.owners;
    store_codes(s, at, t);
    store_marks(s, at, t);
    put_four(s, at + PATHS_IN, paths);
    put_four(s, at + VALUES_IN, values);
    put_four(s, at + KEPT_IN, kept);
    put_four(s, at + OWNERS_IN, owners);
}

// One entry more, where the highest number given is n.
pub fn grow(s: &mut [u8], n: u16, t: Transaction)
    requires { (n ≡ last_of s.old) × ((n < highest) × (image_length ≤ length s.old)) }
    ensures { Grows s.old n t s.new }
{
    store_entry(s, n + 1, t);
    put(s, LAST_AT, n + 1);
}
