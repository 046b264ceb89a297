// Import, the old controller's lists (order 6): a list is judged whole, and then written on a fresh image, entry by entry, as its
// calls would leave it.
ghost use Rattle.std.specs.Prelude.{false, ◌≡◌, ◌+◌, ◌≤◌, length};
ghost use Rattle.kinds.specs.Numbers.{next_ordinal};
ghost use Rattle.machine.specs.Calls.{valid_change, present_of};
ghost use Rattle.machine.specs.Import.{adds, two, pairs_at, entry_in, entries_of, opening, import_calls};
ghost use Rattle.machine.specs.Entered.{committed_as, undone_as, change_stores, undo_stores};
ghost use Rattle.image.specs.Layout.{image_length, committed_at};
ghost use Rattle.image.specs.Records.{head_at, put_head_at};
ghost use Rattle.image.specs.View.{view, written};
ghost use Rattle.image.specs.Fresh.{fresh_image};
ghost use Rattle.controller.specs.Nights.{lent_from};
ghost use Rattle.controller.specs.Imports.{Imports, refuses, Listed, Placed, judged_one, Judges, Accepts, entry_stores, Changes, Undoes, Enters};

use crate::calls::{connect, master, start};
use crate::deciding::present;
use crate::pairs::{entered, two_at, valid};
use crate::perform::lay_committed;
use image::{
    COMMITTED_AT, grow, last_number, load_entry, load_head, make_fresh, store_change, store_entry,
    store_head,
};
use kinds::{Head, Number, Ordinal, Side, Status, Transaction};
use rules::Present;

// The refusal, and the place in the list of the first bad entry, from 1; 0 and 0 where it is accepted.
#[derive(Clone, Copy)]
pub struct Imported {
    pub answer: u8,
    pub position: u16,
}

impl Imported {
    fn refuses(answer: u8, position: u16) -> Imported
        ensures { result ≡ refuses answer position }
    {
        Imported { answer, position }
    }
}

// One entry judged: the refusal or 0, the changes up to it, and how many of them are live.
#[derive(Clone, Copy)]
struct Judged {
    answer: u8,
    changes: u16,
    depth: usize,
}

// ---- the list, judged

// Whether the n pairs of the entry at a place are those of a valid change.
fn change_ok(list: &[u8], at: usize, n: u16) -> bool
    requires { Placed list.now at }
    ensures { result ≡ valid_change (pairs_at list.now (at + 4) n) }
{
    if 4 < n {
        return false;
    }
    let from = at + 4;
    let to = from + 4 * (n as usize);
    valid(&list[from..to])
}

fn judge_change(list: &[u8], at: usize, n: u16, changes: u16, depth: usize) -> Judged
    requires { Placed list.now at × ((changes ≤ 128) × (depth ≤ 128)) }
    ensures { result ≡ judged_one changes depth 0 (adds (pairs_at list.now (at + 4) n)) }
{
    if change_ok(list, at, n) {
        if changes < 128 {
            return Judged {
                answer: 0,
                changes: changes + 1,
                depth: depth + 1,
            };
        }
        return Judged {
            answer: 4,
            changes,
            depth,
        };
    }
    Judged {
        answer: 3,
        changes,
        depth,
    }
}

// The entry at a place: so many changes come before it, of which `depth` are live, the newest at place `top`.
fn judge_entry(list: &[u8], at: usize, changes: u16, depth: usize, top: u16) -> Judged
    requires { Placed list.now at × ((changes ≤ 128) × (depth ≤ 128)) }
    ensures { result ≡ judged_one changes depth top (entry_in list.now at) }
{
    let kind = two_at(list, at);
    let n = two_at(list, at + 2);
    if kind == 1 {
        return judge_change(list, at, n, changes, depth);
    }
    if kind == 2 {
        if (1 <= depth) & (n == top) {
            return Judged {
                answer: 0,
                changes,
                depth: depth - 1,
            };
        }
        return Judged {
            answer: 16,
            changes,
            depth,
        };
    }
    Judged {
        answer: 16,
        changes,
        depth,
    }
}

// The whole list: nothing is written. The places of the live changes are kept from 1 upward, the newest at `depth`.
#[inline(never)]
fn judge(list: &[u8]) -> Imported
    requires { Listed list.now }
    ensures { Judges list.now result }
{
    let n = list.len() / 20;
    let mut live = [0u16; 130];
    let mut depth: usize = 0;
    let mut changes: u16 = 0;
    for k in 0..n {
        let place = (k + 1) as u16;
        let top = live[depth];
        let v = judge_entry(list, 20 * k, changes, depth, top);
        if 0 < v.answer {
            return Imported::refuses(v.answer, place);
        }
        live[depth + 1] = place;
        depth = v.depth;
        changes = v.changes;
    }
    Imported::refuses(0, 0)
}

// ---- what its calls leave

// A fresh controller whose target forgets and runs, and whose master is node 1.
fn begin(s: &mut [u8])
    requires { length s.old ≡ image_length }
    ensures { s.new ≡ lent_from (fresh_image false) opening }
{
    make_fresh(s, false);
    start(s);
    connect(s, 1);
    master(s, 1);
}

// An entry's change, committed and not applied: it returns to `index`, and to what is present.
fn committed(t: Transaction, index: Number, ordinal: Ordinal, present: Present) -> Transaction
    ensures { result ≡ committed_as t index ordinal present }
{
    let kept = present.values;
    let owners = present.owners;
    let count = t.count;
    let paths = t.paths;
    let values = t.values;
    let change = Side {
        commit: Status::Complete,
        apply: Status::Pending,
        ordinal,
    };
    let rollback = Side {
        commit: Status::None,
        apply: Status::None,
        ordinal: Ordinal::of(0),
    };
    Transaction {
        phase: 1,
        count,
        paths,
        values,
        change,
        rollback,
        index,
        kept,
        owners,
    }
}

// An entry's rollback, committed and not applied.
fn undone(t: Transaction, ordinal: Ordinal) -> Transaction
    ensures { result ≡ undone_as t ordinal }
{
    let count = t.count;
    let paths = t.paths;
    let values = t.values;
    let change = t.change;
    let index = t.index;
    let kept = t.kept;
    let owners = t.owners;
    let rollback = Side {
        commit: Status::Complete,
        apply: Status::Pending,
        ordinal,
    };
    Transaction {
        phase: 2,
        count,
        paths,
        values,
        change,
        rollback,
        index,
        kept,
        owners,
    }
}

// The entry that the commit of a new change leaves.
fn commits(s: &[u8], t: Transaction) -> Transaction
    requires { image_length ≤ length s.now }
    ensures { result ≡ committed_as t (head_at s.now committed_at).revision (next_ordinal (head_at s.now committed_at).ordinal) (present_of (view s.now) t) }
{
    let h = load_head(s, COMMITTED_AT);
    let now = present(s, t);
    let revision = h.revision;
    let last = h.ordinal;
    committed(t, revision, last.next(), now)
}

// Committed's head at rest on `aim`, behind the entry of number `index`.
fn rests(s: &mut [u8], index: Number, aim: Number, ordinal: Ordinal)
    requires { image_length ≤ length s.old }
    ensures { s.new ≡ put_head_at s.old committed_at (record { index = index; target = aim; revision = aim; ordinal = ordinal }) }
{
    let h = Head {
        index,
        target: aim,
        revision: aim,
        ordinal,
    };
    store_head(s, COMMITTED_AT, h);
}

// A change, as its append and its commit leave it.
fn enter_change(s: &mut [u8], list: &[u8], at: usize)
    requires { Changes s.old list.now at }
    ensures { s.new ≡ written s.old (change_stores (view s.old) (pairs_at list.now (at + 4) (two list.now (at + 2)))) }
{
    let count = two_at(list, at + 2);
    let from = at + 4;
    let to = from + 4 * (count as usize);
    let t = entered(&list[from..to]);
    let u = commits(s, t);
    let n = last_number(s);
    let number = n + 1;
    let i = Number::of(number);
    let x = u.change;
    let ordinal = x.ordinal;
    grow(s, n, u);
    store_change(s, i);
    rests(s, i, i, ordinal);
    let p = t.paths;
    let v = t.values;
    let o = [number; 4];
    lay_committed(s, p, v, o, t.count);
}

// The rollback of the revision, as its request and its commit leave it.
fn enter_rollback(s: &mut [u8])
    requires { Undoes s.old }
    ensures { s.new ≡ written s.old (undo_stores (view s.old)) }
{
    let h = load_head(s, COMMITTED_AT);
    let revision = h.revision;
    let number = revision.get();
    let t = load_entry(s, number);
    let last = h.ordinal;
    let ordinal = last.next();
    let aim = t.index;
    store_entry(s, number, undone(t, ordinal));
    rests(s, revision, aim, ordinal);
    let p = t.paths;
    let v = t.kept;
    let o = t.owners;
    lay_committed(s, p, v, o, t.count);
}

// The entry at a place.
fn enter(s: &mut [u8], list: &[u8], at: usize)
    requires { Enters s.old list.now at }
    ensures { s.new ≡ written s.old (entry_stores (view s.old) list.now at) }
{
    let kind = two_at(list, at);
    if kind == 1 {
        enter_change(s, list, at);
        return;
    }
    enter_rollback(s);
}

// All of them, of a list that is accepted: each leaves at once what its calls would leave.
#[inline(never)]
fn make(s: &mut [u8], list: &[u8])
    requires { (length s.old ≡ image_length) × Accepts list.now }
    ensures { s.new ≡ lent_from (fresh_image false) (import_calls (entries_of list.now)) }
{
    begin(s);
    let n = list.len() / 20;
    for k in 0..n {
        enter(s, list, 20 * k);
    }
}

// Of an image of the right length: refuses 2, then what the first bad entry is refused for.
pub fn take(s: &mut [u8], list: &[u8]) -> Imported
    requires { length s.old ≡ image_length }
    ensures { Imports s.old list.now result s.new }
{
    let n = list.len();
    if (n <= 5120) & (n % 20 == 0) {
        let v = judge(list);
        if v.answer == 0 {
            make(s, list);
            return v;
        }
        return v;
    }
    Imported::refuses(2, 0)
}
