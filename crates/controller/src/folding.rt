// Fold: whether the front of the log may be folded away, and the base that it leaves.
ghost use Rattle.std.specs.Prelude.{◌≡◌, true, false, ◌&&◌, ◌≤◌, leb, ltb, length};
ghost use Rattle.machine.specs.Folding.{finished, side_waits, entry_waits, may_fold, base_row};
ghost use Rattle.machine.specs.Calls.{fold_to};
ghost use Rattle.image.specs.Layout.{image_length, slots};
ghost use Rattle.image.specs.View.{view, written};
ghost use Rattle.image.specs.Formed.{formed, all_kept};
ghost use Rattle.controller.specs.Claims.{Does, Ring, waits_at, finished_at};
ghost use Rattle.controller.specs.Live.{live_from, Chained, Reaches, Fitting, Leading, ListedIn};

use crate::deciding::{rest, settled};
use crate::perform::lay;
use crate::walking::hop;
use image::{
    APPLIED_AT, BASE_AT, COMMITTED_AT, RING, carries_next, last_fold, last_number, load_entry,
    load_head, store_fold,
};
use kinds::{Number, Ordinal, Reply, Side, Transaction};

// ---- when it may

// Whether a side that carries the ordinal after a is Pending, and the applied target g is not where it leads.
fn side_waits(a: Ordinal, g: u16, aim: u16, x: Side) -> bool
    ensures { result ≡ side_waits a.0 g aim x }
{
    let o = x.ordinal;
    let apply = x.apply;
    let carries = o.follows(a);
    let pending = apply.pending();
    !carries | (pending & (g != aim))
}

fn entry_waits(a: Ordinal, g: u16, i: u16, t: Transaction) -> bool
    ensures { result ≡ entry_waits a.0 g i t }
{
    let x = t.change;
    let y = t.rollback;
    let index = t.index;
    let change = side_waits(a, g, i, x);
    let rollback = side_waits(a, g, index.get(), y);
    change & rollback
}

// The same of entry i. Hardly any carries it, and of the others the ordinals alone are read.
fn waits(s: &[u8], a: Ordinal, g: u16, i: u16) -> bool
    requires { (1 ≤ i) × (image_length ≤ length s.now) }
    ensures { result ≡ waits_at s.now a.0 g i }
{
    if carries_next(s, i, a) {
        let t = load_entry(s, i);
        return entry_waits(a, g, i, t);
    }
    true
}

// Entries b + 1 to n.
fn entries_wait(s: &[u8], a: Ordinal, g: u16, b: u16, n: u16) -> bool
    requires { (b ≤ n) × (image_length ≤ length s.now) }
    ensures { result ≡ all_kept (waits_at s.now a.0 g) b n }
{
    (b..n).all(|i| waits(s, a, g, i + 1))
}

// Most are applied Complete with no rollback asked, so that is asked first.
fn entry_finished(t: Transaction) -> bool
    ensures { result ≡ finished t }
{
    let x = t.change;
    let apply = x.apply;
    let complete = apply.complete();
    if complete & (t.phase == 1) {
        return true;
    }
    let y = t.rollback;
    let commit = x.commit;
    let back = y.apply;
    let failed = commit.failed();
    let undone = back.done();
    failed | undone
}

// Entries b + 1 to n.
fn entries_finished(s: &[u8], b: u16, n: u16) -> bool
    requires { (b ≤ n) × (image_length ≤ length s.now) }
    ensures { result ≡ all_kept (finished_at s.now) b n }
{
    (b..n).all(|i| entry_finished(load_entry(s, i + 1)))
}

// Whether all up to a number may be folded, where b is the last fold and n the highest number given.
fn may_fold(s: &[u8], b: u16, n: u16, to: u16) -> bool
    requires { Ring s.now b n × ((b ≤ to) × (to ≤ n)) }
    ensures { result ≡ may_fold (view s.now) to }
{
    if rest(s) {
        if settled(s) {
            let h = load_head(s, APPLIED_AT);
            let a = h.ordinal;
            let g = h.target.get();
            if entries_wait(s, a, g, b, n) {
                return entries_finished(s, b, to);
            }
            return false;
        }
        return false;
    }
    false
}

// ---- the base

// From v down to the first live one that is folded, or past them: what lies above a number is not laid.
fn down_to(s: &[u8], b: u16, to: u16, v: u16) -> u16
    requires { Chained s.now b v × (b ≤ to) }
    ensures { Reaches s.now b to v result }
{
    let mut i = v;
    while to < i {
        i = hop(s, i);
    }
    i
}

// The live ones from v down to the last fold b at the start of the room, the newest first; how many is answered.
fn list_down(s: &[u8], b: u16, v: u16, room: &mut [u16]) -> usize
    requires { Fitting s.now b v (length room.old) }
    ensures { (result ≡ length (live_from (view s.now) v)) × (room.new ≡ Leading room.old (live_from (view s.now) v)) }
{
    let mut i = v;
    let mut n: usize = 0;
    while b < i {
        room[n] = i;
        i = hop(s, i);
        n += 1;
    }
    n
}

// The first n listed, which are the live ones from v down to the last fold b, over the base: the oldest first.
fn lay_listed(s: &mut [u8], b: u16, to: u16, v: u16, list: &[u16; RING], n: usize)
    requires { ListedIn s.old b v list.now n × ((v ≤ to) × (n ≤ slots)) }
    ensures { s.new ≡ written s.old (base_row (view s.old).log to (live_from (view s.old) v)) }
{
    for k in (0..n).rev() {
        let t = load_entry(s, list[k]);
        let p = t.paths;
        let u = t.values;
        lay(s, BASE_AT, p, u, t.count);
    }
}

// The live ones from v down to the last fold b, all of them folded to a number, over the base.
fn lay_base(s: &mut [u8], b: u16, to: u16, v: u16)
    requires { Chained s.old b v × (v ≤ to) }
    ensures { s.new ≡ written s.old (base_row (view s.old).log to (live_from (view s.old) v)) }
{
    let mut list = [0u16; RING];
    let n = list_down(s, b, v, &mut list);
    lay_listed(s, b, to, v, &list, n);
}

// ---- the call

// Whether a number is kept, between the last fold and the highest number given.
fn is_kept(i: u16, b: u16, n: u16) -> bool
    ensures { result ≡ (ltb b i && leb i n) }
{
    (b < i) & (i <= n)
}

// Folds all up to a number away: refuses 5, 17.
pub fn fold(s: &mut [u8], number: u16) -> Reply
    requires { formed s.old ≡ true }
    ensures { Does s.old (fold_to number) result s.new }
{
    let n = last_number(s);
    let b = last_fold(s);
    if is_kept(number, b, n) {
        if may_fold(s, b, n, number) {
            let h = load_head(s, COMMITTED_AT);
            let v = h.revision.get();
            let first = down_to(s, b, number, v);
            lay_base(s, b, number, first);
            store_fold(s, Number::of(number));
            return Reply::of(0);
        }
        return Reply::of(17);
    }
    Reply::of(5)
}
