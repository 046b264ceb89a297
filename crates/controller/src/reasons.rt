// Why a job answers 11: the first reason that fits, of those that the job uses (order 4). Nothing is changed.
ghost use Rattle.std.specs.Prelude.{◌≡◌, true, false, ◌&&◌, ◌+◌, ◌≤◌, leb, length};
ghost use Rattle.machine.specs.State.{is_node};
ghost use Rattle.machine.specs.Calls.{job1, job2, job3, job4, plan_of};
ghost use Rattle.machine.specs.Why.{commit_goes, lowest, in_flight, why};
ghost use Rattle.image.specs.Layout.{image_length};
ghost use Rattle.image.specs.Records.{entry_at};
ghost use Rattle.image.specs.View.{up_from, view};
ghost use Rattle.image.specs.Formed.{formed};
ghost use Rattle.controller.specs.Claims.{Entry};
ghost use Rattle.controller.specs.Reasons.{given, gives, refuses, told, explained, commit_finished, apply_finished, unsettled_by, unapplied, quiet_unless, change_over, change_quiet, rollback_over, rollback_quiet, change_waits, rollback_waits, flight_or, on_top};

use crate::calls::{in_log, is_node};
use crate::deciding::{job1, job3, line, rest, settled};
use image::{
    APPLIED_AT, COMMITTED_AT, last_fold, last_number, load_change, load_entry, load_head,
    load_mastership,
};
use kinds::{Head, Number, Ordinal, Side, Status, Transaction};
use rules::{apply_change, apply_rollback};

// The refusal, or 0 with a reason, 1 to 8, and the number or the ordinal that it names, 0 where it names none.
#[derive(Clone, Copy)]
pub struct Why {
    pub answer: u8,
    pub reason: u8,
    pub named: u32,
}

impl Why {
    fn gives(reason: u8, named: u32) -> Why
        ensures { result ≡ gives reason named }
    {
        Why {
            answer: 0,
            reason,
            named,
        }
    }

    fn refuses(answer: u8) -> Why
        ensures { result ≡ refuses answer }
    {
        Why {
            answer,
            reason: 0,
            named: 0,
        }
    }
}

// ---- of the records alone

fn commit_finished(x: Status, change: Number, number: u16) -> bool
    ensures { result ≡ commit_finished x change.0 number }
{
    let over = x.done();
    let code = x.code();
    let next = Number::of(number).follows(change);
    over & !((code == 6) & next)
}

fn commit_goes(t: Transaction) -> bool
    ensures { result ≡ commit_goes t }
{
    let x = t.change;
    let y = t.rollback;
    let c = x.commit;
    let r = y.commit;
    let change = c.code();
    let rollback = r.code();
    (change == 2) | (rollback == 2)
}

fn apply_finished(x: Side, ends: bool, a: Ordinal) -> bool
    ensures { result ≡ apply_finished x ends a.0 }
{
    let apply = x.apply;
    let commit = x.commit;
    let o = x.ordinal;
    let over = apply.done();
    let complete = commit.complete();
    let next = o.follows(a);
    over & !(ends & (complete & next))
}

fn change_over(t: Transaction, a: Ordinal) -> bool
    ensures { result ≡ change_over t a.0 }
{
    let x = t.change;
    let apply = x.apply;
    let code = apply.code();
    apply_finished(x, (code == 4) | (code == 6), a)
}

fn rollback_over(t: Transaction, a: Ordinal) -> bool
    ensures { result ≡ rollback_over t a.0 }
{
    let y = t.rollback;
    let apply = y.apply;
    let code = apply.code();
    apply_finished(y, code == 5, a)
}

// The applied ordinal if not settled, else the one after.
fn unsettled(a: u32, quiet: bool) -> u32
    requires { a ≤ 131070 }
    ensures { result ≡ unsettled_by quiet a }
{
    if quiet {
        return a + 1;
    }
    a
}

fn unapplied(x: Side, a: Ordinal, quiet: bool) -> Why
    requires { a.0 ≤ 131070 }
    ensures { result ≡ unapplied x a.0 quiet }
{
    let commit = x.commit;
    if commit.complete() {
        let o = x.ordinal;
        let k = unsettled(a.get(), quiet);
        if k < o.get() {
            return Why::gives(7, k);
        }
        return Why::gives(8, 0);
    }
    Why::gives(6, 0)
}

fn change_waits(t: Transaction, a: Ordinal, quiet: bool) -> Why
    requires { a.0 ≤ 131070 }
    ensures { result ≡ change_waits t a.0 quiet }
{
    if change_over(t, a) {
        return Why::gives(1, 0);
    }
    let x = t.change;
    unapplied(x, a, quiet)
}

fn rollback_waits(t: Transaction, a: Ordinal, quiet: bool) -> Why
    requires { a.0 ≤ 131070 }
    ensures { result ≡ rollback_waits t a.0 quiet }
{
    if rollback_over(t, a) {
        return Why::gives(1, 0);
    }
    let y = t.rollback;
    let commit = y.commit;
    if commit.code() == 0 {
        return Why::gives(2, 0);
    }
    unapplied(y, a, quiet)
}

fn on_top(v: u16, number: u16) -> Why
    ensures { result ≡ on_top v number }
{
    if number < v {
        return Why::gives(5, v as u32);
    }
    Why::gives(8, 0)
}

// ---- the commit in flight

// The lowest of b + 1 to n whose commit is in progress; `other` where there is none.
fn lowest_going(s: &[u8], b: u16, n: u16, other: u16) -> u16
    requires { (b ≤ n) × (image_length ≤ length s.now) }
    ensures { result ≡ lowest commit_goes (b + 1) (up_from (entry_at s.now) b n) other }
{
    for i in b..n {
        let t = load_entry(s, i + 1);
        if commit_goes(t) {
            return i + 1;
        }
    }
    other
}

fn in_flight(s: &[u8]) -> u16
    requires { formed s.now ≡ true }
    ensures { result ≡ in_flight (view s.now) }
{
    let c = load_change(s);
    let change = c.get();
    let h = load_head(s, COMMITTED_AT);
    let target = h.target.get();
    if change < target {
        return target;
    }
    let b = last_fold(s);
    let n = last_number(s);
    let v = h.revision.get();
    lowest_going(s, b, n, v)
}

fn flight_or(s: &[u8], other: Why) -> Why
    requires { formed s.now ≡ true }
    ensures { result ≡ flight_or (view s.now) other }
{
    if rest(s) {
        return other;
    }
    let k = in_flight(s);
    Why::gives(4, k as u32)
}

// ---- the jobs of the commit side, where they answer 11

fn commit_change_told(s: &[u8], number: u16) -> Why
    requires { Entry s.now number }
    ensures { result ≡ told (view s.now) 1 number }
{
    let t = load_entry(s, number);
    let x = t.change;
    let commit = x.commit;
    let change = load_change(s);
    if commit_finished(commit, change, number) {
        return Why::gives(1, 0);
    }
    let k = change.get() as u32;
    let after = k + 1;
    if after < (number as u32) {
        return Why::gives(3, after);
    }
    flight_or(s, Why::gives(8, 0))
}

fn commit_rollback_told(s: &[u8], number: u16) -> Why
    requires { Entry s.now number }
    ensures { result ≡ told (view s.now) 3 number }
{
    let t = load_entry(s, number);
    let y = t.rollback;
    let commit = y.commit;
    if commit.done() {
        return Why::gives(1, 0);
    }
    if commit.code() == 0 {
        return Why::gives(2, 0);
    }
    let h = load_head(s, COMMITTED_AT);
    let v = h.revision.get();
    flight_or(s, on_top(v, number))
}

// ---- settled, where something depends on it: else no entry is looked at

fn quiet_unless(s: &[u8], over: bool, x: Side) -> bool
    requires { formed s.now ≡ true }
    ensures { result ≡ quiet_unless over x (view s.now) }
{
    let commit = x.commit;
    let complete = commit.complete();
    if complete & !over {
        return settled(s);
    }
    true
}

// ---- each job: a reason where it answers 11, else 15

fn commit_change_why(s: &[u8], number: u16) -> Why
    requires { Entry s.now number }
    ensures { result ≡ explained (view s.now) (job1 (view s.now) number false) 1 number }
{
    let p = job1(s, number, false);
    if p.answer == 11 {
        return commit_change_told(s, number);
    }
    Why::refuses(15)
}

fn commit_rollback_why(s: &[u8], number: u16) -> Why
    requires { Entry s.now number }
    ensures { result ≡ explained (view s.now) (job3 (view s.now) number) 3 number }
{
    let p = job3(s, number);
    if p.answer == 11 {
        return commit_rollback_told(s, number);
    }
    Why::refuses(15)
}

fn apply_change_why(s: &[u8], node: u8, number: u16) -> Why
    requires { Entry s.now number × ((1 ≤ node) × (node ≤ 8)) }
    ensures { result ≡ explained (view s.now) (job2 (view s.now) node number false) 2 number }
{
    let t = load_entry(s, number);
    let h = load_head(s, APPLIED_AT);
    let a = h.ordinal;
    let quiet = quiet_unless(s, change_over(t, a), t.change);
    let open = line(s, node);
    let p = apply_change(t, h, quiet, Number::of(number), open, false);
    if p.answer == 11 {
        return change_waits(t, a, quiet);
    }
    Why::refuses(15)
}

fn apply_rollback_why(s: &[u8], node: u8, number: u16) -> Why
    requires { Entry s.now number × ((1 ≤ node) × (node ≤ 8)) }
    ensures { result ≡ explained (view s.now) (job4 (view s.now) node number false) 4 number }
{
    let t = load_entry(s, number);
    let h = load_head(s, APPLIED_AT);
    let a = h.ordinal;
    let quiet = quiet_unless(s, rollback_over(t, a), t.rollback);
    let open = line(s, node);
    let p = apply_rollback(t, h, quiet, Number::of(number), open, false);
    if p.answer == 11 {
        return rollback_waits(t, a, quiet);
    }
    Why::refuses(15)
}

fn by_job(s: &[u8], node: u8, job: u16, number: u16) -> Why
    requires { Entry s.now number × (((1 ≤ node) × (node ≤ 8)) × ((1 ≤ job) × (job ≤ 4))) }
    ensures { result ≡ explained (view s.now) (plan_of (view s.now) node job number false) job number }
{
    if job == 1 {
        return commit_change_why(s, number);
    }
    if job == 2 {
        return apply_change_why(s, node, number);
    }
    if job == 3 {
        return commit_rollback_why(s, number);
    }
    apply_rollback_why(s, node, number)
}

// ---- the call

fn args_ok(node: u16, job: u16) -> bool
    ensures { result ≡ (is_node node && (leb 1 job && leb job 4)) }
{
    let node_ok = is_node(node);
    node_ok & ((1 <= job) & (job <= 4))
}

// Of a well-formed image: refuses 2, 5, 18, 10, then 15 or a reason.
pub fn asked(s: &[u8], node: u16, job: u16, number: u16) -> Why
    requires { formed s.now ≡ true }
    ensures { result ≡ given (why (view s.now) node job number) }
{
    if args_ok(node, job) {
        let n = last_number(s);
        if in_log(number, n) {
            let b = last_fold(s);
            if b < number {
                let m = load_mastership(s);
                let at = node as u8;
                if m.master == at {
                    return by_job(s, at, job, number);
                }
                return Why::refuses(10);
            }
            return Why::refuses(18);
        }
        return Why::refuses(5);
    }
    Why::refuses(2)
}
