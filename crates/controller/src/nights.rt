// Work by itself through the night (order 2): each turn does the first job that is not refused.
ghost use Rattle.std.specs.Prelude.{◌≡◌, true, ◌≤◌, length};
ghost use Rattle.rules.specs.Plans.{refuse};
ghost use Rattle.machine.specs.State.{blank};
ghost use Rattle.machine.specs.Night.{bits, table_ok, why_stopped, night_ok};
ghost use Rattle.image.specs.Layout.{image_length};
ghost use Rattle.image.specs.View.{view};
ghost use Rattle.image.specs.Formed.{formed};
ghost use Rattle.controller.specs.Nights.{put_event, fitting, refuses, Awake, scene_of, is_next, settled_at, no_present, present_at, stands, idle, Quiet, tries, plans_by, Finds, Turns, stopped_at, Through, Nighted};

use crate::calls::{is_node, of_commit};
use crate::deciding::{line, present, rest, settled};
use crate::perform::perform;
use fields::put;
use image::{
    APPLIED_AT, COMMITTED_AT, last_fold, last_number, load_change, load_entry, load_head,
    load_mastership,
};
use kinds::{Event, Head, Number, Ordinal, Side, Status, Transaction};
use rules::{
    Lay, Order, Plan, Present, apply_change, apply_rollback, commit_change, commit_rollback,
};

// The refusal, or 0 with the jobs done and why it stopped: 0 every job is refused and none with 12, 1 some with 12, 2 the
// budget is spent and a job could still go. And how many of the turns' events are in the room.
#[derive(Clone, Copy)]
pub struct Night {
    pub answer: u8,
    pub jobs: u16,
    pub stopped: u8,
    pub events: u16,
}

impl Night {
    fn refuses(answer: u8) -> Night
        ensures { result ≡ refuses answer }
    {
        Night {
            answer,
            jobs: 0,
            stopped: 0,
            events: 0,
        }
    }
}

// What a turn's rules read beside the entry, loaded once a turn.
#[derive(Clone, Copy)]
struct Scene {
    committed: Head,
    change: Number,
    rest: bool,
    applied: Head,
    line: bool,
}

// The first job of an entry that is not refused, or 0; where it is 0, whether one is refused with 12.
#[derive(Clone, Copy)]
struct Tried {
    job: u16,
    lacks: bool,
}

// The same of a turn, with the job's number and plan.
#[derive(Clone, Copy)]
struct Found {
    job: u16,
    number: u16,
    lacks: bool,
    plan: Plan,
}

// ---- the arguments

// Whether every outcome is 0 or 1.
fn all_bits(outcomes: &[u8]) -> bool
    ensures { result ≡ bits outcomes.now }
{
    outcomes.iter().all(|&x| x <= 1)
}

fn table_ok(outcomes: &[u8]) -> bool
    ensures { result ≡ table_ok outcomes.now }
{
    if outcomes.len() == 256 {
        return all_bits(outcomes);
    }
    false
}

fn args_ok(node: u16, budget: u16, outcomes: &[u8]) -> bool
    ensures { result ≡ night_ok node budget outcomes.now }
{
    let node_ok = is_node(node);
    if node_ok & (budget <= 4096) {
        return table_ok(outcomes);
    }
    false
}

// ---- a turn

fn load_scene(s: &[u8], node: u8) -> Scene
    requires { (formed s.now ≡ true) × ((1 ≤ node) × (node ≤ 8)) }
    ensures { result ≡ scene_of (view s.now) node }
{
    let committed = load_head(s, COMMITTED_AT);
    let change = load_change(s);
    let at_rest = rest(s);
    let applied = load_head(s, APPLIED_AT);
    let open = line(s, node);
    Scene {
        committed,
        change,
        rest: at_rest,
        applied,
        line: open,
    }
}

// Whether a side's apply is next: committed, Pending, and its ordinal straight after Applied's.
fn is_next(x: Side, applied: Ordinal) -> bool
    ensures { result ≡ is_next applied.0 x }
{
    let commit = x.commit;
    let apply = x.apply;
    let o = x.ordinal;
    let committed = commit.complete();
    let pending = apply.pending();
    let follows = o.follows(applied);
    committed & (pending & follows)
}

// Whether the applied side is settled, where a side of the entry is next: the rules ask it at no other, and then no entry is
// looked at.
fn settled_at(s: &[u8], t: Transaction, x: Scene) -> bool
    requires { formed s.now ≡ true }
    ensures { result ≡ settled_at x.applied.ordinal.0 t (view s.now) }
{
    let h = x.applied;
    let applied = h.ordinal;
    let c = t.change;
    let r = t.rollback;
    let change = is_next(c, applied);
    let rollback = is_next(r, applied);
    if change | rollback {
        return settled(s);
    }
    true
}

fn no_present() -> Present
    ensures { result ≡ no_present }
{
    let values = [0u16, 0, 0, 0];
    let owners = [0u16, 0, 0, 0];
    Present { values, owners }
}

// The committed values and the owners of a change's paths, where it may begin: they are kept at no other, and then none is
// loaded.
fn present_at(s: &[u8], t: Transaction, i: Number, x: Scene) -> Present
    requires { image_length ≤ length s.now }
    ensures { result ≡ present_at x.change.0 i.0 t (view s.now) }
{
    let c = t.change;
    let commit = c.commit;
    let change = x.change;
    let pending = commit.pending();
    let ready = i.follows(change);
    if pending & ready {
        return present(s, t);
    }
    no_present()
}

// Whether a stage neither waits nor goes.
fn stands(x: Status) -> bool
    ensures { result ≡ stands x }
{
    match x {
        Status::None => true,
        Status::Pending => false,
        Status::InProgress => false,
        Status::Complete => true,
        Status::Aborted => true,
        Status::Canceled => true,
        Status::Failed => true,
    }
}

// Whether nothing is left of entry t, numbered i: no job of it goes, now or later in the night.
fn is_idle(t: Transaction, change: Number, applied: Ordinal, i: u16) -> bool
    ensures { result ≡ idle change.0 applied.0 i t }
{
    let x = t.change;
    let y = t.rollback;
    let commit = x.commit;
    let apply = x.apply;
    let undo = y.commit;
    let back = y.apply;
    let changed = stands(commit) & stands(apply);
    let undone = stands(undo) & stands(back);
    let o = x.ordinal;
    let p = y.ordinal;
    let c = change.get();
    let a = applied.get();
    (changed & undone) & ((i <= c) & ((o.get() <= a) & (p.get() <= a)))
}

// From one number on, the last up to which nothing is left of any.
fn skip(s: &[u8], from: u16) -> u16
    requires { (formed s.now ≡ true) × Quiet s.now from }
    ensures { Quiet s.now result }
{
    let n = last_number(s);
    let change = load_change(s);
    let h = load_head(s, APPLIED_AT);
    let applied = h.ordinal;
    for i in from..n {
        let number = i + 1;
        let t = load_entry(s, number);
        if !is_idle(t, change, applied, number) {
            return i;
        }
    }
    n
}

// The four jobs of entry t, numbered i: what the validation and the push of the change would answer is handed in.
#[inline(always)]
fn try_jobs(t: Transaction, i: Number, x: Scene, settled: bool, valid: bool, taken: bool) -> Tried
    ensures { result ≡ tries t i x settled valid taken }
{
    let committed = x.committed;
    let applied = x.applied;
    let change = x.change;
    let a = commit_change(t, committed, change, x.rest, i, valid, no_present());
    if a.answer == 0 {
        return Tried {
            job: 1,
            lacks: false,
        };
    }
    let b = apply_change(t, applied, settled, i, x.line, taken);
    if b.answer == 0 {
        return Tried {
            job: 2,
            lacks: false,
        };
    }
    let c = commit_rollback(t, committed, x.rest, i);
    if c.answer == 0 {
        return Tried {
            job: 3,
            lacks: false,
        };
    }
    let d = apply_rollback(t, applied, settled, i, x.line, true);
    if d.answer == 0 {
        return Tried {
            job: 4,
            lacks: false,
        };
    }
    Tried {
        job: 0,
        lacks: (b.answer == 12) | (d.answer == 12),
    }
}

// The plan of a job of entry t that goes; the rules are asked once more, since a plan that waits is not worth making.
fn plan_at(
    s: &[u8],
    job: u16,
    t: Transaction,
    i: Number,
    x: Scene,
    settled: bool,
    valid: bool,
    taken: bool,
) -> Plan
    requires { image_length ≤ length s.now }
    ensures { result ≡ plans_by job t i x settled valid taken (present_at x.change.0 i.0 t (view s.now)) }
{
    let committed = x.committed;
    let applied = x.applied;
    let change = x.change;
    if job == 1 {
        let now = present_at(s, t, i, x);
        return commit_change(t, committed, change, x.rest, i, valid, now);
    }
    if job == 2 {
        return apply_change(t, applied, settled, i, x.line, taken);
    }
    if job == 3 {
        return commit_rollback(t, committed, x.rest, i);
    }
    apply_rollback(t, applied, settled, i, x.line, true)
}

// What stands for a plan where no job goes: it answers 11 and stores nothing.
fn no_plan(h: Head) -> Plan
    ensures { result ≡ refuse 11 blank h }
{
    let event = Event::none();
    let change = Side {
        commit: Status::None,
        apply: Status::None,
        ordinal: Ordinal::of(0),
    };
    let entry = Transaction {
        phase: 0,
        count: 0,
        paths: [0u8, 0, 0, 0],
        values: [0u16, 0, 0, 0],
        change,
        rollback: change,
        index: Number::of(0),
        kept: [0u16, 0, 0, 0],
        owners: [0u16, 0, 0, 0],
    };
    Plan {
        answer: 11,
        event,
        order: Order::Neither,
        entry,
        head: h,
        change: false,
        lay: Lay::Nothing,
    }
}

// A turn's job: numbers upward, jobs 1 to 4 for each. Nothing is left of those up to `from`.
fn find(s: &[u8], node: u8, outcomes: &[u8], from: u16) -> Found
    requires { Awake s.now node outcomes.now × Quiet s.now from }
    ensures { Finds (view s.now) node outcomes.now result }
{
    let x = load_scene(s, node);
    let b = last_fold(s);
    let n = last_number(s);
    let mut lacks = false;
    for i in from..n {
        let number = i + 1;
        let t = load_entry(s, number);
        let k = 2 * ((i - b) as usize);
        let valid = outcomes[k];
        let taken = outcomes[k + 1];
        let at = Number::of(number);
        let quiet = settled_at(s, t, x);
        let f = try_jobs(t, at, x, quiet, valid == 0, taken == 0);
        let job = f.job;
        if 0 < job {
            let plan = plan_at(s, job, t, at, x, quiet, valid == 0, taken == 0);
            return Found {
                job,
                number,
                lacks: false,
                plan,
            };
        }
        lacks = lacks | f.lacks;
    }
    let plan = no_plan(x.applied);
    Found {
        job: 0,
        number: 0,
        lacks,
        plan,
    }
}

fn stopped_at(job: u16, lacks: bool) -> u8
    ensures { result ≡ stopped_at job lacks }
{
    if job == 0 {
        if lacks {
            return 1;
        }
        return 0;
    }
    2
}

// ---- the events

// The k-th event, from 0, where there is room for it.
fn put_event(room: &mut [u8], k: u16, e: Event)
    ensures { room.new ≡ put_event room.old k e }
{
    let at = 16 * (k as usize);
    if at + 16 <= room.len() {
        let number = e.number;
        let status = e.status;
        put(room, at, e.phase as u32);
        put(room, at + 4, e.stage as u32);
        put(room, at + 8, number.get() as u32);
        put(room, at + 12, status.code() as u32);
        return;
    }
}

// How many of the events of k jobs are in a room.
fn fitting(k: u16, room: usize) -> u16
    ensures { result ≡ fitting k room }
{
    let n = room / 16;
    if (k as usize) < n {
        return k;
    }
    n as u16
}

// ---- the call

// A turn: its job is found, and done where there is one. What was found is held here alone, and `why_stopped` holds its own: so
// one place on the stack serves both. The event is read when the plan is performed, or it would be kept beside it.
fn turn(s: &mut [u8], node: u8, outcomes: &[u8], low: u16, events: &mut [u8], k: u16) -> Tried
    requires { Awake s.old node outcomes.now × Quiet s.old low }
    ensures { Turns s.old node outcomes.now events.old k result s.new events.new }
{
    let f = find(s, node, outcomes, low);
    if f.job == 0 {
        return Tried {
            job: f.job,
            lacks: f.lacks,
        };
    }
    perform(s, of_commit(f.job), f.number, f.plan, false, false);
    let p = f.plan;
    put_event(events, k, p.event);
    Tried {
        job: f.job,
        lacks: f.lacks,
    }
}

// Why a night stops, where its budget is spent.
fn why_stopped(s: &[u8], node: u8, outcomes: &[u8], low: u16) -> u8
    requires { Awake s.now node outcomes.now × Quiet s.now low }
    ensures { result ≡ why_stopped (view s.now) outcomes.now node }
{
    let f = find(s, node, outcomes, low);
    stopped_at(f.job, f.lacks)
}

// The turns of a night, at most as many as the budget.
fn through(s: &mut [u8], node: u16, budget: u16, outcomes: &[u8], events: &mut [u8]) -> Night
    requires { Awake s.old node outcomes.now }
    ensures { Through s.old node budget outcomes.now events.old result s.new events.new }
{
    let at = node as u8;
    let mut low = last_fold(s);
    let mut k: u16 = 0;
    // no for: over 0..budget the night takes 16 bytes of stack more, which is above its limit
    while k < budget {
        low = skip(s, low);
        let t = turn(s, at, outcomes, low, events, k);
        if t.job == 0 {
            return Night {
                answer: 0,
                jobs: k,
                stopped: stopped_at(t.job, t.lacks),
                events: fitting(k, events.len()),
            };
        }
        k += 1;
    }
    Night {
        answer: 0,
        jobs: k,
        stopped: why_stopped(s, at, outcomes, low),
        events: fitting(k, events.len()),
    }
}

// Of a well-formed image: refuses 2, 10.
pub fn spend(s: &mut [u8], node: u16, budget: u16, outcomes: &[u8], events: &mut [u8]) -> Night
    requires { formed s.old ≡ true }
    ensures { Nighted s.old node budget outcomes.now events.old result s.new events.new }
{
    if args_ok(node, budget, outcomes) {
        let m = load_mastership(s);
        let at = node as u8;
        if m.master == at {
            return through(s, node, budget, outcomes, events);
        }
        return Night::refuses(10);
    }
    Night::refuses(2)
}
