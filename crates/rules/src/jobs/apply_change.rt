// Job 2, apply change: which rule holds, and its plan. Fields are of Applied; o is c.ordinal.
ghost use Rattle.std.specs.Prelude.{◌≡◌, false};
ghost use Rattle.kinds.specs.Events.{event};
ghost use Rattle.kinds.specs.Records.{with_change};
ghost use Rattle.rules.specs.Plans.{entry_then_head};
ghost use Rattle.rules.specs.Sides.{apply_at};
ghost use Rattle.rules.specs.Heads.{closed};
ghost use Rattle.rules.specs.ApplyChange.{reached, tests, pending_rule, begun_rule, rule, plans, apply_change};
ghost use Rattle.rules.specs.Promises.{AppliesChange};

use crate::heads::{aimed, closed, landed};
use crate::plans::{entry_only, entry_then_head, head_only, head_then_entry, refuse, three_stores};
use crate::sides::apply_at;
use crate::{ApplyChangeRule as Rule, ApplyChangeTests, Lay, Plan};
use kinds::{Event, Head, Number, Ordinal, Status, Transaction};

// Whether o ≥ 1 and the applied ordinal is o: the push has landed.
pub fn reached(applied: Ordinal, o: Ordinal) -> bool
    ensures { result ≡ reached applied o }
{
    let some = 1 <= o.get();
    let same = applied.is(o);
    some & same
}

// What the rules ask of the entry, of Applied, of the line and of the call.
pub fn tests(
    t: Transaction,
    h: Head,
    settled: bool,
    i: Number,
    line: bool,
    accepted: bool,
) -> ApplyChangeTests
    ensures { result ≡ tests t h settled i line accepted }
{
    let change = t.change;
    let rollback = t.rollback;
    let o = change.ordinal;
    let commit = change.commit;
    let committed = commit.complete();
    let next = o.follows(h.ordinal);
    let aimed = h.target.is(i);
    let undo = rollback.commit;
    let undone = undo.complete();
    let below = h.revision.below(t.index);
    let level = h.revision.is(t.index);
    let landed = reached(h.ordinal, o);
    ApplyChangeTests {
        committed,
        next,
        aimed,
        settled,
        undone,
        passed: undone | below,
        level,
        landed,
        line,
        accepted,
    }
}

// The first rule that holds where c.apply is Pending.
pub fn pending_rule(a: ApplyChangeTests) -> Rule
    ensures { result ≡ pending_rule a }
{
    if a.next {
        if a.aimed {
            return Rule::Begin;
        }
        if a.settled {
            if a.passed {
                return Rule::Abort;
            }
            if a.level {
                return Rule::Aim;
            }
        }
    }
    Rule::Wait
}

// The first rule that holds where c.apply is InProgress: a begun change ends Failed, never Aborted.
pub fn begun_rule(a: ApplyChangeTests) -> Rule
    ensures { result ≡ begun_rule a }
{
    if a.landed {
        return Rule::Finish;
    }
    if a.next {
        if a.undone {
            return Rule::Fail;
        }
        if a.line {
            if a.accepted {
                return Rule::Push;
            }
            return Rule::Fail;
        }
        return Rule::NoLine;
    }
    Rule::Wait
}

// The first rule that holds, by c.apply; none does before c.commit is Complete.
pub fn rule(apply: Status, a: ApplyChangeTests) -> Rule
    ensures { result ≡ rule apply a }
{
    if a.committed {
        match apply {
            Status::Pending => pending_rule(a),
            Status::InProgress => begun_rule(a),
            Status::Aborted => {
                if a.next {
                    return Rule::Close;
                }
                Rule::Wait
            }
            Status::Failed => {
                if a.next {
                    return Rule::Close;
                }
                Rule::Wait
            }
            Status::None => Rule::Wait,
            Status::Complete => Rule::Wait,
            Status::Canceled => Rule::Wait,
        }
    } else {
        Rule::Wait
    }
}

// The entry with c.apply at a status.
pub fn entry_at(t: Transaction, status: Status) -> Transaction
    ensures { result ≡ with_change t (apply_at t.change status) }
{
    let change = t.change;
    t.with_change(apply_at(change, status))
}

// The job's event: phase Change, stage Apply.
pub fn event(i: Number, status: Status) -> Event
    ensures { result ≡ event 1 2 i status }
{
    Event {
        phase: 1,
        stage: 2,
        number: i,
        status,
    }
}

// The plan that ends the change at a status, Aborted or Failed, then closes.
pub fn ended(t: Transaction, h: Head, i: Number, status: Status) -> Plan
    ensures { result ≡ entry_then_head (event 1 2 i status) (with_change t (apply_at t.change status)) (closed h i i t.change.ordinal) false }
{
    let o = t.change.ordinal;
    entry_then_head(
        event(i, status),
        entry_at(t, status),
        closed(h, i, i, o),
        false,
    )
}

// The plan of a rule.
pub fn plans(rule: Rule, t: Transaction, h: Head, i: Number) -> Plan
    ensures { result ≡ plans rule t h i }
{
    let o = t.change.ordinal;
    match rule {
        Rule::Begin => entry_only(entry_at(t, Status::InProgress), h),
        Rule::Aim => head_then_entry(
            event(i, Status::InProgress),
            aimed(h, i),
            false,
            Lay::Nothing,
            entry_at(t, Status::InProgress),
        ),
        Rule::Abort => ended(t, h, i, Status::Aborted),
        Rule::Close => head_only(t, closed(h, i, i, o), false),
        Rule::Finish => entry_only(entry_at(t, Status::Complete), h),
        Rule::Fail => ended(t, h, i, Status::Failed),
        Rule::Push => three_stores(
            event(i, Status::Complete),
            landed(h, i, i, o),
            Lay::Values,
            entry_at(t, Status::Complete),
        ),
        Rule::NoLine => refuse(12, t, h),
        Rule::Wait => refuse(11, t, h),
    }
}

// The plan that job 2 decides for entry t, numbered i; `settled` is Applied's, and `line` says whether the line is open.
#[inline(always)]
pub fn apply_change(
    t: Transaction,
    h: Head,
    settled: bool,
    i: Number,
    line: bool,
    accepted: bool,
) -> Plan
    ensures { AppliesChange t h settled i line accepted result }
{
    let change = t.change;
    let apply = change.apply;
    let holds = rule(apply, tests(t, h, settled, i, line, accepted));
    plans(holds, t, h, i)
}
