// Job 4, apply rollback: which rule holds, and its plan. Fields are of Applied; o is r.ordinal.
ghost use Rattle.std.specs.Prelude.{◌≡◌};
ghost use Rattle.kinds.specs.Events.{event};
ghost use Rattle.kinds.specs.Records.{with_rollback};
ghost use Rattle.rules.specs.Sides.{apply_at};
ghost use Rattle.rules.specs.ApplyRollback.{was_tried, is_aborted, tests, pending_rule, begun_rule, rule, plans, apply_rollback};
ghost use Rattle.rules.specs.Promises.{AppliesRollback};

use crate::heads::{aimed, closed, landed};
use crate::jobs::apply_change::reached;
use crate::plans::{entry_only, entry_then_head, head_only, head_then_entry, refuse, three_stores};
use crate::sides::apply_at;
use crate::{ApplyRollbackRule as Rule, ApplyRollbackTests, Lay, Plan};
use kinds::{Event, Head, Number, Status, Transaction};

// Whether the change's push was tried: c.apply Complete or Failed.
pub fn was_tried(apply: Status) -> bool
    ensures { result ≡ was_tried apply }
{
    match apply {
        Status::None => false,
        Status::Pending => false,
        Status::InProgress => false,
        Status::Complete => true,
        Status::Aborted => false,
        Status::Canceled => false,
        Status::Failed => true,
    }
}

// Whether the change was Aborted.
pub fn is_aborted(apply: Status) -> bool
    ensures { result ≡ is_aborted apply }
{
    match apply {
        Status::None => false,
        Status::Pending => false,
        Status::InProgress => false,
        Status::Complete => false,
        Status::Aborted => true,
        Status::Canceled => false,
        Status::Failed => false,
    }
}

// What the rules ask of the entry, of Applied, of the line and of the call.
pub fn tests(
    t: Transaction,
    h: Head,
    settled: bool,
    line: bool,
    accepted: bool,
) -> ApplyRollbackTests
    ensures { result ≡ tests t h settled line accepted }
{
    let change = t.change;
    let rollback = t.rollback;
    let apply = change.apply;
    let o = rollback.ordinal;
    let commit = rollback.commit;
    let committed = commit.complete();
    let next = o.follows(h.ordinal);
    let tried = was_tried(apply);
    let aborted = is_aborted(apply);
    let aimed = h.target.is(t.index);
    let landed = reached(h.ordinal, o);
    ApplyRollbackTests {
        committed,
        next,
        tried,
        aborted,
        aimed,
        settled,
        landed,
        line,
        accepted,
    }
}

// The first rule that holds where r.apply is Pending.
pub fn pending_rule(a: ApplyRollbackTests) -> Rule
    ensures { result ≡ pending_rule a }
{
    if a.next {
        if a.tried {
            if a.aimed {
                return Rule::Begin;
            }
            if a.settled {
                return Rule::Aim;
            }
            return Rule::Wait;
        }
        if a.aborted {
            if a.settled {
                return Rule::Cancel;
            }
        }
    }
    Rule::Wait
}

// The first rule that holds where r.apply is InProgress.
pub fn begun_rule(a: ApplyRollbackTests) -> Rule
    ensures { result ≡ begun_rule a }
{
    if a.landed {
        return Rule::Finish;
    }
    if a.next {
        if a.line {
            if a.accepted {
                return Rule::Push;
            }
            return Rule::Rejected;
        }
        return Rule::NoLine;
    }
    Rule::Wait
}

// The first rule that holds, by r.apply; none does before r.commit is Complete.
pub fn rule(apply: Status, a: ApplyRollbackTests) -> Rule
    ensures { result ≡ rule apply a }
{
    if a.committed {
        match apply {
            Status::Pending => pending_rule(a),
            Status::InProgress => begun_rule(a),
            Status::Canceled => {
                if a.next {
                    return Rule::Close;
                }
                Rule::Wait
            }
            Status::None => Rule::Wait,
            Status::Complete => Rule::Wait,
            Status::Aborted => Rule::Wait,
            Status::Failed => Rule::Wait,
        }
    } else {
        Rule::Wait
    }
}

// The entry with r.apply at a status.
pub fn entry_at(t: Transaction, status: Status) -> Transaction
    ensures { result ≡ with_rollback t (apply_at t.rollback status) }
{
    let rollback = t.rollback;
    t.with_rollback(apply_at(rollback, status))
}

// The job's event: phase Rollback, stage Apply.
pub fn event(i: Number, status: Status) -> Event
    ensures { result ≡ event 2 2 i status }
{
    Event {
        phase: 2,
        stage: 2,
        number: i,
        status,
    }
}

// The plan of a rule.
pub fn plans(rule: Rule, t: Transaction, h: Head, i: Number) -> Plan
    ensures { result ≡ plans rule t h i }
{
    let index = t.index;
    let o = t.rollback.ordinal;
    let close = closed(h, i, index, o);
    match rule {
        Rule::Begin => entry_only(entry_at(t, Status::InProgress), h),
        Rule::Aim => head_then_entry(
            event(i, Status::InProgress),
            aimed(h, index),
            false,
            Lay::Nothing,
            entry_at(t, Status::InProgress),
        ),
        Rule::Cancel => entry_then_head(
            event(i, Status::Canceled),
            entry_at(t, Status::Canceled),
            close,
            false,
        ),
        Rule::Close => head_only(t, close, false),
        Rule::Finish => entry_only(entry_at(t, Status::Complete), h),
        Rule::Push => three_stores(
            event(i, Status::Complete),
            landed(h, i, index, o),
            Lay::Kept,
            entry_at(t, Status::Complete),
        ),
        Rule::NoLine => refuse(12, t, h),
        Rule::Rejected => refuse(13, t, h),
        Rule::Wait => refuse(11, t, h),
    }
}

// The plan that job 4 decides for entry t, numbered i; `settled` is Applied's, and `line` says whether the line is open.
#[inline(always)]
pub fn apply_rollback(
    t: Transaction,
    h: Head,
    settled: bool,
    i: Number,
    line: bool,
    accepted: bool,
) -> Plan
    ensures { AppliesRollback t h settled i line accepted result }
{
    let rollback = t.rollback;
    let apply = rollback.apply;
    let holds = rule(apply, tests(t, h, settled, line, accepted));
    plans(holds, t, h, i)
}
