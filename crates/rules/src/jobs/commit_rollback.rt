// Job 3, commit rollback: which rule holds, and its plan. Fields are of Committed.
ghost use Rattle.std.specs.Prelude.{◌≡◌};
ghost use Rattle.kinds.specs.Events.{event};
ghost use Rattle.kinds.specs.Records.{with_rollback};
ghost use Rattle.rules.specs.Sides.{begun, committed};
ghost use Rattle.rules.specs.CommitRollback.{tests, rule, plans, commit_rollback};
ghost use Rattle.rules.specs.Promises.{CommitsRollback};

use crate::heads::{aimed, landed};
use crate::plans::{entry_only, head_then_entry, refuse};
use crate::sides::{begun, committed};
use crate::{CommitRollbackRule as Rule, CommitTests, Lay, Plan};
use kinds::{Event, Head, Number, Ordinal, Status, Transaction};

// What the rules ask, with r.index: revision = i, target = r.index, rest, the ordinal's limit, revision = r.index. The
// outcome is not looked at.
pub fn tests(h: Head, index: Number, rest: bool, i: Number) -> CommitTests
    ensures { result ≡ tests h index rest i }
{
    let ready = h.revision.is(i);
    let aimed = h.target.is(index);
    let full = h.ordinal.full();
    let landed = h.revision.is(index);
    CommitTests {
        ready,
        aimed,
        rest,
        accepted: true,
        full,
        landed,
    }
}

// The first rule that holds, by r.commit.
pub fn rule(commit: Status, a: CommitTests) -> Rule
    ensures { result ≡ rule commit a }
{
    match commit {
        Status::Pending => {
            if a.ready {
                if a.aimed {
                    return Rule::Begin;
                }
                if a.rest {
                    return Rule::Aim;
                }
            }
            Rule::Wait
        }
        Status::InProgress => {
            if a.ready {
                if a.full {
                    return Rule::Full;
                }
                return Rule::Land;
            }
            if a.landed {
                return Rule::Finish;
            }
            Rule::Wait
        }
        Status::None => Rule::Wait,
        Status::Complete => Rule::Wait,
        Status::Aborted => Rule::Wait,
        Status::Canceled => Rule::Wait,
        Status::Failed => Rule::Wait,
    }
}

// The entry begun: r.commit InProgress.
pub fn beginning(t: Transaction) -> Transaction
    ensures { result ≡ with_rollback t (begun t.rollback) }
{
    let rollback = t.rollback;
    t.with_rollback(begun(rollback))
}

// The entry finished: r.commit Complete, and r.ordinal.
pub fn finished(t: Transaction, ordinal: Ordinal) -> Transaction
    ensures { result ≡ with_rollback t (committed t.rollback ordinal) }
{
    let rollback = t.rollback;
    t.with_rollback(committed(rollback, ordinal))
}

// The job's event: phase Rollback, stage Commit.
pub fn event(i: Number, status: Status) -> Event
    ensures { result ≡ event 2 1 i status }
{
    Event {
        phase: 2,
        stage: 1,
        number: i,
        status,
    }
}

// The plan of a rule; o is the ordinal + 1.
pub fn plans(rule: Rule, t: Transaction, h: Head, i: Number, o: Ordinal) -> Plan
    ensures { result ≡ plans rule t h i o }
{
    let index = t.index;
    let ordinal = h.ordinal;
    match rule {
        Rule::Begin => entry_only(beginning(t), h),
        Rule::Aim => head_then_entry(
            event(i, Status::InProgress),
            aimed(h, index),
            false,
            Lay::Nothing,
            beginning(t),
        ),
        Rule::Land => head_then_entry(
            event(i, Status::Complete),
            landed(h, i, index, o),
            false,
            Lay::Kept,
            finished(t, o),
        ),
        Rule::Full => refuse(9, t, h),
        Rule::Finish => entry_only(finished(t, ordinal), h),
        Rule::Wait => refuse(11, t, h),
    }
}

// The plan that job 3 decides for entry t, numbered i; `rest` says whether the commit side is at rest.
pub fn commit_rollback(t: Transaction, h: Head, rest: bool, i: Number) -> Plan
    ensures { CommitsRollback t h rest i result }
{
    let rollback = t.rollback;
    let commit = rollback.commit;
    let holds = rule(commit, tests(h, t.index, rest, i));
    plans(holds, t, h, i, h.ordinal.next())
}
