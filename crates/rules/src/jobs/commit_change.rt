// Job 1, commit change: which rule holds, and its plan. Fields are of Committed.
ghost use Rattle.std.specs.Prelude.{◌≡◌};
ghost use Rattle.kinds.specs.Events.{event};
ghost use Rattle.kinds.specs.Records.{with_change};
ghost use Rattle.rules.specs.Sides.{committed};
ghost use Rattle.rules.specs.CommitChange.{tests, rule, beginning, plans, commit_change};
ghost use Rattle.rules.specs.Promises.{CommitsChange};

use crate::heads::{aimed, landed, passed};
use crate::plans::{entry_only, entry_then_head, head_only, head_then_entry, refuse};
use crate::sides::{begun, committed, invalid};
use crate::{CommitChangeRule as Rule, CommitTests, Lay, Plan, Present};
use kinds::{Event, Head, Number, Ordinal, Status, Transaction};

// What the rules ask: change = i − 1, target = i, rest, the outcome, the ordinal's limit, change = i.
pub fn tests(h: Head, change: Number, rest: bool, i: Number, accepted: bool) -> CommitTests
    ensures { result ≡ tests h change rest i accepted }
{
    let ready = i.follows(change);
    let aimed = h.target.is(i);
    let full = h.ordinal.full();
    let landed = change.is(i);
    CommitTests {
        ready,
        aimed,
        rest,
        accepted,
        full,
        landed,
    }
}

// The first rule that holds, by c.commit.
pub fn rule(commit: Status, a: CommitTests) -> Rule
    ensures { result ≡ rule commit a }
{
    match commit {
        Status::Pending => {
            if a.ready {
                if a.aimed {
                    return Rule::Begin;
                }
                if a.rest {
                    return Rule::Aim;
                }
            }
            Rule::Wait
        }
        Status::InProgress => {
            if a.ready {
                if a.accepted {
                    if a.full {
                        return Rule::Full;
                    }
                    return Rule::Land;
                }
                return Rule::Reject;
            }
            if a.landed {
                return Rule::Finish;
            }
            Rule::Wait
        }
        Status::Failed => {
            if a.ready {
                return Rule::Close;
            }
            Rule::Wait
        }
        Status::None => Rule::Wait,
        Status::Complete => Rule::Wait,
        Status::Aborted => Rule::Wait,
        Status::Canceled => Rule::Wait,
    }
}

// The entry begun: c.commit InProgress, r.index = revision, r.values = the present values of its paths, and their present
// owners are remembered.
pub fn beginning(t: Transaction, revision: Number, present: Present) -> Transaction
    ensures { result ≡ beginning t revision present }
{
    let paths = t.paths;
    let values = t.values;
    let change = t.change;
    let rollback = t.rollback;
    let kept = present.values;
    let owners = present.owners;
    Transaction {
        phase: t.phase,
        count: t.count,
        paths,
        values,
        change: begun(change),
        rollback,
        index: revision,
        kept,
        owners,
    }
}

// The entry finished: c.commit Complete, and c.ordinal.
pub fn finished(t: Transaction, ordinal: Ordinal) -> Transaction
    ensures { result ≡ with_change t (committed t.change ordinal) }
{
    let change = t.change;
    t.with_change(committed(change, ordinal))
}

// The job's event: phase Change, stage Commit.
pub fn event(i: Number, status: Status) -> Event
    ensures { result ≡ event 1 1 i status }
{
    Event {
        phase: 1,
        stage: 1,
        number: i,
        status,
    }
}

// The plan of a rule; o is the ordinal + 1.
pub fn plans(rule: Rule, t: Transaction, h: Head, i: Number, o: Ordinal, present: Present) -> Plan
    ensures { result ≡ plans rule t h i o present }
{
    let change = t.change;
    let revision = h.revision;
    let ordinal = h.ordinal;
    match rule {
        Rule::Begin => entry_only(beginning(t, revision, present), h),
        Rule::Aim => head_then_entry(
            event(i, Status::InProgress),
            aimed(h, i),
            false,
            Lay::Nothing,
            beginning(t, revision, present),
        ),
        Rule::Land => head_then_entry(
            event(i, Status::Complete),
            landed(h, i, i, o),
            true,
            Lay::Values,
            finished(t, o),
        ),
        Rule::Full => refuse(9, t, h),
        Rule::Reject => entry_then_head(
            event(i, Status::Failed),
            t.with_change(invalid(change)),
            passed(h, i),
            true,
        ),
        Rule::Finish => entry_only(finished(t, ordinal), h),
        Rule::Close => head_only(t, passed(h, i), true),
        Rule::Wait => refuse(11, t, h),
    }
}

// The plan that job 1 decides for entry t, numbered i; `rest` says whether the commit side is at rest, and `present`
// are the committed values and the owners at the entry's paths.
pub fn commit_change(
    t: Transaction,
    h: Head,
    change: Number,
    rest: bool,
    i: Number,
    accepted: bool,
    present: Present,
) -> Plan
    ensures { CommitsChange t h change rest i accepted present result }
{
    let side = t.change;
    let commit = side.commit;
    let holds = rule(commit, tests(h, change, rest, i, accepted));
    plans(holds, t, h, i, h.ordinal.next(), present)
}
