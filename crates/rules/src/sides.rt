// What a store writes into one side of an entry, that of its change or that of its rollback.
ghost use Rattle.std.specs.Prelude.{◌≡◌};
ghost use Rattle.rules.specs.Sides.{asked, begun, committed, invalid, apply_at};

use kinds::{Ordinal, Side, Status};

// The side with commit and apply Pending.
pub fn asked(x: Side) -> Side
    ensures { result ≡ asked x }
{
    let ordinal = x.ordinal;
    Side {
        commit: Status::Pending,
        apply: Status::Pending,
        ordinal,
    }
}

// The side with commit InProgress.
pub fn begun(x: Side) -> Side
    ensures { result ≡ begun x }
{
    let apply = x.apply;
    let ordinal = x.ordinal;
    Side {
        commit: Status::InProgress,
        apply,
        ordinal,
    }
}

// The side with commit Complete, and its ordinal.
pub fn committed(x: Side, ordinal: Ordinal) -> Side
    ensures { result ≡ committed x ordinal }
{
    let apply = x.apply;
    Side {
        commit: Status::Complete,
        apply,
        ordinal,
    }
}

// The side of an invalid change: commit Failed, apply Canceled.
pub fn invalid(x: Side) -> Side
    ensures { result ≡ invalid x }
{
    let ordinal = x.ordinal;
    Side {
        commit: Status::Failed,
        apply: Status::Canceled,
        ordinal,
    }
}

// The side with apply at a status.
pub fn apply_at(x: Side, apply: Status) -> Side
    ensures { result ≡ apply_at x apply }
{
    let commit = x.commit;
    let ordinal = x.ordinal;
    Side {
        commit,
        apply,
        ordinal,
    }
}
