// What a store writes into a head, Committed's or Applied's. `aim` is where a job leads: its number for a change, its
// r.index for a rollback.
ghost use Rattle.std.specs.Prelude.{◌≡◌};
ghost use Rattle.rules.specs.Heads.{aimed, landed, passed, closed};

use kinds::{Head, Number, Ordinal};

// The head with target = aim.
pub fn aimed(h: Head, aim: Number) -> Head
    ensures { result ≡ aimed h aim }
{
    let mut next = h;
    next.target = aim;
    next
}

// The head with index = i, revision = aim, and the ordinal.
pub fn landed(h: Head, i: Number, aim: Number, ordinal: Ordinal) -> Head
    ensures { result ≡ landed h i aim ordinal }
{
    let mut next = h;
    next.index = i;
    next.revision = aim;
    next.ordinal = ordinal;
    next
}

// The head with index = i: an invalid change is passed by.
pub fn passed(h: Head, i: Number) -> Head
    ensures { result ≡ passed h i }
{
    let mut next = h;
    next.index = i;
    next
}

// The head after "close": target = aim, index = i, and the ordinal.
pub fn closed(h: Head, i: Number, aim: Number, ordinal: Ordinal) -> Head
    ensures { result ≡ closed h i aim ordinal }
{
    let mut next = h;
    next.index = i;
    next.target = aim;
    next.ordinal = ordinal;
    next
}
