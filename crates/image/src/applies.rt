// Whether an apply has completed, by its status and its ordinal beside Applied's (order 11).
ghost use Rattle.image.specs.Promises.{TellsLanded};

use kinds::{Ordinal, Status};

// Complete, or in progress with its push made, which brought Applied to its ordinal.
pub fn landed(apply: Status, applied: Ordinal, ordinal: Ordinal) -> bool
    ensures { TellsLanded apply applied ordinal result }
{
    match apply {
        Status::None => false,
        Status::Pending => false,
        Status::InProgress => applied.is(ordinal),
        Status::Complete => true,
        Status::Aborted => false,
        Status::Canceled => false,
        Status::Failed => false,
    }
}
