// The commit side at rest: no commit and no commit of a rollback is under way.
ghost use Rattle.std.specs.Prelude.{◌≡◌};
ghost use Rattle.rules.specs.AtRest.{at_rest};
ghost use Rattle.rules.specs.Promises.{TellsRest};

use kinds::{Head, Status};

// Whether the commit side is at rest, from Committed's head and from c.commit and r.commit of the entry at its index.
pub fn at_rest(h: Head, c: Status, r: Status) -> bool
    ensures { TellsRest h c r result }
{
    let index = h.index.get();
    let target = h.target.get();
    let revision = h.revision.get();
    let committed = c.done();
    let undone = r.done();
    let empty = (index == 0) & (target == 0);
    let change = (1 <= index) & ((target == index) & committed);
    let rollback = (1 <= index) & ((target == revision) & ((revision < index) & undone));
    empty | (change | rollback)
}
