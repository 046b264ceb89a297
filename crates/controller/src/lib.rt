// The controller: every call of the paper on one lent image. A public call has no `requires`: it refuses by number, and
// then every byte is what it had been.
#![tactic(auto, using(crate::proofs::Decided::size))]

ghost use Rattle.std.specs.Prelude.{◌≡◌, true};
ghost use Rattle.machine.specs.Calls.{rollback, start, stop, connect, disconnect, master, sync, work, fold_to};
ghost use Rattle.image.specs.Formed.{formed};
ghost use Rattle.controller.specs.Claims.{Claims, Does};
ghost use Rattle.controller.specs.Bytes.{append_of};
ghost use Rattle.controller.specs.Promises.{Explains};
ghost use Rattle.controller.specs.Nights.{Nights};
ghost use Rattle.controller.specs.Imports.{Imports};
ghost use Rattle.controller.specs.Tallies.{Tallies};

use image::well_formed;
use kinds::Reply;

mod pairs; // pairs.rt: the lent pairs of an append
mod perform; // perform.rt: a plan's stores, carried out
mod deciding; // deciding.rt: what a job plans, from the records that it loads
mod calls; // calls.rt: each call on a well-formed image
mod folding; // folding.rt: the front of the log folded away
mod clearing; // clearing.rt: a fresh image
mod walking; // walking.rt: the live list
mod tallies; // tallies.rt: a log's line of the handover sheet
mod reads; // reads.rt: one number of the state at a time
mod reasons; // reasons.rt: why a job answers 11
mod nights; // nights.rt: work by itself through the night
mod imports; // imports.rt: the old controller's lists

pub use clearing::fresh;
pub use image::IMAGE_LENGTH;
pub use imports::Imported;
pub use nights::Night;
pub use reads::{
    Heads, Read, both_heads, class, connection, drift, owner, record, took, transaction, undone,
    value,
};
pub use reasons::Why;
pub use tallies::Tally;
pub use walking::{Listed, live};

// Takes a change into the log: its pairs, four bytes each.
pub fn append(s: &mut [u8], pairs: &[u8]) -> Reply
    ensures { Claims s.old (append_of pairs.now) result s.new }
{
    if well_formed(s) {
        return calls::append(s, pairs);
    }
    Reply::of(1)
}

// Asks for the rollback of a change.
pub fn rollback(s: &mut [u8], number: u16) -> Reply
    ensures { Claims s.old (rollback number) result s.new }
{
    if well_formed(s) {
        return calls::rollback(s, number);
    }
    Reply::of(1)
}

// Starts the target: its id counts up.
pub fn start(s: &mut [u8]) -> Reply
    ensures { Claims s.old start result s.new }
{
    if well_formed(s) {
        return calls::start(s);
    }
    Reply::of(1)
}

// Stops the target: its values are lost, unless it remembers them, and every connection.
pub fn stop(s: &mut [u8]) -> Reply
    ensures { Claims s.old stop result s.new }
{
    if well_formed(s) {
        return calls::stop(s);
    }
    Reply::of(1)
}

// Connects a node to the target.
pub fn connect(s: &mut [u8], node: u16) -> Reply
    ensures { Claims s.old (connect node) result s.new }
{
    if well_formed(s) {
        return calls::connect(s, node);
    }
    Reply::of(1)
}

// Takes a node's connection away.
pub fn disconnect(s: &mut [u8], node: u16) -> Reply
    ensures { Claims s.old (disconnect node) result s.new }
{
    if well_formed(s) {
        return calls::disconnect(s, node);
    }
    Reply::of(1)
}

// Gives mastership to a node that asks, or frees it of a master that is lost or has reconnected.
pub fn master(s: &mut [u8], node: u16) -> Reply
    ensures { Claims s.old (master node) result s.new }
{
    if well_formed(s) {
        return calls::master(s, node);
    }
    Reply::of(1)
}

// Brings the applied values to the target, in two calls; the second shows how many paths differed.
pub fn sync(s: &mut [u8], node: u16) -> Reply
    ensures { Claims s.old (sync node) result s.new }
{
    if well_formed(s) {
        return calls::sync(s, node);
    }
    Reply::of(1)
}

// One step of a job: 1 commit change, 2 apply change, 3 commit rollback, 4 apply rollback.
pub fn work(s: &mut [u8], node: u16, job: u16, number: u16, outcome: u16, cut: u16) -> Reply
    ensures { Claims s.old (work node job number outcome cut) result s.new }
{
    if well_formed(s) {
        return calls::work(s, node, job, number, outcome, cut);
    }
    Reply::of(1)
}

// Folds all up to a number away, where nothing is left to do of them.
pub fn fold(s: &mut [u8], number: u16) -> Reply
    ensures { Claims s.old (fold_to number) result s.new }
{
    if well_formed(s) {
        return folding::fold(s, number);
    }
    Reply::of(1)
}

// Why a node's job does not move a number: one reason where it would answer 11. Nothing is changed.
pub fn why(s: &[u8], node: u16, job: u16, number: u16) -> Why
    ensures { Explains s.now node job number result }
{
    if well_formed(s) {
        return reasons::asked(s, node, job, number);
    }
    Why {
        answer: 1,
        reason: 0,
        named: 0,
    }
}

// The jobs of a node one after another, each the first that is not refused, at most as many as the budget (0 to 4,096): 256
// outcomes of one byte, two for each number kept, of its validation and of the push of its change. Each job's event is
// written in the room, 16 bytes each in order, as far as there is room; that of a job that shows none is zeros.
pub fn night(s: &mut [u8], node: u16, budget: u16, outcomes: &[u8], events: &mut [u8]) -> Night
    ensures { Nights s.old node budget outcomes.now events.old result s.new events.new }
{
    if well_formed(s) {
        return nights::spend(s, node, budget, outcomes, events);
    }
    Night {
        answer: 1,
        jobs: 0,
        stopped: 0,
        events: 0,
    }
}

// Takes a list of the old controller in place of a fresh start: 20 bytes an entry, at most 256 of them. The image becomes the one
// that `fresh` and the calls that the list stands for leave; refused, it is what it had been.
pub fn import(s: &mut [u8], list: &[u8]) -> Imported
    ensures { Imports s.old list.now result s.new }
{
    if s.len() == IMAGE_LENGTH {
        return imports::take(s, list);
    }
    Imported {
        answer: 1,
        position: 0,
    }
}

// A log's line of the handover sheet, by its place there (1 to 64), and its counts added to the totals that are lent: 12 bytes, six
// numbers of two bytes each, the low one first. Refuses 2 for a place that is none, and for totals that no logs before it can
// have; then 1. Refused, every byte of the totals is what it had been.
pub fn tally(s: &[u8], log: u16, totals: &mut [u8]) -> Tally
    ensures { Tallies s.now log totals.old result totals.new }
{
    if tallies::lent_ok(log, totals) {
        return tallies::report(s, totals);
    }
    let counts = [0u8, 0, 0, 0, 0, 0];
    Tally {
        answer: 2,
        counts,
        mask: 0,
        drift: 0,
    }
}
