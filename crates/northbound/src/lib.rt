// What the northbound server, written in C, calls, by the archive of northbound_c: numbers and lent slices in, one packed number out.
// Nothing is decided here but that a number of more than 16 bits is refused.
#![tactic(auto)]

ghost use Rattle.std.specs.Prelude.{◌≡◌, cond, ◌<◌};
ghost use Rattle.machine.specs.Calls.{rollback, start, stop, connect, disconnect, master, sync, work, fold_to};
ghost use Rattle.machine.specs.Reads.{of_table, of_entry, of_state, of_node, of_owner, of_class, of_took, of_undone, of_drift};
ghost use Rattle.image.specs.Formed.{formed};
ghost use Rattle.controller.specs.Bytes.{append_of};
ghost use Rattle.northbound.specs.Packing.{Packs, PacksRead, PacksListed, PacksWhy, PacksNight, PacksImport, PacksTally};
ghost use Rattle.northbound.specs.Wide.{narrowed, handed};
ghost use Rattle.northbound.specs.Exports.{Claims, Freshens, Nights, Imports, Tallies, Lists, Shows, Explains, Tells};

use controller::{Imported, Listed, Night, Read, Tally, Why};
use image::well_formed;
use kinds::Reply;

// ---- the packing

fn pack(r: Reply) -> u64
    ensures { Packs r result }
{
    let e = r.event;
    let n = e.number;
    let status = e.status;
    let code = status.code();
    let number = n.get();
    (r.answer as u64)
        + 256 * (e.phase as u64)
        + 65536 * (e.stage as u64)
        + 16777216 * (code as u64)
        + 4294967296 * (number as u64)
}

fn pack_read(r: Read) -> u64
    ensures { PacksRead r result }
{
    (r.answer as u64) + 4294967296 * (r.value as u64)
}

fn pack_listed(r: Listed) -> u64
    ensures { PacksListed r result }
{
    (r.answer as u64) + 4294967296 * (r.length as u64)
}

fn pack_why(r: Why) -> u64
    ensures { PacksWhy r result }
{
    (r.answer as u64) + 256 * (r.reason as u64) + 4294967296 * (r.named as u64)
}

fn pack_night(r: Night) -> u64
    ensures { PacksNight r result }
{
    (r.answer as u64)
        + 256 * (r.stopped as u64)
        + 65536 * (r.jobs as u64)
        + 4294967296 * (r.events as u64)
}

fn pack_import(r: Imported) -> u64
    ensures { PacksImport r result }
{
    (r.answer as u64) + 4294967296 * (r.position as u64)
}

fn wide(x: u8) -> u64
    ensures { (result ≡ x) × (result < 256) }
{
    x as u64
}

fn pack_tally(r: Tally) -> u64
    ensures { PacksTally r result }
{
    let n = r.counts;
    let a = wide(n[0]);
    let b = wide(n[1]);
    let c = wide(n[2]);
    let d = wide(n[3]);
    let e = wide(n[4]);
    let f = wide(n[5]);
    let answer = wide(r.answer);
    let drift = wide(r.drift);
    answer
        + 256 * a
        + 65536 * b
        + 16777216 * c
        + 4294967296 * d
        + 1099511627776 * e
        + 281474976710656 * f
        + 72057594037927936 * drift
}

// ---- a number of C's, of 64 bits: one that is no 16-bit number is refused, or handed on as another that is refused as it is

// In the range of no node, job, outcome, cut, budget, table, path or field, and the place of no log.
const OUTSIDE: u16 = 65535;

// The number of no transaction: no log has 0, as none has one past 65,535.
const NONE: u16 = 0;

fn narrow(x: u64, far: u16) -> u16
    ensures { result ≡ narrowed far x }
{
    if x <= 65535 {
        return x as u16;
    }
    far
}

// The numbers of a job.
#[derive(Clone, Copy)]
struct Job {
    node: u16,
    job: u16,
    number: u16,
    outcome: u16,
    cut: u16,
}

// The five together, in one test. Where one of them is too great, the job is refused for that one, or for a number that is none.
fn narrow_job(node: u64, job: u64, number: u64, outcome: u64, cut: u64) -> Job
    ensures { result ≡ handed node job number outcome cut }
{
    if (number <= 65535) & (cut <= 65535) & (outcome <= 65535) & (job <= 65535) & (node <= 65535) {
        return Job {
            node: node as u16,
            job: job as u16,
            number: number as u16,
            outcome: outcome as u16,
            cut: cut as u16,
        };
    }
    Job {
        node: narrow(node, OUTSIDE),
        job: narrow(job, OUTSIDE),
        number: NONE,
        outcome: narrow(outcome, OUTSIDE),
        cut: narrow(cut, OUTSIDE),
    }
}

// What a read of a field or a path is refused with that is too great: 2, or 1 where the image is not well-formed.
fn refused(image: &[u8]) -> u64
    ensures { result ≡ cond (formed image.now) 2 1 }
{
    if well_formed(image) {
        return 2;
    }
    1
}

// ---- the calls

// Makes a fresh image, of a switch that remembers (1) or forgets (0); 1 where the length is not 5,782, then 2 where it is neither.
pub fn makowist_fresh(image: &mut [u8], remembers: u64) -> u64
    ensures { Freshens image.old remembers result image.new }
{
    let k = narrow(remembers, OUTSIDE);
    pack(controller::fresh(image, k))
}

// Takes a change into the log: four bytes a pair, its path and its value, each little-endian.
pub fn makowist_append(image: &mut [u8], pairs: &[u8]) -> u64
    ensures { Claims image.old (append_of pairs.now) result image.new }
{
    pack(controller::append(image, pairs))
}

// Asks for the rollback of a change.
pub fn makowist_rollback(image: &mut [u8], number: u64) -> u64
    ensures { Claims image.old (rollback number) result image.new }
{
    let i = narrow(number, NONE);
    pack(controller::rollback(image, i))
}

// Starts the target.
pub fn makowist_start(image: &mut [u8]) -> u64
    ensures { Claims image.old start result image.new }
{
    pack(controller::start(image))
}

// Stops the target.
pub fn makowist_stop(image: &mut [u8]) -> u64
    ensures { Claims image.old stop result image.new }
{
    pack(controller::stop(image))
}

// Connects a node.
pub fn makowist_connect(image: &mut [u8], node: u64) -> u64
    ensures { Claims image.old (connect node) result image.new }
{
    let n = narrow(node, OUTSIDE);
    pack(controller::connect(image, n))
}

// Disconnects a node.
pub fn makowist_disconnect(image: &mut [u8], node: u64) -> u64
    ensures { Claims image.old (disconnect node) result image.new }
{
    let n = narrow(node, OUTSIDE);
    pack(controller::disconnect(image, n))
}

// Gives mastership to a node that asks, or frees it of a master that is lost or has reconnected.
pub fn makowist_master(image: &mut [u8], node: u64) -> u64
    ensures { Claims image.old (master node) result image.new }
{
    let n = narrow(node, OUTSIDE);
    pack(controller::master(image, n))
}

// Brings the applied values to the target, in two calls; the second shows how many paths differed.
pub fn makowist_sync(image: &mut [u8], node: u64) -> u64
    ensures { Claims image.old (sync node) result image.new }
{
    let n = narrow(node, OUTSIDE);
    pack(controller::sync(image, n))
}

// One step of a job: 1 commit change, 2 apply change, 3 commit rollback, 4 apply rollback.
pub fn makowist_work(
    image: &mut [u8],
    node: u64,
    job: u64,
    number: u64,
    outcome: u64,
    cut: u64,
) -> u64
    ensures { Claims image.old (work node job number outcome cut) result image.new }
{
    let w = narrow_job(node, job, number, outcome, cut);
    pack(controller::work(image, w.node, w.job, w.number, w.outcome, w.cut))
}

// Folds all up to a number away, where nothing is left to do of them: 17 where it may not be.
pub fn makowist_fold(image: &mut [u8], number: u64) -> u64
    ensures { Claims image.old (fold_to number) result image.new }
{
    let i = narrow(number, NONE);
    pack(controller::fold(image, i))
}

// Works by itself: each turn does the first job that is not refused. The events go into the room lent, 16 bytes each, as many as
// there is room for.
pub fn makowist_night(
    image: &mut [u8],
    node: u64,
    budget: u64,
    outcomes: &[u8],
    events: &mut [u8],
) -> u64
    ensures { Nights image.old node budget outcomes.now events.old result image.new events.new }
{
    let n = narrow(node, OUTSIDE);
    let b = narrow(budget, OUTSIDE);
    pack_night(controller::night(image, n, b, outcomes, events))
}

// Takes a list of the old controller in place of a fresh start: 20 bytes an entry, at most 256 of them. What the image held does
// not matter; refused, it is what it had been, and the answer has the place of the first bad entry.
pub fn makowist_import(image: &mut [u8], entries: &[u8]) -> u64
    ensures { Imports image.old entries.now result image.new }
{
    pack_import(controller::import(image, entries))
}

// ---- the reads

// Whether the image is well-formed: 0 where it is, 1 where not.
pub fn makowist_well_formed(image: &[u8]) -> u64
    ensures { Tells image.now result }
{
    if well_formed(image) {
        return 0;
    }
    1
}

// The live list, newest first, in the room lent, two bytes a number, the low one first; and its length.
pub fn makowist_live(image: &[u8], room: &mut [u8]) -> u64
    ensures { Lists image.now room.old result room.new }
{
    pack_listed(controller::live(image, room))
}

// The value of a path: table 1 Committed, 2 Applied, 3 the target, 4 the base.
pub fn makowist_value(image: &[u8], table: u64, path: u64) -> u64
    ensures { Shows image.now (of_table table path) result }
{
    if 65535 < path {
        return refused(image);
    }
    let b = narrow(table, OUTSIDE);
    pack_read(controller::value(image, b, path as u16))
}

// Who set a path: the number of the newest live change that set it, 0 where none did.
pub fn makowist_owner(image: &[u8], path: u64) -> u64
    ensures { Shows image.now (of_owner path) result }
{
    let p = narrow(path, OUTSIDE);
    pack_read(controller::owner(image, p))
}

// A field of a transaction.
pub fn makowist_transaction(image: &[u8], number: u64, field: u64) -> u64
    ensures { Shows image.now (of_entry number field) result }
{
    if 65535 < field {
        return refused(image);
    }
    let i = narrow(number, NONE);
    pack_read(controller::transaction(image, i, field as u16))
}

// The class of a transaction, 1 to 6.
pub fn makowist_class(image: &[u8], number: u64) -> u64
    ensures { Shows image.now (of_class number) result }
{
    let i = narrow(number, NONE);
    pack_read(controller::class(image, i))
}

// Whether the switch took a change: 1, or 0.
pub fn makowist_took(image: &[u8], number: u64) -> u64
    ensures { Shows image.now (of_took number) result }
{
    let i = narrow(number, NONE);
    pack_read(controller::took(image, i))
}

// Whether a change was undone on the switch: 1, or 0.
pub fn makowist_undone(image: &[u8], number: u64) -> u64
    ensures { Shows image.now (of_undone number) result }
{
    let i = narrow(number, NONE);
    pack_read(controller::undone(image, i))
}

// A field of what the state has once.
pub fn makowist_record(image: &[u8], field: u64) -> u64
    ensures { Shows image.now (of_state field) result }
{
    let f = narrow(field, OUTSIDE);
    pack_read(controller::record(image, f))
}

// A field of a node's connection.
pub fn makowist_connection(image: &[u8], node: u64, field: u64) -> u64
    ensures { Shows image.now (of_node node field) result }
{
    if 65535 < field {
        return refused(image);
    }
    let n = narrow(node, OUTSIDE);
    pack_read(controller::connection(image, n, field as u16))
}

// Why a node's job does not move a number: a reason, 1 to 8, and what it names; 15 where the job would not answer 11.
pub fn makowist_why(image: &[u8], node: u64, job: u64, number: u64) -> u64
    ensures { Explains image.now node job number result }
{
    let n = narrow(node, OUTSIDE);
    let j = narrow(job, OUTSIDE);
    let i = narrow(number, NONE);
    pack_why(controller::why(image, n, j, i))
}

// The paths at which the committed and the applied values differ, as a mask: bit p for path p.
pub fn makowist_drift(image: &[u8]) -> u64
    ensures { Shows image.now of_drift result }
{
    pack_read(controller::drift(image))
}

// A log's line of the handover sheet, by its place in the report: the transactions of each class, and how many paths differ. The
// counts are added to the totals lent: six numbers of two bytes each, the low one first.
pub fn makowist_tally(image: &[u8], log: u64, totals: &mut [u8]) -> u64
    ensures { Tallies image.now log totals.old result totals.new }
{
    let k = narrow(log, OUTSIDE);
    pack_tally(controller::tally(image, k, totals))
}
