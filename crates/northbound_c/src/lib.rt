// The archive that C links: northbound's functions by their own names, each with the clause of the one that it calls. A slice is a
// pointer and a length. Nothing is decided here.
#![tactic(auto)]

ghost use Rattle.machine.specs.Calls.{rollback, start, stop, connect, disconnect, master, sync, work, fold_to};
ghost use Rattle.machine.specs.Reads.{of_table, of_entry, of_state, of_node, of_owner, of_class, of_took, of_undone, of_drift};
ghost use Rattle.controller.specs.Bytes.{append_of};
ghost use Rattle.northbound.specs.Exports.{Claims, Freshens, Nights, Imports, Tallies, Lists, Shows, Explains, Tells};

// ---- the calls

// Makes a fresh image, of a switch that remembers (1) or forgets (0); 1 where the length is not 5,782, then 2 where it is neither.
#[unsafe(no_mangle)]
pub extern "C" fn makowist_fresh(image: &mut [u8], remembers: u64) -> u64
    ensures { Freshens image.old remembers result image.new }
{
    northbound::makowist_fresh(image, remembers)
}

// Takes a change into the log: four bytes a pair, its path and its value, each little-endian.
#[unsafe(no_mangle)]
pub extern "C" fn makowist_append(image: &mut [u8], pairs: &[u8]) -> u64
    ensures { Claims image.old (append_of pairs.now) result image.new }
{
    northbound::makowist_append(image, pairs)
}

// Asks for the rollback of a change.
#[unsafe(no_mangle)]
pub extern "C" fn makowist_rollback(image: &mut [u8], number: u64) -> u64
    ensures { Claims image.old (rollback number) result image.new }
{
    northbound::makowist_rollback(image, number)
}

// Starts the target.
#[unsafe(no_mangle)]
pub extern "C" fn makowist_start(image: &mut [u8]) -> u64
    ensures { Claims image.old start result image.new }
{
    northbound::makowist_start(image)
}

// Stops the target.
#[unsafe(no_mangle)]
pub extern "C" fn makowist_stop(image: &mut [u8]) -> u64
    ensures { Claims image.old stop result image.new }
{
    northbound::makowist_stop(image)
}

// Connects a node.
#[unsafe(no_mangle)]
pub extern "C" fn makowist_connect(image: &mut [u8], node: u64) -> u64
    ensures { Claims image.old (connect node) result image.new }
{
    northbound::makowist_connect(image, node)
}

// Disconnects a node.
#[unsafe(no_mangle)]
pub extern "C" fn makowist_disconnect(image: &mut [u8], node: u64) -> u64
    ensures { Claims image.old (disconnect node) result image.new }
{
    northbound::makowist_disconnect(image, node)
}

// Gives mastership to a node that asks, or frees it of a master that is lost or has reconnected.
#[unsafe(no_mangle)]
pub extern "C" fn makowist_master(image: &mut [u8], node: u64) -> u64
    ensures { Claims image.old (master node) result image.new }
{
    northbound::makowist_master(image, node)
}

// Brings the applied values to the target, in two calls; the second shows how many paths differed.
#[unsafe(no_mangle)]
pub extern "C" fn makowist_sync(image: &mut [u8], node: u64) -> u64
    ensures { Claims image.old (sync node) result image.new }
{
    northbound::makowist_sync(image, node)
}

// One step of a job: 1 commit change, 2 apply change, 3 commit rollback, 4 apply rollback.
#[unsafe(no_mangle)]
pub extern "C" fn makowist_work(
    image: &mut [u8],
    node: u64,
    job: u64,
    number: u64,
    outcome: u64,
    cut: u64,
) -> u64
    ensures { Claims image.old (work node job number outcome cut) result image.new }
{
    northbound::makowist_work(image, node, job, number, outcome, cut)
}

// Folds all up to a number away, where nothing is left to do of them: 17 where it may not be.
#[unsafe(no_mangle)]
pub extern "C" fn makowist_fold(image: &mut [u8], number: u64) -> u64
    ensures { Claims image.old (fold_to number) result image.new }
{
    northbound::makowist_fold(image, number)
}

// Works by itself: each turn does the first job that is not refused. The events go into the room lent, 16 bytes each, as many as
// there is room for.
#[unsafe(no_mangle)]
pub extern "C" fn makowist_night(
    image: &mut [u8],
    node: u64,
    budget: u64,
    outcomes: &[u8],
    events: &mut [u8],
) -> u64
    ensures { Nights image.old node budget outcomes.now events.old result image.new events.new }
{
    northbound::makowist_night(image, node, budget, outcomes, events)
}

// Takes a list of the old controller in place of a fresh start: 20 bytes an entry, at most 256 of them. What the image held does
// not matter; refused, it is what it had been, and the answer has the place of the first bad entry.
#[unsafe(no_mangle)]
pub extern "C" fn makowist_import(image: &mut [u8], entries: &[u8]) -> u64
    ensures { Imports image.old entries.now result image.new }
{
    northbound::makowist_import(image, entries)
}

// ---- the reads

// Whether the image is well-formed: 0 where it is, 1 where not.
#[unsafe(no_mangle)]
pub extern "C" fn makowist_well_formed(image: &[u8]) -> u64
    ensures { Tells image.now result }
{
    northbound::makowist_well_formed(image)
}

// The live list, newest first, in the room lent, two bytes a number, the low one first; and its length.
#[unsafe(no_mangle)]
pub extern "C" fn makowist_live(image: &[u8], room: &mut [u8]) -> u64
    ensures { Lists image.now room.old result room.new }
{
    northbound::makowist_live(image, room)
}

// The value of a path: table 1 Committed, 2 Applied, 3 the target, 4 the base.
#[unsafe(no_mangle)]
pub extern "C" fn makowist_value(image: &[u8], table: u64, path: u64) -> u64
    ensures { Shows image.now (of_table table path) result }
{
    northbound::makowist_value(image, table, path)
}

// Who set a path: the number of the newest live change that set it, 0 where none did.
#[unsafe(no_mangle)]
pub extern "C" fn makowist_owner(image: &[u8], path: u64) -> u64
    ensures { Shows image.now (of_owner path) result }
{
    northbound::makowist_owner(image, path)
}

// A field of a transaction.
#[unsafe(no_mangle)]
pub extern "C" fn makowist_transaction(image: &[u8], number: u64, field: u64) -> u64
    ensures { Shows image.now (of_entry number field) result }
{
    northbound::makowist_transaction(image, number, field)
}

// The class of a transaction, 1 to 6.
#[unsafe(no_mangle)]
pub extern "C" fn makowist_class(image: &[u8], number: u64) -> u64
    ensures { Shows image.now (of_class number) result }
{
    northbound::makowist_class(image, number)
}

// Whether the switch took a change: 1, or 0.
#[unsafe(no_mangle)]
pub extern "C" fn makowist_took(image: &[u8], number: u64) -> u64
    ensures { Shows image.now (of_took number) result }
{
    northbound::makowist_took(image, number)
}

// Whether a change was undone on the switch: 1, or 0.
#[unsafe(no_mangle)]
pub extern "C" fn makowist_undone(image: &[u8], number: u64) -> u64
    ensures { Shows image.now (of_undone number) result }
{
    northbound::makowist_undone(image, number)
}

// A field of what the state has once.
#[unsafe(no_mangle)]
pub extern "C" fn makowist_record(image: &[u8], field: u64) -> u64
    ensures { Shows image.now (of_state field) result }
{
    northbound::makowist_record(image, field)
}

// A field of a node's connection.
#[unsafe(no_mangle)]
pub extern "C" fn makowist_connection(image: &[u8], node: u64, field: u64) -> u64
    ensures { Shows image.now (of_node node field) result }
{
    northbound::makowist_connection(image, node, field)
}

// Why a node's job does not move a number: a reason, 1 to 8, and what it names; 15 where the job would not answer 11.
#[unsafe(no_mangle)]
pub extern "C" fn makowist_why(image: &[u8], node: u64, job: u64, number: u64) -> u64
    ensures { Explains image.now node job number result }
{
    northbound::makowist_why(image, node, job, number)
}

// The paths at which the committed and the applied values differ, as a mask: bit p for path p.
#[unsafe(no_mangle)]
pub extern "C" fn makowist_drift(image: &[u8]) -> u64
    ensures { Shows image.now of_drift result }
{
    northbound::makowist_drift(image)
}

// A log's line of the handover sheet, by its place in the report: the transactions of each class, and how many paths differ. The
// counts are added to the totals lent: six numbers of two bytes each, the low one first.
#[unsafe(no_mangle)]
pub extern "C" fn makowist_tally(image: &[u8], log: u64, totals: &mut [u8]) -> u64
    ensures { Tallies image.now log totals.old result totals.new }
{
    northbound::makowist_tally(image, log, totals)
}
