// The reads: one number of the state at a time. None changes a byte.
ghost use Rattle.std.specs.Prelude.{◌≡◌, true, ◌&&◌, ◌<◌, ◌≤◌, ltb, length};
ghost use Rattle.machine.specs.State.{is_node};
ghost use Rattle.machine.specs.Taken.{landed};
ghost use Rattle.machine.specs.Reads.{Query, of_table, of_entry, of_state, of_node, of_owner, of_class, of_took, of_undone, of_drift, shows, refuses, is_field, flag, entry_numbers, state_numbers, node_numbers};
ghost use Rattle.image.specs.Layout.{image_length, applied_at};
ghost use Rattle.image.specs.Records.{head_at};
ghost use Rattle.image.specs.View.{view};
ghost use Rattle.image.specs.Formed.{formed};
ghost use Rattle.controller.specs.Reads.{given, number_answer, no_head};
ghost use Rattle.controller.specs.Promises.{Shows, ShowsHeads};

use crate::calls::{in_log, is_node};
use crate::tallies::mask_of;
use image::{
    APPLIED_AT, COMMITTED_AT, OWNERS_AT, landed, last_fold, last_number, load_change, load_class,
    load_configuration, load_connection, load_entry, load_head, load_mastership, load_target,
    load_value, table_place, well_formed,
};
use kinds::{Connection, Head, Number, Ordinal, Side, Transaction};

// The refusal, or 0 and the number read.
#[derive(Clone, Copy)]
pub struct Read {
    pub answer: u8,
    pub value: u32,
}

impl Read {
    fn shows(value: u32) -> Read
        ensures { result ≡ given (shows value) }
    {
        Read { answer: 0, value }
    }

    fn refuses(answer: u8) -> Read
        ensures { result ≡ given (refuses answer) }
    {
        Read { answer, value: 0 }
    }
}

// Committed's and Applied's head.
#[derive(Clone, Copy)]
pub struct Heads {
    pub committed: Head,
    pub applied: Head,
}

fn is_field(f: u16, n: u16) -> bool
    ensures { result ≡ is_field n f }
{
    (1 <= f) & (f <= n)
}

// ---- values and owners

fn is_value(table: u16, path: u16) -> bool
    ensures { result ≡ (is_field 4 table && ltb path 32) }
{
    let ok = is_field(table, 4);
    ok & (path < 32)
}

// The value of a path: table 1 Committed, 2 Applied, 3 the target, 4 the base. Refuses 1, 2.
pub fn value(s: &[u8], table: u16, path: u16) -> Read
    ensures { Shows s.now (of_table table path) result }
{
    if well_formed(s) {
        if is_value(table, path) {
            let at = table_place(table);
            let v = load_value(s, at, path as u8);
            return Read::shows(u32::from(v));
        }
        return Read::refuses(2);
    }
    Read::refuses(1)
}

// Who set a path: the number of the newest live change that set it; 0 if none did, or if it is folded away. Refuses 1, 2.
pub fn owner(s: &[u8], path: u16) -> Read
    ensures { Shows s.now (of_owner path) result }
{
    if well_formed(s) {
        if path < 32 {
            let k = load_value(s, OWNERS_AT, path as u8);
            let b = last_fold(s);
            if b < k {
                return Read::shows(u32::from(k));
            }
            return Read::shows(0);
        }
        return Read::refuses(2);
    }
    Read::refuses(1)
}

// The paths at which the committed and the applied values differ, as a mask: bit p for path p. Refuses 1.
pub fn drift(s: &[u8]) -> Read
    ensures { Shows s.now of_drift result }
{
    if well_formed(s) {
        let m = mask_of(s);
        return Read::shows(m);
    }
    Read::refuses(1)
}

// ---- a transaction

fn entry_numbers(t: Transaction) -> [u32; 21]
    ensures { result ≡ entry_numbers t }
{
    let change = t.change;
    let rollback = t.rollback;
    [
        u32::from(t.phase),
        u32::from(change.commit.code()),
        u32::from(change.apply.code()),
        change.ordinal.get(),
        u32::from(rollback.commit.code()),
        u32::from(rollback.apply.code()),
        rollback.ordinal.get(),
        u32::from(t.index.get()),
        u32::from(t.count),
        u32::from(t.paths[0]),
        u32::from(t.paths[1]),
        u32::from(t.paths[2]),
        u32::from(t.paths[3]),
        u32::from(t.values[0]),
        u32::from(t.values[1]),
        u32::from(t.values[2]),
        u32::from(t.values[3]),
        u32::from(t.kept[0]),
        u32::from(t.kept[1]),
        u32::from(t.kept[2]),
        u32::from(t.kept[3]),
    ]
}

// A field of a transaction. Refuses 1, 2 for the field, 5 for the number, 18 for a folded one.
pub fn transaction(s: &[u8], number: u16, field: u16) -> Read
    ensures { Shows s.now (of_entry number field) result }
{
    if well_formed(s) {
        if is_field(field, 21) {
            let n = last_number(s);
            if in_log(number, n) {
                let b = last_fold(s);
                if b < number {
                    let a = entry_numbers(load_entry(s, number));
                    let k = (field - 1) as usize;
                    return Read::shows(a[k]);
                }
                return Read::refuses(18);
            }
            return Read::refuses(5);
        }
        return Read::refuses(2);
    }
    Read::refuses(1)
}

// ---- what became of a transaction

// What a read of a number is refused with: 1, 5, 18; 0 where it is kept.
fn number_answer(s: &[u8], number: u16) -> u8
    ensures { result ≡ number_answer s.now number }
{
    if well_formed(s) {
        let n = last_number(s);
        if in_log(number, n) {
            let b = last_fold(s);
            if b < number {
                return 0;
            }
            return 18;
        }
        return 5;
    }
    1
}

// The class of a transaction, as the handover sheet counts it: 1 open, 2 stopped, 3 invalid, 4 taken, 5 being undone, 6 undone.
// Refuses 1, 5, 18.
pub fn class(s: &[u8], number: u16) -> Read
    ensures { Shows s.now (of_class number) result }
{
    let a = number_answer(s, number);
    if a == 0 {
        let c = load_class(s, number);
        return Read::shows(u32::from(c));
    }
    Read::refuses(a)
}

fn side_landed(s: &[u8], x: Side) -> u32
    requires { image_length ≤ length s.now }
    ensures { result ≡ flag (landed x.apply (head_at s.now applied_at).ordinal.0 x.ordinal.0) }
{
    let h = load_head(s, APPLIED_AT);
    let apply = x.apply;
    let applied = h.ordinal;
    let ordinal = x.ordinal;
    u32::from(landed(apply, applied, ordinal))
}

// Whether the switch took a change: 1 from the event Complete of its apply on, else 0. Refuses 1, 5, 18.
pub fn took(s: &[u8], number: u16) -> Read
    ensures { Shows s.now (of_took number) result }
{
    let a = number_answer(s, number);
    if a == 0 {
        let t = load_entry(s, number);
        let x = t.change;
        return Read::shows(side_landed(s, x));
    }
    Read::refuses(a)
}

// Whether a change was undone on the switch: 1 from the event Complete of its rollback's apply on, else 0. Refuses 1, 5, 18.
pub fn undone(s: &[u8], number: u16) -> Read
    ensures { Shows s.now (of_undone number) result }
{
    let a = number_answer(s, number);
    if a == 0 {
        let t = load_entry(s, number);
        let x = t.rollback;
        return Read::shows(side_landed(s, x));
    }
    Read::refuses(a)
}

// ---- what the state has once

fn state_numbers(s: &[u8]) -> [u32; 18]
    requires { formed s.now ≡ true }
    ensures { result ≡ state_numbers (view s.now) }
{
    let committed = load_head(s, COMMITTED_AT);
    let applied = load_head(s, APPLIED_AT);
    let configuration = load_configuration(s);
    let mastership = load_mastership(s);
    let target = load_target(s);
    [
        u32::from(last_number(s)),
        u32::from(committed.index.get()),
        u32::from(load_change(s).get()),
        u32::from(committed.target.get()),
        u32::from(committed.revision.get()),
        committed.ordinal.get(),
        u32::from(applied.index.get()),
        u32::from(applied.target.get()),
        u32::from(applied.revision.get()),
        applied.ordinal.get(),
        u32::from(configuration.state.code()),
        configuration.term.get(),
        u32::from(mastership.master),
        mastership.term.get(),
        mastership.conn,
        target.id,
        u32::from(target.running),
        u32::from(last_fold(s)),
    ]
}

// A field of what the state has once: the highest number given, the last fold, the heads, configuration, mastership, target. Refuses 1, 2.
pub fn record(s: &[u8], field: u16) -> Read
    ensures { Shows s.now (of_state field) result }
{
    if well_formed(s) {
        if is_field(field, 18) {
            let a = state_numbers(s);
            let k = (field - 1) as usize;
            return Read::shows(a[k]);
        }
        return Read::refuses(2);
    }
    Read::refuses(1)
}

// ---- a node's connection

fn is_node_field(node: u16, field: u16) -> bool
    ensures { result ≡ (is_node node && is_field 2 field) }
{
    let ok = is_node(node);
    let one = is_field(field, 2);
    ok & one
}

fn node_numbers(x: Connection) -> [u32; 2]
    ensures { result ≡ node_numbers x }
{
    [x.id, u32::from(x.connected)]
}

// A field of a node's connection. Refuses 1, 2.
pub fn connection(s: &[u8], node: u16, field: u16) -> Read
    ensures { Shows s.now (of_node node field) result }
{
    if well_formed(s) {
        if is_node_field(node, field) {
            let a = node_numbers(load_connection(s, node as u8));
            let k = (field - 1) as usize;
            return Read::shows(a[k]);
        }
        return Read::refuses(2);
    }
    Read::refuses(1)
}

// ---- both heads at once

// Committed's and Applied's head; zeros where the image is not well-formed.
pub fn both_heads(s: &[u8]) -> Heads
    ensures { ShowsHeads s.now result }
{
    if well_formed(s) {
        let committed = load_head(s, COMMITTED_AT);
        let applied = load_head(s, APPLIED_AT);
        return Heads { committed, applied };
    }
    let committed = no_head();
    let applied = no_head();
    Heads { committed, applied }
}

fn no_head() -> Head
    ensures { result ≡ no_head }
{
    let index = Number::of(0);
    let target = Number::of(0);
    let revision = Number::of(0);
    let ordinal = Ordinal::of(0);
    Head {
        index,
        target,
        revision,
        ordinal,
    }
}
