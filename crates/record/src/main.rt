// The record of a log (order 11): its image from standard input; on standard output a line for each change kept, then what
// is folded, then the changes that the switch holds. What is written is made by functions on slices; the reads and
// writes themselves, of which no contract can say what the system gives or takes, stand in `read_all`, `run` and `main` alone.
#![tactic(auto)]

ghost use Rattle.std.specs.Prelude.{◌+◌, ◌*◌, ◌-◌, ◌≤◌, ◌<◌, ◌≡◌, true, not, ◌&&◌, eqb, length, get_or, IfOk};
ghost use Rattle.machine.specs.Taken.{landed, holds};
ghost use Rattle.machine.specs.Stores.{of_base};
ghost use Rattle.image.specs.Layout.{image_length, applied_at};
ghost use Rattle.image.specs.Records.{folded_of, last_of, head_at};
ghost use Rattle.image.specs.View.{view, table_of};
ghost use Rattle.image.specs.Formed.{formed};
ghost use Rattle.lines.specs.Decimal.{decimal};
ghost use Rattle.lines.specs.Replies.{Put};
ghost use Rattle.lines.specs.Record.{next_in, listed, pair_text, values_text, folded_line, held_line, number_room, pair_room, entry_room, folded_room, held_room};
ghost use Rattle.record.specs.Told.{Applied, Kept, change_text, changes_text, held_text, record_room, Reports};

use image::{
    APPLIED_AT, BASE_AT, IMAGE_LENGTH, landed, last_fold, last_number, load_class, load_entry,
    load_head, load_value, well_formed,
};
use kinds::{Ordinal, Side, Transaction};
use lines::Failure;
use std::io;
use std::io::{Read, Write};
use std::process::ExitCode;

// An image, and one byte more: it tells that the input is longer.
const INPUT: usize = IMAGE_LENGTH + 1;

// The most bytes that a record can have.
const RECORD: usize = 23134;

fn side_landed(side: Side, applied: Ordinal) -> bool
    ensures { result ≡ landed side.apply applied.0 side.ordinal.0 }
{
    landed(side.apply, applied, side.ordinal)
}

// Taken and not undone.
fn held(t: Transaction, applied: Ordinal) -> bool
    ensures { result ≡ (landed t.change.apply applied.0 t.change.ordinal.0 && not (landed t.rollback.apply applied.0 t.rollback.ordinal.0)) }
{
    let took = side_landed(t.change, applied);
    let undone = side_landed(t.rollback, applied);
    took & !undone
}

// The line of a change that is kept; `a` is Applied's ordinal.
fn write_change(s: &[u8], out: &mut [u8], at: usize, number: u16, a: Ordinal) -> usize
    requires { Kept s.now number a.0 × (at + entry_room ≤ length out.old) }
    ensures { Put out.old at (change_text (view s.now) number) result out.new }
{
    let t = load_entry(s, number);
    let class = load_class(s, number);
    let took = u8::from(side_landed(t.change, a));
    let undone = u8::from(side_landed(t.rollback, a));
    lines::write_entry(out, at, number, t, class, took, undone)
}

// Those of all that are kept, the newest last.
fn write_changes(s: &[u8], out: &mut [u8], a: Ordinal) -> usize
    requires { Applied s.now a.0 × (record_room ≤ length out.old) }
    ensures { Put out.old 0 (changes_text (view s.now) (last_of s.now - folded_of s.now)) result out.new }
{
    let mut at = 0;
    for k in last_fold(s)..last_number(s) {
        at = write_change(s, out, at, k + 1, a);
    }
    at
}

// A path's pair, where its base value is not 0, put into the list that begins at `start`.
fn list_value(s: &[u8], out: &mut [u8], start: usize, at: usize, p: u8) -> usize
    requires { (image_length ≤ length s.now) × (at + pair_room ≤ length out.old) }
    ensures { Put out.old at (next_in (not (eqb (get_or (table_of s.now of_base) p 0) 0)) start at (pair_text p (get_or (table_of s.now of_base) p 0))) result out.new }
{
    let v = load_value(s, BASE_AT, p);
    if v == 0 {
        return at;
    }
    lines::list_pair(out, start, at, p, v)
}

fn list_values(s: &[u8], out: &mut [u8], start: usize) -> usize
    requires { (image_length ≤ length s.now) × (start + pair_room * 32 ≤ length out.old) }
    ensures { Put out.old start (values_text (table_of s.now of_base)) result out.new }
{
    let mut at = start;
    for p in 0..32 {
        at = list_value(s, out, start, at, p);
    }
    at
}

// The line of what is folded, with the base.
fn write_folded(s: &[u8], out: &mut [u8], at: usize) -> usize
    requires { (image_length ≤ length s.now) × (at + folded_room ≤ length out.old) }
    ensures { Put out.old at (folded_line (folded_of s.now) (table_of s.now of_base)) result out.new }
{
    let start = lines::begin_folded(out, at, last_fold(s));
    let end = list_values(s, out, start);
    lines::end_list(out, end)
}

// A number that is kept, where its change is held, put into the list that begins at `start`.
fn list_change(s: &[u8], out: &mut [u8], start: usize, at: usize, number: u16, a: Ordinal) -> usize
    requires { Kept s.now number a.0 × (at + number_room ≤ length out.old) }
    ensures { Put out.old at (next_in (holds (view s.now) number) start at (decimal number)) result out.new }
{
    if held(load_entry(s, number), a) {
        return lines::list_number(out, start, at, number);
    }
    at
}

fn list_changes(s: &[u8], out: &mut [u8], start: usize, a: Ordinal) -> usize
    requires { Applied s.now a.0 × (start + number_room * 128 ≤ length out.old) }
    ensures { Put out.old start (held_text (view s.now) (last_of s.now - folded_of s.now)) result out.new }
{
    let mut at = start;
    for k in last_fold(s)..last_number(s) {
        at = list_change(s, out, start, at, k + 1, a);
    }
    at
}

// The line of the changes held.
fn write_held(s: &[u8], out: &mut [u8], at: usize, a: Ordinal) -> usize
    requires { Applied s.now a.0 × (at + held_room ≤ length out.old) }
    ensures { Put out.old at (held_line (holds (view s.now)) (folded_of s.now) (last_of s.now - folded_of s.now)) result out.new }
{
    let start = lines::begin_held(out, at);
    let end = list_changes(s, out, start, a);
    lines::end_list(out, end)
}

// The record of an image, at the start of `out`, and its length; of what is no image it says so.
fn report(input: &[u8], out: &mut [u8]) -> usize
    requires { record_room ≤ length out.old }
    ensures { Reports input.now out.old result out.new }
{
    if well_formed(input) {
        let head = load_head(input, APPLIED_AT);
        let a = head.ordinal;
        let b = write_changes(input, out, a);
        let c = write_folded(input, out, b);
        return write_held(input, out, c, a);
    }
    lines::write_unformed(out, 0)
}

// Reads until the buffer is full or the input ends: a read that brings nothing is its end. Answers how much was read. It is not
// the library's copy, which reads 8,192 bytes at a time: of a socket that keeps messages apart the rest of a longer one is lost.
fn read_all<R: Read>(from: &mut R, input: &mut [u8]) -> io::Result<usize>
    ensures { IfOk result (λ n. n ≤ length input.new) }
{
    let end = input.len();
    let mut used = 0;
    while used < end {
        let n = from.read(&mut input[used..end])?;
        if n == 0 {
            return Ok(used);
        }
        used += n;
    }
    Ok(used)
}

fn run(rt: &HostRuntime) -> Result<(), Failure> {
    let mut input = [0u8; INPUT];
    let mut out = [0u8; RECORD];
    let length = read_all(&mut rt.stdin(), &mut input).map_err(|_| Failure::Unread)?;
    let n = report(&input[..length], &mut out);
    rt.stdout()
        .write_all(&out[..n])
        .map_err(|_| Failure::Unwritten)
}

// What failed is said on standard error, if that can be written: there is nobody else to tell.
fn main(rt: HostRuntime) -> ExitCode {
    match run(&rt) {
        Ok(()) => ExitCode::SUCCESS,
        Err(failure) => {
            let _ = eprintln!(rt; "record: {failure}");
            ExitCode::FAILURE
        }
    }
}
