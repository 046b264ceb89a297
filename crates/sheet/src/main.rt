// The handover sheet (order 11): images from standard input, one after another; a line for each log on standard output, in
// turn, and then the totals. It keeps the input, which is 64 images and the byte that tells of a 65th log, and the text. The
// text is made by functions on slices; the reads and writes themselves, of which no contract can say what the system gives or
// takes, stand in `read_all`, `run` and `main` alone.
#![tactic(auto)]

ghost use Rattle.std.specs.Prelude.{◌+◌, ◌*◌, ◌≤◌, ◌≡◌, length, replicate, IfOk};
ghost use Rattle.lines.specs.Replies.{sheet_room, totals_line, Put, WrittenIn};
ghost use Rattle.controller.specs.Tallies.{most_logs, totals_in};
ghost use Rattle.sheet.specs.Reports.{tally_line, PutsLog, PutsLogs, Reports};

use controller::Tally;
use fields::get;
use lines::Failure;
use std::io;
use std::io::{Read, Write};
use std::process::ExitCode;

// The room that a line asks for.
const LINE: usize = lines::SHEET_ROOM;

// 64 images, and one byte of another.
const INPUT: usize = 64 * controller::IMAGE_LENGTH + 1;

// A line for each of 65 logs, and that of the totals.
const TEXT: usize = 66 * LINE;

// The line of a log that was tallied, at the start of `out`, and its length. The answer is a number, since it is what C is told.
fn write_line(out: &mut [u8], place: u16, t: Tally) -> usize
    ensures { WrittenIn sheet_room out.old (tally_line place t) result out.new }
{
    if t.answer == 0 {
        let counts = t.counts;
        return lines::write_log(out, place, counts, t.mask, t.drift);
    }
    lines::write_refused(out, place, t.answer)
}

// A log: its counts added to the totals, its line put behind the first `used` bytes; answers how many stand then. The totals are
// twelve bytes, as C lends them; the text is an array with its length beside, since the program's memory is fixed.
fn put_log(log: &[u8], place: u16, totals: &mut [u8; 12], out: &mut [u8], used: usize) -> usize
    requires { used + sheet_room ≤ length out.old }
    ensures { PutsLog log.now place totals.old out.old used result totals.new out.new }
{
    let t = controller::tally(log, place, totals);
    let end = used + LINE;
    let n = write_line(&mut out[used..end], place, t);
    used + n
}

// The logs of the input, in turn; none is looked at behind the 65th. Answers how many bytes stand then.
fn put_logs(input: &[u8], totals: &mut [u8; 12], out: &mut [u8]) -> usize
    requires { (totals.old ≡ replicate 12 0) × (sheet_room * (most_logs + 1) ≤ length out.old) }
    ensures { PutsLogs input.now out.old result totals.new out.new }
{
    let mut used = 0;
    for (log, place) in input.chunks(controller::IMAGE_LENGTH).zip(1..66) {
        used = put_log(log, place, totals, out, used);
    }
    used
}

// The totals' line, put behind the first `used` bytes; answers how many stand then.
fn put_totals(totals: &[u8; 12], out: &mut [u8], used: usize) -> usize
    requires { used + sheet_room ≤ length out.old }
    ensures { Put out.old used (totals_line (totals_in totals.now)) result out.new }
{
    let numbers = [
        get::<u16>(totals, 0),
        get::<u16>(totals, 2),
        get::<u16>(totals, 4),
        get::<u16>(totals, 6),
        get::<u16>(totals, 8),
        get::<u16>(totals, 10),
    ];
    let end = used + LINE;
    let n = lines::write_totals(&mut out[used..end], numbers);
    used + n
}

// The length of the sheet's text, written at the start of `out`; 0 and nothing written where `out` has no room for it.
fn report(input: &[u8], out: &mut [u8]) -> usize
    ensures { Reports input.now out.old result out.new }
{
    if out.len() < TEXT {
        return 0;
    }
    let mut totals = [0u8; 12];
    let used = put_logs(input, &mut totals, out);
    put_totals(&totals, out, used)
}

// Reads until the buffer is full or the input ends: a read that brings nothing is its end. Answers how much was read. It is not
// the library's copy, which reads 8,192 bytes at a time: of a socket that keeps messages apart the rest of a longer one is lost.
fn read_all<R: Read>(from: &mut R, input: &mut [u8]) -> io::Result<usize>
    ensures { IfOk result (λ n. n ≤ length input.new) }
{
    let end = input.len();
    let mut used = 0;
    while used < end {
        let n = from.read(&mut input[used..end])?;
        if n == 0 {
            return Ok(used);
        }
        used += n;
    }
    Ok(used)
}

// Of an input that was not read whole, nothing is written.
fn run(rt: &HostRuntime) -> Result<(), Failure> {
    let mut input = [0u8; INPUT];
    let mut out = [0u8; TEXT];
    let length = read_all(&mut rt.stdin(), &mut input).map_err(|_| Failure::Unread)?;
    let used = report(&input[..length], &mut out);
    rt.stdout()
        .write_all(&out[..used])
        .map_err(|_| Failure::Unwritten)
}

// What failed is said on standard error, if that can be written: there is nobody else to tell.
fn main(rt: HostRuntime) -> ExitCode {
    match run(&rt) {
        Ok(()) => ExitCode::SUCCESS,
        Err(failure) => {
            let _ = eprintln!(rt; "sheet: {failure}");
            ExitCode::FAILURE
        }
    }
}
