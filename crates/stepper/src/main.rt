// The stepper: calls from standard input, one to a line, an answer to a line on standard output, and a closing line (paper:
// Program and host). It reads a block, writes what its lines are answered, and reads on. It keeps one image, one block, one
// buffer of answers, the reader of one line and the room that it is lent, whatever the input's length and its lines' length.
// What is written is made by functions on slices; the reads and writes themselves, of which no contract can say what the system
// gives or takes, stand in `read_once`, `write_end` and `main` alone.
#![tactic(auto)]

ghost use Rattle.std.specs.Prelude.{◌+◌, ◌*◌, ◌≤◌, ◌≡◌, length, get_or};
ghost use Rattle.lines.specs.Reading.{last_in};
ghost use Rattle.lines.specs.Replies.{Written};
ghost use Rattle.controller.specs.Imports.{import_in};
ghost use Rattle.stepper.specs.declared.Answer.TheVariants.{Slept};
ghost use Rattle.stepper.specs.Answers.{Answers, Sleeps, places_in, table_in, BeginsIf, FreshensIf, line_for};
ghost use Rattle.stepper.specs.Ended.{answer_room};
ghost use Rattle.stepper.specs.Fed.{emptied, EndsLine, Takes, Feeds, EndsLast};
ghost use Rattle.stepper.specs.Closed.{Closes, EndsInput};
ghost use Rattle.stepper.specs.Runs.{Reads, ReadsAll};

use controller::{Imported, Night, Read, Why};
use kinds::Reply;
use lines::{Call, Failure, Line, Reader};
use std::io;
use std::process::ExitCode;

// The room that a line of an answer asks for.
const ANSWER: usize = 96;

// The most bytes of one read.
const BLOCK: usize = 4096;

// Room for an answer to each byte of a block, for each may be a newline: so no answer waits while a block is fed.
const ANSWERS: usize = ANSWER * BLOCK;

// Between two bytes: the line so far, whether it has a byte, how much of the buffer is answers not yet written, and whether no line
// came before it. The buffer is an array with its length here, since the program's memory is fixed.
#[derive(Clone, Copy)]
struct Session {
    line: Reader,
    begun: bool,
    used: usize,
    first: bool,
}

// What comes after a read: there may be more, or the input has ended.
#[derive(Clone, Copy)]
enum Next {
    More,
    Ended,
}

#[derive(Clone, Copy)]
struct Turn {
    session: Session,
    next: Result<Next, Failure>,
}

// What a line is answered: a call's reply, why a job does not move, how a night went, whether a list was imported, or who set a
// path.
#[derive(Clone, Copy)]
enum Answer {
    Replied(Reply),
    Explained(Why),
    Slept(Night),
    Began(Imported),
    Owned(Read),
}

// The i-th outcome of a night's line, from 0, in the bytes that go with it: behind node and budget, two bytes each. One that the
// line does not have is 0.
fn outcome_in(said: &[u8], i: usize) -> u8
    requires { i ≤ 256 }
    ensures { result ≡ get_or said.now (2 * i + 4) 0 }
{
    said.get(2 * i + 4).copied().unwrap_or(0)
}

fn fill(table: &mut [u8; 257], said: &[u8])
    ensures { table.new ≡ places_in said.now }
{
    for (i, outcome) in table.iter_mut().enumerate() {
        *outcome = outcome_in(said, i);
    }
}

// A night, with the table of its outcomes; its events are not shown.
fn night(image: &mut [u8], node: u16, budget: u16, said: &[u8]) -> Night
    ensures { Sleeps image.old node budget (table_in said.now) (Slept result) image.new }
{
    let mut table = [0u8; 257];
    fill(&mut table, said);
    if said.len() < 518 {
        return controller::night(image, node, budget, &table[..256], &mut []);
    }
    controller::night(image, node, budget, &table, &mut [])
}

// An import, in place of the fresh start; behind another line it cannot be read.
fn import(image: &mut [u8], said: &[u8], first: bool) -> Answer
    ensures { BeginsIf first image.old (import_in image.old said.now) result image.new }
{
    if first {
        return Answer::Began(controller::import(image, said));
    }
    Answer::Replied(Reply::of(2))
}

// A fresh start of a switch that remembers (1) or forgets (0), the same.
fn fresh(image: &mut [u8], remembers: u16, first: bool) -> Answer
    ensures { FreshensIf first image.old remembers result image.new }
{
    if first {
        return Answer::Replied(controller::fresh(image, remembers));
    }
    Answer::Replied(Reply::of(2))
}

// What a line asks for, asked of the image; an append's pairs stand in the room; an unreadable line is refused with 2.
fn ask(image: &mut [u8], line: Line, room: &[u8], first: bool) -> Answer
    requires { line.length ≤ length room.now }
    ensures { Answers first image.old line room.now result image.new }
{
    let said = &room[..line.length];
    match line.call {
        Call::Unreadable => Answer::Replied(Reply::of(2)),
        Call::Append => Answer::Replied(controller::append(image, said)),
        Call::Rollback(number) => Answer::Replied(controller::rollback(image, number)),
        Call::Start => Answer::Replied(controller::start(image)),
        Call::Stop => Answer::Replied(controller::stop(image)),
        Call::Connect(node) => Answer::Replied(controller::connect(image, node)),
        Call::Disconnect(node) => Answer::Replied(controller::disconnect(image, node)),
        Call::Master(node) => Answer::Replied(controller::master(image, node)),
        Call::Sync(node) => Answer::Replied(controller::sync(image, node)),
        Call::Work {
            node,
            job,
            number,
            outcome,
            cut,
        } => Answer::Replied(controller::work(image, node, job, number, outcome, cut)),
        Call::Fold(number) => Answer::Replied(controller::fold(image, number)),
        Call::Why { node, job, number } => Answer::Explained(controller::why(
            image, node, job, number,
        )),
        Call::Night { node, budget } => Answer::Slept(night(image, node, budget, said)),
        Call::Import => import(image, said, first),
        Call::Owner(path) => Answer::Owned(controller::owner(image, path)),
        Call::Fresh(remembers) => fresh(image, remembers, first),
    }
}

// The line of an answer at the start of `out`, and its length.
fn write(out: &mut [u8], a: Answer) -> usize
    ensures { Written out.old (line_for a) result out.new }
{
    match a {
        Answer::Replied(reply) => lines::write_reply(out, reply),
        Answer::Explained(w) => lines::write_why(out, w.answer, w.reason, w.named),
        Answer::Slept(w) => lines::write_night(out, w.answer, w.jobs, w.stopped),
        Answer::Began(w) => lines::write_import(out, w.answer, w.position),
        Answer::Owned(w) => lines::write_owner(out, w.answer, w.value),
    }
}

// A line has ended: what it asks is asked, and its answer put behind those that wait; answers how many bytes wait.
fn end_line(image: &mut [u8], out: &mut [u8], room: &mut [u8; 5140], s: Session) -> usize
    requires { s.used + answer_room ≤ length out.old }
    ensures { EndsLine image.old out.old room.old s result image.new out.new × (room.new ≡ last_in s.line room.old) }
{
    let line = lines::finish(s.line, room);
    let a = ask(image, line, &room[..], s.first);
    let at = s.used;
    let end = at + ANSWER;
    let n = write(&mut out[at..end], a);
    at + n
}

// One byte: a newline ends the line, any other belongs to it.
fn take_byte(image: &mut [u8], out: &mut [u8], room: &mut [u8; 5140], s: Session, b: u8) -> Session
    requires { s.used + answer_room ≤ length out.old }
    ensures { Takes image.old out.old room.old s b result image.new out.new room.new }
{
    if b == b'\n' {
        let used = end_line(image, out, room, s);
        let line = lines::fresh();
        return Session {
            line,
            begun: false,
            used,
            first: false,
        };
    }
    let line = lines::push(s.line, room, b);
    Session {
        line,
        begun: true,
        used: s.used,
        first: s.first,
    }
}

// The bytes of one read.
fn feed(
    image: &mut [u8],
    out: &mut [u8],
    room: &mut [u8; 5140],
    s: Session,
    block: &[u8],
) -> Session
    requires { s.used + answer_room * length block.now ≤ length out.old }
    ensures { Feeds image.old out.old room.old s block.now result image.new out.new room.new }
{
    let mut session = s;
    for &b in block {
        session = take_byte(image, out, room, session, b);
    }
    session
}

// The last line, if it has no newline; answers how many bytes wait.
fn end_last(image: &mut [u8], out: &mut [u8], room: &mut [u8; 5140], s: Session) -> usize
    requires { s.used + answer_room ≤ length out.old }
    ensures { EndsLast image.old out.old room.old s result image.new out.new room.new }
{
    if s.begun {
        return end_line(image, out, room, s);
    }
    s.used
}

// The closing line, both heads as the image shows them, put behind the answers that wait; answers how many bytes wait.
fn close(image: &[u8], out: &mut [u8], used: usize) -> usize
    requires { used + answer_room ≤ length out.old }
    ensures { Closes image.now out.old used result out.new }
{
    let heads = controller::both_heads(image);
    let c = heads.committed;
    let a = heads.applied;
    let revision = c.revision;
    let ordinal = c.ordinal;
    let applied = a.revision;
    let applied_ordinal = a.ordinal;
    let end = used + ANSWER;
    let n = lines::write_closing(
        &mut out[used..end],
        revision.get(),
        ordinal.get(),
        applied.get(),
        applied_ordinal.get(),
    );
    used + n
}

// The input's end: the last line and the closing line; answers how many bytes wait.
fn end_input(image: &mut [u8], out: &mut [u8], room: &mut [u8; 5140], s: Session) -> usize
    requires { s.used + answer_room * 2 ≤ length out.old }
    ensures { EndsInput image.old out.old room.old s result image.new out.new room.new }
{
    let used = end_last(image, out, room, s);
    close(image, out, used)
}

// The session with no answer that waits: all are written.
fn written(s: Session) -> Session
    ensures { result ≡ emptied s }
{
    let line = s.line;
    Session {
        line,
        begun: s.begun,
        used: 0,
        first: s.first,
    }
}

// What comes after a read that was answered so, and a write that was.
fn after_read(got: io::Result<usize>, sent: io::Result<()>) -> Result<Next, Failure> {
    sent.map_err(|_| Failure::Unwritten)?;
    match got {
        Ok(0) => Ok(Next::Ended),
        Ok(_) => Ok(Next::More),
        Err(_) => Err(Failure::Unread),
    }
}

// Reads once and writes the answer to every line that ended: who types a line sees its answer.
fn read_once<R: io::Read, W: io::Write>(
    from: &mut R,
    to: &mut W,
    image: &mut [u8],
    out: &mut [u8; ANSWERS],
    room: &mut [u8; 5140],
    s: Session,
) -> Turn
    ensures { Reads image.old room.old s result image.new room.new }
{
    let mut block = [0u8; BLOCK];
    let got = from.read(&mut block);
    let n = got.as_ref().copied().unwrap_or(0);
    let session = feed(image, out, room, written(s), &block[..n]);
    let sent = to.write_all(&out[..session.used]);
    Turn {
        session,
        next: after_read(got, sent),
    }
}

// Nothing says that the input ends, so the reads are counted, up to a number that no run reaches.
fn read_all<R: io::Read, W: io::Write>(
    from: &mut R,
    to: &mut W,
    image: &mut [u8],
    out: &mut [u8; ANSWERS],
    room: &mut [u8; 5140],
) -> Turn
    ensures { ReadsAll image.old room.old result.session image.new room.new }
{
    let line = lines::fresh();
    let mut session = Session {
        line,
        begun: false,
        used: 0,
        first: true,
    };
    for _ in 0..u64::MAX {
        let turn = read_once(from, to, image, out, room, session);
        session = turn.session;
        if !matches!(turn.next, Ok(Next::More)) {
            return turn;
        }
    }
    Turn {
        session,
        next: Err(Failure::Unread),
    }
}

// Writes what the input's end is answered: the last line, if it has no newline, and the closing line.
fn write_end<W: io::Write>(
    to: &mut W,
    image: &mut [u8],
    out: &mut [u8; ANSWERS],
    room: &mut [u8; 5140],
    s: Session,
) -> io::Result<()> {
    let used = end_input(image, out, room, written(s));
    to.write_all(&out[..used])
}

// After a failure no closing line is written: what was written is then known not to be the whole.
fn run(rt: &HostRuntime) -> Result<(), Failure> {
    let mut image = [0u8; controller::IMAGE_LENGTH];
    controller::fresh(&mut image, 0);
    let mut out = [0u8; ANSWERS];
    let mut room = [0u8; 5140];
    let mut to = rt.stdout();
    let turn = read_all(&mut rt.stdin(), &mut to, &mut image, &mut out, &mut room);
    turn.next?;
    write_end(&mut to, &mut image, &mut out, &mut room, turn.session).map_err(
        |_| Failure::Unwritten,
    )
}

// What failed is said on standard error, if that can be written: there is nobody else to tell.
fn main(rt: HostRuntime) -> ExitCode {
    match run(&rt) {
        Ok(()) => ExitCode::SUCCESS,
        Err(failure) => {
            let _ = eprintln!(rt; "stepper: {failure}");
            ExitCode::FAILURE
        }
    }
}
