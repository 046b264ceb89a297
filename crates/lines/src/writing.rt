// The lines that the program writes: a reply, what the other calls answer, and the closing line (paper: Program and host). A reply's,
// which nearly every line is answered with, is written key by key; the others are forms filled in letter by letter. What is lent and
// the place in it go side by side, since there is no heap and `Put`, which the public writers promise, speaks of both.
ghost use Rattle.std.specs.Prelude.{◌≡◌, ◌+◌, ◌≤◌, ◌<◌, length, get_or, ◌++◌};
ghost use Rattle.lines.specs.Decimal.{decimal};
ghost use Rattle.lines.specs.Replies.{filled_at, next_at, filled, room_of, reply_line, why_line, night_line, import_line, owner_line, closing_line, log_line, refused_line, totals_line, sheet_room, Put, Written, WrittenIn};

use kinds::Reply;

// The room that a line asks for: one of the sheet, and any other.
pub const SHEET_ROOM: usize = 160;

pub const LINE_ROOM: usize = 96;

// The decimal digits of `n` from `at` on; answers where they end.
pub fn put_decimal(out: &mut [u8], at: usize, n: u32) -> usize
    requires { at + length (decimal n) ≤ length out.old }
    ensures { Put out.old at (decimal n) result out.new }
{
    if n < 10 {
        out[at] = 48 + n as u8;
        return at + 1;
    }
    let end = put_decimal(out, at, n / 10);
    out[end] = 48 + (n % 10) as u8;
    end + 1
}

// The bytes of `t` from `at` on; answers where they end.
pub fn put_text(out: &mut [u8], at: usize, t: &[u8]) -> usize
    requires { at + length t.now ≤ length out.old }
    ensures { Put out.old at t.now result out.new }
{
    let end = at + t.len();
    out[at..end].copy_from_slice(t);
    end
}

// A key of a form, and the number that stands behind it.
pub fn put_keyed(out: &mut [u8], at: usize, key: &[u8], n: u32) -> usize
    requires { at + length (key.now ++ decimal n) ≤ length out.old }
    ensures { Put out.old at (key.now ++ decimal n) result out.new }
{
    let end = put_text(out, at, key);
    put_decimal(out, end, n)
}

// The length of the reply's line, written at the start of `out`; 0 and nothing written where `out` has no room for 96 bytes.
pub fn write_reply(out: &mut [u8], reply: Reply) -> usize
    ensures { Written out.old (reply_line reply) result out.new }
{
    if out.len() < LINE_ROOM {
        return 0;
    }
    let event = reply.event;
    let number = event.number;
    let status = event.status;
    let n = number.get();
    let s = status.code();
    let a = put_keyed(out, 0, b"answer=", u32::from(reply.answer));
    let b = put_keyed(out, a, b" phase=", u32::from(event.phase));
    let c = put_keyed(out, b, b" stage=", u32::from(event.stage));
    let d = put_keyed(out, c, b" number=", u32::from(n));
    let e = put_keyed(out, d, b" status=", u32::from(s));
    put_text(out, e, b"\n")
}

// A letter of a form from `at` on: the `k`-th number where it is `#`, itself otherwise; answers where it ends.
fn put_letter(out: &mut [u8], at: usize, c: u8, numbers: &[u32], k: usize) -> usize
    requires { at + length (filled_at c (get_or numbers.now k 0)) ≤ length out.old }
    ensures { Put out.old at (filled_at c (get_or numbers.now k 0)) result out.new }
{
    if c == b'#' {
        let n = numbers.get(k).copied().unwrap_or(0);
        return put_decimal(out, at, n);
    }
    out[at] = c;
    at + 1
}

fn next_at(c: u8, k: usize) -> usize
    requires { k < 65536 }
    ensures { result ≡ next_at c k }
{
    if c == b'#' {
        return k + 1;
    }
    k
}

// The length of a form's line, filled in and written at the start of `out`; 0 and nothing written where `out` has not so
// much room.
fn write_form_in(out: &mut [u8], room: usize, form: &[u8], numbers: &[u32]) -> usize
    requires { (room_of form.now ≤ room) × (room ≤ 65536) }
    ensures { WrittenIn room out.old (filled form.now numbers.now) result out.new }
{
    if out.len() < room {
        return 0;
    }
    let mut at = 0;
    let mut k = 0;
    for &c in form {
        at = put_letter(out, at, c, numbers, k);
        k = next_at(c, k);
    }
    at
}

// The same of a line that asks for 96 bytes.
fn write_form(out: &mut [u8], form: &[u8], numbers: &[u32]) -> usize
    requires { room_of form.now ≤ 96 }
    ensures { Written out.old (filled form.now numbers.now) result out.new }
{
    write_form_in(out, LINE_ROOM, form, numbers)
}

// The answer of `why`.
pub fn write_why(out: &mut [u8], answer: u8, reason: u8, named: u32) -> usize
    ensures { Written out.old (why_line answer reason named) result out.new }
{
    let numbers = [u32::from(answer), u32::from(reason), named];
    write_form(out, b"answer=# reason=# named=#\n", &numbers)
}

// That of a night.
pub fn write_night(out: &mut [u8], answer: u8, jobs: u16, stopped: u8) -> usize
    ensures { Written out.old (night_line answer jobs stopped) result out.new }
{
    let numbers = [u32::from(answer), u32::from(jobs), u32::from(stopped)];
    write_form(out, b"answer=# jobs=# stopped=#\n", &numbers)
}

// That of an import.
pub fn write_import(out: &mut [u8], answer: u8, position: u16) -> usize
    ensures { Written out.old (import_line answer position) result out.new }
{
    let numbers = [u32::from(answer), u32::from(position)];
    write_form(out, b"answer=# position=#\n", &numbers)
}

// That of an owner.
pub fn write_owner(out: &mut [u8], answer: u8, owner: u32) -> usize
    ensures { Written out.old (owner_line answer owner) result out.new }
{
    let numbers = [u32::from(answer), owner];
    write_form(out, b"answer=# owner=#\n", &numbers)
}

// The closing line.
pub fn write_closing(
    out: &mut [u8],
    committed: u16,
    committed_ordinal: u32,
    applied: u16,
    applied_ordinal: u32,
) -> usize
    ensures { Written out.old (closing_line committed committed_ordinal applied applied_ordinal) result out.new }
{
    let numbers = [
        u32::from(committed),
        committed_ordinal,
        u32::from(applied),
        applied_ordinal,
    ];
    write_form(
        out,
        b"committed=# committed_ordinal=# applied=# applied_ordinal=#\n",
        &numbers,
    )
}

// The line of a log: its counts, class 1 first, the mask of the paths that differ, and how many they are.
pub fn write_log(out: &mut [u8], log: u16, counts: [u8; 6], mask: u32, drift: u8) -> usize
    ensures { WrittenIn sheet_room out.old (log_line log counts mask drift) result out.new }
{
    let numbers = [
        u32::from(log),
        u32::from(counts[0]),
        u32::from(counts[1]),
        u32::from(counts[2]),
        u32::from(counts[3]),
        u32::from(counts[4]),
        u32::from(counts[5]),
        mask,
        u32::from(drift),
    ];
    write_form_in(
        out,
        SHEET_ROOM,
        b"log=# open=# stopped=# invalid=# taken=# undoing=# undone=# mask=# drift=#\n",
        &numbers,
    )
}

// That of a log which is refused.
pub fn write_refused(out: &mut [u8], log: u16, answer: u8) -> usize
    ensures { WrittenIn sheet_room out.old (refused_line log answer) result out.new }
{
    let numbers = [u32::from(log), u32::from(answer)];
    write_form_in(out, SHEET_ROOM, b"log=# answer=#\n", &numbers)
}

// That of the totals, class 1 first.
pub fn write_totals(out: &mut [u8], totals: [u16; 6]) -> usize
    ensures { WrittenIn sheet_room out.old (totals_line totals) result out.new }
{
    let numbers = [
        u32::from(totals[0]),
        u32::from(totals[1]),
        u32::from(totals[2]),
        u32::from(totals[3]),
        u32::from(totals[4]),
        u32::from(totals[5]),
    ];
    write_form_in(
        out,
        SHEET_ROOM,
        b"open=# stopped=# invalid=# taken=# undoing=# undone=#\n",
        &numbers,
    )
}
