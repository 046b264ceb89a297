// A call's line, read byte by byte in a state of a few numbers and a room that the caller lends: a line of any length needs no
// more memory. What can be read is the table of forms; a new line is a new row of it, and an arm of `call_of` that hands its
// numbers on.
ghost use Rattle.std.specs.Prelude.{◌≡◌, ◌+◌, ◌≤◌, ◌<◌, get_or, replicate};
ghost use Rattle.std.proofs.lemmas.List.Edits.{sets};
ghost use Rattle.lines.specs.Grammar.{is_word};
ghost use Rattle.lines.specs.Reading.{letter_at, is_paired, is_numbered, is_mark, is_tag, like, takes, goes, seek, inside, begins, parts, may_end, past, placed, begun, grown, holding, two_at, stored, stored_in, kept, kept_in, noted, noted_in, pairs_of, filled_by, closed, closed_in, changed_in, entered_in, listed, listed_in, ended, ended_in, with_digit, digit_in, spelt, with_text, text_in, tag_before, number_in, most_of, call_of, line_of};
ghost use Rattle.lines.specs.Promises.{StartsFresh, Pushes, Finishes, ReadsLine};

// The table of forms. A row is a newline, its text, in which `#` is a number, `%` are pairs, `&` single digits and `$` entries, its
// tag, and dots; letters in one column of two rows are `WIDTH` apart. The shortest lines come first: what a row shares with those
// before it is compared. It is a static: a constant would be put on the stack whole at each use.
const WIDTH: usize = 64;

const SIZE: usize = 15 * WIDTH;

static TABLE: [u8; SIZE] = *b"\
    \ncall=stopT.....................................................\
    \ncall=startS....................................................\
    \ncall=sync node=#Y..............................................\
    \ncall=append pairs=%A...........................................\
    \ncall=connect node=#C...........................................\
    \ncall=disconnect node=#D........................................\
    \ncall=master node=#M............................................\
    \ncall=rollback number=#R........................................\
    \ncall=work node=# job=# number=# outcome=# cut=#W...............\
    \ncall=fold number=#F............................................\
    \ncall=why node=# job=# number=#Q................................\
    \ncall=night node=# budget=# outcomes=&N.........................\
    \ncall=import entries=$I.........................................\
    \ncall=owner path=#O.............................................\
    \ncall=fresh remembers=#B........................................";

// Where the line so far leads: a place of the table; how much has come of what a mark there takes; the number that is being
// read; how many bytes of the room are taken by what ended; and how many numbers of an entry ended that itself has not. The room is
// the caller's, since there is no heap. `sub`, the place 0 and the tag 0 are numbers, since the definitions that `Pushes` and
// `Finishes` cite (`begins`, `parts`, `may_end`, `tag_before`) and the theorem `read_right` speak of them.
#[derive(Clone, Copy)]
pub struct Reader {
    at: usize,
    sub: u8,
    value: u16,
    used: usize,
    count: u16,
}

// What a line asks for, with its numbers; the pairs of an append and the entries of an import stand in the room.
#[derive(Clone, Copy)]
pub enum Call {
    Unreadable,
    Append,
    Rollback(u16),
    Start,
    Stop,
    Connect(u16),
    Disconnect(u16),
    Master(u16),
    Sync(u16),
    Work {
        node: u16,
        job: u16,
        number: u16,
        outcome: u16,
        cut: u16,
    },
    Fold(u16),
    Why {
        node: u16,
        job: u16,
        number: u16,
    },
    Night {
        node: u16,
        budget: u16,
    },
    Import,
    Owner(u16),
    Fresh(u16),
}

// A line that was read. The first `length` bytes of the room go with it, two a number, the low byte first: of an append the
// pairs, the first five of them at most; of a night the node, the budget and its outcomes, 257 of them at most; of an import its
// entries as the controller takes them, 257 of them at most, one of more than four pairs as one of five. Five pairs are refused
// as more are, 257 outcomes and 257 entries too, so that no answer tells the difference.
#[derive(Clone, Copy)]
pub struct Line {
    pub call: Call,
    pub length: usize,
}

fn byte_at(bytes: &[u8], at: usize) -> u8
    ensures { result ≡ get_or bytes.now at 0 }
{
    bytes.get(at).copied().unwrap_or(0)
}

// The letter at a place of the table; 0 past it.
fn letter(at: usize) -> u8
    ensures { result ≡ letter_at at }
{
    byte_at(&TABLE, at)
}

fn is_paired(c: u8) -> bool
    ensures { result ≡ is_paired c }
{
    (c == b'%') | (c == b'$')
}

fn is_numbered(c: u8) -> bool
    ensures { result ≡ is_numbered c }
{
    (c == b'#') | is_paired(c)
}

fn is_mark(c: u8) -> bool
    ensures { result ≡ is_mark c }
{
    is_numbered(c) | (c == b'&')
}

fn is_tag(c: u8) -> bool
    ensures { result ≡ is_tag c }
{
    (b'A' <= c) & (c <= b'Z')
}

fn is_word(b: u8) -> bool
    ensures { result ≡ is_word b }
{
    (b'a' <= b) & (b <= b'z') | (b == b'=') | (b == b' ') | (b == b'_')
}

// Whether the rows of two places have the same text before them.
fn like(p: usize, q: usize) -> bool
    ensures { result ≡ like p q }
{
    for k in 0..p.min(q) {
        let c = letter(p - k - 1);
        let d = letter(q - k - 1);
        if c != d {
            return false;
        }
        if c == 10 {
            return true;
        }
    }
    false
}

fn takes(c: u8, b: u8) -> bool
    ensures { result ≡ takes c b }
{
    if b == 10 {
        return is_tag(c);
    }
    c == b
}

fn goes(p: usize, q: usize, b: u8) -> bool
    ensures { result ≡ goes p b q }
{
    if takes(letter(q), b) {
        return like(p, q);
    }
    false
}

// Behind the first letter, from `p` on in its column, that takes `b` in a row with the text before `p`; 0 where there is none.
fn seek(p: usize, b: u8) -> usize
    ensures { result ≡ seek p b }
{
    let c = letter(p);
    if (p == 0) | (c == 0) {
        return 0;
    }
    if takes(c, b) {
        return p + 1;
    }
    for q in (p..SIZE).step_by(WIDTH) {
        if goes(p, q, b) {
            return q + 1;
        }
    }
    0
}

fn inside(s: u8) -> bool
    ensures { result ≡ inside s }
{
    (s == 1) | (s == 3) | (s == 5)
}

fn begins(s: u8) -> u8
    ensures { result ≡ begins s }
{
    if s == 2 {
        return 3;
    }
    if s == 4 {
        return 5;
    }
    1
}

fn may_end(c: u8, s: u8) -> bool
    ensures { result ≡ may_end c s }
{
    (c == b'#') & (s == 1)
        | (c == b'%') & ((s == 0) | (s == 3))
        | (c == b'&') & ((s == 0) | (s == 1))
        | (c == b'$') & ((s == 0) | (s == 1) | (s == 3) | (s == 6))
}

fn parts(c: u8, s: u8, b: u8) -> u8
    ensures { result ≡ parts c s b }
{
    let paired = is_paired(c);
    if paired & (((s == 1) | (s == 5)) & (b == b':')) {
        return 2;
    }
    if paired & ((s == 3) & (b == b',')) {
        return 4;
    }
    let ends = may_end(c, s);
    if (c == b'$') & (ends & (b == b'/')) {
        return 6;
    }
    0
}

// Where a letter is looked for from the place `p` with the letter `c`: behind a mark that may end.
fn past(c: u8, s: u8, p: usize) -> usize
    requires { c ≡ letter_at p }
    ensures { result ≡ past c s p }
{
    if is_mark(c) {
        if may_end(c, s) {
            return p + 1;
        }
        return 0;
    }
    if s == 0 {
        return p;
    }
    0
}

fn placed(r: Reader, at: usize) -> Reader
    ensures { result ≡ placed r at }
{
    Reader { at, sub: 0, ..r }
}

fn begun(r: Reader, s: u8, value: u16) -> Reader
    ensures { result ≡ begun r s value }
{
    Reader { sub: s, value, ..r }
}

fn grown(r: Reader, d: u8) -> Reader
    ensures { result ≡ grown r d }
{
    let v = 10 * u32::from(r.value) + u32::from(d);
    match u16::try_from(v) {
        Ok(value) => begun(r, r.sub, value),
        Err(_) => placed(r, 0),
    }
}

// What the reader has of the room.
fn holding(r: Reader, used: usize, count: u16) -> Reader
    ensures { result ≡ holding r used count }
{
    Reader { used, count, ..r }
}

// A number in two bytes, the low one first.
fn two(room: &mut [u8; 5140], at: usize, v: u16)
    requires { at + 1 < 5140 }
    ensures { room.new ≡ two_at room.old at v }
{
    let [low, high] = v.to_le_bytes();
    room[at] = low;
    room[at + 1] = high;
}

// The number that was being read is put into the room, if that has two bytes left.
fn stored(r: Reader, room: &mut [u8; 5140]) -> Reader
    ensures { (result ≡ stored r) × (room.new ≡ stored_in r room.old) }
{
    let k = r.used;
    if k < 5139 {
        two(room, k, r.value);
        return holding(r, k + 2, r.count);
    }
    holding(r, k, r.count)
}

// The number that was being read, if there is one, has ended.
fn kept(r: Reader, room: &mut [u8; 5140]) -> Reader
    ensures { (result ≡ kept r) × (room.new ≡ kept_in r room.old) }
{
    if inside(r.sub) {
        return stored(r, room);
    }
    r
}

fn counted(r: Reader) -> Reader
    ensures { result ≡ noted r }
{
    let n = r.count;
    if n < 9 {
        return holding(r, r.used, n + 1);
    }
    holding(r, r.used, n)
}

// A number of a change has ended: it is put where the entry has it, if it is among the first eight.
fn noted(r: Reader, room: &mut [u8; 5140]) -> Reader
    ensures { (result ≡ noted r) × (room.new ≡ noted_in r room.old) }
{
    let u = r.used;
    let n = r.count;
    if u < 5121 {
        if n < 8 {
            two(room, u + 4 + 2 * usize::from(n), r.value);
            return counted(r);
        }
        return counted(r);
    }
    counted(r)
}

// The pairs of so many numbers; more than four are told as five.
fn pairs_of(n: u16) -> u16
    ensures { result ≡ pairs_of n }
{
    if n < 9 {
        return (n + 1) / 2;
    }
    5
}

fn clear(room: &mut [u8; 5140], at: usize, n: usize)
    requires { at + n ≤ 5140 }
    ensures { room.new ≡ sets room.old at (replicate n 0) }
{
    let end = at + n;
    room[at..end].fill(0);
}

// An entry has ended: before its numbers come its kind, and how many pairs it has or which place it names; behind them zeros.
fn closed(r: Reader, room: &mut [u8; 5140], kind: u16, number: u16) -> Reader
    ensures { (result ≡ closed r) × (room.new ≡ closed_in r kind number room.old) }
{
    let u = r.used;
    if u < 5121 {
        let filled = 2 * usize::from(r.count).min(8);
        two(room, u, kind);
        two(room, u + 2, number);
        clear(room, u + 4 + filled, 16 - filled);
        return holding(r, u + 20, 0);
    }
    holding(r, u, 0)
}

fn changed(r: Reader, room: &mut [u8; 5140]) -> Reader
    ensures { (result ≡ closed r) × (room.new ≡ changed_in r room.old) }
{
    closed(r, room, 1, pairs_of(r.count))
}

// One number alone is the place that a rollback names.
fn entered(r: Reader, room: &mut [u8; 5140]) -> Reader
    ensures { (result ≡ closed r) × (room.new ≡ entered_in r room.old) }
{
    if r.sub == 1 {
        return closed(r, room, 2, r.value);
    }
    if r.sub == 3 {
        let next = noted(r, room);
        return changed(next, room);
    }
    changed(r, room)
}

// At a mark that takes entries: n has come with a byte that parts, or 0 with one that does not.
fn listed(r: Reader, room: &mut [u8; 5140], n: u8) -> Reader
    ensures { (result ≡ listed n r) × (room.new ≡ listed_in n r room.old) }
{
    if (n == 2) | (n == 4) {
        return noted(r, room);
    }
    if (n == 6) | (0 < r.sub) {
        return entered(r, room);
    }
    r
}

// What was being read at a mark with the letter `c` has ended.
fn ended(r: Reader, room: &mut [u8; 5140], c: u8, n: u8) -> Reader
    ensures { (result ≡ ended c n r) × (room.new ≡ ended_in c n r room.old) }
{
    if c == b'$' {
        return listed(r, room, n);
    }
    kept(r, room)
}

fn with_digit(r: Reader, room: &mut [u8; 5140], d: u8) -> Reader
    ensures { (result ≡ with_digit r d) × (room.new ≡ digit_in r room.old) }
{
    let c = letter(r.at);
    if c == b'&' {
        let next = kept(r, room);
        return begun(next, 1, u16::from(d));
    }
    if is_numbered(c) {
        if inside(r.sub) {
            return grown(r, d);
        }
        return begun(r, begins(r.sub), u16::from(d));
    }
    placed(r, 0)
}

fn spelt(p: usize, b: u8) -> usize
    ensures { result ≡ spelt p b }
{
    if is_word(b) {
        return seek(p, b);
    }
    0
}

fn with_text(r: Reader, room: &mut [u8; 5140], b: u8) -> Reader
    ensures { (result ≡ with_text r b) × (room.new ≡ text_in r b room.old) }
{
    let c = letter(r.at);
    let n = parts(c, r.sub, b);
    let to = spelt(past(c, r.sub, r.at), b);
    let next = ended(r, room, c, n);
    if n == 0 {
        return placed(next, to);
    }
    begun(next, n, 0)
}

// A reader at a line's start.
pub fn fresh() -> Reader
    ensures { StartsFresh result }
{
    Reader {
        at: 1,
        sub: 0,
        value: 0,
        used: 0,
        count: 0,
    }
}

// The reader after one byte more of the line.
pub fn push(r: Reader, room: &mut [u8; 5140], b: u8) -> Reader
    ensures { Pushes r room.old b result room.new }
{
    if b < 48 {
        return with_text(r, room, b);
    }
    if 57 < b {
        return with_text(r, room, b);
    }
    with_digit(r, room, b - 48)
}

// The tag at a place of the table; 0 where none stands there. Rows with the same text before it have the same tag there, or none
// of them has one: no other row is looked at.
fn tag_at(p: usize) -> u8
    ensures { result ≡ tag_before (seek p 10) }
{
    let c = letter(p);
    if is_tag(c) {
        return c;
    }
    0
}

// The number in the two bytes from `at` on, if they are among the `used`; else 0.
fn number_in(room: &[u8; 5140], used: usize, at: usize) -> u16
    requires { at < 19 }
    ensures { result ≡ number_in used room.now at }
{
    if at < used {
        return u16::from_le_bytes([room[at], room[at + 1]]);
    }
    0
}

// The bytes of the room that go with a call, at most.
fn most_of(tag: u8) -> usize
    ensures { result ≡ most_of tag }
{
    if tag == b'A' {
        return 20;
    }
    if tag == b'N' {
        return 518;
    }
    if tag == b'I' {
        return 5140;
    }
    0
}

// The call that a tag stands for, with its numbers.
fn call_of(tag: u8, a: u16, b: u16, c: u16, d: u16, e: u16) -> Call
    ensures { result ≡ call_of tag a b c d e }
{
    match tag {
        b'A' => Call::Append,
        b'C' => Call::Connect(a),
        b'D' => Call::Disconnect(a),
        b'M' => Call::Master(a),
        b'R' => Call::Rollback(a),
        b'S' => Call::Start,
        b'T' => Call::Stop,
        b'Y' => Call::Sync(a),
        b'W' => Call::Work {
            node: a,
            job: b,
            number: c,
            outcome: d,
            cut: e,
        },
        b'F' => Call::Fold(a),
        b'Q' => Call::Why {
            node: a,
            job: b,
            number: c,
        },
        b'N' => Call::Night { node: a, budget: b },
        b'I' => Call::Import,
        b'O' => Call::Owner(a),
        b'B' => Call::Fresh(a),
        _ => Call::Unreadable,
    }
}

fn line_of(tag: u8, used: usize, room: &[u8; 5140]) -> Line
    ensures { result ≡ line_of tag used room.now }
{
    let a = number_in(room, used, 0);
    let b = number_in(room, used, 2);
    let c = number_in(room, used, 4);
    let d = number_in(room, used, 6);
    let e = number_in(room, used, 8);
    let call = call_of(tag, a, b, c, d, e);
    let most = most_of(tag);
    Line {
        call,
        length: used.min(most),
    }
}

// What the line says that the reader was given.
pub fn finish(r: Reader, room: &mut [u8; 5140]) -> Line
    ensures { Finishes r room.old result room.new }
{
    let c = letter(r.at);
    let tag = tag_at(past(c, r.sub, r.at));
    let last = ended(r, room, c, 0);
    line_of(tag, last.used, room)
}

// What a whole line says.
pub fn read(line: &[u8], room: &mut [u8; 5140]) -> Line
    ensures { ReadsLine line.now room.old result room.new }
{
    let mut r = fresh();
    for &b in line {
        r = push(r, room, b);
    }
    finish(r, room)
}
