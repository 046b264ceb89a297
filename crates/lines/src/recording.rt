// The lines of a log's record, change by change (order 11). An entry's line is written whole; those of what is folded and of what is
// held are begun, listed one by one, and ended, so that the caller keeps no table of them.
ghost use Rattle.std.specs.Prelude.{◌≡◌, [], ◌∷◌, ◌++◌, ◌+◌, ◌*◌, ◌≤◌, ◌<◌, length};
ghost use Rattle.lines.specs.Text.{text};
ghost use Rattle.lines.specs.Decimal.{decimal};
ghost use Rattle.lines.specs.Replies.{filled, Put};
ghost use Rattle.lines.specs.Record.{comma_in, pair_text, pairs_text, entry_line, unformed_line, number_room, pair_room, entry_room};

use crate::writing::{put_decimal, put_keyed, put_text};
use kinds::Transaction;

// A comma, where the list that begins at `start` has come past it; answers where it ends.
fn put_comma(out: &mut [u8], start: usize, at: usize) -> usize
    requires { at < length out.old }
    ensures { Put out.old at (comma_in start at) result out.new }
{
    if start < at {
        out[at] = b',';
        return at + 1;
    }
    at
}

// One number more of the list that begins at `start`; answers where it ends.
pub fn list_number(out: &mut [u8], start: usize, at: usize, n: u16) -> usize
    requires { at + number_room ≤ length out.old }
    ensures { Put out.old at (comma_in start at ++ decimal n) result out.new }
{
    let next = put_comma(out, start, at);
    put_decimal(out, next, u32::from(n))
}

// One pair more of the list that begins at `start`; answers where it ends.
pub fn list_pair(out: &mut [u8], start: usize, at: usize, path: u8, value: u16) -> usize
    requires { at + pair_room ≤ length out.old }
    ensures { Put out.old at (comma_in start at ++ pair_text path value) result out.new }
{
    let next = put_comma(out, start, at);
    let colon = put_decimal(out, next, u32::from(path));
    put_keyed(out, colon, b":", u32::from(value))
}

fn put_pairs(out: &mut [u8], at: usize, t: Transaction) -> usize
    requires { (t.count ≤ 4) × (at + pair_room * 4 ≤ length out.old) }
    ensures { Put out.old at (pairs_text t) result out.new }
{
    let paths = t.paths;
    let values = t.values;
    let n = usize::from(t.count);
    let mut end = at;
    for (&path, &value) in paths[..n].iter().zip(&values[..n]) {
        end = list_pair(out, at, end, path, value);
    }
    end
}

fn put_marks(out: &mut [u8], at: usize, class: u8, took: u8, undone: u8) -> usize
    requires { at + 52 ≤ length out.old }
    ensures { Put out.old at (filled (text " class=# took=# undone=#\n") (class ∷ took ∷ undone ∷ [])) result out.new }
{
    let a = put_keyed(out, at, b" class=", u32::from(class));
    let b = put_keyed(out, a, b" took=", u32::from(took));
    let c = put_keyed(out, b, b" undone=", u32::from(undone));
    put_text(out, c, b"\n")
}

// The line of an entry from `at` on; answers where it ends.
pub fn write_entry(
    out: &mut [u8],
    at: usize,
    number: u16,
    t: Transaction,
    class: u8,
    took: u8,
    undone: u8,
) -> usize
    requires { (t.count ≤ 4) × (at + entry_room ≤ length out.old) }
    ensures { Put out.old at (entry_line number t class took undone) result out.new }
{
    let a = put_keyed(out, at, b"number=", u32::from(number));
    let b = put_text(out, a, b" pairs=");
    let c = put_pairs(out, b, t);
    put_marks(out, c, class, took, undone)
}

// The line of what is folded, up to its list of pairs.
pub fn begin_folded(out: &mut [u8], at: usize, folded: u16) -> usize
    requires { at + 23 ≤ length out.old }
    ensures { Put out.old at (filled (text "folded=# base=") (folded ∷ [])) result out.new }
{
    let a = put_keyed(out, at, b"folded=", u32::from(folded));
    put_text(out, a, b" base=")
}

// The line of what is held, up to its list of numbers.
pub fn begin_held(out: &mut [u8], at: usize) -> usize
    requires { at + 5 ≤ length out.old }
    ensures { Put out.old at (text "held=") result out.new }
{
    put_text(out, at, b"held=")
}

// The end of a line whose list is through.
pub fn end_list(out: &mut [u8], at: usize) -> usize
    requires { at + 1 ≤ length out.old }
    ensures { Put out.old at (text "\n") result out.new }
{
    put_text(out, at, b"\n")
}

// The line of what is no image.
pub fn write_unformed(out: &mut [u8], at: usize) -> usize
    requires { at + 9 ≤ length out.old }
    ensures { Put out.old at unformed_line result out.new }
{
    put_text(out, at, b"answer=1\n")
}
