// Whether what carries an ordinal is Done applying: the scan that a Pending apply asks for. An ordinal is compared with an
// ordinal only: a number or a term in its place does not compile.
ghost use Rattle.std.specs.Prelude.{◌≡◌, true, ◌+◌, ◌≤◌, length};
ghost use Rattle.fields.specs.Field.{field};
ghost use Rattle.image.specs.Packed.{change_in, rollback_in};
ghost use Rattle.image.specs.Layout.{image_length, stride, statuses_size, change_ordinal_in, rollback_ordinal_in};
ghost use Rattle.image.specs.Formed.{all_kept, formed};
ghost use Rattle.image.specs.Settled.{side_settled_at, entry_settled_at};
ghost use Rattle.image.specs.Promises.{TellsSettled};

use crate::entry::place_of;
use crate::layout::{CHANGE_ORDINAL_IN, ROLLBACK_ORDINAL_IN};
use crate::parts::{last_fold, last_number};
use crate::statuses::{apply_in, change_in, rollback_in};
use fields::get;
use kinds::Ordinal;

// Whether the change of the entry at a place does not carry ordinal o, or is Done applying. Its statuses are loaded only where it
// carries it.
fn change_settled(s: &[u8], o: Ordinal, at: usize) -> bool
    requires { at + stride ≤ length s.now }
    ensures { result ≡ side_settled_at s.now o.0 (change_in (field s.now at statuses_size)) (at + change_ordinal_in) }
{
    let carried = Ordinal::of(get::<u32>(s, at + CHANGE_ORDINAL_IN));
    if carried.is(o) {
        let apply = apply_in(change_in(get::<u16>(s, at)));
        return apply.done();
    }
    true
}

// The same of its rollback. No one function of both: one that is given a side's two statuses has those of every entry loaded and
// divided, which was tried: six instructions more an entry and 32 bytes more of the night's stack than its limit.
fn rollback_settled(s: &[u8], o: Ordinal, at: usize) -> bool
    requires { at + stride ≤ length s.now }
    ensures { result ≡ side_settled_at s.now o.0 (rollback_in (field s.now at statuses_size)) (at + rollback_ordinal_in) }
{
    let carried = Ordinal::of(get::<u32>(s, at + ROLLBACK_ORDINAL_IN));
    if carried.is(o) {
        let apply = apply_in(rollback_in(get::<u16>(s, at)));
        return apply.done();
    }
    true
}

fn entry_settled(s: &[u8], o: Ordinal, n: usize) -> bool
    requires { (1 ≤ n) × (image_length ≤ length s.now) }
    ensures { result ≡ entry_settled_at s.now o.0 n }
{
    let at = place_of(n);
    if change_settled(s, o, at) {
        return rollback_settled(s, o, at);
    }
    false
}

// Entries b + 1 to n.
fn entries_settled(s: &[u8], o: Ordinal, b: usize, n: usize) -> bool
    requires { (b ≤ n) × (image_length ≤ length s.now) }
    ensures { result ≡ all_kept (entry_settled_at s.now o.0) b n }
{
    (b..n).all(|i| entry_settled(s, o, i + 1))
}

// Whether every entry kept that carries ordinal o is Done applying.
pub fn all_settled(s: &[u8], o: Ordinal) -> bool
    requires { formed s.now ≡ true }
    ensures { TellsSettled s.now o result }
{
    let n = last_number(s);
    let b = last_fold(s);
    entries_settled(s, o, b as usize, n as usize)
}
