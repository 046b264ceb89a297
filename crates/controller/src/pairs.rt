// The lent pairs of an append: four bytes a pair, its path and its value, each little-endian.
ghost use Rattle.std.specs.Prelude.{◌≡◌, true, ◌+◌, ◌<◌, ◌≤◌, length, get_or};
ghost use Rattle.machine.specs.WellFormed.{pairs_ok};
ghost use Rattle.machine.specs.Calls.{appended};
ghost use Rattle.controller.specs.Bytes.{two, pairs_of, valid_bytes};

use kinds::{Number, Ordinal, Side, Status, Transaction};

// The byte at a place; 0 past the end.
fn byte_at(b: &[u8], k: usize) -> u16
    ensures { (result ≡ get_or b.now k 0) × (result < 256) }
{
    u16::from(b.get(k).copied().unwrap_or(0))
}

// The number of two bytes at a place.
pub fn two_at(b: &[u8], k: usize) -> u16
    requires { k < 65536 }
    ensures { result ≡ two b.now k }
{
    let x = byte_at(b, k);
    let y = byte_at(b, k + 1);
    x + 256 * y
}

// Whether n paths are those of a valid change.
fn pairs_ok(n: u16, p: [u16; 4]) -> bool
    ensures { result ≡ pairs_ok n p }
{
    let a = p[0];
    let b = p[1];
    let c = p[2];
    let d = p[3];
    let second = (n < 2) | ((a < b) & (b < 32));
    let third = (n < 3) | ((b < c) & (c < 32));
    let fourth = (n < 4) | ((c < d) & (d < 32));
    ((1 <= n) & (n <= 4)) & ((a < 32) & (second & (third & fourth)))
}

// Whether the bytes are the pairs of a valid change.
pub fn valid(b: &[u8]) -> bool
    ensures { result ≡ valid_bytes b.now }
{
    let len = b.len();
    if 16 < len {
        return false;
    }
    let n = (len / 4) as u16;
    let p = [two_at(b, 0), two_at(b, 4), two_at(b, 8), two_at(b, 12)];
    let ok = pairs_ok(n, p);
    (len % 4 == 0) & ok
}

// The path at a place, 0 from the end on.
fn path_at(b: &[u8], k: usize) -> u8
    requires { (k < 65536) × (two b.now k < 256) }
    ensures { result ≡ two b.now k }
{
    two_at(b, k) as u8
}

// The new entry of a valid change.
pub fn entered(b: &[u8]) -> Transaction
    requires { valid_bytes b.now ≡ true }
    ensures { result ≡ appended (pairs_of b.now) }
{
    let count = (b.len() / 4) as u8;
    let paths = [path_at(b, 0), path_at(b, 4), path_at(b, 8), path_at(b, 12)];
    let values = [two_at(b, 2), two_at(b, 6), two_at(b, 10), two_at(b, 14)];
    let kept = [0u16, 0, 0, 0];
    let owners = [0u16, 0, 0, 0];
    let change = Side {
        commit: Status::Pending,
        apply: Status::Pending,
        ordinal: Ordinal::of(0),
    };
    let rollback = Side {
        commit: Status::None,
        apply: Status::None,
        ordinal: Ordinal::of(0),
    };
    let index = Number::of(0);
    Transaction {
        phase: 1,
        count,
        paths,
        values,
        change,
        rollback,
        index,
        kept,
        owners,
    }
}
