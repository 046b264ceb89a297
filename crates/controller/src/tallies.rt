// What the switches took (order 11): a log's transactions by class, and the paths at which its committed and its applied
// values differ.
ghost use Rattle.std.specs.Prelude.{◌≡◌, true, cond, ◌+◌, ◌*◌, ◌≤◌, ◌<◌, eqb, length};
ghost use Rattle.machine.specs.Sheet.{counts, mask_of, row_of, added, together};
ghost use Rattle.image.specs.Layout.{image_length};
ghost use Rattle.image.specs.View.{view};
ghost use Rattle.image.specs.Formed.{formed};
ghost use Rattle.controller.specs.Tallies.{totals_in, put_totals, lent_ok, given, Lent, Reports, Fitting};

use fields::{get, get_four, put, put_four};
use image::{
    APPLIED_VALUES_AT, COMMITTED_VALUES_AT, last_fold, last_number, load_class, load_value,
    well_formed,
};

// The refusal, or 0 with the kept transactions of each class (open, stopped, invalid, taken, undoing, undone), the paths that
// differ as a mask, bit p for path p, and how many they are.
#[derive(Clone, Copy)]
pub struct Tally {
    pub answer: u8,
    pub counts: [u8; 6],
    pub mask: u32,
    pub drift: u8,
}

// ---- the totals

fn total_of(totals: &[u8]) -> u32
    requires { length totals.now ≡ 12 }
    ensures { result ≡ together (totals_in totals.now) }
{
    let t = get_four::<u16>(totals, 0);
    let a = u32::from(t[0]);
    let b = u32::from(t[1]);
    let c = u32::from(t[2]);
    let d = u32::from(t[3]);
    let e = u32::from(get::<u16>(totals, 8));
    let f = u32::from(get::<u16>(totals, 10));
    a + b + c + d + e + f
}

// Whether a log at this place can have these totals before it.
pub fn lent_ok(log: u16, totals: &[u8]) -> bool
    ensures { result ≡ lent_ok log totals.now }
{
    if (1 <= log) & (log <= 64) {
        if totals.len() == 12 {
            let most = 128 * u32::from(log - 1);
            return total_of(totals) <= most;
        }
        return false;
    }
    false
}

fn add(totals: &mut [u8], counts: [u8; 6])
    requires { Fitting totals.old counts }
    ensures { totals.new ≡ put_totals totals.old (added (totals_in totals.old) counts) }
{
    let t = get_four::<u16>(totals, 0);
    let a = t[0] + u16::from(counts[0]);
    let b = t[1] + u16::from(counts[1]);
    let c = t[2] + u16::from(counts[2]);
    let d = t[3] + u16::from(counts[3]);
    let e = get::<u16>(totals, 8) + u16::from(counts[4]);
    let f = get::<u16>(totals, 10) + u16::from(counts[5]);
    put_four(totals, 0, [a, b, c, d]);
    put(totals, 8, e);
    put(totals, 10, f);
}

// ---- a log's line

// The kept transactions of each class.
fn counts_of(s: &[u8]) -> [u8; 6]
    requires { formed s.now ≡ true }
    ensures { result ≡ counts (view s.now).log.entries }
{
    let n = last_number(s);
    let mut a = [0u8, 0, 0, 0, 0, 0];
    let b = last_fold(s);
    for i in b..n {
        let k = (load_class(s, i + 1) - 1) as usize;
        a[k] += 1;
    }
    a
}

// One path more, below those that the mask has.
fn with_path(mask: u32, x: u16, y: u16) -> u32
    requires { mask < 2147483648 }
    ensures { result ≡ 2 * mask + cond (eqb x y) 0 1 }
{
    if x == y {
        return 2 * mask;
    }
    2 * mask + 1
}

// The paths at which the committed and the applied values differ, the last first.
pub fn mask_of(s: &[u8]) -> u32
    requires { image_length ≤ length s.now }
    ensures { result ≡ mask_of (view s.now) }
{
    let mut mask: u32 = 0;
    for k in (0..32u8).rev() {
        let v = load_value(s, COMMITTED_VALUES_AT, k);
        let w = load_value(s, APPLIED_VALUES_AT, k);
        mask = with_path(mask, v, w);
    }
    mask
}

fn row(s: &[u8]) -> Tally
    requires { formed s.now ≡ true }
    ensures { result ≡ given (row_of (view s.now)) }
{
    let counts = counts_of(s);
    let mask = mask_of(s);
    let drift = u32::count_ones(mask) as u8;
    Tally {
        answer: 0,
        counts,
        mask,
        drift,
    }
}

// A log's line, its counts added to the totals. Refuses 1.
pub fn report(s: &[u8], totals: &mut [u8]) -> Tally
    requires { Lent totals.old }
    ensures { Reports s.now totals.old result totals.new }
{
    if well_formed(s) {
        let r = row(s);
        let counts = r.counts;
        add(totals, counts);
        return r;
    }
    let counts = [0u8, 0, 0, 0, 0, 0];
    Tally {
        answer: 1,
        counts,
        mask: 0,
        drift: 0,
    }
}
