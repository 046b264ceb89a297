// A plan's stores, carried out in the image in the paper's order; a cut leaves out what follows "then".
ghost use Rattle.std.specs.Prelude.{◌≡◌, true, false, cond, [], ◌++◌, ◌+◌, ◌≤◌, length};
ghost use Rattle.machine.specs.Stores.{Table, of_committed, of_owners};
ghost use Rattle.machine.specs.Rows.{overlay, laid, entry_row, change_row, head_row, target_row, rows_of, event_of};
ghost use Rattle.image.specs.Layout.{values_at, table_size, image_length};
ghost use Rattle.image.specs.View.{written};
ghost use Rattle.controller.specs.Performs.{laid_values, laid_owners, laid_count, coming, comes_by};

use image::{
    APPLIED_AT, APPLIED_VALUES_AT, COMMITTED_AT, COMMITTED_VALUES_AT, OWNERS_AT, TARGET_VALUES_AT,
    store_change, store_entry, store_head, store_value,
};
use kinds::{Event, Number, Transaction};
use rules::{Lay, Order, Plan};

// The first n pairs over the table at a place.
pub fn lay(s: &mut [u8], at: usize, p: [u8; 4], v: [u16; 4], n: u8)
    requires { at + table_size ≤ length s.old }
    ensures { (b : Table) → values_at b ≡ at → s.new ≡ written s.old (overlay b p v n) }
{
    if n < 1 {
        return;
    }
    store_value(s, at, p[0], v[0]);
    if n < 2 {
        return;
    }
    store_value(s, at, p[1], v[1]);
    if n < 3 {
        return;
    }
    store_value(s, at, p[2], v[2]);
    if n < 4 {
        return;
    }
    store_value(s, at, p[3], v[3]);
}

// The values that a lay lays.
fn laid_values(l: Lay, t: Transaction) -> [u16; 4]
    ensures { result ≡ laid_values l t }
{
    match l {
        Lay::Nothing => t.values,
        Lay::Values => t.values,
        Lay::Kept => t.kept,
    }
}

// The owners that it lays: the change's number i, or those that the change remembers.
fn laid_owners(l: Lay, t: Transaction, i: u16) -> [u16; 4]
    ensures { result ≡ laid_owners l t i }
{
    match l {
        Lay::Nothing => t.owners,
        Lay::Values => [i; 4],
        Lay::Kept => t.owners,
    }
}

// How many of the pairs it lays.
fn laid_count(l: Lay, t: Transaction) -> u8
    ensures { result ≡ laid_count l t }
{
    match l {
        Lay::Nothing => 0,
        Lay::Values => t.count,
        Lay::Kept => t.count,
    }
}

fn lay_by(s: &mut [u8], at: usize, l: Lay, t: Transaction)
    requires { at + table_size ≤ length s.old }
    ensures { (b : Table) → values_at b ≡ at → s.new ≡ written s.old (laid b l t) }
{
    let p = t.paths;
    let v = laid_values(l, t);
    let n = laid_count(l, t);
    lay(s, at, p, v, n);
}

// Both of a commit's tables: Committed's values v, and their owners o. It takes the arrays, not the change that has them: a
// change is 52 bytes, and each function that hands it on would hold it on the stack.
pub fn lay_committed(s: &mut [u8], p: [u8; 4], v: [u16; 4], o: [u16; 4], n: u8)
    requires { image_length ≤ length s.old }
    ensures { s.new ≡ written s.old (overlay of_committed p v n ++ overlay of_owners p o n) }
{
    lay(s, COMMITTED_VALUES_AT, p, v, n);
    lay(s, OWNERS_AT, p, o, n);
}

// The head's store of jobs 1 and 3: Committed.
fn commit_row(s: &mut [u8], i: u16, p: Plan)
    requires { image_length ≤ length s.old }
    ensures { s.new ≡ written s.old (head_row true p i) }
{
    let h = p.head;
    let l = p.lay;
    let t = p.entry;
    store_head(s, COMMITTED_AT, h);
    if p.change {
        store_change(s, Number::of(i));
    }
    let ps = t.paths;
    let v = laid_values(l, t);
    let o = laid_owners(l, t, i);
    let n = laid_count(l, t);
    lay_committed(s, ps, v, o, n);
}

// The head's store of jobs 2 and 4: Applied.
fn apply_row(s: &mut [u8], i: u16, p: Plan)
    requires { image_length ≤ length s.old }
    ensures { s.new ≡ written s.old (head_row false p i) }
{
    let h = p.head;
    let l = p.lay;
    let t = p.entry;
    store_head(s, APPLIED_AT, h);
    lay_by(s, APPLIED_VALUES_AT, l, t);
}

// The push itself: the target's values.
fn target_row(s: &mut [u8], p: Plan)
    requires { image_length ≤ length s.old }
    ensures { s.new ≡ written s.old (target_row p) }
{
    let l = p.lay;
    let t = p.entry;
    lay_by(s, TARGET_VALUES_AT, l, t);
}

fn head_row(s: &mut [u8], commits: bool, i: u16, p: Plan)
    requires { image_length ≤ length s.old }
    ensures { s.new ≡ written s.old (head_row commits p i) }
{
    if commits {
        commit_row(s, i, p);
        return;
    }
    apply_row(s, i, p);
}

fn entry_row(s: &mut [u8], i: u16, p: Plan)
    requires { (1 ≤ i) × (image_length ≤ length s.old) }
    ensures { s.new ≡ written s.old (entry_row p i) }
{
    let t = p.entry;
    store_entry(s, i, t);
}

// Which of a plan's stores come, at the places that they have in any order: the target's values, the entry before the head,
// the head, the entry after it.
#[derive(Clone, Copy)]
struct Comes {
    target: bool,
    before: bool,
    head: bool,
    after: bool,
}

impl Comes {
    fn at(target: bool, before: bool, head: bool, after: bool) -> Comes
        ensures { result ≡ coming target before head after }
    {
        Comes {
            target,
            before,
            head,
            after,
        }
    }
}

// Those of an order, cut after the first, after the second, or not; a rule of two stores has no second cut.
fn comes_by(order: Order, first: bool, second: bool) -> Comes
    ensures { result ≡ comes_by order first second }
{
    let on = !first;
    let last = on & !second;
    match order {
        Order::Neither => Comes::at(false, false, false, false),
        Order::EntryOnly => Comes::at(false, true, false, false),
        Order::HeadOnly => Comes::at(false, false, true, false),
        Order::EntryThenHead => Comes::at(false, true, on, false),
        Order::HeadThenEntry => Comes::at(false, false, true, on),
        Order::TargetThenHeadThenEntry => Comes::at(true, false, on, last),
    }
}

// Each of the three is a function: with the ifs in `perform` itself a job took 20 instructions more.
fn target_if(s: &mut [u8], comes: bool, p: Plan)
    requires { image_length ≤ length s.old }
    ensures { s.new ≡ written s.old (cond comes (target_row p) []) }
{
    if comes {
        target_row(s, p);
    }
}

fn head_if(s: &mut [u8], comes: bool, commits: bool, i: u16, p: Plan)
    requires { image_length ≤ length s.old }
    ensures { s.new ≡ written s.old (cond comes (head_row commits p i) []) }
{
    if comes {
        head_row(s, commits, i, p);
    }
}

fn entry_if(s: &mut [u8], comes: bool, i: u16, p: Plan)
    requires { (1 ≤ i) × (image_length ≤ length s.old) }
    ensures { s.new ≡ written s.old (cond comes (entry_row p i) []) }
{
    if comes {
        entry_row(s, i, p);
    }
}

// A plan's stores for entry i, with the same cuts. Each row is made at one place, the entry's at two: an arm for each order
// would hold a copy of the plan on the stack.
pub fn perform(s: &mut [u8], commits: bool, i: u16, p: Plan, first: bool, second: bool)
    requires { (1 ≤ i) × (image_length ≤ length s.old) }
    ensures { s.new ≡ written s.old (rows_of commits p i first second) }
{
    let order = p.order;
    let x = comes_by(order, first, second);
    target_if(s, x.target, p);
    entry_if(s, x.before, i, p);
    head_if(s, x.head, commits, i, p);
    entry_if(s, x.after, i, p);
}

// The event that is given: with the first store, but for a push, whose first store is the target's.
pub fn event_of(p: Plan, first: bool) -> Event
    ensures { result ≡ event_of p first }
{
    let event = p.event;
    let order = p.order;
    match order {
        Order::Neither => event,
        Order::EntryOnly => event,
        Order::HeadOnly => event,
        Order::EntryThenHead => event,
        Order::HeadThenEntry => event,
        Order::TargetThenHeadThenEntry => {
            if first {
                return Event::none();
            }
            event
        }
    }
}
