// What a job plans: the records that its rules read are loaded from the image, and the rules decide.
ghost use Rattle.std.specs.Prelude.{◌≡◌, true, ◌+◌, ◌≤◌, length};
ghost use Rattle.machine.specs.State.{line_open_for};
ghost use Rattle.machine.specs.Settled.{settled};
ghost use Rattle.machine.specs.Rest.{rest_of};
ghost use Rattle.machine.specs.Calls.{present_one, present, present_of, job1, job2, job3, job4, plan_of};
ghost use Rattle.fields.specs.Field.{fields_at};
ghost use Rattle.image.specs.Layout.{table_size, table_widths, image_length};
ghost use Rattle.image.specs.View.{view};
ghost use Rattle.image.specs.Formed.{formed};
ghost use Rattle.controller.specs.Claims.{Entry, settled_for};

use image::{
    APPLIED_AT, COMMITTED_AT, COMMITTED_VALUES_AT, OWNERS_AT, all_settled, last_fold, load_change,
    load_configuration, load_connection, load_entry, load_head, load_mastership, load_target,
    load_value,
};
use kinds::{Number, Status, Transaction};
use rules::{
    Plan, Present, apply_change, apply_rollback, at_rest, commit_change, commit_rollback, line_open,
};

// Whether the commit side is at rest. A folded mark counts as Done.
pub fn rest(s: &[u8]) -> bool
    requires { formed s.now ≡ true }
    ensures { result ≡ rest_of (view s.now) }
{
    let h = load_head(s, COMMITTED_AT);
    let i = h.index.get();
    let b = last_fold(s);
    if i <= b {
        return at_rest(h, Status::Complete, Status::Complete);
    }
    let t = load_entry(s, i);
    let x = t.change;
    let y = t.rollback;
    let c = x.commit;
    let r = y.commit;
    at_rest(h, c, r)
}

// What the table at a place has for a pair's path, where the pair is used.
fn present_one(s: &[u8], at: usize, used: bool, p: u8) -> u16
    requires { at + table_size ≤ length s.now }
    ensures { result ≡ present_one used (fields_at s.now at table_widths) p }
{
    if used {
        return load_value(s, at, p);
    }
    0
}

// What the table at a place has for a change's paths.
fn present_in(s: &[u8], at: usize, t: Transaction) -> [u16; 4]
    requires { at + table_size ≤ length s.now }
    ensures { result ≡ present (fields_at s.now at table_widths) t }
{
    let n = t.count;
    let p = t.paths;
    let a = present_one(s, at, 0 < n, p[0]);
    let b = present_one(s, at, 1 < n, p[1]);
    let c = present_one(s, at, 2 < n, p[2]);
    let d = present_one(s, at, 3 < n, p[3]);
    [a, b, c, d]
}

// The committed values and the owners of a change's paths.
pub fn present(s: &[u8], t: Transaction) -> Present
    requires { image_length ≤ length s.now }
    ensures { result ≡ present_of (view s.now) t }
{
    let values = present_in(s, COMMITTED_VALUES_AT, t);
    let owners = present_in(s, OWNERS_AT, t);
    Present { values, owners }
}

// Whether the applied side is settled.
pub fn settled(s: &[u8]) -> bool
    requires { formed s.now ≡ true }
    ensures { result ≡ settled (view s.now) }
{
    let h = load_head(s, APPLIED_AT);
    let o = h.ordinal;
    if o.get() == 0 {
        return true;
    }
    all_settled(s, o)
}

// The same where a side's apply is Pending: the rules ask it at no other status, and then no entry is looked at.
fn settled_for(s: &[u8], apply: Status) -> bool
    requires { formed s.now ≡ true }
    ensures { result ≡ settled_for apply (view s.now) }
{
    match apply {
        Status::Pending => settled(s),
        Status::None => true,
        Status::InProgress => true,
        Status::Complete => true,
        Status::Aborted => true,
        Status::Canceled => true,
        Status::Failed => true,
    }
}

// Whether the line is open for a node.
pub fn line(s: &[u8], node: u8) -> bool
    requires { (formed s.now ≡ true) × ((1 ≤ node) × (node ≤ 8)) }
    ensures { result ≡ line_open_for (view s.now).net node }
{
    let x = load_connection(s, node);
    let m = load_mastership(s);
    let t = load_target(s);
    let g = load_configuration(s);
    line_open(node, x, m, t, g)
}

// What job 1 plans for an entry.
pub fn job1(s: &[u8], number: u16, accepted: bool) -> Plan
    requires { Entry s.now number }
    ensures { result ≡ job1 (view s.now) number accepted }
{
    let t = load_entry(s, number);
    let h = load_head(s, COMMITTED_AT);
    let change = load_change(s);
    let quiet = rest(s);
    let now = present(s, t);
    commit_change(t, h, change, quiet, Number::of(number), accepted, now)
}

#[inline(never)]
fn job2(s: &[u8], node: u8, number: u16, accepted: bool) -> Plan
    requires { Entry s.now number × ((1 ≤ node) × (node ≤ 8)) }
    ensures { result ≡ job2 (view s.now) node number accepted }
{
    let t = load_entry(s, number);
    let h = load_head(s, APPLIED_AT);
    let x = t.change;
    let apply = x.apply;
    let quiet = settled_for(s, apply);
    let open = line(s, node);
    apply_change(t, h, quiet, Number::of(number), open, accepted)
}

// What job 3 plans for an entry.
pub fn job3(s: &[u8], number: u16) -> Plan
    requires { Entry s.now number }
    ensures { result ≡ job3 (view s.now) number }
{
    let t = load_entry(s, number);
    let h = load_head(s, COMMITTED_AT);
    let quiet = rest(s);
    commit_rollback(t, h, quiet, Number::of(number))
}

#[inline(never)]
fn job4(s: &[u8], node: u8, number: u16, accepted: bool) -> Plan
    requires { Entry s.now number × ((1 ≤ node) × (node ≤ 8)) }
    ensures { result ≡ job4 (view s.now) node number accepted }
{
    let t = load_entry(s, number);
    let h = load_head(s, APPLIED_AT);
    let y = t.rollback;
    let apply = y.apply;
    let quiet = settled_for(s, apply);
    let open = line(s, node);
    apply_rollback(t, h, quiet, Number::of(number), open, accepted)
}

// The plan of a node's job for an entry.
pub fn plan_of(s: &[u8], node: u8, job: u16, number: u16, accepted: bool) -> Plan
    requires { Entry s.now number × ((1 ≤ node) × (node ≤ 8)) }
    ensures { result ≡ plan_of (view s.now) node job number accepted }
{
    if job == 1 {
        return job1(s, number, accepted);
    }
    if job == 2 {
        return job2(s, node, number, accepted);
    }
    if job == 3 {
        return job3(s, number);
    }
    job4(s, node, number, accepted)
}
