// Each call on a well-formed image: the refusals in the paper's order, then the stores.
ghost use Rattle.std.specs.Prelude.{◌≡◌, true, ◌&&◌, ◌≤◌, leb, eqb, length};
ghost use Rattle.kinds.specs.Events.{numbered};
ghost use Rattle.machine.specs.State.{is_node};
ghost use Rattle.machine.specs.Calls.{rollback, start, stop, connect, disconnect, master, sync, work, work_ok, clear_row, commits};
ghost use Rattle.image.specs.Layout.{image_length};
ghost use Rattle.image.specs.View.{written};
ghost use Rattle.image.specs.Formed.{formed};
ghost use Rattle.controller.specs.Claims.{Does};
ghost use Rattle.controller.specs.Bytes.{append_of};

use crate::deciding::plan_of;
use crate::pairs::{entered, valid};
use crate::perform::{event_of, perform};
use connections::{connect_of, disconnect_of, stop_of};
use image::{
    HIGHEST, SLOTS, clear_target, grow, last_fold, last_number, load_configuration,
    load_connection, load_connections, load_entry, load_mastership, load_target,
    store_configuration, store_connections, store_entry, store_mastership, store_target,
    write_differing,
};
use kinds::{Event, Number, Reply, Status};
use mastership::master_of;
use rules::{may_roll_back, reaches, rolled_back, synchronise};

// Whether a number was given, where n is the highest.
pub fn in_log(i: u16, n: u16) -> bool
    ensures { result ≡ (leb 1 i && leb i n) }
{
    (1 <= i) & (i <= n)
}

// Whether a number is a node's.
pub fn is_node(n: u16) -> bool
    ensures { result ≡ is_node n }
{
    (1 <= n) & (n <= 8)
}

// Takes a change into the log: refuses 3, 4, 9.
pub fn append(s: &mut [u8], pairs: &[u8]) -> Reply
    requires { formed s.old ≡ true }
    ensures { Does s.old (append_of pairs.now) result s.new }
{
    if valid(pairs) {
        let n = last_number(s);
        let b = last_fold(s);
        if n - b < SLOTS {
            if n < HIGHEST {
                let t = entered(pairs);
                grow(s, n, t);
                let event = Event {
                    phase: 0,
                    stage: 0,
                    number: Number::of(n + 1),
                    status: Status::None,
                };
                return Reply { answer: 0, event };
            }
            return Reply::of(9);
        }
        return Reply::of(4);
    }
    Reply::of(3)
}

// Asks for the rollback of a change: refuses 5, 18, 6.
pub fn rollback(s: &mut [u8], number: u16) -> Reply
    requires { formed s.old ≡ true }
    ensures { Does s.old (rollback number) result s.new }
{
    let n = last_number(s);
    if in_log(number, n) {
        let b = last_fold(s);
        if b < number {
            let t = load_entry(s, number);
            if may_roll_back(t) {
                store_entry(s, number, rolled_back(t));
                return Reply::of(0);
            }
            return Reply::of(6);
        }
        return Reply::of(18);
    }
    Reply::of(5)
}

// Starts the target: refuses what the rule refuses.
pub fn start(s: &mut [u8]) -> Reply
    requires { formed s.old ≡ true }
    ensures { Does s.old start result s.new }
{
    let x = rules::start(load_target(s));
    let answer = x.answer;
    if answer == 0 {
        let target = x.target;
        store_target(s, target);
        return Reply::of(0);
    }
    Reply::of(answer)
}

// Stops the target, clears its values where it forgets them, and takes every connection away.
pub fn stop(s: &mut [u8]) -> Reply
    requires { formed s.old ≡ true }
    ensures { Does s.old stop result s.new }
{
    let t = load_target(s);
    let remembers = t.remembers;
    let x = rules::stop(t);
    let answer = x.answer;
    if answer == 0 {
        let target = x.target;
        let nodes = stop_of(load_connections(s));
        store_target(s, target);
        if !remembers {
            clear_target(s);
        }
        store_connections(s, nodes);
        return Reply::of(0);
    }
    Reply::of(answer)
}

// Connects a node.
pub fn connect(s: &mut [u8], node: u16) -> Reply
    requires { formed s.old ≡ true }
    ensures { Does s.old (connect node) result s.new }
{
    let t = load_target(s);
    let x = connect_of(load_connections(s), node, t.running);
    let answer = x.answer;
    if answer == 0 {
        let nodes = x.connections;
        store_connections(s, nodes);
        return Reply::of(0);
    }
    Reply::of(answer)
}

// Disconnects a node.
pub fn disconnect(s: &mut [u8], node: u16) -> Reply
    requires { formed s.old ≡ true }
    ensures { Does s.old (disconnect node) result s.new }
{
    let x = disconnect_of(load_connections(s), node);
    let answer = x.answer;
    if answer == 0 {
        let nodes = x.connections;
        store_connections(s, nodes);
        return Reply::of(0);
    }
    Reply::of(answer)
}

// Gives or frees mastership: refuses 2, then what the rule refuses.
pub fn master(s: &mut [u8], node: u16) -> Reply
    requires { formed s.old ≡ true }
    ensures { Does s.old (master node) result s.new }
{
    // asked here although `master_of` refuses it too: a node that is none has no connection to load
    if is_node(node) {
        let n = node as u8;
        let c = load_connection(s, n);
        let x = master_of(load_mastership(s), n, c.id, c.connected);
        let answer = x.answer;
        if answer == 0 {
            let m = x.mastership;
            store_mastership(s, m);
            return Reply::of(0);
        }
        return Reply::of(answer);
    }
    Reply::of(2)
}

// What a synchronise that wrote shows: how many paths.
fn counted(n: u16) -> Event
    ensures { result ≡ numbered n }
{
    Event {
        phase: 0,
        stage: 0,
        number: Number::of(n),
        status: Status::None,
    }
}

// Synchronises: refuses 2, then what the rule refuses. Where it writes it shows how many paths differed.
pub fn sync(s: &mut [u8], node: u16) -> Reply
    requires { formed s.old ≡ true }
    ensures { Does s.old (sync node) result s.new }
{
    if is_node(node) {
        let n = node as u8;
        let m = load_mastership(s);
        let reached = reaches(load_connection(s, n), m, load_target(s));
        let term = m.term;
        let x = synchronise(load_configuration(s), term, m.master == n, reached);
        let answer = x.answer;
        if answer == 0 {
            let g = x.configuration;
            store_configuration(s, g);
            if x.copies {
                let event = counted(write_differing(s));
                return Reply { answer: 0, event };
            }
            return Reply::of(0);
        }
        return Reply::of(answer);
    }
    Reply::of(2)
}

fn args_ok(node: u16, job: u16, outcome: u16, cut: u16) -> bool
    ensures { result ≡ work_ok node job outcome cut }
{
    let node_ok = is_node(node);
    (node_ok & ((1 <= job) & (job <= 4))) & ((outcome <= 1) & (cut <= 2))
}

// Whether a job is of the commit side: 1 and 3.
pub fn of_commit(job: u16) -> bool
    ensures { result ≡ commits job }
{
    if job == 1 {
        return true;
    }
    job == 3
}

// One step of a job: refuses 2, 5, 18, 10, then what the plan answers.
pub fn work(s: &mut [u8], node: u16, job: u16, number: u16, outcome: u16, cut: u16) -> Reply
    requires { formed s.old ≡ true }
    ensures { Does s.old (work node job number outcome cut) result s.new }
{
    if args_ok(node, job, outcome, cut) {
        let n = last_number(s);
        if in_log(number, n) {
            let b = last_fold(s);
            if b < number {
                let m = load_mastership(s);
                let at = node as u8;
                if m.master == at {
                    let p = plan_of(s, at, job, number, outcome == 0);
                    perform(s, of_commit(job), number, p, cut == 1, cut == 2);
                    let event = event_of(p, cut == 1);
                    return Reply {
                        answer: p.answer,
                        event,
                    };
                }
                return Reply::of(10);
            }
            return Reply::of(18);
        }
        return Reply::of(5);
    }
    Reply::of(2)
}
