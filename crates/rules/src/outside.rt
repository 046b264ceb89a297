// The calls from outside, each on the few records that it reads: the answer, and the record after it.
ghost use Rattle.std.specs.Prelude.{◌≡◌};
ghost use Rattle.rules.specs.Outside.{may_roll_back, rolled_back, start, stop, off, connect, disconnect, master, synchronise_by, synchronise, reaches, is_synchronised, line_open};
ghost use Rattle.rules.specs.Promises.{TellsRollback, RollsBack, Starts, Stops, TurnsOff, Connects, Disconnects, Masters, Synchronises, TellsReach, TellsLine};

use crate::sides::asked;
use crate::{Connected, Mastered, Synchronised, Targeted};
use kinds::{Configuration, Connection, Mastership, Progress, Target, Term, Transaction};

// Whether a rollback of the entry may be asked: phase Change and c.commit Complete.
pub fn may_roll_back(t: Transaction) -> bool
    ensures { TellsRollback t result }
{
    let change = t.change;
    let commit = change.commit;
    let committed = commit.complete();
    (t.phase == 1) & committed
}

// The entry once its rollback is asked: phase Rollback, r.commit and r.apply Pending.
pub fn rolled_back(t: Transaction) -> Transaction
    ensures { RollsBack t result }
{
    let rollback = t.rollback;
    let mut next = t;
    next.phase = 2;
    next.rollback = asked(rollback);
    next
}

// What start answers, and the target: its id counted, running.
pub fn start(t: Target) -> Targeted
    ensures { Starts t result }
{
    if t.running {
        return Targeted {
            answer: 7,
            target: t,
        };
    }
    if 4294967295 <= t.id {
        return Targeted {
            answer: 9,
            target: t,
        };
    }
    let target = Target {
        id: t.id + 1,
        running: true,
        remembers: t.remembers,
    };
    Targeted { answer: 0, target }
}

// What stop answers, and the target: not running.
pub fn stop(t: Target) -> Targeted
    ensures { Stops t result }
{
    if t.running {
        let target = Target {
            id: t.id,
            running: false,
            remembers: t.remembers,
        };
        return Targeted { answer: 0, target };
    }
    Targeted {
        answer: 7,
        target: t,
    }
}

// The connection once it is lost: its id stays.
pub fn off(x: Connection) -> Connection
    ensures { TurnsOff x result }
{
    Connection {
        id: x.id,
        connected: false,
    }
}

// What connect answers, and the node's connection: its id counted, connected.
pub fn connect(x: Connection, running: bool) -> Connected
    ensures { Connects x running result }
{
    if x.connected {
        return Connected {
            answer: 7,
            connection: x,
        };
    }
    if running {
        if 4294967295 <= x.id {
            return Connected {
                answer: 9,
                connection: x,
            };
        }
        let connection = Connection {
            id: x.id + 1,
            connected: true,
        };
        return Connected {
            answer: 0,
            connection,
        };
    }
    Connected {
        answer: 8,
        connection: x,
    }
}

// What disconnect answers, and the node's connection: lost.
pub fn disconnect(x: Connection) -> Connected
    ensures { Disconnects x result }
{
    if x.connected {
        return Connected {
            answer: 0,
            connection: off(x),
        };
    }
    Connected {
        answer: 7,
        connection: x,
    }
}

// What mastership of node n, whose connection is x, answers, and the record after it: n where there is no master and n is
// connected; no master where it is n, lost or back with another id than conn.
pub fn master(m: Mastership, n: u8, x: Connection) -> Mastered
    ensures { Masters m n x result }
{
    let mut next = m;
    if x.connected & (m.master == 0) {
        let term = m.term;
        if term.last() {
            return Mastered {
                answer: 9,
                mastership: m,
            };
        }
        next.master = n;
        next.term = term.next();
        next.conn = x.id;
        return Mastered {
            answer: 0,
            mastership: next,
        };
    }
    if m.master == n {
        if x.connected & (x.id == m.conn) {
            return Mastered {
                answer: 11,
                mastership: m,
            };
        }
        next.master = 0;
        return Mastered {
            answer: 0,
            mastership: next,
        };
    }
    Mastered {
        answer: 11,
        mastership: m,
    }
}

// What synchronise answers, and the configuration after it, where its term is below the mastership's.
pub fn synchronise_by(state: Progress, g: Configuration, term: Term, reaches: bool) -> Synchronised
    ensures { result ≡ synchronise_by state g term reaches }
{
    let before = g.term;
    let begun = Configuration {
        state: Progress::InProgress,
        term: before,
    };
    match state {
        Progress::Pending => Synchronised {
            answer: 0,
            configuration: begun,
            copies: false,
        },
        Progress::Complete => Synchronised {
            answer: 0,
            configuration: begun,
            copies: false,
        },
        Progress::InProgress => {
            if reaches {
                let configuration = Configuration {
                    state: Progress::Complete,
                    term,
                };
                return Synchronised {
                    answer: 0,
                    configuration,
                    copies: true,
                };
            }
            Synchronised {
                answer: 12,
                configuration: g,
                copies: false,
            }
        }
    }
}

// What synchronise by a node answers, and the configuration after it, from the mastership's term, whether the node is
// master and whether it reaches the target.
pub fn synchronise(g: Configuration, term: Term, is_master: bool, reaches: bool) -> Synchronised
    ensures { Synchronises g term is_master reaches result }
{
    if is_master {
        if g.term.below(term) {
            let state = g.state;
            return synchronise_by(state, g, term, reaches);
        }
        return Synchronised {
            answer: 11,
            configuration: g,
            copies: false,
        };
    }
    Synchronised {
        answer: 10,
        configuration: g,
        copies: false,
    }
}

// Whether a node reaches the target: it is connected with id equal to conn, and the target runs.
pub fn reaches(x: Connection, m: Mastership, t: Target) -> bool
    ensures { TellsReach x m t result }
{
    x.connected & ((x.id == m.conn) & t.running)
}

// Whether the configuration's state is Complete.
pub fn is_synchronised(state: Progress) -> bool
    ensures { result ≡ is_synchronised state }
{
    match state {
        Progress::Pending => false,
        Progress::InProgress => false,
        Progress::Complete => true,
    }
}

// Whether the line is open for node n: it is master and reaches the target, and the configuration is Complete in the
// mastership's term.
pub fn line_open(n: u8, x: Connection, m: Mastership, t: Target, g: Configuration) -> bool
    ensures { TellsLine n x m t g result }
{
    let reached = reaches(x, m, t);
    let state = g.state;
    let complete = is_synchronised(state);
    let same_term = g.term.is(m.term);
    (m.master == n) & (reached & (complete & same_term))
}
