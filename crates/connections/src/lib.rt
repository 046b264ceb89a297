// The nodes' connections, a lent table of exactly eight records: connect and disconnect change one of them, stop all of
// them. Each is thin over covered functions on numbers; whoever has the table by value calls the functions at the end.
#![tactic(auto)]

ghost use Rattle.std.specs.Prelude.{◌≡◌, ◌<◌};
ghost use Rattle.connections.specs.Table.{place_of, connect_by, disconnect_by, Connects, Disconnects, Stops};
ghost use Rattle.connections.specs.Promises.{ConnectsOf, DisconnectsOf, StopsOf};

use kinds::Connection;
use rules::Connected;

// Where a node stands in the table, or the refusal.
#[derive(Clone, Copy)]
struct Place {
    answer: u8,
    at: usize,
}

// What connect and disconnect answer, and the table after them.
#[derive(Clone, Copy)]
pub struct Tabled {
    pub answer: u8,
    pub connections: [Connection; 8],
}

// In a table of `length` records: 1 where that is not eight, 2 where there is no such node.
fn place_of(length: usize, n: u16) -> Place
    ensures { (result ≡ place_of length n) × (result.answer ≡ 0 → result.at < length) }
{
    let node = (1 <= n) & (n <= 8);
    if length == 8 {
        if node {
            return Place {
                answer: 0,
                at: (n - 1) as usize,
            };
        }
        return Place { answer: 2, at: 0 };
    }
    Place { answer: 1, at: 0 }
}

// The rules on a record's numbers.
fn connect_by(id: u32, connected: bool, running: bool) -> Connected
    ensures { result ≡ connect_by id connected running }
{
    let x = Connection { id, connected };
    rules::connect(x, running)
}

fn disconnect_by(id: u32, connected: bool) -> Connected
    ensures { result ≡ disconnect_by id connected }
{
    let x = Connection { id, connected };
    rules::disconnect(x)
}

// Node n's connection: its id counted, connected.
pub fn connect(conns: &mut [Connection], n: u16, running: bool) -> u8
    ensures { Connects conns.old n running result conns.new }
{
    let p = place_of(conns.len(), n);
    let at = p.at;
    if p.answer != 0 {
        return p.answer;
    }
    let c = conns[at];
    let o = connect_by(c.id, c.connected, running);
    conns[at] = o.connection;
    o.answer
}

// Node n's connection: lost, its id kept.
pub fn disconnect(conns: &mut [Connection], n: u16) -> u8
    ensures { Disconnects conns.old n result conns.new }
{
    let p = place_of(conns.len(), n);
    let at = p.at;
    if p.answer != 0 {
        return p.answer;
    }
    let c = conns[at];
    let o = disconnect_by(c.id, c.connected);
    conns[at] = o.connection;
    o.answer
}

// Every node's connection: lost, its id kept.
pub fn stop(conns: &mut [Connection]) -> u8
    ensures { Stops conns.old result conns.new }
{
    if conns.len() != 8 {
        return 1;
    }
    let mut i = 0;
    while i < conns.len() {
        conns[i].connected = false;
        i += 1;
    }
    0
}

// The same on a table by value, which is kept in a local and lent: callers need no walk.
pub fn connect_of(conns: [Connection; 8], n: u16, running: bool) -> Tabled
    ensures { ConnectsOf conns n running result }
{
    let mut connections = conns;
    let answer = connect(&mut connections, n, running);
    Tabled {
        answer,
        connections,
    }
}

// The same of a table by value: the answer, and the table after it.
pub fn disconnect_of(conns: [Connection; 8], n: u16) -> Tabled
    ensures { DisconnectsOf conns n result }
{
    let mut connections = conns;
    let answer = disconnect(&mut connections, n);
    Tabled {
        answer,
        connections,
    }
}

// The same of a table by value: no node is connected any more.
pub fn stop_of(conns: [Connection; 8]) -> [Connection; 8]
    ensures { StopsOf conns result }
{
    let mut connections = conns;
    stop(&mut connections);
    connections
}
