// The nodes and the switch: configuration, mastership, target and the eight connections.
ghost use Rattle.std.specs.Prelude.{◌≡◌, ◌+◌, ◌*◌, ◌≤◌, length};
ghost use Rattle.image.specs.Layout.{image_length, node_size};
ghost use Rattle.image.specs.Records.{to_node, put_node_at};
ghost use Rattle.image.specs.Promises.{LoadsConfiguration, StoresConfiguration, LoadsMastership, StoresMastership, LoadsTarget, StoresTarget, LoadsConnection, LoadsConnections, StoresConnections};

use crate::layout::{
    CONFIGURATION_AT, CONFIGURATION_TERM_AT, CONN_AT, CONNECTED_IN, MASTERSHIP_AT,
    MASTERSHIP_TERM_AT, REMEMBERS_AT, RUNNING_AT, TARGET_AT, node_at,
};
use fields::{get, put};
use kinds::{Configuration, Connection, Mastership, Progress, Target, Term};
use std::array;

// ---- configuration, mastership, target

// The configuration's state and term.
pub fn load_configuration(s: &[u8]) -> Configuration
    requires { image_length ≤ length s.now }
    ensures { LoadsConfiguration s.now result }
{
    let state = Progress::of(get::<u8>(s, CONFIGURATION_AT));
    let term = Term::of(get::<u32>(s, CONFIGURATION_TERM_AT));
    Configuration { state, term }
}

// The configuration's state and term, put in their place.
pub fn store_configuration(s: &mut [u8], g: Configuration)
    requires { image_length ≤ length s.old }
    ensures { StoresConfiguration s.old g s.new }
{
    let state = g.state;
    let term = g.term;
    put(s, CONFIGURATION_AT, state.code());
    put(s, CONFIGURATION_TERM_AT, term.get());
}

// The master, its term and the connection that it was made at.
pub fn load_mastership(s: &[u8]) -> Mastership
    requires { image_length ≤ length s.now }
    ensures { LoadsMastership s.now result }
{
    let master = get::<u8>(s, MASTERSHIP_AT);
    let term = Term::of(get::<u32>(s, MASTERSHIP_TERM_AT));
    let conn = get::<u32>(s, CONN_AT);
    Mastership { master, term, conn }
}

// The mastership, put in its place.
pub fn store_mastership(s: &mut [u8], m: Mastership)
    requires { image_length ≤ length s.old }
    ensures { StoresMastership s.old m s.new }
{
    let term = m.term;
    put(s, MASTERSHIP_AT, m.master);
    put(s, MASTERSHIP_TERM_AT, term.get());
    put(s, CONN_AT, m.conn);
}

// The target's id, whether it runs, and whether it remembers.
pub fn load_target(s: &[u8]) -> Target
    requires { image_length ≤ length s.now }
    ensures { LoadsTarget s.now result }
{
    let id = get::<u32>(s, TARGET_AT);
    let running = get::<u8>(s, RUNNING_AT) == 1;
    let remembers = get::<u8>(s, REMEMBERS_AT) == 1;
    Target {
        id,
        running,
        remembers,
    }
}

// The target, put in its place.
pub fn store_target(s: &mut [u8], t: Target)
    requires { image_length ≤ length s.old }
    ensures { StoresTarget s.old t s.new }
{
    put(s, TARGET_AT, t.id);
    put(s, RUNNING_AT, u8::from(t.running));
    put(s, REMEMBERS_AT, u8::from(t.remembers));
}

// ---- the eight connections

fn load_node(s: &[u8], at: usize) -> Connection
    requires { at + node_size ≤ length s.now }
    ensures { result ≡ to_node s.now at }
{
    let id = get::<u32>(s, at);
    let connected = get::<u8>(s, at + CONNECTED_IN) == 1;
    Connection { id, connected }
}

// The connection of node n.
pub fn load_connection(s: &[u8], n: u8) -> Connection
    requires { (1 ≤ n) × ((n ≤ 8) × (image_length ≤ length s.now)) }
    ensures { LoadsConnection s.now n result }
{
    load_node(s, node_at((n - 1) as usize))
}

// The connections of the eight nodes.
pub fn load_connections(s: &[u8]) -> [Connection; 8]
    requires { image_length ≤ length s.now }
    ensures { LoadsConnections s.now result }
{
    array::from_fn(|k| load_node(s, node_at(k)))
}

fn store_node(s: &mut [u8], at: usize, x: Connection)
    requires { at + node_size ≤ length s.old }
    ensures { s.new ≡ put_node_at s.old at x }
{
    put(s, at, x.id);
    put(s, at + CONNECTED_IN, u8::from(x.connected));
}

// The connections of the eight nodes, put in their places.
pub fn store_connections(s: &mut [u8], xs: [Connection; 8])
    requires { image_length ≤ length s.old }
    ensures { StoresConnections s.old xs s.new }
{
    for (k, x) in xs.iter().enumerate() {
        store_node(s, node_at(k), *x);
    }
}
