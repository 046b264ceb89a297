// The mastership record, lent by `&mut`: its call changes it where the caller keeps it. It is thin over the rule on the
// record's master, term and conn; whoever has the record by value calls `master_of`.
#![tactic(auto)]

ghost use Rattle.std.specs.Prelude.{◌≡◌};
ghost use Rattle.mastership.specs.Lent.{master_by, Masters};
ghost use Rattle.mastership.specs.Promises.{MastersOf};

use kinds::{Connection, Mastership, Term};
use rules::Mastered;

// The rule on the record's parts, for node n with a connection of this id; 2 where there is no such node.
fn master_by(master: u8, term: Term, conn: u32, n: u8, id: u32, connected: bool) -> Mastered
    ensures { result ≡ master_by master term conn n id connected }
{
    let m = Mastership { master, term, conn };
    let x = Connection { id, connected };
    let node = (1 <= n) & (n <= 8);
    if node {
        return rules::master(m, n, x);
    }
    Mastered {
        answer: 2,
        mastership: m,
    }
}

// Node n, whose connection has this id, asks for mastership, or is found lost or reconnected: refuses 2, then what the rule
// refuses.
pub fn master(m: &mut Mastership, n: u8, id: u32, connected: bool) -> u8
    ensures { Masters m.old n id connected result m.new }
{
    let o = master_by(m.master, m.term, m.conn, n, id, connected);
    *m = o.mastership;
    o.answer
}

// The same on a record by value, which is kept in a local and lent: callers need no walk.
pub fn master_of(m: Mastership, n: u8, id: u32, connected: bool) -> Mastered
    ensures { MastersOf m n id connected result }
{
    let mut mastership = m;
    let answer = master(&mut mastership, n, id, connected);
    Mastered { answer, mastership }
}
