// The paper's numbers, statuses and small records. A log number, an ordinal and a term are three types with private
// fields: none can be compared with another, and only the methods below read inside.
#![tactic(auto)]

ghost use Rattle.kinds.specs.Promises.{MakesNumber, ShowsNumber, SameNumber, BelowNumber, FollowsNumber, MakesOrdinal, ShowsOrdinal, SameOrdinal, FollowsOrdinal, TellsFull, MakesNextOrdinal, MakesTerm, ShowsTerm, SameTerm, BelowTerm, TellsLast, MakesNextTerm, ShowsStatus, ReadsStatus, TellsDone, TellsComplete, TellsPending, TellsFailed, ShowsProgress, ReadsProgress, PutsChange, PutsRollback, MakesNoEvent, Refuses};

// A log number: 0 none, else 1 to 65,535.
#[derive(Clone, Copy)]
pub struct Number(u16);

// An ordinal: 0 none, else 1 to 131,070.
#[derive(Clone, Copy)]
pub struct Ordinal(u32);

// A term of mastership.
#[derive(Clone, Copy)]
pub struct Term(u32);

impl Number {
    // The log number n.
    pub fn of(n: u16) -> Number
        ensures { MakesNumber n result }
    {
        Number(n)
    }

    // The number itself.
    pub fn get(self) -> u16
        ensures { ShowsNumber self result }
    {
        self.0
    }

    // Whether two log numbers are the same.
    pub fn is(self, other: Number) -> bool
        ensures { SameNumber self other result }
    {
        self.0 == other.0
    }

    // Whether this number is below another.
    pub fn below(self, other: Number) -> bool
        ensures { BelowNumber self other result }
    {
        self.0 < other.0
    }

    // Whether this number comes straight after `before`.
    pub fn follows(self, before: Number) -> bool
        ensures { FollowsNumber self before result }
    {
        let b = before.0 as u32;
        let n = self.0 as u32;
        b + 1 == n
    }
}

impl Ordinal {
    // The ordinal n.
    pub fn of(n: u32) -> Ordinal
        ensures { MakesOrdinal n result }
    {
        Ordinal(n)
    }

    // The ordinal's number.
    pub fn get(self) -> u32
        ensures { ShowsOrdinal self result }
    {
        self.0
    }

    // Whether two ordinals are the same.
    pub fn is(self, other: Ordinal) -> bool
        ensures { SameOrdinal self other result }
    {
        self.0 == other.0
    }

    // Whether this ordinal comes straight after `before`; 0 comes after none.
    pub fn follows(self, before: Ordinal) -> bool
        ensures { FollowsOrdinal self before result }
    {
        let b = before.0 as u64;
        let n = self.0 as u64;
        b + 1 == n
    }

    // Whether there is no ordinal after this one.
    pub fn full(self) -> bool
        ensures { TellsFull self result }
    {
        131070 <= self.0
    }

    // The ordinal after this one; a full one stays.
    pub fn next(self) -> Ordinal
        ensures { MakesNextOrdinal self result }
    {
        let n = self.0;
        if 131070 <= n {
            return Ordinal(n);
        }
        Ordinal(n + 1)
    }
}

impl Term {
    // The term n.
    pub fn of(n: u32) -> Term
        ensures { MakesTerm n result }
    {
        Term(n)
    }

    // The term's number.
    pub fn get(self) -> u32
        ensures { ShowsTerm self result }
    {
        self.0
    }

    // Whether two terms are the same.
    pub fn is(self, other: Term) -> bool
        ensures { SameTerm self other result }
    {
        self.0 == other.0
    }

    // Whether this term is before another.
    pub fn below(self, other: Term) -> bool
        ensures { BelowTerm self other result }
    {
        self.0 < other.0
    }

    // Whether there is no term after this one.
    pub fn last(self) -> bool
        ensures { TellsLast self result }
    {
        4294967295 <= self.0
    }

    // The term after this one; the last one stays.
    pub fn next(self) -> Term
        ensures { MakesNextTerm self result }
    {
        let n = self.0;
        if 4294967295 <= n {
            return Term(n);
        }
        Term(n + 1)
    }
}

#[derive(Clone, Copy)]
pub enum Status {
    None,
    Pending,
    InProgress,
    Complete,
    Aborted,
    Canceled,
    Failed,
}

impl Status {
    // The status's number, 0 to 6.
    pub fn code(self) -> u8
        ensures { ShowsStatus self result }
    {
        match self {
            Status::None => 0,
            Status::Pending => 1,
            Status::InProgress => 2,
            Status::Complete => 3,
            Status::Aborted => 4,
            Status::Canceled => 5,
            Status::Failed => 6,
        }
    }

    // The status of a code; what is no code is read as Failed.
    #[tactic(auto, unfolding(crate::specs::Statuses::status_of))]
    pub fn of(n: u8) -> Status
        ensures { ReadsStatus n result }
    {
        match n {
            0 => Status::None,
            1 => Status::Pending,
            2 => Status::InProgress,
            3 => Status::Complete,
            4 => Status::Aborted,
            5 => Status::Canceled,
            _ => Status::Failed,
        }
    }

    // Whether the status is Done: Complete, Aborted, Canceled or Failed.
    pub fn done(self) -> bool
        ensures { TellsDone self result }
    {
        match self {
            Status::None => false,
            Status::Pending => false,
            Status::InProgress => false,
            Status::Complete => true,
            Status::Aborted => true,
            Status::Canceled => true,
            Status::Failed => true,
        }
    }

    // Whether the status is Complete.
    pub fn complete(self) -> bool
        ensures { TellsComplete self result }
    {
        match self {
            Status::None => false,
            Status::Pending => false,
            Status::InProgress => false,
            Status::Complete => true,
            Status::Aborted => false,
            Status::Canceled => false,
            Status::Failed => false,
        }
    }

    // Whether the status is Pending.
    pub fn pending(self) -> bool
        ensures { TellsPending self result }
    {
        match self {
            Status::None => false,
            Status::Pending => true,
            Status::InProgress => false,
            Status::Complete => false,
            Status::Aborted => false,
            Status::Canceled => false,
            Status::Failed => false,
        }
    }

    // Whether the status is Failed.
    pub fn failed(self) -> bool
        ensures { TellsFailed self result }
    {
        match self {
            Status::None => false,
            Status::Pending => false,
            Status::InProgress => false,
            Status::Complete => false,
            Status::Aborted => false,
            Status::Canceled => false,
            Status::Failed => true,
        }
    }
}

// The state of the configuration.
#[derive(Clone, Copy)]
pub enum Progress {
    Pending,
    InProgress,
    Complete,
}

impl Progress {
    // The state's number, 1 to 3.
    pub fn code(self) -> u8
        ensures { ShowsProgress self result }
    {
        match self {
            Progress::Pending => 1,
            Progress::InProgress => 2,
            Progress::Complete => 3,
        }
    }

    // The state of a code; what is no code is read as Complete.
    #[tactic(auto, unfolding(crate::specs::Statuses::progress_of))]
    pub fn of(n: u8) -> Progress
        ensures { ReadsProgress n result }
    {
        match n {
            1 => Progress::Pending,
            2 => Progress::InProgress,
            _ => Progress::Complete,
        }
    }
}

// The configuration's state with the term it belongs to.
#[derive(Clone, Copy)]
pub struct Configuration {
    pub state: Progress,
    pub term: Term,
}

// The master node (0 none), its term, and the connection id that it had.
#[derive(Clone, Copy)]
pub struct Mastership {
    pub master: u8,
    pub term: Term,
    pub conn: u32,
}

// A node's connection.
#[derive(Clone, Copy)]
pub struct Connection {
    pub id: u32,
    pub connected: bool,
}

// The switch: its id, whether it runs, and its kind, whether it keeps its values over a power cycle (order 13).
#[derive(Clone, Copy)]
pub struct Target {
    pub id: u32,
    pub running: bool,
    pub remembers: bool,
}

// One side of a transaction, of its change or of its rollback.
#[derive(Clone, Copy)]
pub struct Side {
    pub commit: Status,
    pub apply: Status,
    pub ordinal: Ordinal,
}

// An entry of the log: phase 1 Change or 2 Rollback; the first `count` places hold pairs; `index` is the revision to
// return to (r.index), `kept` are the values to return to (r.values) and `owners` the numbers that its paths' owners return to.
#[derive(Clone, Copy)]
pub struct Transaction {
    pub phase: u8,
    pub count: u8,
    pub paths: [u8; 4],
    pub values: [u16; 4],
    pub change: Side,
    pub rollback: Side,
    pub index: Number,
    pub kept: [u16; 4],
    pub owners: [u16; 4],
}

impl Transaction {
    // The transaction with another change side.
    pub fn with_change(self, change: Side) -> Transaction
        ensures { PutsChange self change result }
    {
        let paths = self.paths;
        let values = self.values;
        let rollback = self.rollback;
        let index = self.index;
        let kept = self.kept;
        let owners = self.owners;
        Transaction {
            phase: self.phase,
            count: self.count,
            paths,
            values,
            change,
            rollback,
            index,
            kept,
            owners,
        }
    }

    // The transaction with another rollback side.
    pub fn with_rollback(self, rollback: Side) -> Transaction
        ensures { PutsRollback self rollback result }
    {
        let paths = self.paths;
        let values = self.values;
        let change = self.change;
        let index = self.index;
        let kept = self.kept;
        let owners = self.owners;
        Transaction {
            phase: self.phase,
            count: self.count,
            paths,
            values,
            change,
            rollback,
            index,
            kept,
            owners,
        }
    }
}

// Committed and Applied have one each. Committed's `change` stands beside its head, since Applied has none. What is said at
// the fields is true in every reached state: crates/history/specs/Invariant.antt.
#[derive(Clone, Copy)]
pub struct Head {
    // Committed's: revision ≤ index ≤ change ≤ the highest number given. No rule reads Applied's.
    pub index: Number,
    // Committed's: at rest revision ≤ target ≤ index, else where the commit under way leads. Applied's: at most change.
    pub target: Number,
    // The newest change that is live: committed, or taken by the switch, and not rolled back there; 0 if none.
    pub revision: Number,
    // Applied's ≤ Committed's = how many commits there were, those of rollbacks too ≤ twice the highest number given.
    pub ordinal: Ordinal,
}

// Phase 1 Change or 2 Rollback, stage 1 Commit or 2 Apply; zeros where there is no event.
#[derive(Clone, Copy)]
pub struct Event {
    pub phase: u8,
    pub stage: u8,
    pub number: Number,
    pub status: Status,
}

// What a call answers: 0 accepted or the refusal's number, and its event.
#[derive(Clone, Copy)]
pub struct Reply {
    pub answer: u8,
    pub event: Event,
}

impl Event {
    // No event.
    pub fn none() -> Event
        ensures { MakesNoEvent result }
    {
        Event {
            phase: 0,
            stage: 0,
            number: Number(0),
            status: Status::None,
        }
    }
}

impl Reply {
    // An answer with no event.
    pub fn of(answer: u8) -> Reply
        ensures { Refuses answer result }
    {
        let event = Event {
            phase: 0,
            stage: 0,
            number: Number(0),
            status: Status::None,
        };
        Reply { answer, event }
    }
}
