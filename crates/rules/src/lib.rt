// The paper's rules as pure functions over small records by value: each decides a plan and stores nothing.
// The types are here; specs/ has the paper's rules, and each module the code of the definitions of the same name.
#![tactic(auto)]

use kinds::{Configuration, Connection, Event, Head, Mastership, Target, Transaction};

mod plans; // plans.rt: the six kinds of plan
mod sides; // sides.rt: what a store writes into a side of an entry
mod heads; // heads.rt: what a store writes into a head
mod jobs; // jobs/: at rest, and the four jobs
mod outside; // outside.rt: the calls from outside, and the line

pub use jobs::apply_change::apply_change;
pub use jobs::apply_rollback::apply_rollback;
pub use jobs::at_rest::at_rest;
pub use jobs::commit_change::commit_change;
pub use jobs::commit_rollback::commit_rollback;
pub use outside::{
    connect, disconnect, line_open, master, may_roll_back, off, reaches, rolled_back, start, stop,
    synchronise,
};

// Which of a rule's stores come, and in which order; an accepted push stores the target's values first.
#[derive(Clone, Copy)]
pub enum Order {
    Neither,
    EntryOnly,
    HeadOnly,
    EntryThenHead,
    HeadThenEntry,
    TargetThenHeadThenEntry,
}

// The committed values and the owners at a change's paths, unused places 0.
#[derive(Clone, Copy)]
pub struct Present {
    pub values: [u16; 4],
    pub owners: [u16; 4],
}

// Which values the head's store lays over those at the entry's paths: none, the change's, or r.values.
#[derive(Clone, Copy)]
pub enum Lay {
    Nothing,
    Values,
    Kept,
}

// What a rule of a job decides; `change` says whether Committed's change becomes the job's number.
#[derive(Clone, Copy)]
pub struct Plan {
    pub answer: u8,
    pub event: Event,
    pub order: Order,
    pub entry: Transaction,
    pub head: Head,
    pub change: bool,
    pub lay: Lay,
}

// What jobs 1 and 3 ask of Committed and of the call.
#[derive(Clone, Copy)]
pub struct CommitTests {
    pub ready: bool,
    pub aimed: bool,
    pub rest: bool,
    pub accepted: bool,
    pub full: bool,
    pub landed: bool,
}

#[derive(Clone, Copy)]
pub enum CommitChangeRule {
    Begin,
    Aim,
    Land,
    Full,
    Reject,
    Finish,
    Close,
    Wait,
}

#[derive(Clone, Copy)]
pub enum CommitRollbackRule {
    Begin,
    Aim,
    Land,
    Full,
    Finish,
    Wait,
}

// What job 2 asks of the entry, of Applied, of the line and of the call.
#[derive(Clone, Copy)]
pub struct ApplyChangeTests {
    pub committed: bool,
    pub next: bool,
    pub aimed: bool,
    pub settled: bool,
    pub undone: bool,
    pub passed: bool,
    pub level: bool,
    pub landed: bool,
    pub line: bool,
    pub accepted: bool,
}

#[derive(Clone, Copy)]
pub enum ApplyChangeRule {
    Begin,
    Aim,
    Abort,
    Close,
    Finish,
    Fail,
    Push,
    NoLine,
    Wait,
}

// What job 4 asks of the entry, of Applied, of the line and of the call.
#[derive(Clone, Copy)]
pub struct ApplyRollbackTests {
    pub committed: bool,
    pub next: bool,
    pub tried: bool,
    pub aborted: bool,
    pub aimed: bool,
    pub settled: bool,
    pub landed: bool,
    pub line: bool,
    pub accepted: bool,
}

#[derive(Clone, Copy)]
pub enum ApplyRollbackRule {
    Begin,
    Aim,
    Cancel,
    Close,
    Finish,
    Push,
    NoLine,
    Rejected,
    Wait,
}

// What start and stop answer, and the target after them.
#[derive(Clone, Copy)]
pub struct Targeted {
    pub answer: u8,
    pub target: Target,
}

// What connect and disconnect answer, and the connection after them.
#[derive(Clone, Copy)]
pub struct Connected {
    pub answer: u8,
    pub connection: Connection,
}

// What mastership answers, and the record after it.
#[derive(Clone, Copy)]
pub struct Mastered {
    pub answer: u8,
    pub mastership: Mastership,
}

// What synchronise answers, the configuration after it, and whether the applied values go to the target.
#[derive(Clone, Copy)]
pub struct Synchronised {
    pub answer: u8,
    pub configuration: Configuration,
    pub copies: bool,
}
