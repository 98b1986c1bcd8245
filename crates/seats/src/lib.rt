// Seats over the role graph: records and the calls they carry, asks, images, and the lines of a tape.
// Numbers are cast by `as`, of which the check refuses one that would lose bits, so `From` would say no more.

#![tactic(auto)]

pub mod answers;
pub mod deciding;
mod endian;
mod image;
pub mod loading;
pub mod reader;
pub mod records;
pub mod saving;
mod searches;
pub mod seating;
pub mod stepping;
pub mod text;
mod writing;

use graph::table::Row;
use graph::{Change, Privilege, PrivilegeSet, Refusal, Role, RoleGraph};

// A seat's number.
#[derive(Clone, Copy, PartialEq, Eq)]
pub struct Seat(pub u8);

// What a keeper holds: the role graph, and by seat number the set of the seat's roles.
#[derive(Clone, Copy)]
pub struct State {
    pub roles: u64,
    pub sets: [u64; 64],
    pub conflicts: [u64; 64],
    pub seats: [u64; 64],
}

// A state with its tables lent.
#[derive(Clone, Copy)]
pub struct LentState<'a> {
    pub graph: RoleGraph<'a>,
    pub conflicts: &'a [u64],
    pub seats: &'a [u64],
}

// A call that draws nothing anew, kinds 8 to 12, with the fields that its kind names.
#[derive(Clone, Copy)]
pub enum Request {
    Declare(Privilege, Privilege),
    Lift(Privilege, Privilege),
    Assign(Seat, Role),
    Unassign(Seat, Role),
    Ask(Seat, Privilege),
}

// A call: a change of the graph, or a request.
#[derive(Clone, Copy)]
pub enum Call {
    Change(Change),
    Request(Request),
}

// A call as a record carries it; a struct around one field, since document 01 names the form.
#[derive(Clone, Copy)]
pub struct Step {
    pub call: Call,
}

// What a call that is not refused gives: nothing more, or an ask's yes or no.
#[derive(Clone, Copy, PartialEq, Eq)]
pub enum Reply {
    Accepted,
    Answered(bool),
}

// Accepted, an ask's yes or no, or a refusal.
pub type Answer = Result<Reply, Refusal>;

// What a request that is not refused comes to: the conflicts of a privilege or the roles of a seat to be stored, or an ask's yes or no.
#[derive(Clone, Copy)]
pub enum Decided {
    Conflicts(Row<PrivilegeSet>),
    Roles(Row<u64>),
    Answered(bool),
}

// What a record comes to: its answer, and the state after it.
#[derive(Clone, Copy)]
pub struct Stepped {
    pub answer: Answer,
    pub state: State,
}

// What loading answers, and the state after it.
#[derive(Clone, Copy)]
pub struct Loaded {
    pub answer: Answer,
    pub state: State,
}

// How many roles, seats and conflicts an image has.
#[derive(Clone, Copy)]
pub struct Counts {
    pub roles: usize,
    pub seats: usize,
    pub conflicts: usize,
}

// What hinders feeding a part of a tape: a buffer that is too short, or that 64 bits do not hold the records so far.
#[derive(Clone, Copy)]
pub enum FeedError {
    TooShort(Refusal),
    Uncounted,
}
