// Sittings over the saved state: the pairs of roles that exclude each other, the active roles of each seat, the calls of kinds 1 to 15, and tapes.
// Numbers are cast by `as`, of which the check refuses one that would lose bits, so `From` would say no more.

#![tactic(auto)]

pub mod asking;
pub mod choosing;
mod clashing;
pub mod following;
mod lent;
pub mod loading;
mod reaching;
pub mod records;
mod running;
pub mod stepping;
pub mod tape;

use graph::table::Row;
use graph::{Change, Role, Verdict};
use seats::{Answer, FeedError, LentState, Request, Seat, State};

// What a keeper holds: the saved state; by role number the higher roles that it excludes; and by seat number the set of the seat's active roles.
#[derive(Clone, Copy)]
pub struct Sitting {
    pub state: State,
    pub pairs: [u64; 64],
    pub active: [u64; 64],
}

// A sitting with its tables lent.
#[derive(Clone, Copy)]
pub struct LentSitting<'a> {
    pub state: LentState<'a>,
    pub pairs: &'a [u64],
    pub active: &'a [u64],
}

// A call of kinds 13 to 15, with the fields that its kind names.
#[derive(Clone, Copy)]
pub enum Choice {
    Exclude(Role, Role),
    Activate(Seat, Role),
    Deactivate(Seat, Role),
}

// A call: a change of the graph, a request, or a choice.
#[derive(Clone, Copy)]
pub enum Call {
    Change(Change),
    Request(Request),
    Choice(Choice),
}

// A call as a record carries it; a struct around one field, since document 01 names the form.
#[derive(Clone, Copy)]
pub struct Step {
    pub call: Call,
}

// What a choice that is not refused comes to: the roles that a role excludes, or the active roles of a seat, to be stored.
#[derive(Clone, Copy)]
pub enum Chosen {
    Pairs(Row<u64>),
    Active(Row<u64>),
}

// What follows an accepted change: whether 35 refuses it, and the pairs and the active roles after it.
#[derive(Clone, Copy)]
pub struct Followed {
    pub verdict: Verdict,
    pub pairs: [u64; 64],
    pub active: [u64; 64],
}

// What a record comes to: its answer, and the sitting after it.
#[derive(Clone, Copy)]
pub struct Stepped {
    pub answer: Answer,
    pub sitting: Sitting,
}

// What loading answers, and the sitting after it.
#[derive(Clone, Copy)]
pub struct Loaded {
    pub answer: Answer,
    pub sitting: Sitting,
}

// What feeding a part of a tape gives: its answer, the records so far, and the sitting after them.
#[derive(Clone, Copy)]
pub struct Fed {
    pub answer: Result<usize, FeedError>,
    pub count: u64,
    pub sitting: Sitting,
}
