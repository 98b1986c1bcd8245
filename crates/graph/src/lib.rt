// The role graph with its conflicts: drawing, closing, the edits of kinds 1 to 9 and their refusals.
// Numbers are cast by `as`, of which the check refuses one that would lose bits, so `From` would say no more.

#![tactic(auto)]

ghost use Rattle.std.specs.Prelude.{◌≡◌};
ghost use Rattle.graph.specs.Reasons.{reason_number};
ghost use Rattle.graph.specs.Refusing.{passed, early};
ghost use Rattle.graph.specs.Reading.{drawn, read_change};

use sets::Set;

pub mod changing;
mod close;
pub mod declaring;
pub mod drawing;
mod editing;
pub mod refusing;
pub mod searching;
pub mod table;

// MinRole, MaxRole, both, and all role numbers, each as a set of roles.
const MIN_ROLE: u64 = 1;

const MAX_ROLE: u64 = 2;

const END_ROLES: u64 = 3;

const ALL_ROLES: u64 = 0xffff_ffff_ffff_ffff;

// A role's number.
#[derive(Clone, Copy, PartialEq, Eq)]
pub struct Role(pub u8);

// A privilege's number.
#[derive(Clone, Copy, PartialEq, Eq)]
pub struct Privilege(pub u8);

// A set of privileges. A set of roles is a word, and no function takes one for the other.
#[derive(Clone, Copy, PartialEq, Eq)]
pub struct PrivilegeSet {
    pub word: u64,
}

impl Set for PrivilegeSet {
    ghost use Rattle.graph.specs.Reading.{sets_in, word_each};

    type Member = Privilege;

    ghost read = { λ s. s.word };

    ghost number_of = { λ p. p.0 };

    ghost sets_in = { sets_in };

    ghost a_word_each = { word_each };

    fn word(self) -> u64 {
        self.word
    }

    fn of(word: u64) -> PrivilegeSet {
        PrivilegeSet { word }
    }

    fn number(p: Privilege) -> usize {
        p.0 as usize
    }

    fn member_of(n: u8) -> Privilege {
        Privilege(n)
    }
}

// Why a call or an image is refused.
#[derive(Clone, Copy, PartialEq, Eq)]
pub enum Reason {
    Malformed,
    UnknownNumber,
    EndRole,
    PairOfOne,
    EdgeToItself,
    NoImage,
    BadEntry,
    UnsoundImage,
    BufferTooShort,
    RolePresent,
    RoleAbsent,
    AlreadySo,
    NotSo,
    RoleOfSeat,
    Circle,
    StillBelow,
    EmptyRole,
    TwinRole,
    PairInRole,
    PairInSeat,
    NotDirect,
    NotReached,
    ExcludedTogether,
}

impl Reason {
    // The number that document 01 or 02 lists it under.
    pub fn number(self) -> u8
        ensures { result ≡ reason_number self }
    {
        match self {
            Reason::Malformed => 1,
            Reason::UnknownNumber => 2,
            Reason::EndRole => 3,
            Reason::PairOfOne => 4,
            Reason::EdgeToItself => 5,
            Reason::NoImage => 6,
            Reason::BadEntry => 7,
            Reason::UnsoundImage => 8,
            Reason::BufferTooShort => 9,
            Reason::RolePresent => 20,
            Reason::RoleAbsent => 21,
            Reason::AlreadySo => 22,
            Reason::NotSo => 23,
            Reason::RoleOfSeat => 24,
            Reason::Circle => 25,
            Reason::StillBelow => 26,
            Reason::EmptyRole => 27,
            Reason::TwinRole => 28,
            Reason::PairInRole => 29,
            Reason::PairInSeat => 30,
            Reason::NotDirect => 31,
            Reason::NotReached => 34,
            Reason::ExcludedTogether => 35,
        }
    }
}

// A refusal: why, and the place that goes with it.
#[derive(Clone, Copy, PartialEq, Eq)]
pub struct Refusal {
    pub reason: Reason,
    pub place: u8,
}

// Nothing refuses, or a refusal.
pub type Verdict = Result<(), Refusal>;

// What becomes of the direct privileges of a role that is removed: they are dropped, or go to its immediate seniors.
#[derive(Clone, Copy, PartialEq, Eq)]
pub enum Removal {
    Dropped,
    HandedUp,
}

// A change of the graph, kinds 1 to 7, with the fields that the kind names.
#[derive(Clone, Copy)]
pub enum Change {
    // role, direct set, juniors, seniors
    AddByPlace(Role, PrivilegeSet, u64, u64),
    // role, effective set
    AddByPrivileges(Role, PrivilegeSet),
    RemoveRole(Role, Removal),
    Grant(Role, Privilege),
    Withdraw(Role, Privilege),
    // junior, senior
    AddEdge(Role, Role),
    RemoveEdge(Role, Role),
}

// The roles present and a lent table of their sets, from which the order, the edges and the direct privileges follow.
#[derive(Clone, Copy)]
pub struct RoleGraph<'a> {
    pub roles: u64,
    pub sets: &'a [u64],
}

// A change of a lent graph that nothing refuses before closing.
#[derive(Clone, Copy)]
pub struct Judged<'a> {
    pub graph: RoleGraph<'a>,
    pub change: Change,
    ghost passes: { early (drawn graph) (read_change change) ≡ passed },
}

// The roles and the sets after a change.
#[derive(Clone, Copy)]
pub struct Redrawn {
    pub roles: u64,
    pub sets: [u64; 64],
}
