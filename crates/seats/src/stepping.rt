// The step: what a record of any bytes makes of a state. A call is decided on the state as it is lent, and what changes is stored.
ghost use Rattle.std.specs.Prelude.{◌≡◌, ◌++◌};
ghost use Rattle.graph.specs.Refusing.{passed, verdict, input_checks, state_checks};
ghost use Rattle.graph.specs.Reading.{read_change};
ghost use Rattle.seats.specs.Calls.{change, seat_checks, perform};
ghost use Rattle.seats.specs.Records.{step};
ghost use Rattle.seats.specs.Promises.{StepPromise};
ghost use Rattle.seats.specs.Reading.{state_of, lent, read_state, read_answer, read_request};

use crate::{Answer, Call, Decided, LentState, Reply, Request, State, Stepped, records};
use graph::table::store;
use graph::{Change, Judged, Reason, Refusal, RoleGraph};

impl<'a> LentState<'a> {
    // The state of these roles and tables.
    pub fn of(roles: u64, sets: &'a [u64], conflicts: &'a [u64], seats: &'a [u64]) -> LentState<'a>
        ensures { lent result ≡ state_of roles sets.entry.now conflicts.entry.now seats.entry.now }
    {
        let graph = RoleGraph { roles, sets };
        LentState {
            graph,
            conflicts,
            seats,
        }
    }
}

impl State {
    // The state with its tables lent.
    pub fn lent(&self) -> LentState
        ensures { lent result ≡ read_state self.now }
    {
        LentState::of(self.roles, &self.sets, &self.conflicts, &self.seats)
    }

    // A change that nothing refuses early, carried out and judged again: the roles and the sets become those after it, where it is accepted.
    fn redraw(&mut self, edit: Change) -> Answer
        requires { let s = read_state self.old in let c = read_change edit in passed ≡ verdict ((input_checks c ++ state_checks s.graph c) ++ seat_checks s c) }
        ensures { (read_answer result, read_state self.new) ≡ perform (read_state self.old) (change (read_change edit)) }
    {
        let graph = self.lent().graph;
        let next = Judged {
            graph,
            change: edit,
        }
        .carry_out();
        self.lent().judge_redrawn(&next, edit)?;
        let sets = next.sets;
        self.roles = next.roles;
        self.sets = sets;
        Ok(Reply::Accepted)
    }

    // A change of the graph. What is refused early is refused before any table is made.
    pub fn take_change(&mut self, edit: Change) -> Answer
        ensures { (read_answer result, read_state self.new) ≡ perform (read_state self.old) (change (read_change edit)) }
    {
        self.lent().judge_early(edit)?;
        self.redraw(edit)
    }

    // A request: what it stores is stored.
    pub fn take_request(&mut self, request: Request) -> Answer
        ensures { (read_answer result, read_state self.new) ≡ perform (read_state self.old) (read_request request) }
    {
        match self.lent().decide(request)? {
            Decided::Conflicts(row) => store(&mut self.conflicts, row.at, row.set),
            Decided::Roles(row) => store(&mut self.seats, row.at, row.set),
            Decided::Answered(held) => return Ok(Reply::Answered(held)),
        }
        Ok(Reply::Accepted)
    }

    // A record: refusal 1 before any field is looked at, or the call.
    pub fn take(&mut self, bytes: &[u8]) -> Answer
        ensures { (read_answer result, read_state self.new) ≡ step (read_state self.old) bytes.now }
    {
        let Some(step) = records::decode(bytes) else {
            return Err(Refusal {
                reason: Reason::Malformed,
                place: 0,
            });
        };
        match step.call {
            Call::Change(edit) => self.take_change(edit),
            Call::Request(request) => self.take_request(request),
        }
    }
}

// The step: any state, any bytes, to an answer and the next state.
pub fn step(state: State, bytes: &[u8]) -> Stepped
    ensures { StepPromise state bytes.now result.answer result.state }
{
    let mut state = state;
    let answer = state.take(bytes);
    Stepped { answer, state }
}
