// The step: what a record of any bytes makes of a sitting. A call is decided on the sitting as it is lent, and what changes is stored.
ghost use Rattle.std.specs.Prelude.{◌≡◌, [], ◌∷◌, ◌++◌};
ghost use Rattle.graph.specs.Tables.{at, table};
ghost use Rattle.graph.specs.Graph.{role_count};
ghost use Rattle.graph.specs.Refusing.{passed, verdict, input_checks, state_checks};
ghost use Rattle.graph.specs.Reading.{read_verdict, read_change};
ghost use Rattle.seats.specs.Calls.{change, accepted, seat_checks};
ghost use Rattle.seats.specs.Calls as base;
ghost use Rattle.seats.specs.Reading as seats;
ghost use Rattle.seats.specs.Reading.{state_of, read_state, read_answer, read_request};
ghost use Rattle.sittings.specs.Sittings.{still_active};
ghost use Rattle.sittings.specs.Calls.{call, pair_together, pairs_changed, active_after, perform};
ghost use Rattle.sittings.specs.Records.{step};
ghost use Rattle.sittings.specs.Promises.{StepPromise};
ghost use Rattle.sittings.specs.Reading.{sitting_of, lent, read_sitting, read_choice};

use crate::{Call, Choice, Chosen, Followed, LentSitting, Sitting, Stepped, records};
use graph::table::store;
use graph::{Change, Judged, Reason, Redrawn, Refusal};
use seats::{Answer, LentState, Reply, Request};

impl<'a> LentSitting<'a> {
    // The sitting of this state and these tables.
    pub fn of(state: LentState<'a>, pairs: &'a [u64], active: &'a [u64]) -> LentSitting<'a>
        ensures { lent result ≡ sitting_of (seats.lent state.entry) pairs.entry.now active.entry.now }
    {
        LentSitting {
            state,
            pairs,
            active,
        }
    }
}

impl Sitting {
    // The sitting with its tables lent.
    pub fn lent(&self) -> LentSitting
        ensures { lent result ≡ read_sitting self.now }
    {
        LentSitting::of(self.state.lent(), &self.pairs, &self.active)
    }

    // What follows an accepted change that leaves these roles and sets.
    fn follow(&self, next: &Redrawn, edit: Change) -> Followed
        ensures { let z = self.now in let h = state_of next.now.roles next.now.sets z.state.conflicts z.state.seats in let P = pairs_changed (read_change edit) z.pairs in let A = still_active h z.active in (result.pairs ≡ table role_count (at P)) × (result.active ≡ A) × (read_verdict result.verdict ≡ verdict (pair_together (sitting_of h P A) ∷ [])) }
    {
        let state = LentState::of(
            next.roles,
            &next.sets,
            &self.state.conflicts,
            &self.state.seats,
        );
        LentSitting::of(state, &self.pairs, &self.active).follow(edit)
    }

    // A change that the state accepts and that leaves these roles and sets: it is stored with what follows it, unless 35 refuses it.
    fn put_change(&mut self, next: &Redrawn, edit: Change) -> Answer
        requires { let s = self.old.state in (accepted, state_of next.now.roles next.now.sets s.conflicts s.seats) ≡ base.perform (read_state s) (change (read_change edit)) }
        ensures { (read_answer result, read_sitting self.new) ≡ perform (read_sitting self.old) (call (change (read_change edit))) }
    {
        if self.lent().is_idle() {
            self.state.roles = next.roles;
            self.state.sets = next.sets;
            return Ok(Reply::Accepted);
        }
        let followed = self.follow(next, edit);
        followed.verdict?;
        let pairs = followed.pairs;
        let active = followed.active;
        self.state.roles = next.roles;
        self.state.sets = next.sets;
        self.pairs = pairs;
        self.active = active;
        Ok(Reply::Accepted)
    }

    // A change that nothing refuses early, carried out and judged again: where it is accepted, it is put.
    fn redraw(&mut self, edit: Change) -> Answer
        requires { let s = read_state self.old.state in let c = read_change edit in passed ≡ verdict ((input_checks c ++ state_checks s.graph c) ++ seat_checks s c) }
        ensures { (read_answer result, read_sitting self.new) ≡ perform (read_sitting self.old) (call (change (read_change edit))) }
    {
        let graph = self.state.lent().graph;
        let next = Judged {
            graph,
            change: edit,
        }
        .carry_out();
        self.state.lent().judge_redrawn(&next, edit)?;
        self.put_change(&next, edit)
    }

    // A change. What is refused early is refused before any table is made.
    fn take_change(&mut self, edit: Change) -> Answer
        ensures { (read_answer result, read_sitting self.new) ≡ perform (read_sitting self.old) (call (change (read_change edit))) }
    {
        self.state.lent().judge_early(edit)?;
        self.redraw(edit)
    }

    // Kind 11, accepted: what no assigned role reaches any longer is switched off; no other request switches anything off.
    fn switch_off(&mut self, request: Request)
        ensures { read_sitting self.new ≡ record (read_sitting self.old) { active = active_after (read_request request) (read_state self.old.state) self.old.active } }
    {
        if let Request::Unassign(seat, _) = request {
            let row = self.lent().unassigned(seat);
            store(&mut self.active, row.at, row.set);
        }
    }

    // A request: what it stores is stored, and kind 11 switches off.
    fn take_request(&mut self, request: Request) -> Answer
        ensures { (read_answer result, read_sitting self.new) ≡ perform (read_sitting self.old) (call (read_request request)) }
    {
        let reply = self.state.take_request(request)?;
        if let Reply::Accepted = reply {
            self.switch_off(request);
        }
        Ok(reply)
    }

    // A choice: what it stores is stored.
    fn take_choice(&mut self, choice: Choice) -> Answer
        ensures { (read_answer result, read_sitting self.new) ≡ perform (read_sitting self.old) (read_choice choice) }
    {
        match self.lent().decide(choice)? {
            Chosen::Pairs(row) => store(&mut self.pairs, row.at, row.set),
            Chosen::Active(row) => store(&mut self.active, row.at, row.set),
        }
        Ok(Reply::Accepted)
    }

    // A record: refusal 1 before any field is looked at, or the call.
    pub fn take(&mut self, bytes: &[u8]) -> Answer
        ensures { StepPromise self.old bytes.now result self.new }
    {
        let Some(step) = records::decode(bytes) else {
            return Err(Refusal {
                reason: Reason::Malformed,
                place: 0,
            });
        };
        match step.call {
            Call::Change(edit) => self.take_change(edit),
            Call::Request(request) => self.take_request(request),
            Call::Choice(choice) => self.take_choice(choice),
        }
    }
}

// The step: any sitting, any bytes, to an answer and the next sitting.
pub fn step(sitting: Sitting, bytes: &[u8]) -> Stepped
    ensures { StepPromise sitting bytes.now result.answer result.sitting }
{
    let mut sitting = sitting;
    let answer = sitting.take(bytes);
    Stepped { answer, sitting }
}
