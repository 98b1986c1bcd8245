// Calls decided on a lent state: of kinds 8 to 12 what is stored or answered, of kinds 1 to 7 the roles and the sets after it.
ghost use Rattle.std.specs.Prelude.{◌≡◌, List, [], ◌++◌, ℕ};
ghost use Rattle.graph.specs.Editing.{remove_role};
ghost use Rattle.graph.specs.Refusing.{verdict, input_checks, state_checks};
ghost use Rattle.graph.specs.Reading.{drawn_from, read_verdict, read_change};
ghost use Rattle.seats.specs.Calls.{change, declare, lift, assign, unassign, seat_role_checks, seat_checks, perform};
ghost use Rattle.seats.specs.Working.{removal_checks, after_checks};
ghost use Rattle.seats.specs.Reading.{state_of, lent, read_request, read_decision, read_changed};

use crate::searches::seat_with_role;
use crate::{Decided, LentState, Request, Seat};
use graph::refusing::refuse;
use graph::table::{Row, entry};
use graph::{
    Change, Judged, Privilege, Reason, Redrawn, Refusal, Role, Verdict, declaring, refusing,
};
use sets::Set;

// What refuses a seat and a role by their numbers and the roles present.
pub fn judge_seat(roles: u64, a: Seat, b: Role) -> Verdict
    ensures { read_verdict result ≡ verdict (seat_role_checks (drawn_from roles []) a.0 b.0) }
{
    if 64 <= a.0 {
        return refuse(Reason::UnknownNumber, a.0);
    }
    refusing::judge_role(roles, b)
}

// What refuses the removal of a role before closing: 2, 3, 21, and 24 while a seat has it.
fn judge_held(roles: u64, seats: &[u64], a: Role) -> Verdict
    ensures { (S C : List ℕ) (b : ℕ) → read_verdict result ≡ verdict (removal_checks (state_of roles S C seats.now) (remove_role a.0 b)) }
{
    refusing::judge_role(roles, a)?;
    if let Some(seat) = seat_with_role(seats, a) {
        return refuse(Reason::RoleOfSeat, seat);
    }
    Ok(())
}

// What refuses kind 3 before closing; the other kinds pass, and are judged where they are tried.
fn judge_removal(roles: u64, seats: &[u64], edit: Change) -> Verdict
    ensures { (S C : List ℕ) → read_verdict result ≡ verdict (removal_checks (state_of roles S C seats.now) (read_change edit)) }
{
    match edit {
        Change::RemoveRole(a, _) => judge_held(roles, seats, a),
        _ => Ok(()),
    }
}

// A refusal as what a request comes to.
fn refused(reason: Reason, place: u8) -> Result<Decided, Refusal>
    ensures { result ≡ Err (record { reason = reason; place = place }) }
{
    Err(Refusal { reason, place })
}

impl<'a> LentState<'a> {
    // Kind 8.
    fn decide_declare(self, a: Privilege, b: Privilege) -> Result<Decided, Refusal>
        ensures { let s = lent self.entry in read_decision s result ≡ perform s (declare a.0 b.0) }
    {
        declaring::judge_declare(self.graph, self.conflicts, a, b)?;
        if let Some(seat) = self.offered_seat(a, b) {
            return refused(Reason::PairInSeat, seat);
        }
        Ok(Decided::Conflicts(declaring::with_conflict(self.conflicts, a, b)))
    }

    // Kind 9.
    fn decide_lift(self, a: Privilege, b: Privilege) -> Result<Decided, Refusal>
        ensures { let s = lent self.entry in read_decision s result ≡ perform s (lift a.0 b.0) }
    {
        declaring::judge_lift(self.conflicts, a, b)?;
        Ok(Decided::Conflicts(declaring::without_conflict(self.conflicts, a, b)))
    }

    // Kind 10.
    fn decide_assign(self, a: Seat, b: Role) -> Result<Decided, Refusal>
        ensures { let s = lent self.entry in read_decision s result ≡ perform s (assign a.0 b.0) }
    {
        judge_seat(self.graph.roles, a, b)?;
        let own = self.roles_of(a);
        if own.member(b.0 as usize) {
            return refused(Reason::AlreadySo, a.0);
        }
        if let Some(seat) = self.pair_seat_after(a, b) {
            return refused(Reason::PairInSeat, seat);
        }
        Ok(Decided::Roles(Row {
            at: a.0 as usize,
            set: own.union(u64::single(b.0 as usize)),
        }))
    }

    // Kind 11.
    fn decide_unassign(self, a: Seat, b: Role) -> Result<Decided, Refusal>
        ensures { let s = lent self.entry in read_decision s result ≡ perform s (unassign a.0 b.0) }
    {
        judge_seat(self.graph.roles, a, b)?;
        let own = self.roles_of(a);
        if !own.member(b.0 as usize) {
            return refused(Reason::NotSo, a.0);
        }
        Ok(Decided::Roles(Row {
            at: a.0 as usize,
            set: own.difference(u64::single(b.0 as usize)),
        }))
    }

    // What a request comes to.
    pub fn decide(self, request: Request) -> Result<Decided, Refusal>
        ensures { let s = lent self.entry in read_decision s result ≡ perform s (read_request request) }
    {
        match request {
            Request::Declare(a, b) => self.decide_declare(a, b),
            Request::Lift(a, b) => self.decide_lift(a, b),
            Request::Assign(a, b) => self.decide_assign(a, b),
            Request::Unassign(a, b) => self.decide_unassign(a, b),
            Request::Ask(a, b) => Ok(Decided::Answered(self.ask(a, b)?)),
        }
    }

    // The refusals of a change that come after closing, 26 to 30, by the state that it would leave.
    fn judge_after(self, edit: Change) -> Verdict
        ensures { read_verdict result ≡ verdict (after_checks (lent self.entry) (read_change edit)) }
    {
        refusing::judge_closed(self.graph, self.conflicts, edit)?;
        if let Some(seat) = self.pair_seat() {
            return refuse(Reason::PairInSeat, seat);
        }
        Ok(())
    }

    // The refusals of a change that come after closing, by the roles and the sets that it leaves.
    pub fn judge_redrawn(self, next: &Redrawn, edit: Change) -> Verdict
        ensures { let h = state_of next.now.roles next.now.sets self.entry.conflicts.now self.entry.seats.now in read_verdict result ≡ verdict (after_checks h (read_change edit)) }
    {
        LentState::of(next.roles, &next.sets, self.conflicts, self.seats).judge_after(edit)
    }

    // What refuses a change before the graph is drawn anew, if anything does; no table is made for it.
    pub fn judge_early(self, edit: Change) -> Verdict
        ensures { let s = lent self.entry in let c = read_change edit in read_verdict result ≡ verdict ((input_checks c ++ state_checks s.graph c) ++ seat_checks s c) }
    {
        let graph = self.graph;
        judge_removal(graph.roles, self.seats, edit)?;
        refusing::judge(graph, edit)
    }

    // What a change comes to: the roles and the sets after it, or a refusal.
    pub fn decide_change(self, edit: Change) -> Result<Redrawn, Refusal>
        ensures { let s = lent self.entry in read_changed s result ≡ perform s (change (read_change edit)) }
    {
        self.judge_early(edit)?;
        let next = Judged {
            graph: self.graph,
            change: edit,
        }
        .carry_out();
        self.judge_redrawn(&next, edit)?;
        Ok(next)
    }
}
