// Kinds 13 to 15 decided on a lent sitting: what is stored, or a refusal.
ghost use Rattle.std.specs.Prelude.{◌≡◌};
ghost use Rattle.graph.specs.Conflicts.{declared};
ghost use Rattle.sittings.specs.Calls.{exclude, activate, deactivate, perform};
ghost use Rattle.sittings.specs.Reading.{lent, read_choice, read_chosen};

use crate::clashing::Offer;
use crate::reaching::is_reached;
use crate::{Choice, Chosen, LentSitting};
use graph::table::{Row, entry};
use graph::{Reason, Refusal, Role, declaring, refusing};
use seats::Seat;
use seats::deciding::judge_seat;
use sets::Set;

// Whether two roles exclude each other.
pub fn is_excluded(pairs: &[u64], a: Role, b: Role) -> bool
    ensures { result ≡ declared pairs.now a.0 b.0 }
{
    declaring::has_pair::<u64>(pairs, a.0, b.0)
}

// A refusal as what a choice comes to.
fn refused(reason: Reason, place: u8) -> Result<Chosen, Refusal>
    ensures { result ≡ Err (record { reason = reason; place = place }) }
{
    Err(Refusal { reason, place })
}

impl<'a> LentSitting<'a> {
    // Kind 13.
    fn decide_exclude(self, a: Role, b: Role) -> Result<Chosen, Refusal>
        ensures { let z = lent self.entry in read_chosen z result ≡ perform z (exclude a.0 b.0) }
    {
        refusing::judge_two_roles(self.state.graph.roles, a, b)?;
        if is_excluded(self.pairs, a, b) {
            return refused(Reason::AlreadySo, a.0);
        }
        let lower = a.0.min(b.0) as usize;
        let higher = u64::single(a.0.max(b.0) as usize);
        let pair = Row {
            at: lower,
            set: higher,
        };
        if let Some(place) = self.clash(Offer::pair(pair)) {
            return refused(Reason::ExcludedTogether, place);
        }
        Ok(Chosen::Pairs(Row {
            at: lower,
            set: entry::<u64>(self.pairs, lower).union(higher),
        }))
    }

    // Kind 14.
    fn decide_activate(self, a: Seat, b: Role) -> Result<Chosen, Refusal>
        ensures { let z = lent self.entry in read_chosen z result ≡ perform z (activate a.0 b.0) }
    {
        judge_seat(self.state.graph.roles, a, b)?;
        let seat = a.0 as usize;
        let own: u64 = entry(self.active, seat);
        if own.member(b.0 as usize) {
            return refused(Reason::AlreadySo, a.0);
        }
        if !is_reached(self.state.graph, self.state.roles_of(a), b) {
            return refused(Reason::NotReached, a.0);
        }
        let role = u64::single(b.0 as usize);
        let put = Row {
            at: seat,
            set: role,
        };
        if let Some(place) = self.clash_if_paired(Offer::active(put)) {
            return refused(Reason::ExcludedTogether, place);
        }
        Ok(Chosen::Active(Row {
            at: seat,
            set: own.union(role),
        }))
    }

    // Kind 15.
    fn decide_deactivate(self, a: Seat, b: Role) -> Result<Chosen, Refusal>
        ensures { let z = lent self.entry in read_chosen z result ≡ perform z (deactivate a.0 b.0) }
    {
        judge_seat(self.state.graph.roles, a, b)?;
        let seat = a.0 as usize;
        let own: u64 = entry(self.active, seat);
        if !own.member(b.0 as usize) {
            return refused(Reason::NotSo, a.0);
        }
        Ok(Chosen::Active(Row {
            at: seat,
            set: own.difference(u64::single(b.0 as usize)),
        }))
    }

    // What a choice comes to.
    pub fn decide(self, choice: Choice) -> Result<Chosen, Refusal>
        ensures { let z = lent self.entry in read_chosen z result ≡ perform z (read_choice choice) }
    {
        match choice {
            Choice::Exclude(a, b) => self.decide_exclude(a, b),
            Choice::Activate(a, b) => self.decide_activate(a, b),
            Choice::Deactivate(a, b) => self.decide_deactivate(a, b),
        }
    }
}
