// What follows an accepted call of kinds 1 to 12: what is switched off, the pairs that go with a removed role, and refusal 35.
ghost use Rattle.std.specs.Prelude.{◌≡◌, Bool, ◌&&◌, ℕ, [], ◌∷◌};
ghost use Rattle.graph.specs.Tables.{at, table};
ghost use Rattle.graph.specs.Graph.{role_count};
ghost use Rattle.graph.specs.Refusing.{refuse_lowest, verdict};
ghost use Rattle.graph.specs.Searching.{lowest_found};
ghost use Rattle.graph.specs.Reading.{read_change, read_found, read_verdict};
ghost use Rattle.seats.specs.Records.{all_empty};
ghost use Rattle.seats.specs.Reading.{lent};
ghost use Rattle.sittings.specs.Sittings.{still_covered, still_active};
ghost use Rattle.sittings.specs.Calls.{without_role, pairs_changed, pair_together};
ghost use Rattle.sittings.specs.Reading.{sitting_of};
ghost use Rattle.sittings.specs.Working.{still_by};

use crate::clashing::{Offer, all_empty, clash_by};
use crate::reaching::{reached, still_reached};
use crate::{Followed, LentSitting};
use graph::refusing::refuse;
use graph::table::{Row, entry, whole};
use graph::{Change, Reason, Role, Verdict};
use seats::Seat;
use sets::Set;
use std::array;

// The active roles of every seat that its assigned roles reach, by a table of the roles below each.
fn still_active<'a>(lower: &'a [u64; 64], seats: &'a [u64], active: &'a [u64]) -> [u64; 64]
    ensures { result ≡ still_by lower.now seats.now active.now }
{
    array::from_fn(|i| {
        let own: u64 = entry(active, i);
        own.intersection(reached(lower, entry(seats, i)))
    })
}

// The pairs without those of a role.
fn without_role(pairs: &[u64], a: Role) -> [u64; 64]
    ensures { result ≡ without_role a.0 pairs.now }
{
    let out = a.0 as usize;
    array::from_fn(|p| {
        entry::<u64>(pairs, p)
            .difference(u64::single(out))
            .when(p != out)
    })
}

// The pairs that a change leaves.
fn pairs_left(pairs: &[u64], edit: Change) -> [u64; 64]
    ensures { result ≡ table role_count (at (pairs_changed (read_change edit) pairs.now)) }
{
    match edit {
        Change::RemoveRole(a, _) => without_role(pairs, a),
        _ => whole::<u64>(pairs),
    }
}

// Refusal 35 where a pair is found.
fn judge_found(found: Option<u8>) -> Verdict
    ensures { (f : ℕ → Bool) → read_found found ≡ lowest_found role_count f → read_verdict result ≡ verdict (refuse_lowest 35 role_count f ∷ []) }
{
    match found {
        Some(place) => refuse(Reason::ExcludedTogether, place),
        None => Ok(()),
    }
}

impl<'a> LentSitting<'a> {
    // Whether there is no pair and nothing active, so that nothing follows an accepted change.
    pub fn is_idle(self) -> bool
        ensures { result ≡ (all_empty self.entry.pairs.now && all_empty self.entry.active.now) }
    {
        all_empty(self.pairs) && all_empty(self.active)
    }

    // The active roles of a seat, after kind 11: those that an assigned role still reaches.
    pub fn unassigned(self, seat: Seat) -> Row<u64>
        ensures { let z = self.entry in (result.at ≡ seat.0) × (result.set ≡ still_covered (lent z.state) seat.0 (at z.active.now seat.0)) }
    {
        let i = seat.0 as usize;
        let held = self.state.roles_of(seat);
        let own: u64 = entry(self.active, i);
        Row {
            at: i,
            set: still_reached(self.state.graph, held, own),
        }
    }

    // What follows an accepted change that leaves this state: the pairs and the active roles after it, and whether 35 refuses it.
    // The verdict stands beside the tables, since these are told of a refused change too.
    pub fn follow(self, edit: Change) -> Followed
        ensures { let z = self.entry in let h = lent z.state in let P = pairs_changed (read_change edit) z.pairs.now in let A = still_active h z.active.now in (result.pairs ≡ table role_count (at P)) × (result.active ≡ A) × (read_verdict result.verdict ≡ verdict (pair_together (sitting_of h P A) ∷ [])) }
    {
        let lower = self.state.graph.lowers();
        let pairs = pairs_left(self.pairs, edit);
        let active = still_active(&lower, self.state.seats, self.active);
        let pair = clash_by(&lower, &pairs, &active, Offer::none());
        Followed {
            verdict: judge_found(pair),
            pairs,
            active,
        }
    }
}
