// The searches behind refusals 24 and 30: each finds the lowest such seat, if there is one.
ghost use Rattle.std.specs.Prelude.{◌≡◌, eqb};
ghost use Rattle.sets.specs.Sets.{member, union, when, gather};
ghost use Rattle.graph.specs.Tables.{at, put};
ghost use Rattle.graph.specs.Graph.{role_count};
ghost use Rattle.graph.specs.Conflicts.{holds_pair};
ghost use Rattle.graph.specs.Searching.{lowest_found};
ghost use Rattle.graph.specs.Reading.{sets_in, read_found};
ghost use Rattle.seats.specs.Seats.{seat_count, pair_seat, offered_seat};
ghost use Rattle.seats.specs.Reading.{state_of, lent};

use crate::{LentState, Seat};
use graph::searching::{holds_both, holds_pair};
use graph::table::{entry, union_at};
use graph::{Privilege, Role};
use sets::Set;

// The lowest seat that has the role.
pub(crate) fn seat_with_role(seats: &[u64], role: Role) -> Option<u8>
    ensures { read_found result ≡ lowest_found seat_count (λ i. member role.0 (at seats.now i)) }
{
    (0..64u8).find(|i| entry::<u64>(seats, *i as usize).member(role.0 as usize))
}

impl<'a> LentState<'a> {
    // Whether seat i holds a declared pair where these roles are added to seat a; without roles it holds none.
    fn holds_pair_with(self, i: u8, a: usize, added: u64) -> bool
        ensures { result ≡ holds_pair (sets_in self.entry.conflicts.now) (gather role_count (λ r. member r (union (at self.entry.seats.now i) (when (eqb i a) added))) (at (sets_in self.entry.graph.sets.now))) }
    {
        let n = i as usize;
        let roles = entry::<u64>(self.seats, n).union(added.when(n == a));
        roles != 0 && holds_pair(self.conflicts, union_at(self.graph.sets, roles))
    }

    // The lowest seat that holds a declared pair where these roles are added to seat a.
    fn pair_seat_with(self, a: usize, added: u64) -> Option<u8>
        ensures { read_found result ≡ lowest_found seat_count (λ i. holds_pair (sets_in self.entry.conflicts.now) (gather role_count (λ r. member r (union (at self.entry.seats.now i) (when (eqb i a) added))) (at (sets_in self.entry.graph.sets.now)))) }
    {
        (0..64u8).find(|i| self.holds_pair_with(*i, a, added))
    }

    // The lowest seat that holds a declared pair.
    pub(crate) fn pair_seat(self) -> Option<u8>
        ensures { read_found result ≡ lowest_found seat_count (pair_seat (lent self.entry)) }
    {
        self.pair_seat_with(0, 0)
    }

    // The lowest seat that holds a declared pair where seat a has role b too.
    pub(crate) fn pair_seat_after(self, a: Seat, b: Role) -> Option<u8>
        ensures { let s = self.entry in read_found result ≡ lowest_found seat_count (pair_seat (state_of s.graph.roles s.graph.sets.now s.conflicts.now (put s.seats.now a.0 b.0))) }
    {
        let i = a.0 as usize;
        let known = i < self.seats.len();
        self.pair_seat_with(i, u64::single(b.0 as usize).when(known))
    }

    // Whether seat i holds both privileges of the pair offered; without roles it holds none.
    fn holds_offered(self, i: u8, a: Privilege, b: Privilege) -> bool
        ensures { result ≡ offered_seat (lent self.entry) a.0 b.0 i }
    {
        let own: u64 = entry(self.seats, i as usize);
        own != 0 && holds_both(a, b, union_at(self.graph.sets, own))
    }

    // The lowest seat that holds both privileges of the pair offered.
    pub(crate) fn offered_seat(self, a: Privilege, b: Privilege) -> Option<u8>
        ensures { read_found result ≡ lowest_found seat_count (offered_seat (lent self.entry) a.0 b.0) }
    {
        (0..64u8).find(|i| self.holds_offered(*i, a, b))
    }
}
