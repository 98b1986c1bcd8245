// The search behind refusal 35: the lowest role that is the lower of an excluding pair that is together.
ghost use Rattle.std.specs.Prelude.{◌≡◌, ℕ};
ghost use Rattle.sets.specs.Sets.{member};
ghost use Rattle.graph.specs.Tables.{at};
ghost use Rattle.graph.specs.Graph.{role_count};
ghost use Rattle.graph.specs.Searching.{lowest_found};
ghost use Rattle.graph.specs.Reading.{read_found};
ghost use Rattle.seats.specs.Records.{all_empty};
ghost use Rattle.sittings.specs.Sittings.{clashing};
ghost use Rattle.sittings.specs.Reading.{lent, sitting_of};
ghost use Rattle.sittings.specs.Working.{joined_at, shared_by, meets_by, clash_by};

use crate::LentSitting;
use crate::reaching::all_reached;
use graph::table::{Row, entry};
use sets::Set;

// What a call offers: higher roles to be excluded by a role, and roles to be made active at a seat.
#[derive(Clone, Copy)]
pub(crate) struct Offer {
    pub pair: Row<u64>,
    pub active: Row<u64>,
}

impl Offer {
    // Nothing is offered.
    pub(crate) fn none() -> Offer
        ensures { result ≡ record { pair = record { at = 0; set = 0 }; active = record { at = 0; set = 0 } } }
    {
        let none = Row { at: 0, set: 0 };
        Offer {
            pair: none,
            active: none,
        }
    }

    // Higher roles to be excluded by a role.
    pub(crate) fn pair(pair: Row<u64>) -> Offer
        ensures { result ≡ record { pair = pair; active = record { at = 0; set = 0 } } }
    {
        Offer {
            pair,
            active: Row { at: 0, set: 0 },
        }
    }

    // Roles to be made active at a seat.
    pub(crate) fn active(active: Row<u64>) -> Offer
        ensures { result ≡ record { pair = record { at = 0; set = 0 }; active = active } }
    {
        Offer {
            pair: Row { at: 0, set: 0 },
            active,
        }
    }
}

// By number, the roles below each role, and the roles that each seat uses.
#[derive(Clone, Copy)]
struct Use<'a> {
    lower: &'a [u64; 64],
    used: &'a [u64; 64],
}

impl<'a> Use<'a> {
    // The roles that some seat uses together with p.
    fn shared(self, p: usize) -> u64
        ensures { (q : ℕ) → member q result ≡ shared_by self.entry.used.now p q }
    {
        let used = self.used;
        used.iter()
            .fold(0u64, |found, own| found.union(own.when(own.member(p))))
    }

    // Whether some role of the row is together with p: one of the two is below the other, or some seat uses both.
    // What is below p and what seats use with it is gathered once for the row, which takes less time than for each of its roles.
    fn meets(self, p: usize, row: u64) -> bool
        ensures { result ≡ meets_by self.entry.lower.now self.entry.used.now p row }
    {
        if row == 0 {
            return false;
        }
        let lower = self.lower;
        let beside = entry::<u64>(lower, p).union(self.shared(p));
        row.members().any(|q| {
            let i = q as usize;
            entry::<u64>(lower, i).member(p) | beside.member(i)
        })
    }

    // The lowest role whose row has a role together with it, where these roles are added to a row.
    // The rows that the table has are gone through, so that its length is not tested at each.
    fn lowest_clash(self, pairs: &[u64], added: Row<u64>) -> Option<u8>
        ensures { read_found result ≡ lowest_found role_count (λ p. meets_by self.entry.lower.now self.entry.used.now p (at (joined_at pairs.now added.at added.set) p)) }
    {
        let rows = &pairs[..pairs.len().min(64)];
        for (p, row) in rows.iter().enumerate() {
            if self.meets(p, row.union(added.set.when(p == added.at))) {
                return Some(p as u8);
            }
        }
        None
    }
}

// Whether every entry is empty, as their union is: it takes less time to join all than to stop at one.
pub(crate) fn all_empty(table: &[u64]) -> bool
    ensures { result ≡ all_empty table.now }
{
    table
        .iter()
        .fold(0u64, |found, own| found.union(*own))
        .is_empty()
}

// The lower role of the lowest excluding pair that is together, by a table of the roles below each, with what is offered.
// Never inlined, so that its tables take stack in no other call.
#[inline(never)]
pub(crate) fn clash_by(lower: &[u64; 64], pairs: &[u64], active: &[u64], offer: Offer) -> Option<u8>
    ensures { read_found result ≡ clash_by lower.now (joined_at pairs.now offer.pair.at offer.pair.set) (joined_at active.now offer.active.at offer.active.set) }
{
    let used = all_reached(lower, active, offer.active);
    let lent = Use { lower, used: &used };
    lent.lowest_clash(pairs, offer.pair)
}

impl<'a> LentSitting<'a> {
    // The lower role of the lowest excluding pair that is together, with what is offered.
    pub(crate) fn clash(self, offer: Offer) -> Option<u8>
        ensures { let z = self.entry in read_found result ≡ lowest_found role_count (clashing (sitting_of (lent z).state (joined_at z.pairs.now offer.pair.at offer.pair.set) (joined_at z.active.now offer.active.at offer.active.set))) }
    {
        let lower = self.state.graph.lowers();
        clash_by(&lower, self.pairs, self.active, offer)
    }

    // The same, where nothing is worked out without a pair.
    pub(crate) fn clash_if_paired(self, offer: Offer) -> Option<u8>
        ensures { let z = self.entry in read_found result ≡ lowest_found role_count (clashing (sitting_of (lent z).state (joined_at z.pairs.now offer.pair.at offer.pair.set) (joined_at z.active.now offer.active.at offer.active.set))) }
    {
        if all_empty(self.pairs) & (offer.pair.set == 0) {
            return None;
        }
        self.clash(offer)
    }
}
