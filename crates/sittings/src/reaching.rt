// What roles reach: themselves and the roles below them.
ghost use Rattle.std.specs.Prelude.{◌≡◌, ◌&&◌};
ghost use Rattle.sets.specs.Sets.{member, collect};
ghost use Rattle.graph.specs.Tables.{at, table};
ghost use Rattle.graph.specs.Graph.{role_count};
ghost use Rattle.graph.specs.Reading.{drawn};
ghost use Rattle.seats.specs.Seats.{seat_count};
ghost use Rattle.sittings.specs.Sittings.{reaches};
ghost use Rattle.sittings.specs.Working.{reached_by, joined_at};

use graph::table::{Row, entry, union_at};
use graph::{Role, RoleGraph};
use sets::Set;

// Whether one of the roles is t, or t lies below it.
pub(crate) fn is_reached(graph: RoleGraph, held: u64, t: Role) -> bool
    ensures { result ≡ reaches (drawn graph.entry) held t.0 }
{
    held.members()
        .any(|r| (t.0 == r) | graph.is_below(t, Role(r)))
}

// Those of the roles in `own` that the roles in `held` reach.
pub(crate) fn still_reached(graph: RoleGraph, held: u64, own: u64) -> u64
    ensures { result ≡ collect role_count (λ r. member r own && reaches (drawn graph.entry) held r) }
{
    own.members().fold(0u64, |found, r| {
        let on = is_reached(graph, held, Role(r));
        found.union(u64::single(r as usize).when(on))
    })
}

// The roles that these reach, by a table of the roles below each.
pub(crate) fn reached(lower: &[u64; 64], held: u64) -> u64
    ensures { result ≡ reached_by lower.now held }
{
    held.union(union_at(lower, held))
}

// By number, the roles that a table's entries reach, where these roles are added to an entry.
// The rows that the table has are gone through, so that its length is not tested at each.
pub(crate) fn all_reached<'a>(lower: &'a [u64; 64], held: &'a [u64], added: Row<u64>) -> [u64; 64]
    ensures { result ≡ table seat_count (λ i. reached_by lower.now (at (joined_at held.now added.at added.set) i)) }
{
    let rows = &held[..held.len().min(64)];
    let mut all = [0u64; 64];
    for (i, own) in rows.iter().enumerate() {
        all[i] = reached(lower, own.union(added.set.when(i == added.at)));
    }
    all
}
