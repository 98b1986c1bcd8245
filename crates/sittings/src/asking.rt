// The question: may a seat use a privilege by its active roles?
ghost use Rattle.std.specs.Prelude.{◌≡◌, ◌&&◌};
ghost use Rattle.sets.specs.Counting.{any};
ghost use Rattle.sets.specs.Sets.{member};
ghost use Rattle.graph.specs.Graph.{role_count, effective};
ghost use Rattle.graph.specs.Reading.{drawn};
ghost use Rattle.seats.specs.Asks.{is_yes};
ghost use Rattle.sittings.specs.Sittings.{reaches};
ghost use Rattle.sittings.specs.Calls.{ask_active};
ghost use Rattle.sittings.specs.Promises.{AskPromise};
ghost use Rattle.sittings.specs.Reading.{lent};

use crate::LentSitting;
use graph::table::{entry, union_at};
use graph::{Privilege, PrivilegeSet, Reason, Refusal, RoleGraph, drawing};
use seats::Seat;
use sets::Set;

// Whether the roles reach one that has the privilege. What an ordinary role below another has, that one has too; so MinRole is looked at beside them where one of them lies above it, and the ordinary roles where MaxRole is among them.
fn reach_privilege(graph: RoleGraph, held: u64, privilege: Privilege) -> bool
    ensures { let g = drawn graph.entry in result ≡ any role_count (λ t. reaches g held t && member privilege.0 (effective g t)) }
{
    let above = held.meets(drawing::senior_roles(graph.roles));
    let least = 1u64.when(above);
    let ordinary = drawing::ordinary_roles(graph.roles).when(held.member(1));
    let enough = held.union(least.union(ordinary));
    union_at::<PrivilegeSet>(graph.sets, enough).member(privilege)
}

impl<'a> LentSitting<'a> {
    // The question.
    pub fn ask_active(self, seat: Seat, privilege: Privilege) -> Result<bool, Refusal>
        ensures { AskPromise (lent self.entry) seat.0 privilege.0 result }
    {
        if 64 <= seat.0 {
            return Err(Refusal {
                reason: Reason::UnknownNumber,
                place: seat.0,
            });
        }
        if 64 <= privilege.0 {
            return Err(Refusal {
                reason: Reason::UnknownNumber,
                place: privilege.0,
            });
        }
        let held = entry(self.active, seat.0 as usize);
        Ok(reach_privilege(self.state.graph, held, privilege))
    }

    // The question as a test: a refusal is no yes.
    pub fn may_active(self, seat: Seat, privilege: Privilege) -> bool
        ensures { result ≡ is_yes (ask_active (lent self.entry) seat.0 privilege.0) }
    {
        self.ask_active(seat, privilege).unwrap_or(false)
    }
}
