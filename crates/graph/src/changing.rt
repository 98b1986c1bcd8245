// Changes of the graph, kinds 1 to 7: judged, then the graph drawn, edited in tables and closed. Refusals 24 and 26 to 30 are not here.
ghost use Rattle.std.specs.Prelude.{◌≡◌};
ghost use Rattle.graph.specs.Drawing.{Drawing};
ghost use Rattle.graph.specs.Closing.{close};
ghost use Rattle.graph.specs.Editing.{changed};
ghost use Rattle.graph.specs.Refusing.{early, keep};
ghost use Rattle.graph.specs.Reading.{sets_in, drawn, drawn_from, read_attempt, read_change};
ghost use Rattle.graph.specs.Laying.{Lies};

use crate::editing::Laid;
use crate::table::SetTable;
use crate::{Change, Judged, Redrawn, Refusal, RoleGraph, close, drawing, refusing};
use sets::Set;

// The effective sets of a drawing: every ordinary role counts as a junior of MaxRole, then closing.
fn closed(laid: &mut Laid) -> SetTable
    requires { (d : Drawing) × Lies d laid.old }
    ensures { (d : Drawing) → Lies d laid.old → sets_in result ≡ close d }
{
    let ordinary = drawing::ordinary_roles(laid.roles);
    let counted = &mut laid.juniors;
    counted[1] = counted[1].union(ordinary);
    let seniors = drawing::senior_roles(laid.roles);
    close::close(seniors, &laid.directs, &laid.juniors)
}

impl<'a> Judged<'a> {
    // The roles and the sets after the change.
    pub fn carry_out(self) -> Redrawn
        ensures { let j = self.entry in drawn_from result.roles result.sets ≡ changed (drawn j.graph) (read_change j.change) }
    {
        let graph = self.graph;
        let juniors = graph.draw();
        let seniors = drawing::senior_roles(graph.roles);
        let mut laid = Laid {
            roles: graph.roles,
            directs: drawing::direct_sets(seniors, graph.sets, &juniors),
            juniors,
        };
        laid.edit(self.change);
        Redrawn {
            roles: laid.roles,
            sets: closed(&mut laid),
        }
    }
}

// Refusals 2 to 5, 20 to 25 but for 24, and 31; where none comes, the roles and sets after the change.
pub fn attempt(graph: RoleGraph, change: Change) -> Result<Redrawn, Refusal>
    ensures { let g = drawn graph.entry in let c = read_change change in read_attempt g result ≡ keep (early g c) g (changed g c) }
{
    refusing::judge(graph, change)?;
    Ok(Judged { graph, change }.carry_out())
}
