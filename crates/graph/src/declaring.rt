// Conflicts of two privileges: whether one is declared, and what kinds 8 and 9, which declare and lift one, refuse and store.
ghost use Rattle.std.specs.Prelude.{◌≡◌, [], ◌∷◌, min, max, ltb};
ghost use Rattle.sets.specs.Sets.{single, union, difference, when};
ghost use Rattle.graph.specs.Tables.{at};
ghost use Rattle.graph.specs.Graph.{privilege_count};
ghost use Rattle.graph.specs.Conflicts as spec;
ghost use Rattle.graph.specs.Refusing.{no_privilege_number, pair_of_one, verdict, declare_checks, lift_checks};
ghost use Rattle.graph.specs.Reading.{read_set, sets_in, graph_of, read_verdict};

use crate::refusing::refuse;
use crate::table::{Row, entry};
use crate::{Privilege, PrivilegeSet, Reason, RoleGraph, Verdict};
use sets::Set;

// Whether a table of pairs has that of a and b, which stands under the lower of the two.
pub fn has_pair<S: Set>(pairs: &[u64], a: u8, b: u8) -> bool
    ensures { result ≡ spec.declared (S.sets_in pairs.now) a b }
{
    let lower = a.min(b);
    let higher = a.max(b);
    lower < higher && entry::<S>(pairs, lower as usize).member(S::member_of(higher))
}

// Whether the conflict of a and b is declared.
pub fn is_declared(conflicts: &[u64], a: Privilege, b: Privilege) -> bool
    ensures { result ≡ spec.declared (sets_in conflicts.now) a.0 b.0 }
{
    has_pair::<PrivilegeSet>(conflicts, a.0, b.0)
}

// Refusals 2 and 4: a number that is no privilege's, and a conflict of a privilege with itself.
fn judge_pair(a: Privilege, b: Privilege) -> Verdict
    ensures { read_verdict result ≡ verdict (no_privilege_number a.0 ∷ no_privilege_number b.0 ∷ pair_of_one a.0 b.0 ∷ []) }
{
    if a.0 >= 64 {
        return refuse(Reason::UnknownNumber, a.0);
    }
    if b.0 >= 64 {
        return refuse(Reason::UnknownNumber, b.0);
    }
    if a.0 == b.0 {
        return refuse(Reason::PairOfOne, a.0);
    }
    Ok(())
}

// The refusals of kind 8.
pub fn judge_declare(graph: RoleGraph, conflicts: &[u64], a: Privilege, b: Privilege) -> Verdict
    ensures { read_verdict result ≡ verdict (declare_checks (graph_of graph.entry.roles graph.entry.sets.now conflicts.now) a.0 b.0) }
{
    judge_pair(a, b)?;
    if is_declared(conflicts, a, b) {
        return refuse(Reason::AlreadySo, a.0);
    }
    if let Some(role) = graph.offered_role(a, b) {
        return refuse(Reason::PairInRole, role);
    }
    Ok(())
}

// The refusals of kind 9.
pub fn judge_lift(conflicts: &[u64], a: Privilege, b: Privilege) -> Verdict
    ensures { read_verdict result ≡ verdict (lift_checks (graph_of 0 [] conflicts.now) a.0 b.0) }
{
    judge_pair(a, b)?;
    if is_declared(conflicts, a, b) {
        Ok(())
    } else {
        refuse(Reason::NotSo, a.0)
    }
}

// The lower privilege's entry with the higher one in it; a number beyond the privileges puts nothing in.
pub fn with_conflict(conflicts: &[u64], a: Privilege, b: Privilege) -> Row<PrivilegeSet>
    ensures { let C = sets_in conflicts.now in (result.at ≡ min a.0 b.0) × (read_set result.set ≡ union (at C (min a.0 b.0)) (when (ltb (max a.0 b.0) privilege_count) (single (max a.0 b.0)))) }
{
    let at = a.0.min(b.0) as usize;
    let higher = Privilege(a.0.max(b.0));
    let set = entry::<PrivilegeSet>(conflicts, at).union(PrivilegeSet::single(higher));
    Row { at, set }
}

// The lower privilege's entry with the higher one taken out.
pub fn without_conflict(conflicts: &[u64], a: Privilege, b: Privilege) -> Row<PrivilegeSet>
    ensures { let C = sets_in conflicts.now in (result.at ≡ min a.0 b.0) × (read_set result.set ≡ difference (at C (min a.0 b.0)) (single (max a.0 b.0))) }
{
    let at = a.0.min(b.0) as usize;
    let higher = Privilege(a.0.max(b.0));
    let set = entry::<PrivilegeSet>(conflicts, at).difference(PrivilegeSet::single(higher));
    Row { at, set }
}
