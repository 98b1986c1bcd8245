// What refuses a change, in the order of refusals: 2 to 5, 20 to 25 and 31 before closing, 26 to 29 after it. Refusals 24 and 30 concern seats and are not here.
ghost use Rattle.std.specs.Prelude.{◌≡◌, ◌||◌, [], ◌∷◌, ◌++◌};
ghost use Rattle.sets.specs.Sets.{member, included};
ghost use Rattle.graph.specs.Tables.{at};
ghost use Rattle.graph.specs.Graph.{present};
ghost use Rattle.graph.specs.Editing.{add_by_place, add_by_privileges, grant, withdraw, add_edge, remove_edge};
ghost use Rattle.graph.specs.Refusing.{no_role_number, no_privilege_number, end_role, edge_to_itself, role_absent, refused, verdict, early, state_checks, still_below, closed_checks};
ghost use Rattle.graph.specs.Reasons.{reason_number};
ghost use Rattle.graph.specs.Reading.{read_set, sets_in, drawn, drawn_from, graph_of, read_verdict, read_change};

use crate::{
    Change, Privilege, PrivilegeSet, Reason, Refusal, Role, RoleGraph, Verdict, searching,
};
use sets::Set;

// Whether the role is present.
fn is_present(roles: u64, r: u8) -> bool
    ensures { result ≡ present (drawn_from roles []) r }
{
    r < 2 || roles.member(r as usize)
}

// Whether one of two sets has the number.
fn in_either(r: u8, s: u64, t: u64) -> bool
    ensures { result ≡ member r s || member r t }
{
    s.member(r as usize) || t.member(r as usize)
}

// Kind 1, by the fields and the roles.
fn judge_add_by_place(
    graph: RoleGraph,
    a: Role,
    own: PrivilegeSet,
    juniors: u64,
    seniors: u64,
) -> Verdict
    ensures { read_verdict result ≡ early (drawn graph.entry) (add_by_place a.0 (read_set own) juniors seniors) }
{
    let r = a.0;
    if 64 <= r {
        return refuse(Reason::UnknownNumber, r);
    }
    if r < 2 {
        return refuse(Reason::EndRole, r);
    }
    if let Some(role) = searching::end_in(juniors) {
        return refuse(Reason::EndRole, role);
    }
    if let Some(role) = searching::end_in(seniors) {
        return refuse(Reason::EndRole, role);
    }
    if in_either(r, juniors, seniors) {
        return refuse(Reason::EdgeToItself, r);
    }
    judge_placing(graph, r, juniors, seniors)
}

// Kind 1, by the graph at hand: 20, 21 and 25.
fn judge_placing(graph: RoleGraph, r: u8, juniors: u64, seniors: u64) -> Verdict
    ensures { read_verdict result ≡ verdict (state_checks (drawn graph.entry) (add_by_place r 0 juniors seniors)) }
{
    if is_present(graph.roles, r) {
        return refuse(Reason::RolePresent, r);
    }
    if let Some(role) = searching::absent_in(graph.roles, juniors) {
        return refuse(Reason::RoleAbsent, role);
    }
    if let Some(role) = searching::absent_in(graph.roles, seniors) {
        return refuse(Reason::RoleAbsent, role);
    }
    if let Some(role) = graph.circle_in(juniors, seniors) {
        return refuse(Reason::Circle, role);
    }
    Ok(())
}

// Kind 2.
fn judge_add_by_privileges(graph: RoleGraph, a: Role, own: PrivilegeSet) -> Verdict
    ensures { read_verdict result ≡ early (drawn graph.entry) (add_by_privileges a.0 (read_set own)) }
{
    let r = a.0;
    if 64 <= r {
        return refuse(Reason::UnknownNumber, r);
    }
    if r < 2 {
        return refuse(Reason::EndRole, r);
    }
    if is_present(graph.roles, r) {
        return refuse(Reason::RolePresent, r);
    }
    Ok(())
}

// What kinds 3, 10 and 11 want of the role that they name: refusals 2, 3 and 21.
pub fn judge_role(roles: u64, a: Role) -> Verdict
    ensures { read_verdict result ≡ verdict (no_role_number a.0 ∷ end_role a.0 ∷ role_absent (drawn_from roles []) a.0 ∷ []) }
{
    if 64 <= a.0 {
        return refuse(Reason::UnknownNumber, a.0);
    }
    if a.0 < 2 {
        return refuse(Reason::EndRole, a.0);
    }
    if !is_present(roles, a.0) {
        return refuse(Reason::RoleAbsent, a.0);
    }
    Ok(())
}

// What kinds 4 and 5 want of the role and the privilege that they name: refusals 2, 3 and 21.
fn judge_role_privilege(roles: u64, a: Role, b: Privilege) -> Verdict
    ensures { read_verdict result ≡ verdict (no_role_number a.0 ∷ no_privilege_number b.0 ∷ end_role a.0 ∷ role_absent (drawn_from roles []) a.0 ∷ []) }
{
    let r = a.0;
    let p = b.0;
    if 64 <= r {
        return refuse(Reason::UnknownNumber, r);
    }
    if 64 <= p {
        return refuse(Reason::UnknownNumber, p);
    }
    if r < 2 {
        return refuse(Reason::EndRole, r);
    }
    if !is_present(roles, r) {
        return refuse(Reason::RoleAbsent, r);
    }
    Ok(())
}

// Kind 4.
fn judge_grant(graph: RoleGraph, a: Role, b: Privilege) -> Verdict
    ensures { read_verdict result ≡ early (drawn graph.entry) (grant a.0 b.0) }
{
    judge_role_privilege(graph.roles, a, b)?;
    if graph.effective_of(a).member(b) {
        return refuse(Reason::AlreadySo, a.0);
    }
    Ok(())
}

// Kind 5.
fn judge_withdraw(graph: RoleGraph, a: Role, b: Privilege) -> Verdict
    ensures { read_verdict result ≡ early (drawn graph.entry) (withdraw a.0 b.0) }
{
    judge_role_privilege(graph.roles, a, b)?;
    if !graph.effective_of(a).member(b) {
        return refuse(Reason::NotSo, a.0);
    }
    if !graph.is_direct(a, b) {
        return refuse(Reason::NotDirect, a.0);
    }
    Ok(())
}

// What kinds 6, 7 and 13 want of the two roles that they name: refusals 2, 3, 5 and 21.
pub fn judge_two_roles(roles: u64, a: Role, b: Role) -> Verdict
    ensures { let g = drawn_from roles [] in read_verdict result ≡ verdict (no_role_number a.0 ∷ no_role_number b.0 ∷ end_role a.0 ∷ end_role b.0 ∷ edge_to_itself a.0 b.0 ∷ role_absent g a.0 ∷ role_absent g b.0 ∷ []) }
{
    let r = a.0;
    let s = b.0;
    if 64 <= r {
        return refuse(Reason::UnknownNumber, r);
    }
    if 64 <= s {
        return refuse(Reason::UnknownNumber, s);
    }
    if r < 2 {
        return refuse(Reason::EndRole, r);
    }
    if s < 2 {
        return refuse(Reason::EndRole, s);
    }
    if r == s {
        return refuse(Reason::EdgeToItself, r);
    }
    if !is_present(roles, r) {
        return refuse(Reason::RoleAbsent, r);
    }
    if !is_present(roles, s) {
        return refuse(Reason::RoleAbsent, s);
    }
    Ok(())
}

// Kind 6.
fn judge_add_edge(graph: RoleGraph, a: Role, b: Role) -> Verdict
    ensures { read_verdict result ≡ early (drawn graph.entry) (add_edge a.0 b.0) }
{
    judge_two_roles(graph.roles, a, b)?;
    if graph.is_below(a, b) {
        return refuse(Reason::AlreadySo, a.0);
    }
    if graph.is_below(b, a) {
        return refuse(Reason::Circle, a.0);
    }
    Ok(())
}

// Kind 7.
fn judge_remove_edge(graph: RoleGraph, a: Role, b: Role) -> Verdict
    ensures { read_verdict result ≡ early (drawn graph.entry) (remove_edge a.0 b.0) }
{
    judge_two_roles(graph.roles, a, b)?;
    if !graph.is_edge(a, b) {
        return refuse(Reason::NotSo, a.0);
    }
    Ok(())
}

// What refuses a change before closing, if anything does.
pub fn judge(graph: RoleGraph, change: Change) -> Verdict
    ensures { read_verdict result ≡ early (drawn graph.entry) (read_change change) }
{
    match change {
        Change::AddByPlace(a, own, juniors, seniors) => judge_add_by_place(
            graph, a, own, juniors, seniors,
        ),
        Change::AddByPrivileges(a, own) => judge_add_by_privileges(graph, a, own),
        Change::RemoveRole(a, _) => judge_role(graph.roles, a),
        Change::Grant(a, b) => judge_grant(graph, a, b),
        Change::Withdraw(a, b) => judge_withdraw(graph, a, b),
        Change::AddEdge(a, b) => judge_add_edge(graph, a, b),
        Change::RemoveEdge(a, b) => judge_remove_edge(graph, a, b),
    }
}

// A refusal as a verdict.
pub fn refuse(reason: Reason, place: u8) -> Verdict
    ensures { read_verdict result ≡ refused (reason_number reason) place }
{
    Err(Refusal { reason, place })
}

// Refusals 27 to 29 of a graph after closing.
// Inlined, so that the table's length is known in its loops.
#[inline(always)]
fn judge_sets(graph: RoleGraph, conflicts: &[u64]) -> Verdict
    ensures { read_verdict result ≡ verdict (closed_checks (graph_of graph.entry.roles graph.entry.sets.now conflicts.now)) }
{
    if let Some(role) = graph.empty_role() {
        return refuse(Reason::EmptyRole, role);
    }
    if let Some(role) = graph.twin_role() {
        return refuse(Reason::TwinRole, role);
    }
    if let Some(role) = graph.pair_role(conflicts) {
        return refuse(Reason::PairInRole, role);
    }
    Ok(())
}

// Whether a's set is included in b's.
fn still_below(graph: RoleGraph, a: Role, b: Role) -> bool
    ensures { result ≡ included (at (sets_in graph.entry.sets.now) a.0) (at (sets_in graph.entry.sets.now) b.0) }
{
    graph.effective_of(a).included(graph.effective_of(b))
}

// Refusals 26 to 29: those of a graph after a change and closing.
pub fn judge_closed(graph: RoleGraph, conflicts: &[u64], change: Change) -> Verdict
    ensures { let h = graph_of graph.entry.roles graph.entry.sets.now conflicts.now in read_verdict result ≡ verdict (still_below h (read_change change) ++ closed_checks h) }
{
    match change {
        Change::RemoveEdge(a, b) => {
            if still_below(graph, a, b) {
                return refuse(Reason::StillBelow, b.0);
            }
            judge_sets(graph, conflicts)
        }
        _ => judge_sets(graph, conflicts),
    }
}
