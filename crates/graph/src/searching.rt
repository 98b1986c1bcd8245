// The searches behind the refusals: each finds the lowest role that its refusal names, if there is one.
ghost use Rattle.std.specs.Prelude.{◌≡◌, ◌&&◌, not, [], eqb};
ghost use Rattle.sets.specs.Counting.{any};
ghost use Rattle.sets.specs.Sets.{member, above};
ghost use Rattle.graph.specs.Tables.{at};
ghost use Rattle.graph.specs.Graph.{role_count, privilege_count, is_end, present};
ghost use Rattle.graph.specs.Conflicts.{conflict, holds_both, holds_pair};
ghost use Rattle.graph.specs.Drawing.{below};
ghost use Rattle.graph.specs.Refusing.{at_or_below, empty_role, twin_role, pair_role, offered_role};
ghost use Rattle.graph.specs.Reading.{read_set, sets_in, drawn, drawn_from, graph_of, read_found};
ghost use Rattle.graph.specs.Searching.{lowest_found};

use crate::drawing::{ordinary_roles, senior_roles};
use crate::table::entry;
use crate::{END_ROLES, MIN_ROLE, Privilege, PrivilegeSet, Role, RoleGraph};
use sets::Set;

// The lowest role of a set.
fn lowest_in(s: u64) -> Option<u8>
    ensures { read_found result ≡ lowest_found role_count (λ n. member n s) }
{
    s.members().next()
}

// The lowest end role of a set.
pub(crate) fn end_in(s: u64) -> Option<u8>
    ensures { read_found result ≡ lowest_found role_count (λ n. is_end n && member n s) }
{
    lowest_in(END_ROLES.intersection(s))
}

// The lowest role of a set that is absent.
pub(crate) fn absent_in(roles: u64, s: u64) -> Option<u8>
    ensures { read_found result ≡ lowest_found role_count (λ n. member n s && not (present (drawn_from roles []) n)) }
{
    lowest_in(s.difference(END_ROLES.union(roles)))
}

// Whether a set holds a privilege that p is in conflict with as the lower of the two; most sets hold nothing of p's row, so that none is cut off.
fn has_partner(conflicts: &[u64], s: PrivilegeSet, p: u8) -> bool
    ensures { result ≡ any privilege_count (λ q. member q (read_set s) && conflict (sets_in conflicts.now) p q) }
{
    let row: PrivilegeSet = entry(conflicts, p as usize);
    s.meets(row) && s.above(Privilege(p)).meets(row)
}

// Whether a set holds both privileges of some declared conflict: one of them is the lower.
pub fn holds_pair(conflicts: &[u64], s: PrivilegeSet) -> bool
    ensures { result ≡ holds_pair (sets_in conflicts.now) (read_set s) }
{
    s.members().any(|p| has_partner(conflicts, s, p))
}

// Whether a set holds both a and b.
pub fn holds_both(a: Privilege, b: Privilege, s: PrivilegeSet) -> bool
    ensures { result ≡ holds_both a.0 b.0 (read_set s) }
{
    s.member(a) && s.member(b)
}

impl<'a> RoleGraph<'a> {
    // The lowest ordinary role whose set is empty.
    pub fn empty_role(self) -> Option<u8>
        ensures { read_found result ≡ lowest_found role_count (empty_role (drawn self.entry)) }
    {
        ordinary_roles(self.roles)
            .members()
            .find(|r| self.effective_of(Role(*r)).is_empty())
    }

    // Whether some role among these has the set s.
    fn has_set(self, among: u64, s: PrivilegeSet) -> bool
        ensures { result ≡ any role_count (λ n. member n among && eqb (at (sets_in self.entry.sets.now) n) (read_set s)) }
    {
        among.members().any(|r| self.effective_of(Role(r)).same(s))
    }

    // Whether a role above r among these has the set of r.
    fn has_twin(self, among: u64, r: Role) -> bool
        ensures { let S = sets_in self.entry.sets.now in result ≡ any role_count (λ n. member n (above role_count r.0 among) && eqb (at S n) (at S r.0)) }
    {
        self.has_set(among.above(r.0 as usize), self.effective_of(r))
    }

    // The lowest ordinary role that has a twin: its twin then is a higher role.
    pub fn twin_role(self) -> Option<u8>
        ensures { read_found result ≡ lowest_found role_count (twin_role (drawn self.entry)) }
    {
        let ordinary = ordinary_roles(self.roles);
        ordinary
            .members()
            .find(|r| self.has_twin(ordinary, Role(*r)))
    }

    // The lowest ordinary role that holds both privileges of some declared conflict.
    // Nested loops, left by label, since document 01 names the form.
    pub fn pair_role(self, conflicts: &[u64]) -> Option<u8>
        ensures { read_found result ≡ lowest_found role_count (pair_role (graph_of self.entry.roles self.entry.sets.now conflicts.now)) }
    {
        let mut found = None;
        'roles: for r in ordinary_roles(self.roles).members() {
            let own = self.effective_of(Role(r));
            for p in own.members() {
                if has_partner(conflicts, own, p) {
                    found = Some(r);
                    break 'roles;
                }
            }
        }
        found
    }

    // The lowest ordinary role that holds both privileges of the pair offered.
    pub(crate) fn offered_role(self, a: Privilege, b: Privilege) -> Option<u8>
        ensures { read_found result ≡ lowest_found role_count (offered_role (drawn self.entry) a.0 b.0) }
    {
        ordinary_roles(self.roles)
            .members()
            .find(|r| holds_both(a, b, self.effective_of(Role(*r))))
    }

    // Whether some role of `all` lies below j: j can lie above others, and a role that can lie below others has a set that j's strictly includes.
    fn some_below(self, all: u64, j: Role) -> bool
        ensures { result ≡ any role_count (λ s. member s all && below (drawn self.entry) s j.0) }
    {
        let top = self.effective_of(j);
        let high = senior_roles(self.roles).member(j.0 as usize);
        let low = ordinary_roles(self.roles).union(MIN_ROLE);
        high && all.intersection(low).members().any(|s| {
            j.0 == 1 || s == 0 || self.effective_of(Role(s)).strictly_included(top)
        })
    }

    // Whether some senior is j or lies below it.
    fn circle_at(self, seniors: u64, j: Role) -> bool
        ensures { result ≡ any role_count (λ s. member s seniors && at_or_below (drawn self.entry) s j.0) }
    {
        seniors.member(j.0 as usize) || self.some_below(seniors, j)
    }

    // The lowest junior that some senior is or lies below.
    pub(crate) fn circle_in(self, juniors: u64, seniors: u64) -> Option<u8>
        ensures { read_found result ≡ lowest_found role_count (λ j. member j juniors && any role_count (λ s. member s seniors && at_or_below (drawn self.entry) s j)) }
    {
        juniors
            .members()
            .find(|j| self.circle_at(seniors, Role(*j)))
    }
}
