// Redrawing: the order, the edges and the direct privileges that the roles present and their effective sets define.
ghost use Rattle.std.specs.Prelude.{◌≡◌, ◌&&◌, cond};
ghost use Rattle.sets.specs.Counting.{any, sum};
ghost use Rattle.sets.specs.Sets.{member, union, difference, strictly_included, size, collect, gather};
ghost use Rattle.graph.specs.Tables.{at, table};
ghost use Rattle.graph.specs.Graph.{role_count, max_alone, end_roles};
ghost use Rattle.graph.specs.Drawing.{below, edge, juniors, seniors, edge_count, direct, roles_below};
ghost use Rattle.graph.specs.Reading.{read_set, sets_in, drawn};
ghost use Rattle.graph.specs.Working.{less_juniors};

use crate::table::{SetTable, Table, entry, seniors_in, store, union_at, whole};
use crate::{END_ROLES, MAX_ROLE, MIN_ROLE, Privilege, PrivilegeSet, Role, RoleGraph};
use sets::Set;

// The ordinary roles: those present without the numbers of the end roles.
pub fn ordinary_roles(roles: u64) -> u64
    ensures { result ≡ difference roles end_roles }
{
    roles.difference(END_ROLES)
}

// The roles that can lie above another: the ordinary ones and MaxRole.
pub fn senior_roles(roles: u64) -> u64
    ensures { result ≡ union (difference roles end_roles) max_alone }
{
    ordinary_roles(roles).union(MAX_ROLE)
}

// The direct sets of the roles in `all`, by a table of their immediate juniors; any other role keeps its set.
pub(crate) fn direct_sets(all: u64, sets: &[u64], juniors: &Table) -> SetTable
    ensures { sets_in result ≡ less_juniors all (sets_in sets.now) juniors.now }
{
    let mut direct = whole::<PrivilegeSet>(sets);
    for s in all.members() {
        let i = s as usize;
        let held: PrivilegeSet = union_at(sets, entry(juniors, i));
        let own: PrivilegeSet = entry(sets, i);
        store(&mut direct, i, own.difference(held));
    }
    direct
}

// The sizes of a table's entries at the members of `all`, together.
fn total_size(table: &Table, all: u64) -> u32
    ensures { result ≡ sum role_count (λ s. cond (member s all) (size role_count (at table.now s)) 0) }
{
    let mut total: u32 = 0;
    for s in all.members() {
        total += entry::<u64>(table, s as usize).size();
    }
    total
}

impl<'a> RoleGraph<'a> {
    // The effective privileges of s.
    pub fn effective_of(self, s: Role) -> PrivilegeSet
        ensures { read_set result ≡ at (sets_in self.entry.sets.now) s.0 }
    {
        entry(self.sets, s.0 as usize)
    }

    // The roles of `all` whose sets are strictly included in `top`.
    fn included_in(self, all: u64, top: PrivilegeSet) -> u64
        ensures { result ≡ collect role_count (λ r. member r all && strictly_included (at (sets_in self.entry.sets.now) r) (read_set top)) }
    {
        all.members().fold(0u64, |found, r| {
            let on = self.effective_of(Role(r)).strictly_included(top);
            found.union(u64::single(r as usize).when(on))
        })
    }

    // The roles below s: none for MinRole and for a number that is no role's.
    fn lower(self, s: Role) -> u64
        ensures { result ≡ roles_below (drawn self.entry) s.0 }
    {
        let ordinary = ordinary_roles(self.roles);
        if s.0 == 1 {
            return ordinary.union(MIN_ROLE);
        }
        if ordinary.member(s.0 as usize) {
            return self
                .included_in(ordinary, self.effective_of(s))
                .union(MIN_ROLE);
        }
        0
    }

    // By role number, the roles below each role.
    pub fn lowers(self) -> [u64; 64]
        ensures { result ≡ table role_count (roles_below (drawn self.entry)) }
    {
        let mut found = [0u64; 64];
        for s in senior_roles(self.roles).members() {
            found[s as usize] = self.lower(Role(s));
        }
        found
    }

    // By role number, the immediate juniors of each role: the roles below it that lie below none of these.
    // Inlined, so that the table's length is known in its loops.
    #[inline(always)]
    pub(crate) fn draw(self) -> [u64; 64]
        ensures { result ≡ table role_count (juniors (drawn self.entry)) }
    {
        let lower = self.lowers();
        let mut juniors = lower;
        for s in senior_roles(self.roles).members() {
            let under: u64 = entry(&lower, s as usize);
            juniors[s as usize] = under.difference(union_at(&lower, under));
        }
        juniors
    }

    // How many edges are drawn.
    pub fn edge_count(self) -> u32
        ensures { result ≡ edge_count (drawn self.entry) }
    {
        let juniors = self.draw();
        total_size(&juniors, senior_roles(self.roles))
    }

    // Whether the role of number r lies below that of s.
    pub fn lies_below(self, r: usize, s: usize) -> bool
        ensures { result ≡ below (drawn self.entry) r s }
    {
        let high = senior_roles(self.roles).member(s);
        let low = ordinary_roles(self.roles).union(MIN_ROLE).member(r);
        let strict = entry::<PrivilegeSet>(self.sets, r).strictly_included(entry(self.sets, s));
        high & (low & ((s == 1) | ((r == 0) | strict)))
    }

    // Whether the role r lies below s.
    pub fn is_below(self, r: Role, s: Role) -> bool
        ensures { result ≡ below (drawn self.entry) r.0 s.0 }
    {
        self.lies_below(r.0 as usize, s.0 as usize)
    }

    // Whether some role lies between r and s; it is an ordinary one.
    fn has_between(self, r: Role, s: Role) -> bool
        ensures { let g = drawn self.entry in result ≡ any role_count (λ t. below g r.0 t && below g t s.0) }
    {
        ordinary_roles(self.roles)
            .members()
            .any(|t| self.is_below(r, Role(t)) && self.is_below(Role(t), s))
    }

    // Whether an edge is drawn from r to s: r is below s, and no role lies between.
    pub(crate) fn is_edge(self, r: Role, s: Role) -> bool
        ensures { result ≡ edge (drawn self.entry) r.0 s.0 }
    {
        self.is_below(r, s) && !self.has_between(r, s)
    }

    // The roles below some member of `all`.
    fn all_lower(self, all: u64) -> u64
        ensures { result ≡ gather role_count (λ s. member s all) (roles_below (drawn self.entry)) }
    {
        all.members()
            .fold(0u64, |found, s| found.union(self.lower(Role(s))))
    }

    // The immediate juniors of s: the roles below it that lie below none of these.
    pub fn juniors_of(self, s: Role) -> u64
        ensures { result ≡ juniors (drawn self.entry) s.0 }
    {
        let under = self.lower(s);
        under.difference(self.all_lower(under))
    }

    // The immediate seniors of r: the roles whose immediate juniors have it.
    pub fn seniors_of(self, r: Role) -> u64
        ensures { result ≡ seniors (drawn self.entry) r.0 }
    {
        let joins = self.draw();
        seniors_in(senior_roles(self.roles), &joins, r.0 as usize)
    }

    // What the immediate juniors of s have: what the ordinary roles below s have, and where there is none what MinRole has.
    fn inherited(self, s: Role) -> PrivilegeSet
        ensures { let g = drawn self.entry in read_set result ≡ gather role_count (λ r. edge g r s.0) (at (sets_in self.entry.sets.now)) }
    {
        let under = self.lower(s);
        let ordinary = under.difference(MIN_ROLE);
        let among = if ordinary == 0 { under } else { ordinary };
        union_at(self.sets, among)
    }

    // The direct privileges of s: its effective ones that no immediate junior has.
    pub fn direct_of(self, s: Role) -> PrivilegeSet
        ensures { read_set result ≡ direct (drawn self.entry) s.0 }
    {
        let held = self.inherited(s);
        self.effective_of(s).difference(held)
    }

    // Whether some ordinary role below s has the privilege.
    fn lower_has(self, s: Role, privilege: Privilege) -> bool
        ensures { result ≡ any role_count (λ r. member r (difference self.entry.roles end_roles) && (member privilege.0 (at (sets_in self.entry.sets.now) r) && below (drawn self.entry) r s.0)) }
    {
        let top = self.effective_of(s);
        let high = senior_roles(self.roles).member(s.0 as usize);
        let among = ordinary_roles(self.roles).when(high);
        among.members().any(|r| {
            let held = self.effective_of(Role(r));
            held.member(privilege) && ((s.0 == 1) | held.strictly_included(top))
        })
    }

    // Whether the privilege is direct in s: s holds it and no ordinary role below s does; what MinRole has is inherited where MinRole is an immediate junior.
    pub(crate) fn is_direct(self, s: Role, privilege: Privilege) -> bool
        ensures { result ≡ member privilege.0 (direct (drawn self.entry) s.0) }
    {
        if !self.effective_of(s).member(privilege) {
            return false;
        }
        if self.lower_has(s, privilege) {
            return false;
        }
        if !self.effective_of(Role(0)).member(privilege) {
            return true;
        }
        !self.inherited(s).member(privilege)
    }
}
