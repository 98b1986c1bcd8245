// Kinds 1 to 7 as edits of a drawing.
ghost use Rattle.std.specs.Prelude.{◌≡◌, eqb};
ghost use Rattle.sets.specs.Sets.{member, union, difference, when};
ghost use Rattle.graph.specs.Tables.{at, table};
ghost use Rattle.graph.specs.Graph.{Graph, role_count};
ghost use Rattle.graph.specs.Drawing.{redraw};
ghost use Rattle.graph.specs.Editing as spec;
ghost use Rattle.graph.specs.Refusing.{passed, early};
ghost use Rattle.graph.specs.Reading.{read_set, sets_in, read_removal, read_change};
ghost use Rattle.graph.specs.Laying.{Lies};

use crate::drawing::senior_roles;
use crate::table::{SetTable, Table, entry, exchange, seniors_in};
use crate::{Change, Privilege, PrivilegeSet, Removal, Role};
use sets::Set;

// A drawing: its roles, by role number their direct sets, and by senior the immediate juniors.
#[derive(Clone, Copy)]
pub(crate) struct Laid {
    pub roles: u64,
    pub directs: SetTable,
    pub juniors: Table,
}

// Whether a removal hands the direct privileges to the immediate seniors.
fn hands_up(removal: Removal) -> bool
    ensures { result ≡ eqb (read_removal removal) 1 }
{
    match removal {
        Removal::Dropped => false,
        Removal::HandedUp => true,
    }
}

// Joins s to the direct set of each role of `to`.
fn give(directs: &mut SetTable, to: u64, s: PrivilegeSet)
    ensures { sets_in directs.new ≡ table role_count (λ r. union (at (sets_in directs.old) r) (when (member r to) (read_set s))) }
{
    exchange(directs, to, PrivilegeSet::empty(), s);
}

// Takes s out of the direct set of each role of `from`.
fn take(directs: &mut SetTable, from: u64, s: PrivilegeSet)
    ensures { sets_in directs.new ≡ table role_count (λ r. difference (at (sets_in directs.old) r) (when (member r from) (read_set s))) }
{
    exchange(directs, from, s, PrivilegeSet::empty());
}

impl Laid {
    // Kind 1: edges from the juniors `under` to a and from a to the seniors `over`.
    fn add_by_place(&mut self, a: Role, own: PrivilegeSet, under: u64, over: u64)
        ensures { let c = spec.add_by_place a.0 (read_set own) under over in ((g : Graph) → Lies (redraw g) self.old → early g c ≡ passed → Lies (spec.edit c (redraw g)) self.new) }
    {
        let role = u64::single(a.0 as usize);
        give(&mut self.directs, role, own);
        exchange(&mut self.juniors, role, 0, under);
        exchange(&mut self.juniors, over, 0, role);
        self.roles = self.roles.union(role);
    }

    // Kind 2: no edge is given.
    fn add_by_privileges(&mut self, a: Role, own: PrivilegeSet)
        ensures { let c = spec.add_by_privileges a.0 (read_set own) in ((g : Graph) → Lies (redraw g) self.old → early g c ≡ passed → Lies (spec.edit c (redraw g)) self.new) }
    {
        let role = u64::single(a.0 as usize);
        give(&mut self.directs, role, own);
        self.roles = self.roles.union(role);
    }

    // Kind 3: every immediate junior joined to every immediate senior; where the direct privileges are handed up, they go to the seniors.
    fn remove_role(&mut self, a: Role, removal: Removal)
        ensures { let c = spec.remove_role a.0 (read_removal removal) in ((g : Graph) → Lies (redraw g) self.old → early g c ≡ passed → Lies (spec.edit c (redraw g)) self.new) }
    {
        let i = a.0 as usize;
        let role = u64::single(i);
        let over = seniors_in(senior_roles(self.roles), &self.juniors, i);
        let own: PrivilegeSet = entry(&self.directs, i);
        give(&mut self.directs, over, own.when(hands_up(removal)));
        take(&mut self.directs, role, own);
        let under: u64 = entry(&self.juniors, i);
        exchange(&mut self.juniors, over, role, under);
        exchange(&mut self.juniors, role, under, 0);
        self.roles = self.roles.difference(role);
    }

    // Kind 4.
    fn grant(&mut self, a: Role, b: Privilege)
        ensures { let c = spec.grant a.0 b.0 in ((g : Graph) → Lies (redraw g) self.old → early g c ≡ passed → Lies (spec.edit c (redraw g)) self.new) }
    {
        let role = u64::single(a.0 as usize);
        give(&mut self.directs, role, PrivilegeSet::single(b));
    }

    // Kind 5.
    fn withdraw(&mut self, a: Role, b: Privilege)
        ensures { let c = spec.withdraw a.0 b.0 in ((g : Graph) → Lies (redraw g) self.old → early g c ≡ passed → Lies (spec.edit c (redraw g)) self.new) }
    {
        let role = u64::single(a.0 as usize);
        take(&mut self.directs, role, PrivilegeSet::single(b));
    }

    // Kind 6.
    fn add_edge(&mut self, a: Role, b: Role)
        ensures { let c = spec.add_edge a.0 b.0 in ((g : Graph) → Lies (redraw g) self.old → early g c ≡ passed → Lies (spec.edit c (redraw g)) self.new) }
    {
        let junior = u64::single(a.0 as usize);
        let senior = u64::single(b.0 as usize);
        exchange(&mut self.juniors, senior, 0, junior);
    }

    // Kind 7: a's juniors joined to b, and a to b's seniors.
    fn remove_edge(&mut self, a: Role, b: Role)
        ensures { let c = spec.remove_edge a.0 b.0 in ((g : Graph) → Lies (redraw g) self.old → early g c ≡ passed → Lies (spec.edit c (redraw g)) self.new) }
    {
        let i = a.0 as usize;
        let j = b.0 as usize;
        let junior = u64::single(i);
        let senior = u64::single(j);
        let under: u64 = entry(&self.juniors, i);
        let over = seniors_in(senior_roles(self.roles), &self.juniors, j);
        exchange(&mut self.juniors, senior, junior, under);
        exchange(&mut self.juniors, over, 0, junior);
    }

    // The edit of each kind.
    pub(crate) fn edit(&mut self, change: Change)
        ensures { let c = read_change change in ((g : Graph) → Lies (redraw g) self.old → early g c ≡ passed → Lies (spec.edit c (redraw g)) self.new) }
    {
        match change {
            Change::AddByPlace(a, own, under, over) => self.add_by_place(a, own, under, over),
            Change::AddByPrivileges(a, own) => self.add_by_privileges(a, own),
            Change::RemoveRole(a, removal) => self.remove_role(a, removal),
            Change::Grant(a, b) => self.grant(a, b),
            Change::Withdraw(a, b) => self.withdraw(a, b),
            Change::AddEdge(a, b) => self.add_edge(a, b),
            Change::RemoveEdge(a, b) => self.remove_edge(a, b),
        }
    }
}
