// Closing: a role's effective set is its direct privileges joined with the sets of its juniors. Each role is done once, whatever the number of ways down to it.
ghost use Rattle.std.specs.Prelude.{◌≡◌, ℕ, ◌<◌, T};
ghost use Rattle.sets.specs.Sets as spec;
ghost use Rattle.graph.specs.Tables.{at, table};
ghost use Rattle.graph.specs.Graph.{role_count};
ghost use Rattle.graph.specs.Closing.{gathered};
ghost use Rattle.graph.specs.Reading.{read_set, sets_in};
ghost use Rattle.graph.specs.Working.{Ending, Acyclic, closed_set, Memo};

use crate::table::{SetTable, Table, entry, store};
use crate::{ALL_ROLES, PrivilegeSet};
use sets::Set;

// What gathering gives: the roles that are done, and the gathered set.
#[derive(Drop)]
struct Gathered {
    done: u64,
    set: PrivilegeSet,
}

// Puts the set of role r into its entry, unless that is done, and gives the roles that are done.
#[cycle(close_role_gather)]
fn close_role(directs: &SetTable, juniors: &Table, sets: &mut SetTable, done: u64, r: usize) -> u64
    requires is_role { r < role_count }
    requires ending { Ending juniors.now }
    requires memo { Memo (sets_in directs.now) juniors.now done (sets_in sets.old) }
    ensures memo_after { Memo (sets_in directs.now) juniors.now result (sets_in sets.new) }
    ensures kept { (n : ℕ) → T (spec.member n done) → T (spec.member n result) }
    ensures is_done { T (spec.member r result) }
{
    if done.member(r) {
        return done;
    }
    let g = gather(directs, juniors, sets, done, r);
    let held = g.set;
    let own: PrivilegeSet = entry(directs, r);
    store(sets, r, own.union(held));
    g.done.union(u64::single(r))
}

// Does each junior of role r, and joins their sets.
#[cycle(close_role_gather)]
fn gather(
    directs: &SetTable,
    juniors: &Table,
    sets: &mut SetTable,
    before: u64,
    r: usize,
) -> Gathered
    requires is_role { r < role_count }
    requires ending { Ending juniors.now }
    requires memo { Memo (sets_in directs.now) juniors.now before (sets_in sets.old) }
    ensures memo_after { Memo (sets_in directs.now) juniors.now result.done (sets_in sets.new) }
    ensures kept { (n : ℕ) → T (spec.member n before) → T (spec.member n result.done) }
    ensures gathered { read_set result.set ≡ spec.gather role_count (λ t. spec.member t (at juniors.now r)) (closed_set (sets_in directs.now) juniors.now) }
{
    let mut done = before;
    let mut set = PrivilegeSet::empty();
    let under: u64 = entry(juniors, r);
    for t in under.members() {
        done = close_role(directs, juniors, sets, done, t as usize);
        set = set.union(entry(sets, t as usize));
    }
    Gathered { done, set }
}

// The effective set of each role; a role that is not present has its direct privileges alone.
pub(crate) fn close(present: u64, directs: &SetTable, juniors: &Table) -> SetTable
    requires { Acyclic present juniors.now }
    ensures { sets_in result ≡ table role_count (gathered (at (sets_in directs.now)) (λ t r. spec.member t (at juniors.now r)) role_count) }
{
    let mut sets = *directs;
    let mut done = ALL_ROLES.difference(present);
    for r in present.members() {
        done = close_role(directs, juniors, &mut sets, done, r as usize);
    }
    sets
}
