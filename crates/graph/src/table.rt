// Tables by number, with a set for each: of privileges, whatever words these take, or of roles.
ghost use Rattle.std.specs.Prelude.{◌≡◌, set, ◌&&◌};
ghost use Rattle.sets.specs.Sets.{member, union, difference, when, collect, gather};
ghost use Rattle.graph.specs.Graph.{role_count};
ghost use Rattle.graph.specs.Tables as spec;

use sets::Set;

// The words of a table with a set for each role: a set of roles, or one of either kind.
pub(crate) type Table = [u64; 64];

// The words of a table with a set of privileges for each role.
pub(crate) type SetTable = [u64; 64];

// A row of a table that is to be stored: its number and its set.
#[derive(Clone, Copy)]
pub struct Row<S> {
    pub at: usize,
    pub set: S,
}

// Row n of a table; beyond its end the empty set.
pub fn entry<S: Set>(table: &[u64], n: usize) -> S
    ensures { S.read result ≡ spec.at (S.sets_in table.now) n }
{
    if n < table.len() {
        S::of(table[n])
    } else {
        S::empty()
    }
}

// Stores entry n of a table; beyond its end nothing.
pub fn store<S: Set>(table: &mut [u64], n: usize, s: S)
    ensures { S.sets_in table.new ≡ set (S.sets_in table.old) n (S.read s) }
{
    if n < table.len() {
        table[n] = s.word();
    }
}

// The union of the sets of the roles in `all`.
pub fn union_at<S: Set>(table: &[u64], all: u64) -> S
    ensures { S.read result ≡ gather role_count (λ r. member r all) (spec.at (S.sets_in table.now)) }
{
    all.members().fold(S::empty(), |found, r| found.union(entry(table, r as usize)))
}

// The sets of all roles; beyond the end of the table the empty set.
pub fn whole<S: Set>(table: &[u64]) -> [u64; 64]
    ensures { S.sets_in result ≡ spec.table role_count (spec.at (S.sets_in table.now)) }
{
    let mut all: Table = [0u64; 64];
    for i in 0..64usize {
        all[i] = entry::<S>(table, i).word();
    }
    all
}

// In the set of each role of `into`, takes the members of `out` away and joins those of `put`.
pub(crate) fn exchange<S: Set>(table: &mut Table, into: u64, out: S, put: S)
    ensures { S.sets_in table.new ≡ spec.table role_count (λ r. union (difference (spec.at (S.sets_in table.old) r) (when (member r into) (S.read out))) (when (member r into) (S.read put))) }
{
    for r in into.members() {
        let old: S = entry(table, r as usize);
        store(table, r as usize, old.difference(out).union(put));
    }
}

// The roles present that have a among their juniors.
pub(crate) fn seniors_in(present: u64, juniors: &Table, a: usize) -> u64
    ensures { result ≡ collect role_count (λ r. member r present && member a (spec.at juniors.now r)) }
{
    present.members().fold(0u64, |seniors, r| {
        let i = r as usize;
        seniors.union(u64::single(i).when(entry::<u64>(juniors, i).member(a)))
    })
}
