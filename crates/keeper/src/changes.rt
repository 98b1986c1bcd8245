// Kinds 1 to 7 on a block, which is written where nothing refuses them.
ghost use Rattle.std.specs.Prelude.{◌≡◌, [], ◌∷◌, ◌++◌};
ghost use Rattle.graph.specs.Tables.{at, table};
ghost use Rattle.graph.specs.Graph.{role_count};
ghost use Rattle.graph.specs.Refusing.{passed, verdict, input_checks, state_checks};
ghost use Rattle.graph.specs.Reading.{read_verdict, read_change};
ghost use Rattle.seats.specs.Calls.{change, accepted, seat_checks};
ghost use Rattle.seats.specs.Calls as state;
ghost use Rattle.seats.specs.Reading.{state_of, read_answer};
ghost use Rattle.sittings.specs.Sittings.{still_active};
ghost use Rattle.sittings.specs.Calls.{call, pair_together, pairs_changed, perform};
ghost use Rattle.sittings.specs.Reading.{sitting_of};
ghost use Rattle.keeper.specs.Block.{conflicts_of, seats_of, pairs_of, active_of, state_in, sitting_in};
ghost use Rattle.keeper.specs.Exports.{left};

use crate::block::{ACTIVE, CONFLICTS, PAIRS, SETS, WORDS, Words, lent};
use graph::{Change, Judged};
use seats::{Answer, LentState, Reply};
use sittings::{Followed, LentSitting};

// What follows a change that leaves these roles and sets.
fn follow<'a>(words: &'a Words, roles: u64, sets: &'a [u64; 64], edit: Change) -> Followed
    ensures { let W = words.now in let h = state_of roles sets.now (conflicts_of W) (seats_of W) in let P = pairs_changed (read_change edit) (pairs_of W) in let A = still_active h (active_of W) in (result.pairs ≡ table role_count (at P)) × (result.active ≡ A) × (read_verdict result.verdict ≡ verdict (pair_together (sitting_of h P A) ∷ [])) }
{
    let sitting = lent(words);
    let state = LentState::of(roles, sets, sitting.state.conflicts, sitting.state.seats);
    LentSitting { state, ..sitting }.follow(edit)
}

// A change that the state accepts and that leaves these roles and sets: it is written, unless 35 refuses it.
fn put_change(words: &mut Words, roles: u64, sets: &[u64; 64], edit: Change) -> Answer
    requires { let W = words.old in (accepted, state_of roles sets.now (conflicts_of W) (seats_of W)) ≡ state.perform (state_in W) (change (read_change edit)) }
    ensures { (read_answer result, words.new) ≡ left (perform (sitting_in words.old) (call (change (read_change edit)))) }
{
    if lent(words).is_idle() {
        words[0] = roles;
        words[SETS..CONFLICTS].copy_from_slice(sets);
        return Ok(Reply::Accepted);
    }
    let next = follow(words, roles, sets, edit);
    next.verdict?;
    words[0] = roles;
    words[SETS..CONFLICTS].copy_from_slice(sets);
    words[PAIRS..ACTIVE].copy_from_slice(&next.pairs);
    words[ACTIVE..WORDS].copy_from_slice(&next.active);
    Ok(Reply::Accepted)
}

// A change that nothing refuses early, carried out and judged again: it is written where nothing refuses it.
fn redraw(words: &mut Words, edit: Change) -> Answer
    requires { let s = state_in words.old in let c = read_change edit in passed ≡ verdict ((input_checks c ++ state_checks s.graph c) ++ seat_checks s c) }
    ensures { (read_answer result, words.new) ≡ left (perform (sitting_in words.old) (call (change (read_change edit)))) }
{
    let state = lent(words).state;
    let next = Judged {
        graph: state.graph,
        change: edit,
    }
    .carry_out();
    state.judge_redrawn(&next, edit)?;
    put_change(words, next.roles, &next.sets, edit)
}

// Takes a change. What is refused early is refused before any table is made.
pub(crate) fn take_change(words: &mut Words, edit: Change) -> Answer
    ensures { (read_answer result, words.new) ≡ left (perform (sitting_in words.old) (call (change (read_change edit)))) }
{
    lent(words).state.judge_early(edit)?;
    redraw(words, edit)
}
