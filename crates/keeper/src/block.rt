// The words of a block: where its tables start, the sitting that it holds, and what is written into it.
ghost use Rattle.std.specs.Prelude.{◌≡◌, Some, None};
ghost use Rattle.seats.specs.Reading.{read_state};
ghost use Rattle.sittings.specs.Sittings.{begun};
ghost use Rattle.sittings.specs.Reading.{lent};
ghost use Rattle.keeper.specs.Block.{sitting_in, words_of, of_sitting, read_held};

use seats::{LentState, State};
use sittings::LentSitting;

// Where the tables of sets, conflicts, seats, pairs and active roles start.
pub(crate) const SETS: usize = 1;

pub(crate) const CONFLICTS: usize = SETS + 64;

pub(crate) const SEATS: usize = CONFLICTS + 64;

pub(crate) const PAIRS: usize = SEATS + 64;

pub(crate) const ACTIVE: usize = PAIRS + 64;

// How many words a sitting takes.
pub(crate) const WORDS: usize = ACTIVE + 64;

// The words of a sitting: the first of a block.
pub(crate) type Words = [u64; WORDS];

// The sitting of these words, with its tables lent.
pub(crate) fn lent(words: &Words) -> LentSitting
    ensures { lent result ≡ sitting_in words.now }
{
    let state = LentState::of(
        words[0],
        &words[SETS..CONFLICTS],
        &words[CONFLICTS..SEATS],
        &words[SEATS..PAIRS],
    );
    LentSitting {
        state,
        pairs: &words[PAIRS..ACTIVE],
        active: &words[ACTIVE..WORDS],
    }
}

// The sitting that a block holds, if it has words for one.
pub(crate) fn held(block: &[u64]) -> Option<LentSitting>
    ensures { read_held result ≡ of_sitting block.now Some None }
{
    let words = block.first_chunk::<WORDS>()?;
    Some(lent(words))
}

// Begins a sitting with a state, in the place of the one that the words hold: there is no pair, and nothing is active.
pub(crate) fn begin(words: &mut Words, state: State)
    ensures { words.new ≡ words_of (begun (read_state state)) }
{
    let none = [0u64; 64];
    words[0] = state.roles;
    words[SETS..CONFLICTS].copy_from_slice(&state.sets);
    words[CONFLICTS..SEATS].copy_from_slice(&state.conflicts);
    words[SEATS..PAIRS].copy_from_slice(&state.seats);
    words[PAIRS..ACTIVE].copy_from_slice(&none);
    words[ACTIVE..WORDS].copy_from_slice(&none);
}
