// Kinds 13 to 15 on a block: each changes one word of the pairs or of the active roles.
ghost use Rattle.std.specs.Prelude.{◌≡◌};
ghost use Rattle.seats.specs.Reading.{read_answer};
ghost use Rattle.sittings.specs.Calls.{perform};
ghost use Rattle.sittings.specs.Reading.{read_choice};
ghost use Rattle.keeper.specs.Block.{sitting_in};
ghost use Rattle.keeper.specs.Exports.{left};

use crate::block::{ACTIVE, PAIRS, WORDS, Words, lent};
use graph::table::store;
use seats::{Answer, Reply};
use sittings::{Choice, Chosen};

// Takes a choice.
pub(crate) fn take_choice(words: &mut Words, choice: Choice) -> Answer
    ensures { (read_answer result, words.new) ≡ left (perform (sitting_in words.old) (read_choice choice)) }
{
    match lent(words).decide(choice)? {
        Chosen::Pairs(row) => store(&mut words[PAIRS..ACTIVE], row.at, row.set),
        Chosen::Active(row) => store(&mut words[ACTIVE..WORDS], row.at, row.set),
    }
    Ok(Reply::Accepted)
}
