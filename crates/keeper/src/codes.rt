// Answers as one number each.
ghost use Rattle.std.specs.Prelude.{◌≡◌, ◌<◌};
ghost use Rattle.seats.specs.Reading.{read_asked, read_answer};
ghost use Rattle.keeper.specs.Block.{code_of};

use graph::Refusal;
use seats::answers::{number_of, place_of};
use seats::{Answer, Reply};

// The code of a block with too few words.
pub(crate) const NO_STATE: u32 = 65535;

// What is added to the code of whatever hinders a save, so that it is no length.
pub(crate) const NOT_SAVED: u32 = 65536;

// What a save from a block with too few words answers.
pub(crate) const NO_IMAGE: u32 = NOT_SAVED + NO_STATE;

// The code of an answer.
pub(crate) fn code(answer: Answer) -> u32
    ensures { (result ≡ code_of (read_answer answer)) × (result < 65536) }
{
    256 * u32::from(number_of(answer)) + u32::from(place_of(answer))
}

// The code of what an ask is answered.
pub(crate) fn ask_code(asked: Result<bool, Refusal>) -> u32
    ensures { result ≡ code_of (read_asked asked) }
{
    match asked {
        Ok(held) => code(Ok(Reply::Answered(held))),
        Err(refusal) => code(Err(refusal)),
    }
}
