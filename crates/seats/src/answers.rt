// Answers: the number and the place that stand for one.
ghost use Rattle.std.specs.Prelude.{◌≡◌, Ok};
ghost use Rattle.seats.specs.Tape.{answer_number, answer_place};
ghost use Rattle.seats.specs.Reading.{read_answer};

use crate::{Answer, Reply};

// The number that stands for an answer.
pub fn number_of(answer: Answer) -> u8
    ensures { result ≡ answer_number (read_answer answer) }
{
    match answer {
        Ok(_) => 0,
        Err(refusal) => refusal.reason.number(),
    }
}

// The place of a reply: an ask's yes has place 1.
fn place_of_reply(reply: Reply) -> u8
    ensures { result ≡ answer_place (read_answer (Ok reply)) }
{
    match reply {
        Reply::Accepted => 0,
        Reply::Answered(held) => u8::from(held),
    }
}

// The place that stands for an answer.
pub fn place_of(answer: Answer) -> u8
    ensures { result ≡ answer_place (read_answer answer) }
{
    match answer {
        Ok(reply) => place_of_reply(reply),
        Err(refusal) => refusal.place,
    }
}
