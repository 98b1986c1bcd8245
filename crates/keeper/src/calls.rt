// The exported functions that start a sitting and take records.
ghost use Rattle.std.specs.Prelude.{◌≡◌};
ghost use Rattle.seats.specs.Reading.{read_answer};
ghost use Rattle.sittings.specs.Records.{step};
ghost use Rattle.keeper.specs.Block.{sitting_in};
ghost use Rattle.keeper.specs.Exports.{left};
ghost use Rattle.keeper.specs.BlockLists.{FreshPromise, CallPromise};

use crate::block::{WORDS, Words, begin};
use crate::changes::take_change;
use crate::choices::take_choice;
use crate::codes::{NO_STATE, code};
use crate::requests::take_request;
use graph::{Reason, Refusal};
use seats::{Answer, loading};
use sittings::{Call, records};

// Makes the block's sitting a fresh one.
#[unsafe(no_mangle)]
pub extern "C" fn keeper_fresh(block: &mut [u64]) -> u32
    ensures { FreshPromise block.old result block.new }
{
    let Some(words) = block.first_chunk_mut::<WORDS>() else {
        return NO_STATE;
    };
    begin(words, loading::fresh());
    0
}

// A record: refusal 1 before any field is looked at, or the call.
fn take(words: &mut Words, bytes: &[u8]) -> Answer
    ensures { (read_answer result, words.new) ≡ left (step (sitting_in words.old) bytes.now) }
{
    let Some(step) = records::decode(bytes) else {
        return Err(Refusal {
            reason: Reason::Malformed,
            place: 0,
        });
    };
    match step.call {
        Call::Change(edit) => take_change(words, edit),
        Call::Request(request) => take_request(words, request),
        Call::Choice(choice) => take_choice(words, choice),
    }
}

// Takes a record of any bytes.
#[unsafe(no_mangle)]
pub extern "C" fn keeper_call(block: &mut [u64], bytes: &[u8]) -> u32
    ensures { CallPromise block.old bytes.now result block.new }
{
    let Some(words) = block.first_chunk_mut::<WORDS>() else {
        return NO_STATE;
    };
    code(take(words, bytes))
}
