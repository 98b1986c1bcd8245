// Kinds 8 to 12 on a block: each changes one word of the conflicts or of the seats at the most, and kind 11 one of the active roles.
ghost use Rattle.std.specs.Prelude.{◌≡◌, Ok};
ghost use Rattle.seats.specs.Reading.{read_request, read_decision, read_answer};
ghost use Rattle.sittings.specs.Calls.{call, active_after, perform};
ghost use Rattle.sittings.specs.Reading.{sitting_of};
ghost use Rattle.keeper.specs.Block.{pairs_of, active_of, state_in, sitting_in, words_of};
ghost use Rattle.keeper.specs.Exports.{left};

use crate::block::{ACTIVE, CONFLICTS, PAIRS, SEATS, WORDS, Words, lent};
use graph::table::store;
use seats::{Answer, Decided, Reply, Request};

// Stores what a decision stores.
fn put_decided(words: &mut Words, decided: Decided)
    ensures { let W = words.old in words.new ≡ words_of (sitting_of (read_decision (state_in W) (Ok decided)).1 (pairs_of W) (active_of W)) }
{
    match decided {
        Decided::Conflicts(row) => store(&mut words[CONFLICTS..SEATS], row.at, row.set),
        Decided::Roles(row) => store(&mut words[SEATS..PAIRS], row.at, row.set),
        Decided::Answered(_) => {}
    }
}

// Kind 11, accepted: what no assigned role reaches any longer is switched off; no other request switches anything off.
fn switch_off(words: &mut Words, request: Request)
    ensures { let W = words.old in let s = state_in W in words.new ≡ words_of (sitting_of s (pairs_of W) (active_after (read_request request) s (active_of W))) }
{
    if let Request::Unassign(seat, _) = request {
        let row = lent(words).unassigned(seat);
        store(&mut words[ACTIVE..WORDS], row.at, row.set);
    }
}

// Takes a request.
pub(crate) fn take_request(words: &mut Words, request: Request) -> Answer
    ensures { (read_answer result, words.new) ≡ left (perform (sitting_in words.old) (call (read_request request))) }
{
    let decided = lent(words).state.decide(request)?;
    put_decided(words, decided);
    if let Decided::Answered(held) = decided {
        return Ok(Reply::Answered(held));
    }
    switch_off(words, request);
    Ok(Reply::Accepted)
}
