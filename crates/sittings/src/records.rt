// Records of kinds 1 to 15: what any bytes decode to.
ghost use Rattle.std.specs.Prelude.{◌≡◌};
ghost use Rattle.sittings.specs.Records.{well_formed, own_kind, own, decode};
ghost use Rattle.sittings.specs.Reading.{read_call, read_choice, read_decoded};

use crate::{Call, Choice, Step};
use graph::Role;
use seats::{Seat, records};

// A call as what a record decodes to.
fn formed(call: Call) -> Option<Step>
    ensures { read_decoded result ≡ well_formed (read_call call) }
{
    Some(Step { call })
}

// A call of kinds 13 to 15, likewise.
fn chosen(choice: Choice) -> Option<Step>
    ensures { read_decoded result ≡ well_formed (read_choice choice) }
{
    formed(Call::Choice(choice))
}

// What a kind makes of the two numbers beside it.
fn named(kind: u8, a: u8, b: u8) -> Option<Step>
    ensures { read_decoded result ≡ own_kind kind a b }
{
    match kind {
        13 => chosen(Choice::Exclude(Role(a), Role(b))),
        14 => chosen(Choice::Activate(Seat(a), Role(b))),
        15 => chosen(Choice::Deactivate(Seat(a), Role(b))),
        0..=12 | 16..=255 => None,
    }
}

// A record of kinds 13 to 15.
fn own(bytes: &[u8]) -> Option<Step>
    ensures { read_decoded result ≡ own bytes.now }
{
    if records::names_no_set(bytes) {
        named(bytes[0], bytes[1], bytes[2])
    } else {
        None
    }
}

// What any bytes decode to.
pub fn decode(bytes: &[u8]) -> Option<Step>
    ensures { read_decoded result ≡ decode bytes.now }
{
    let Some(step) = records::decode(bytes) else {
        return own(bytes);
    };
    match step.call {
        seats::Call::Change(edit) => formed(Call::Change(edit)),
        seats::Call::Request(request) => formed(Call::Request(request)),
    }
}
