// Records of 32 bytes: what any bytes decode to, and the record of a call of kind 2.
ghost use Rattle.std.specs.Prelude.{◌≡◌, cond, ◌&&◌, [], ◌∷◌, ◌≤◌, min, length, get_or, leb, eqb};
ghost use Rattle.graph.specs.Reading.{read_set, read_removal, read_change};
ghost use Rattle.seats.specs.Bytes.{number_at, fill};
ghost use Rattle.seats.specs.Calls.{change};
ghost use Rattle.seats.specs.Records.{record_length, malformed, well_formed, fields, record_of, all_empty, unused as no_sets, kinds, decode};
ghost use Rattle.seats.specs.Reading.{read_call, read_request, read_decoded, read_fields, read_filled};
ghost use Rattle.seats.specs.Working.{fields_of};

use crate::endian::{number, set};
use crate::writing::{put_number, put_set, unplaced};
use crate::{Call, Request, Seat, Step};
use graph::{Change, Privilege, PrivilegeSet, Reason, Refusal, Removal, Role};
use sets::Set;

// How many bytes a record has.
pub const RECORD: usize = 32;

// The fields of a record beside its kind: a, b, and the sets at 8, 16 and 24.
#[derive(Clone, Copy)]
pub(crate) struct Fields {
    pub a: u8,
    pub b: u8,
    pub x: PrivilegeSet,
    pub y: u64,
    pub z: u64,
}

// The fields of a record.
fn fields_in(bytes: &[u8]) -> Fields
    requires { length bytes.now ≡ record_length }
    ensures { read_fields result ≡ fields bytes.now }
{
    Fields {
        a: bytes[1],
        b: bytes[2],
        x: set(&bytes[8..16]),
        y: number(&bytes[16..24]),
        z: number(&bytes[24..]),
    }
}

// Whether bytes have a record's length and zeros in bytes 3 to 7.
fn is_record(bytes: &[u8]) -> bool
    ensures { result ≡ (eqb (length bytes.now) record_length && eqb (number_at 5 3 bytes.now) 0) }
{
    bytes.len() == RECORD && number(&bytes[3..8]) == 0
}

// Whether a set of privileges and two sets of roles are empty.
fn unused(x: PrivilegeSet, y: u64, z: u64) -> bool
    ensures { result ≡ all_empty (read_set x ∷ y ∷ z ∷ []) }
{
    x.is_empty() && y == 0 && z == 0
}

// The call, where b is no more than its kind allows and the sets that it does not name are empty.
fn formed(b: u8, most: u8, rest: bool, call: Call) -> Option<Step>
    ensures { read_decoded result ≡ cond (leb b most && rest) (well_formed (read_call call)) malformed }
{
    if b <= most && rest {
        Some(Step { call })
    } else {
        None
    }
}

// The change of the graph that a record carries, likewise.
fn decoded_change(b: u8, most: u8, rest: bool, edit: Change) -> Option<Step>
    ensures { read_decoded result ≡ cond (leb b most && rest) (well_formed (change (read_change edit))) malformed }
{
    formed(b, most, rest, Call::Change(edit))
}

// The request that a record carries, likewise.
fn decoded_request(b: u8, rest: bool, request: Request) -> Option<Step>
    ensures { read_decoded result ≡ cond (leb b 255 && rest) (well_formed (read_request request)) malformed }
{
    formed(b, 255, rest, Call::Request(request))
}

// What a removal's b says of the role's direct privileges; no well-formed record has more than 1.
// A function, since `Removal` and `u8` both belong to other crates, and `From` may not join these here.
fn removal(b: u8) -> Removal
    ensures { read_removal result ≡ min b 1 }
{
    if b == 0 {
        Removal::Dropped
    } else {
        Removal::HandedUp
    }
}

// What a kind makes of the fields beside it.
fn named(kind: u8, fields: Fields) -> Option<Step>
    ensures { read_decoded result ≡ get_or (malformed ∷ kinds (read_fields fields)) kind malformed }
{
    let Fields { a, b, x, y, z } = fields;
    let none = unused(x, y, z);
    match kind {
        1 => decoded_change(b, 0, true, Change::AddByPlace(Role(a), x, y, z)),
        2 => decoded_change(
            b,
            0,
            unused(PrivilegeSet::empty(), y, z),
            Change::AddByPrivileges(Role(a), x),
        ),
        3 => decoded_change(b, 1, none, Change::RemoveRole(Role(a), removal(b))),
        4 => decoded_change(b, 255, none, Change::Grant(Role(a), Privilege(b))),
        5 => decoded_change(b, 255, none, Change::Withdraw(Role(a), Privilege(b))),
        6 => decoded_change(b, 255, none, Change::AddEdge(Role(a), Role(b))),
        7 => decoded_change(b, 255, none, Change::RemoveEdge(Role(a), Role(b))),
        8 => decoded_request(b, none, Request::Declare(Privilege(a), Privilege(b))),
        9 => decoded_request(b, none, Request::Lift(Privilege(a), Privilege(b))),
        10 => decoded_request(b, none, Request::Assign(Seat(a), Role(b))),
        11 => decoded_request(b, none, Request::Unassign(Seat(a), Role(b))),
        12 => decoded_request(b, none, Request::Ask(Seat(a), Privilege(b))),
        0 | 13..=255 => None,
    }
}

// What any bytes decode to.
pub fn decode(bytes: &[u8]) -> Option<Step>
    ensures { read_decoded result ≡ decode bytes.now }
{
    if !is_record(bytes) {
        return None;
    }
    named(bytes[0], fields_in(bytes))
}

// Whether any bytes have a record's length, zeros in bytes 3 to 7 and no sets.
pub fn names_no_set(bytes: &[u8]) -> bool
    ensures { let l = bytes.now in result ≡ (eqb (length l) record_length && (eqb (number_at 5 3 l) 0 && no_sets 0 (fields l))) }
{
    if !is_record(bytes) {
        return false;
    }
    let fields = fields_in(bytes);
    unused(fields.x, fields.y, fields.z)
}

// The record that adds a role by its privileges, kind 2, at the buffer's front; or refusal 9 where the buffer is shorter.
pub fn write_add_by_privileges(
    buffer: &mut [u8],
    role: Role,
    own: PrivilegeSet,
) -> Result<usize, Refusal>
    ensures { (read_filled result, buffer.new) ≡ fill 9 (record_of 2 (fields_of role.0 0 (read_set own) 0 0)) buffer.old }
{
    if buffer.len() < RECORD {
        return Err(unplaced(Reason::BufferTooShort));
    }
    buffer[0] = 2;
    buffer[1] = role.0;
    put_number(&mut buffer[2..], 6, 0);
    put_set(&mut buffer[8..], own);
    put_number(&mut buffer[16..], 8, 0);
    put_number(&mut buffer[24..], 8, 0);
    Ok(RECORD)
}
