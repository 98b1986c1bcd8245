// What saving and loading share: an image's parts, widths, distance and counts.
ghost use Rattle.std.specs.Prelude.{◌≡◌, true, [], ◌∷◌, ℕ, ◌^◌, ◌≤◌, ◌<◌, length};
ghost use Rattle.seats.specs.Bytes.{bytes_of, number_at};
ghost use Rattle.seats.specs.Images.{trailer_length, distance, counts_at};
ghost use Rattle.seats.specs.Reading.{read_counts};
ghost use Rattle.seats.specs.Written.{Written};
ghost use Rattle.seats.specs.ImageWork.{Small, Part, Roles, Conflicts, Seats, value_bytes, entry_of, entry_place, entry_passes, table_in, store_entries, value_of};

use crate::Counts;
use crate::endian::{number, set};
use crate::writing::{put_number, put_set};
use graph::table::{entry, store};
use graph::{Privilege, PrivilegeSet};
use sets::Set;

// How many bytes a set of privileges takes, a set of roles, and a privilege.
pub(crate) const SET: usize = 8;

pub(crate) const ROLE_SET: usize = 8;

pub(crate) const PRIVILEGE: usize = 1;

// How many bytes an entry takes: of a role, of a conflict, of a seat.
pub(crate) const ROLE_ENTRY: usize = 1 + SET;

pub(crate) const CONFLICT_ENTRY: usize = 1 + PRIVILEGE;

pub(crate) const SEAT_ENTRY: usize = 1 + ROLE_SET;

// How many bytes the trailer takes, and an image without an entry.
pub(crate) const TRAILER: usize = 8;

pub(crate) const LEAST: usize = SET + TRAILER;

// A part of an image that is entries, each of a key and a value: how they are read, told and written, and what is made of them in a table.
pub(crate) trait Part {
    // The part of the definitions that it is.
    ghost part: { Part };

    // How many bytes the value of an entry takes.
    fn value_bytes() -> usize
        ensures { (result ≡ value_bytes part) × (result ≤ 8) };

    // The value that the bytes of one hold.
    fn value_in(bytes: &[u8]) -> u64
        requires { length bytes.now ≡ value_bytes part }
        ensures { (result ≡ number_at (value_bytes part) 0 bytes.now) × (result < 256 ^ value_bytes part) };

    // The bytes of a value; gives how many they are.
    fn put_value(buffer: &mut [u8], value: u64) -> usize
        requires { value_bytes part ≤ length buffer.old }
        ensures { Written buffer.old 0 (bytes_of (value_bytes part) value) buffer.new result × (result ≤ length buffer.old) };

    // The place of an entry in the order of the part.
    fn place(key: u8, value: u64) -> usize
        requires { value < 256 ^ value_bytes part }
        ensures { (result ≡ entry_place part (entry_of key value)) × (result < 65536) };

    // Whether an entry passes, where these roles are present.
    fn passes(key: u8, value: u64, present: u64) -> bool
        ensures { result ≡ entry_passes part present (entry_of key value) };

    // Stores an entry that passes.
    fn put(table: &mut [u64], key: u8, value: u64)
        requires { value < 256 ^ value_bytes part }
        ensures { (present : ℕ) → entry_passes part present (entry_of key value) ≡ true → table_in part table.new ≡ store_entries part (entry_of key value ∷ []) (table_in part table.old) };

    // The value of the entry that a table has for a number.
    fn value_at(table: &[u64], n: usize) -> u64
        ensures { result ≡ value_of part table.now n };
}

// The lowest number of an ordinary role.
const LEAST_ORDINARY: u8 = 2;

// The roles, each with its set of privileges.
pub(crate) struct RoleEntries;

impl Part for RoleEntries {
    ghost part = { Roles };

    fn value_bytes() -> usize {
        SET
    }

    fn value_in(bytes: &[u8]) -> u64 {
        set(bytes).word()
    }

    fn put_value(buffer: &mut [u8], value: u64) -> usize {
        put_set(buffer, PrivilegeSet { word: value })
    }

    fn place(key: u8, _value: u64) -> usize {
        usize::from(key)
    }

    fn passes(key: u8, _value: u64, _present: u64) -> bool {
        LEAST_ORDINARY <= key && key < 64
    }

    fn put(table: &mut [u64], key: u8, value: u64) {
        store(table, usize::from(key), PrivilegeSet { word: value });
    }

    fn value_at(table: &[u64], n: usize) -> u64 {
        entry::<PrivilegeSet>(table, n).word()
    }
}

// The conflicts, each of a lower privilege with a higher one.
pub(crate) struct ConflictEntries;

impl Part for ConflictEntries {
    ghost part = { Conflicts };

    fn value_bytes() -> usize {
        PRIVILEGE
    }

    fn value_in(bytes: &[u8]) -> u64 {
        number(bytes)
    }

    fn put_value(buffer: &mut [u8], value: u64) -> usize {
        put_number(buffer, PRIVILEGE, value);
        PRIVILEGE
    }

    fn place(key: u8, value: u64) -> usize {
        256 * usize::from(key) + value as usize
    }

    fn passes(key: u8, value: u64, _present: u64) -> bool {
        u64::from(key) < value && value < 64
    }

    fn put(table: &mut [u64], key: u8, value: u64) {
        let lower = usize::from(key);
        let row: PrivilegeSet = entry(table, lower);
        let higher = PrivilegeSet::single(Privilege(value as u8));
        store(table, lower, row.union(higher));
    }

    fn value_at(_table: &[u64], n: usize) -> u64 {
        n as u64
    }
}

// The seats, each with the set of its roles.
pub(crate) struct SeatEntries;

impl Part for SeatEntries {
    ghost part = { Seats };

    fn value_bytes() -> usize {
        ROLE_SET
    }

    fn value_in(bytes: &[u8]) -> u64 {
        number(bytes)
    }

    fn put_value(buffer: &mut [u8], value: u64) -> usize {
        put_number(buffer, ROLE_SET, value);
        ROLE_SET
    }

    fn place(key: u8, _value: u64) -> usize {
        usize::from(key)
    }

    fn passes(key: u8, value: u64, present: u64) -> bool {
        key < 64 && value != 0 && value.included(present)
    }

    fn put(table: &mut [u64], key: u8, value: u64) {
        store(table, usize::from(key), value);
    }

    fn value_at(table: &[u64], n: usize) -> u64 {
        entry(table, n)
    }
}

// The distance from an image's end back to its start.
pub(crate) fn distance(counts: Counts) -> usize
    requires { Small (read_counts counts) }
    ensures { (result ≡ distance (read_counts counts)) × (result < 140000) }
{
    LEAST
        + ROLE_ENTRY * counts.roles
        + SEAT_ENTRY * counts.seats
        + CONFLICT_ENTRY * counts.conflicts
}

// The counts in the trailer that ends the bytes.
pub(crate) fn counts_at_end(bytes: &[u8]) -> Counts
    requires { trailer_length ≤ length bytes.now }
    ensures { (read_counts result ≡ counts_at bytes.now (length bytes.now)) × Small (read_counts result) }
{
    let end = bytes.len();
    Counts {
        roles: usize::from(bytes[end - 4]),
        seats: usize::from(bytes[end - 3]),
        conflicts: number(&bytes[end - 2..]) as usize,
    }
}
