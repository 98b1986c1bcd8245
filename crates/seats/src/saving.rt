// Saving: the image of a state, written to the front of a lent buffer.
ghost use Rattle.std.specs.Prelude.{◌≡◌, not, ◌∷◌, ◌+◌, ◌≤◌, ◌<◌, length, eqb};
ghost use Rattle.sets.specs.Sets.{empty, size, collect};
ghost use Rattle.graph.specs.Tables.{at};
ghost use Rattle.graph.specs.Graph.{privilege_count};
ghost use Rattle.graph.specs.Conflicts.{conflict};
ghost use Rattle.graph.specs.Reading.{read_set, sets_in};
ghost use Rattle.seats.specs.Seats.{seat_count};
ghost use Rattle.seats.specs.Bytes.{bytes_of};
ghost use Rattle.seats.specs.Written.{Written};
ghost use Rattle.seats.specs.Images.{privilege_bytes, entry_bytes, trailer_length, trailer};
ghost use Rattle.seats.specs.Promises.{SavePromise};
ghost use Rattle.seats.specs.Reading.{lent, read_counts};
ghost use Rattle.seats.specs.ImageWork.{Small, value_bytes, part_width, part_entries, row_entries, pair_entries};

use crate::image::{ConflictEntries, Part, RoleEntries, SeatEntries, distance};
use crate::writing::{put_number, put_set, unplaced};
use crate::{Counts, LentState};
use graph::drawing::ordinary_roles;
use graph::table::entry;
use graph::{Privilege, PrivilegeSet, Reason, Refusal, Role};
use sets::Set;

// An entry of a part: its key, then its value; gives how many bytes it has.
fn put_entry<P: Part>(buffer: &mut [u8], key: u8, value: u64) -> usize
    requires { part_width P.part ≤ length buffer.old }
    ensures { Written buffer.old 0 (key ∷ bytes_of (value_bytes P.part) value) buffer.new result × (result ≤ length buffer.old) }
{
    buffer[0] = key;
    1 + P::put_value(&mut buffer[1..], value)
}

// The entries of the keys in a part's table, ascending: the roles or the seats; gives how many bytes they have.
fn put_table<P: Part>(buffer: &mut [u8], keys: u64, table: &[u64]) -> usize
    requires { length (entry_bytes (value_bytes P.part) (part_entries P.part keys table.now)) ≤ length buffer.old }
    ensures { Written buffer.old 0 (entry_bytes (value_bytes P.part) (part_entries P.part keys table.now)) buffer.new result × (result ≤ length buffer.old) }
{
    let mut n: usize = 0;
    for k in keys.members() {
        n += put_entry::<P>(&mut buffer[n..], k, P::value_at(table, k as usize));
    }
    n
}

// The conflicts of a lower privilege with higher ones, likewise.
fn put_row(buffer: &mut [u8], lower: u8, row: PrivilegeSet) -> usize
    requires { length (entry_bytes privilege_bytes (row_entries lower (read_set row))) ≤ length buffer.old }
    ensures { Written buffer.old 0 (entry_bytes privilege_bytes (row_entries lower (read_set row))) buffer.new result × (result ≤ length buffer.old) }
{
    let mut n: usize = 0;
    for higher in row.members() {
        n += put_entry::<ConflictEntries>(&mut buffer[n..], lower, higher as u64);
    }
    n
}

// The higher privileges in conflict with a lower one; most have none, so that none is cut off.
fn row(conflicts: &[u64], lower: u8) -> PrivilegeSet
    ensures { read_set result ≡ collect privilege_count (conflict (sets_in conflicts.now) lower) }
{
    let all: PrivilegeSet = entry(conflicts, lower as usize);
    if all.is_empty() {
        return all;
    }
    all.above(Privilege(lower))
}

// The conflicts of one row more counted; most rows of an image are empty and cost no count.
fn counted(n: usize, row: PrivilegeSet) -> usize
    requires { n ≤ 2016 }
    ensures { result ≡ n + size privilege_count (read_set row) }
{
    if row.is_empty() {
        n
    } else {
        n + row.size() as usize
    }
}

// How many conflicts are declared.
fn count_conflicts(conflicts: &[u64]) -> usize
    ensures { (result ≡ length (pair_entries (sets_in conflicts.now))) × (result ≤ 2016) }
{
    let mut n: usize = 0;
    for lower in 0..64u8 {
        n = counted(n, row(conflicts, lower));
    }
    n
}

// The conflicts, row by row, likewise; most rows of an image are empty and cost no slice.
fn put_conflicts(buffer: &mut [u8], conflicts: &[u64]) -> usize
    requires { length (entry_bytes privilege_bytes (pair_entries (sets_in conflicts.now))) ≤ length buffer.old }
    ensures { Written buffer.old 0 (entry_bytes privilege_bytes (pair_entries (sets_in conflicts.now))) buffer.new result × (result ≤ length buffer.old) }
{
    let mut n: usize = 0;
    for lower in 0..64u8 {
        let row = row(conflicts, lower);
        if !row.is_empty() {
            n += put_row(&mut buffer[n..], lower, row);
        }
    }
    n
}

// The seats that have roles.
fn occupied(seats: &[u64]) -> u64
    ensures { result ≡ collect seat_count (λ i. not (eqb (at seats.now i) empty)) }
{
    (0..64usize).fold(0u64, |found, i| {
        let held: u64 = entry(seats, i);
        found.union(u64::single(i).when(held != 0))
    })
}

// The trailer.
fn put_trailer(buffer: &mut [u8], counts: Counts)
    requires { (trailer_length ≤ length buffer.old) × Small (read_counts counts) }
    ensures { Written buffer.old 0 (trailer (read_counts counts)) buffer.new trailer_length }
{
    put_number(buffer, 4, distance(counts) as u64);
    buffer[4] = counts.roles as u8;
    buffer[5] = counts.seats as u8;
    put_number(&mut buffer[6..], 2, counts.conflicts as u64);
}

// The image at the buffer's front and its length; refusal 9, before anything is touched, where the buffer is shorter.
pub fn save(state: LentState, buffer: &mut [u8]) -> Result<usize, Refusal>
    ensures { SavePromise (lent state.entry) buffer.old result buffer.new }
{
    let graph = state.graph;
    let ordinary = ordinary_roles(graph.roles);
    let taken = occupied(state.seats);
    let counts = Counts {
        roles: ordinary.size() as usize,
        seats: taken.size() as usize,
        conflicts: count_conflicts(state.conflicts),
    };
    let length = distance(counts);
    if buffer.len() < length {
        return Err(unplaced(Reason::BufferTooShort));
    }
    let mut n = put_set(buffer, graph.effective_of(Role(1)));
    n += put_table::<RoleEntries>(&mut buffer[n..], ordinary, graph.sets);
    n += put_conflicts(&mut buffer[n..], state.conflicts);
    n += put_table::<SeatEntries>(&mut buffer[n..], taken, state.seats);
    put_trailer(&mut buffer[n..], counts);
    Ok(length)
}
