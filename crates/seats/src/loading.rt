// Loading: the state of the image that ends any bytes, or the refusal of it.
ghost use Rattle.std.specs.Prelude.{◌≡◌, not, cond, ◌&&◌, ◌+◌, ◌/◌, ◌≤◌, length, replicate};
ghost use Rattle.sets.specs.Counting.{any};
ghost use Rattle.sets.specs.Sets.{empty, included};
ghost use Rattle.graph.specs.Graph.{role_count, privilege_count, max_role, ordinary, effective};
ghost use Rattle.graph.specs.Refusing.{passed, verdict};
ghost use Rattle.graph.specs.Refusing as refusing;
ghost use Rattle.graph.specs.Reading.{sets_in, drawn};
ghost use Rattle.seats.specs.Seats.{seat_count};
ghost use Rattle.seats.specs.Images.{distance, entries_at, contents, content_checks, trailer_length, far_at, load_contents, image_verdict};
ghost use Rattle.seats.specs.Reading.{state_of, lent, read_image, read_counts};
ghost use Rattle.seats.specs.Promises.{FreshPromise, ReadPromise, LoadPromise, MeasurePromise};
ghost use Rattle.seats.specs.ImageWork.{value_bytes, part_width, table_in, EntriesRead, ContentsRead};

use crate::endian::{number, set};
use crate::image::{
    CONFLICT_ENTRY, ConflictEntries, LEAST, Part, ROLE_ENTRY, RoleEntries, SEAT_ENTRY, SET,
    SeatEntries, TRAILER, counts_at_end, distance,
};
use crate::writing::unplaced;
use crate::{Counts, LentState, Loaded, Reply, State};
use graph::drawing::ordinary_roles;
use graph::table::store;
use graph::{Reason, Refusal, Role, RoleGraph};
use sets::Set;

// Stores the entries of a part that the bytes hold, strictly ascending, in its table, and gives the set of their keys, or nothing where one is refused; the roles of a seat must be among those present.
fn read_entries<P: Part>(entries: &[u8], present: u64, table: &mut [u64]) -> Option<u64>
    ensures { EntriesRead P.part present (entries_at (value_bytes P.part) 0 (length entries.now / part_width P.part) entries.now) (table_in P.part table.old) (table_in P.part table.new) result }
{
    let value_bytes = P::value_bytes();
    let mut keys = 0;
    let mut low = 0;
    for entry in entries.chunks_exact(1 + value_bytes) {
        let key = entry[0];
        let value = P::value_in(&entry[1..]);
        let place = P::place(key, value);
        if place < low || !P::passes(key, value, present) {
            return None;
        }
        P::put(table, key, value);
        keys = keys.union(u64::single(usize::from(key)));
        low = place + 1;
    }
    Some(keys)
}

// Stores the contents at the start of the bytes, so many, in tables without a set; gives the roles, or nothing where an entry is refused.
fn read_contents(
    bytes: &[u8],
    counts: Counts,
    sets: &mut [u64],
    conflicts: &mut [u64],
    seats: &mut [u64],
) -> Option<u64>
    requires counts_in_bounds { distance (read_counts counts) ≤ length bytes.now }
    requires empty_sets { sets_in sets.old ≡ replicate role_count empty }
    requires empty_conflicts { sets_in conflicts.old ≡ replicate privilege_count empty }
    requires empty_seats { seats.old ≡ replicate seat_count empty }
    ensures { ContentsRead (contents bytes.now 0 (read_counts counts)) (λ roles. state_of roles sets.new conflicts.new seats.new) result }
{
    let conflicts_at = SET + ROLE_ENTRY * counts.roles;
    let seats_at = conflicts_at + CONFLICT_ENTRY * counts.conflicts;
    let end = seats_at + SEAT_ENTRY * counts.seats;
    store(sets, 1, set(&bytes[..SET]));
    let roles = read_entries::<RoleEntries>(&bytes[SET..conflicts_at], 0, sets)?;
    read_entries::<ConflictEntries>(&bytes[conflicts_at..seats_at], 0, conflicts)?;
    read_entries::<SeatEntries>(&bytes[seats_at..end], roles, seats)?;
    Some(roles)
}

// Whether MaxRole lacks a privilege of some ordinary role.
fn max_lacks(graph: RoleGraph) -> bool
    ensures { let g = drawn graph.entry in result ≡ any role_count (λ r. ordinary g r && not (included (effective g r) (effective g max_role))) }
{
    let top = graph.effective_of(Role(1));
    ordinary_roles(graph.roles)
        .members()
        .any(|r| !graph.effective_of(Role(r)).included(top))
}

// Whether no condition of refusal 8 holds of a state, tested in their order.
fn is_sound(state: LentState) -> bool
    ensures { verdict (content_checks (lent state.entry)) ≡ cond result passed (refusing.refused 8 0) }
{
    let graph = state.graph;
    if graph.empty_role().is_some() {
        return false;
    }
    if graph.twin_role().is_some() {
        return false;
    }
    if graph.pair_role(state.conflicts).is_some() {
        return false;
    }
    if state.pair_seat().is_some() {
        return false;
    }
    !max_lacks(graph)
}

// The distance in the trailer.
fn far_back(bytes: &[u8]) -> usize
    requires { trailer_length ≤ length bytes.now }
    ensures { result ≡ far_at bytes.now (length bytes.now) }
{
    let at = bytes.len() - TRAILER;
    number(&bytes[at..at + 4]) as usize
}

// A fresh state.
pub fn fresh() -> State
    ensures { FreshPromise result }
{
    State {
        roles: 0,
        sets: [0; 64],
        conflicts: [0; 64],
        seats: [0; 64],
    }
}

// The state that the contents at the start of the bytes describe, or the refusal of them.
fn read_state(bytes: &[u8], counts: Counts) -> Result<State, Refusal>
    requires { distance (read_counts counts) ≤ length bytes.now }
    ensures { read_image result ≡ image_verdict (load_contents (contents bytes.now 0 (read_counts counts))) }
{
    let mut state = fresh();
    let read = read_contents(
        bytes,
        counts,
        &mut state.sets,
        &mut state.conflicts,
        &mut state.seats,
    );
    let Some(roles) = read else {
        return Err(unplaced(Reason::BadEntry));
    };
    state.roles = roles;
    if !is_sound(state.lent()) {
        return Err(unplaced(Reason::UnsoundImage));
    }
    Ok(state)
}

// The state of the image that ends the bytes, or the refusal of it.
pub fn read_image(bytes: &[u8]) -> Result<State, Refusal>
    ensures { ReadPromise bytes.now result }
{
    let end = bytes.len();
    if end < LEAST {
        return Err(unplaced(Reason::NoImage));
    }
    let far = far_back(bytes);
    let counts = counts_at_end(bytes);
    if far != distance(counts) || end < far {
        return Err(unplaced(Reason::NoImage));
    }
    read_state(&bytes[end - far..], counts)
}

// The state of the image that ends the bytes; a refused load keeps the state at hand.
pub fn load(state: State, bytes: &[u8]) -> Loaded
    ensures { LoadPromise state bytes.now result.answer result.state }
{
    match read_image(bytes) {
        Ok(read) => Loaded {
            answer: Ok(Reply::Accepted),
            state: read,
        },
        Err(refusal) => Loaded {
            answer: Err(refusal),
            state,
        },
    }
}

// How long the image is that ends the bytes, or the refusal of loading it.
pub fn image_length(bytes: &[u8]) -> Result<usize, Refusal>
    ensures { MeasurePromise bytes.now result }
{
    read_image(bytes)?;
    Ok(far_back(bytes))
}
