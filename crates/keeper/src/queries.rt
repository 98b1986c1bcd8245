// What a block's state shows: exported functions that change nothing.
ghost use Rattle.std.specs.Prelude.{◌≡◌};
ghost use Rattle.keeper.specs.Exports.{may_block, ask_block, count_yes_block, edge_count_block, effective_block, direct_block, juniors_block, seniors_block, below_block, declared_block, seat_roles_block, held_block};

use crate::block::held;
use crate::codes::{NO_STATE, ask_code};
use graph::{Privilege, Role, declaring};
use seats::Seat;
use sets::Set;

// Whether the seat may use the privilege by its assigned roles; a number that no record carries is answered no.
#[unsafe(no_mangle)]
pub extern "C" fn keeper_may(block: &[u64], seat: u32, privilege: u32) -> bool
    ensures { result ≡ may_block block.now seat privilege }
{
    let Some(sitting) = held(block) else {
        return false;
    };
    if 255 < seat {
        return false;
    }
    if 255 < privilege {
        return false;
    }
    sitting
        .state
        .ask(Seat(seat as u8), Privilege(privilege as u8))
        .unwrap_or(false)
}

// What a record that asks would be answered next: 1 for yes, 0 for no, or a refusal's code.
#[unsafe(no_mangle)]
pub extern "C" fn keeper_ask(block: &[u64], seat: u8, privilege: u8) -> u32
    ensures { result ≡ ask_block block.now seat privilege }
{
    let Some(sitting) = held(block) else {
        return NO_STATE;
    };
    ask_code(sitting.state.ask(Seat(seat), Privilege(privilege)))
}

// How many of these asks, two bytes each, a seat and a privilege, are answered yes.
#[unsafe(no_mangle)]
pub extern "C" fn keeper_count_yes(block: &[u64], asks: &[u8]) -> u64
    ensures { result ≡ count_yes_block block.now asks.now }
{
    let Some(sitting) = held(block) else {
        return 0;
    };
    sitting.state.count_yes(asks)
}

// How many edges are drawn.
#[unsafe(no_mangle)]
pub extern "C" fn keeper_edge_count(block: &[u64]) -> u32
    ensures { result ≡ edge_count_block block.now }
{
    let Some(sitting) = held(block) else {
        return 0;
    };
    sitting.state.graph.edge_count()
}

// The effective privileges of a role.
#[unsafe(no_mangle)]
pub extern "C" fn keeper_effective(block: &[u64], role: u8) -> u64
    ensures { result ≡ effective_block block.now role }
{
    let Some(sitting) = held(block) else {
        return 0;
    };
    sitting.state.graph.effective_of(Role(role)).word()
}

// The direct privileges of a role.
#[unsafe(no_mangle)]
pub extern "C" fn keeper_direct(block: &[u64], role: u8) -> u64
    ensures { result ≡ direct_block block.now role }
{
    let Some(sitting) = held(block) else {
        return 0;
    };
    sitting.state.graph.direct_of(Role(role)).word()
}

// The immediate juniors of a role.
#[unsafe(no_mangle)]
pub extern "C" fn keeper_juniors(block: &[u64], role: u8) -> u64
    ensures { result ≡ juniors_block block.now role }
{
    let Some(sitting) = held(block) else {
        return 0;
    };
    sitting.state.graph.juniors_of(Role(role))
}

// The immediate seniors of a role.
#[unsafe(no_mangle)]
pub extern "C" fn keeper_seniors(block: &[u64], role: u8) -> u64
    ensures { result ≡ seniors_block block.now role }
{
    let Some(sitting) = held(block) else {
        return 0;
    };
    sitting.state.graph.seniors_of(Role(role))
}

// Whether the first role lies below the second.
#[unsafe(no_mangle)]
pub extern "C" fn keeper_is_below(block: &[u64], junior: u8, senior: u8) -> bool
    ensures { result ≡ below_block block.now junior senior }
{
    let Some(sitting) = held(block) else {
        return false;
    };
    sitting.state.graph.is_below(Role(junior), Role(senior))
}

// Whether the conflict of two privileges is declared.
#[unsafe(no_mangle)]
pub extern "C" fn keeper_is_declared(block: &[u64], first: u8, second: u8) -> bool
    ensures { result ≡ declared_block block.now first second }
{
    let Some(sitting) = held(block) else {
        return false;
    };
    declaring::is_declared(sitting.state.conflicts, Privilege(first), Privilege(second))
}

// The roles of a seat.
#[unsafe(no_mangle)]
pub extern "C" fn keeper_seat_roles(block: &[u64], seat: u8) -> u64
    ensures { result ≡ seat_roles_block block.now seat }
{
    let Some(sitting) = held(block) else {
        return 0;
    };
    sitting.state.roles_of(Seat(seat))
}

// What a seat holds: the union of its roles' sets.
#[unsafe(no_mangle)]
pub extern "C" fn keeper_seat_holds(block: &[u64], seat: u8) -> u64
    ensures { result ≡ held_block block.now seat }
{
    let Some(sitting) = held(block) else {
        return 0;
    };
    sitting.state.held_by(Seat(seat)).word()
}
