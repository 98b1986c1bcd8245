// What a block's pairs and active roles show: exported functions that change nothing.
ghost use Rattle.std.specs.Prelude.{◌≡◌};
ghost use Rattle.keeper.specs.Exports.{may_active_block, ask_active_block, active_roles_block, excluded_block};

use crate::block::held;
use crate::codes::{NO_STATE, ask_code};
use graph::table::entry;
use graph::{Privilege, Role};
use seats::Seat;
use sittings::choosing;

// Whether the seat may use the privilege by its active roles; a number that is no byte is answered no.
#[unsafe(no_mangle)]
pub extern "C" fn keeper_may_active(block: &[u64], seat: u32, privilege: u32) -> bool
    ensures { result ≡ may_active_block block.now seat privilege }
{
    let Some(sitting) = held(block) else {
        return false;
    };
    if 255 < seat {
        return false;
    }
    if 255 < privilege {
        return false;
    }
    sitting.may_active(Seat(seat as u8), Privilege(privilege as u8))
}

// What the question is answered: 1 for yes, 0 for no, or a refusal's code.
#[unsafe(no_mangle)]
pub extern "C" fn keeper_ask_active(block: &[u64], seat: u8, privilege: u8) -> u32
    ensures { result ≡ ask_active_block block.now seat privilege }
{
    let Some(sitting) = held(block) else {
        return NO_STATE;
    };
    ask_code(sitting.ask_active(Seat(seat), Privilege(privilege)))
}

// The active roles of a seat.
#[unsafe(no_mangle)]
pub extern "C" fn keeper_active_roles(block: &[u64], seat: u8) -> u64
    ensures { result ≡ active_roles_block block.now seat }
{
    let Some(sitting) = held(block) else {
        return 0;
    };
    entry(sitting.active, seat as usize)
}

// Whether two roles exclude each other.
#[unsafe(no_mangle)]
pub extern "C" fn keeper_is_excluded(block: &[u64], first: u8, second: u8) -> bool
    ensures { result ≡ excluded_block block.now first second }
{
    let Some(sitting) = held(block) else {
        return false;
    };
    choosing::is_excluded(sitting.pairs, Role(first), Role(second))
}
