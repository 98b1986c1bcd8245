// What a seat has and holds, and kind 12.
ghost use Rattle.std.specs.Prelude.{◌≡◌};
ghost use Rattle.graph.specs.Tables.{at};
ghost use Rattle.graph.specs.Reading.{read_set};
ghost use Rattle.seats.specs.Seats.{held};
ghost use Rattle.seats.specs.Records.{step};
ghost use Rattle.seats.specs.ListTheorem.{ask_record};
ghost use Rattle.seats.specs.Asks.{yes_count};
ghost use Rattle.seats.specs.Reading.{lent, read_asked};

use crate::{LentState, Seat};
use graph::table::{entry, union_at};
use graph::{Privilege, PrivilegeSet, Reason, Refusal};
use sets::Set;

impl<'a> LentState<'a> {
    // The roles of a seat.
    pub fn roles_of(self, seat: Seat) -> u64
        ensures { result ≡ at self.entry.seats.now seat.0 }
    {
        entry(self.seats, seat.0 as usize)
    }

    // What a seat holds.
    pub fn held_by(self, seat: Seat) -> PrivilegeSet
        ensures { read_set result ≡ held (lent self.entry) seat.0 }
    {
        union_at(self.graph.sets, self.roles_of(seat))
    }

    // Kind 12: what a record that asks would be answered next.
    pub fn ask(self, seat: Seat, privilege: Privilege) -> Result<bool, Refusal>
        ensures { read_asked result ≡ (step (lent self.entry) (ask_record seat.0 privilege.0)).0 }
    {
        if 64 <= seat.0 {
            return Err(Refusal {
                reason: Reason::UnknownNumber,
                place: seat.0,
            });
        }
        if 64 <= privilege.0 {
            return Err(Refusal {
                reason: Reason::UnknownNumber,
                place: privilege.0,
            });
        }
        Ok(self.held_by(seat).member(privilege))
    }

    // How many of these asks, two bytes each, a seat and a privilege, are answered yes; a byte left over asks nothing.
    pub fn count_yes(self, asks: &[u8]) -> u64
        ensures { result ≡ yes_count (lent self.entry) asks.now }
    {
        let mut count: u64 = 0;
        for pair in asks.chunks_exact(2) {
            let answer = self.ask(Seat(pair[0]), Privilege(pair[1]));
            count += u64::from(answer.unwrap_or(false));
        }
        count
    }
}
