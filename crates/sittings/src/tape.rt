// A tape fed in parts: the records of a part run from a sitting on, their lines written into a lent buffer.
ghost use Rattle.std.specs.Prelude.{◌≡◌, ◌||◌, ◌+◌, ◌*◌, ◌^◌, ◌<◌, leb, length};
ghost use Rattle.seats.specs.Tape.{records, fed};
ghost use Rattle.seats.specs.Working.{record_count, longest_line};
ghost use Rattle.sittings.specs.Records.{step};
ghost use Rattle.sittings.specs.Promises.{FreshPromise, FeedPromise};
ghost use Rattle.sittings.specs.Reading.{read_sitting};

use crate::loading::begun;
use crate::running::run;
use crate::{Fed, Sitting};
use graph::{Reason, Refusal};
use seats::records::RECORD;
use seats::text::LINE;
use seats::{FeedError, loading};

// A fresh sitting.
pub fn fresh() -> Sitting
    ensures { FreshPromise result }
{
    begun(loading::fresh())
}

// How many records so many bytes make, a partial last one among them.
fn record_count(bytes: usize) -> usize
    ensures { result ≡ record_count bytes }
{
    bytes / RECORD + (bytes % RECORD + RECORD - 1) / RECORD
}

// Whether the lines of a part have room; where the longest lines have, they are not measured.
fn can_feed(sitting: Sitting, count: u64, part: &[u8], room: usize) -> bool
    requires { count + length (records part.now) < 2 ^ 64 }
    ensures { result ≡ (leb (longest_line * length (records part.now)) room || leb (length (fed step (read_sitting sitting) count part.now).0) room) }
{
    if record_count(part.len()) <= room / LINE {
        return true;
    }
    let mut none = [0u8; 1];
    run(sitting, count, part, &mut none).length <= room
}

// A part of a tape, after so many records and from the sitting that they left.
pub fn feed(sitting: Sitting, count: u64, part: &[u8], buffer: &mut [u8]) -> Fed
    ensures { FeedPromise sitting count part.now buffer.old result buffer.new }
{
    if u64::MAX - count < record_count(part.len()) as u64 {
        return Fed {
            answer: Err(FeedError::Uncounted),
            count,
            sitting,
        };
    }
    if !can_feed(sitting, count, part, buffer.len()) {
        return Fed {
            answer: Err(FeedError::TooShort(Refusal {
                reason: Reason::BufferTooShort,
                place: 0,
            })),
            count,
            sitting,
        };
    }
    let ran = run(sitting, count, part, buffer);
    Fed {
        answer: Ok(ran.length),
        count: ran.count,
        sitting: ran.sitting,
    }
}
