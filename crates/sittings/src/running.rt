// A part of a tape: one reader of it, and one sitting that is lent to the call of each record.
ghost use Rattle.std.specs.Prelude.{◌+◌, ◌^◌, ◌<◌, length};
ghost use Rattle.seats.specs.Tape.{records};
ghost use Rattle.seats.specs.Working.{PartRun};
ghost use Rattle.sittings.specs.Records.{step};
ghost use Rattle.sittings.specs.Reading.{read_sitting};

use crate::Sitting;
use crate::lent::call;
use seats::reader::TapeReader;
use seats::text;

// What a part of a tape comes to: the records so far, how many bytes its lines have, and the sitting after it.
#[derive(Clone, Copy)]
pub(crate) struct Ran {
    pub count: u64,
    pub length: usize,
    pub sitting: Sitting,
}

// The records of a part of a tape, one after another, on one sitting; a line that has no room is not written.
// The loop goes by the tape reader and by `call`, since document 01 names both forms.
pub(crate) fn run(sitting: Sitting, count: u64, part: &[u8], buffer: &mut [u8]) -> Ran
    requires { count + length (records part.now) < 2 ^ 64 }
    ensures { PartRun step (read_sitting sitting) count part.now buffer.old result.count result.length (read_sitting result.sitting) buffer.new }
{
    let mut sitting = sitting;
    let mut index = count;
    let mut length = 0;
    let mut reader = TapeReader::new(part);
    while !reader.ended() {
        let answer = call(&mut sitting, reader.next());
        reader = reader.moved();
        index += 1;
        let start = length.min(buffer.len());
        length += text::put_line(&mut buffer[start..], index, answer);
    }
    Ran {
        count: index,
        length,
        sitting,
    }
}
