// The lines of a tape as text, written into a lent buffer.
ghost use Rattle.std.specs.Prelude.{◌≡◌, ◌+◌, ◌≤◌, ◌<◌, leb, length};
ghost use Rattle.seats.specs.Bytes.{fill};
ghost use Rattle.seats.specs.Tape.{digits, end_line};
ghost use Rattle.seats.specs.Reading.{read_answer, read_filled};
ghost use Rattle.seats.specs.Working.{tail_of, line_length, LinePut};
ghost use Rattle.seats.specs.Written.{Written};

use crate::Answer;
use crate::answers::{number_of, place_of};
use crate::writing::{digit_count, put_digits, unplaced};
use graph::{Reason, Refusal};

// How many bytes the longest line has.
pub const LINE: usize = 29;

// A space and a number, twice, and a line feed at the buffer's front; gives how many bytes they are.
fn tail(buffer: &mut [u8], x: u64, y: u64) -> usize
    requires { length (digits x) + length (digits y) + 3 ≤ length buffer.old }
    ensures { Written buffer.old 0 (tail_of x y) buffer.new result }
{
    buffer[0] = b' ';
    let space = 1 + put_digits(&mut buffer[1..], x);
    buffer[space] = b' ';
    let end = space + 1 + put_digits(&mut buffer[space + 1..], y);
    buffer[end] = b'\n';
    end + 1
}

// How many bytes the line of an index and two numbers has.
fn line_length(index: u64, x: u64, y: u64) -> usize
    ensures { result ≡ line_length index x y }
{
    digit_count(index) + digit_count(x) + digit_count(y) + 3
}

// Whether the line of an index and two bytes has room; where the longest line has, its length is not worked out.
fn has_room(room: usize, index: u64, x: u64, y: u64) -> bool
    requires { (x < 256) × (y < 256) }
    ensures { result ≡ leb (line_length index x y) room }
{
    LINE <= room || line_length(index, x, y) <= room
}

// The line of a record at the buffer's front where it has room, and nothing where it has none; gives the line's length.
pub fn put_line(buffer: &mut [u8], index: u64, answer: Answer) -> usize
    ensures { LinePut buffer.old index (read_answer answer) buffer.new result }
{
    let n = u64::from(number_of(answer));
    let p = u64::from(place_of(answer));
    if !has_room(buffer.len(), index, n, p) {
        return line_length(index, n, p);
    }
    let j = put_digits(buffer, index);
    j + tail(&mut buffer[j..], n, p)
}

// The last line at the front of the buffer, or refusal 9 where the buffer is shorter.
pub fn write_end(buffer: &mut [u8], count: u64, edges: u64) -> Result<usize, Refusal>
    ensures { (read_filled result, buffer.new) ≡ fill 9 (end_line count edges) buffer.old }
{
    if buffer.len() < digit_count(count) + digit_count(edges) + 6 {
        return Err(unplaced(Reason::BufferTooShort));
    }
    buffer[..3].copy_from_slice(b"end");
    Ok(3 + tail(&mut buffer[3..], count, edges))
}
