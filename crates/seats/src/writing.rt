// What is written to the front of a lent buffer: a number's bytes, a set's bytes, and a number's base-ten digits.
ghost use Rattle.std.specs.Prelude.{◌≡◌, ◌≤◌, length};
ghost use Rattle.graph.specs.Reading.{read_set};
ghost use Rattle.seats.specs.Bytes.{bytes_of};
ghost use Rattle.seats.specs.Written.{Written};
ghost use Rattle.seats.specs.Tape.{digits};
ghost use Rattle.seats.specs.Images.{set_bytes};

use crate::image::SET;
use graph::{PrivilegeSet, Reason, Refusal};

// A refusal at place 0, as those of buffers and images are.
pub(crate) fn unplaced(reason: Reason) -> Refusal
    ensures { result ≡ record { reason = reason; place = 0 } }
{
    Refusal { reason, place: 0 }
}

// The n bytes of x, little-endian.
pub(crate) fn put_number(buffer: &mut [u8], n: usize, x: u64)
    requires { (n ≤ 8) × (n ≤ length buffer.old) }
    ensures { Written buffer.old 0 (bytes_of n x) buffer.new n }
{
    buffer[..n].copy_from_slice(&x.to_le_bytes()[..n]);
}

// The bytes of a set of privileges; gives how many they are.
pub(crate) fn put_set(buffer: &mut [u8], s: PrivilegeSet) -> usize
    requires { set_bytes ≤ length buffer.old }
    ensures { Written buffer.old 0 (bytes_of set_bytes (read_set s)) buffer.new result × (result ≤ length buffer.old) }
{
    put_number(buffer, SET, s.word);
    SET
}

// How many digits a number has, at most 20.
pub(crate) fn digit_count(x: u64) -> usize
    ensures { (result ≡ length (digits x)) × (result ≤ 20) }
{
    match x.checked_ilog10() {
        Some(power) => power as usize + 1,
        None => 1,
    }
}

// The digits of a number; gives how many they are.
pub(crate) fn put_digits(buffer: &mut [u8], x: u64) -> usize
    requires { length (digits x) ≤ length buffer.old }
    ensures { Written buffer.old 0 (digits x) buffer.new result }
{
    let last = if x < 10 {
        0
    } else {
        put_digits(buffer, x / 10)
    };
    buffer[last] = 48 + (x % 10) as u8;
    last + 1
}
