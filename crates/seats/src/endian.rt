// Little-endian numbers and sets in bytes.
ghost use Rattle.std.specs.Prelude.{◌≡◌, ◌+◌, ◌^◌, ◌≤◌, ◌<◌, length};
ghost use Rattle.graph.specs.Reading.{read_set};
ghost use Rattle.seats.specs.Bytes.{number_at};
ghost use Rattle.seats.specs.Images.{set_bytes};

use graph::PrivilegeSet;

// The little-endian number of the bytes, of which there are at most eight.
pub(crate) fn number(bytes: &[u8]) -> u64
    requires { length bytes.now ≤ 8 }
    ensures { (result ≡ number_at (length bytes.now) 0 bytes.now) × (result < 256 ^ length bytes.now) }
{
    let mut word = [0; 8];
    word[..bytes.len()].copy_from_slice(bytes);
    u64::from_le_bytes(word)
}

// The set of privileges that the bytes hold.
pub(crate) fn set(bytes: &[u8]) -> PrivilegeSet
    requires { length bytes.now ≡ set_bytes }
    ensures { read_set result ≡ number_at set_bytes 0 bytes.now }
{
    PrivilegeSet {
        word: number(bytes),
    }
}
