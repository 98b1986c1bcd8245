// The rows of a sheet, one after the other: counted, and written as records.
ghost use Rattle.std.specs.Prelude.{◌*◌, ◌≤◌, ◌≡◌, length};
ghost use Rattle.seats.specs.Records.{record_length};
ghost use Rattle.seats.specs.Written.{Written};
ghost use Rattle.sheets.specs.Parsing.{rows};
ghost use Rattle.sheets.specs.Working.{counted, known_records};

use crate::ImportError;
use crate::lines::read_row;
use seats::records::{RECORD, write_add_by_privileges};

// How many rows a text behind a heading has; or its first bad one.
// The rows are counted by hand, since the count is the answer and each row says where the next one starts.
pub(crate) fn count_rows(text: &[u8], columns: &[u8]) -> Result<usize, ImportError>
    ensures { result ≡ counted (rows (length columns.now) text.now) }
{
    let mut n: usize = 0;
    let mut left = text;
    while !left.is_empty() {
        let Some((_, behind)) = read_row(left, columns) else {
            return Err(ImportError::BadRow(n + 2));
        };
        n += 1;
        left = behind;
    }
    Ok(n)
}

// The records of the rows that a text begins with; gives the place behind them.
pub(crate) fn write_rows(text: &[u8], columns: &[u8], tape: &mut [u8]) -> usize
    requires { record_length * length (rows (length columns.now) text.now).0 ≤ length tape.old }
    ensures { Written tape.old 0 (known_records columns.now (rows (length columns.now) text.now).0) tape.new result }
{
    let mut to: usize = 0;
    let mut left = text;
    while let Some((row, behind)) = read_row(left, columns) {
        let _ = write_add_by_privileges(&mut tape[to..], row.role, row.set);
        to += RECORD;
        left = behind;
    }
    to
}
