// The importer: a text is judged and its rows are counted, and only then is its tape written.
ghost use Rattle.sheets.specs.Promises.{ImportPromise};

use crate::ImportError;
use crate::lines::read_heading;
use crate::rows::{count_rows, write_rows};
use seats::records::RECORD;

// The tape of the sheet that a text spells, at the buffer's front: its length; refusal 32 at the first bad row; refusal 33 where the buffer is shorter.
pub fn import(text: &[u8], tape: &mut [u8]) -> Result<usize, ImportError>
    ensures { ImportPromise text.now tape.old result tape.new }
{
    let (heading, behind) = read_heading(text).ok_or(ImportError::BadRow(1))?;
    let columns = heading.as_slice();
    let rows = count_rows(behind, columns)?;
    if tape.len() / RECORD < rows {
        return Err(ImportError::NoRoom);
    }
    Ok(write_rows(behind, columns, tape))
}
