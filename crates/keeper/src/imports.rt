// The exported function that imports a permission sheet.
ghost use Rattle.keeper.specs.Imports.{ImportPromise};

use sheets::ImportError;
use sheets::importing::import;

// What is added to the place of a refused import, so that it is no length.
const NOT_IMPORTED: u64 = 9223372036854775808;

// Imports a sheet as a tape at the buffer's front: the length written, or NOT_IMPORTED and the place of the refusal, a row for 32 and 0 for 33.
#[unsafe(no_mangle)]
pub extern "C" fn keeper_import(text: &[u8], tape: &mut [u8]) -> u64
    ensures { ImportPromise text.now tape.old result tape.new }
{
    match import(text, tape) {
        Ok(length) => length as u64,
        Err(ImportError::BadRow(row)) => NOT_IMPORTED + row as u64,
        Err(ImportError::NoRoom) => NOT_IMPORTED,
    }
}
