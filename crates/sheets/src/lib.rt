// Permission sheets: RFC 4180 text imported as a tape of records.

#![tactic(auto)]

mod columns;
mod fields;
pub mod importing;
mod lines;
mod rows;

use std::error::Error;
use std::fmt;

// Why a text is not imported: its first bad row, the heading being row 1, or a buffer that is shorter than the sheet's tape.
#[derive(Clone, Copy, Debug, PartialEq, Eq)]
pub enum ImportError {
    BadRow(usize),
    NoRoom,
}

impl fmt::Display for ImportError {
    fn fmt<W: fmt::Write>(&self, f: &mut fmt::Formatter<W>) -> fmt::Result {
        match self {
            ImportError::BadRow(row) => write!(f, "row {row} is no row of a sheet"),
            ImportError::NoRoom => write!(f, "the buffer is shorter than the sheet's tape"),
        }
    }
}

impl Error for ImportError {}
