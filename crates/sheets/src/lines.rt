// The lines of a sheet's text: its heading, and its rows.
ghost use Rattle.std.specs.Prelude.{◌≡◌, length, eqb};
ghost use Rattle.sets.specs.Sets.{empty, union};
ghost use Rattle.graph.specs.Graph.{privilege_count};
ghost use Rattle.graph.specs.Reading.{read_set};
ghost use Rattle.sheets.specs.Parsing.{columns, heading, marks, row};
ghost use Rattle.sheets.specs.Working.{read_columns, column_set, read_marks, read_row, added, meant};

use crate::columns::Columns;
use crate::fields::{Parsed, ended, field, further, opened};
use graph::{Privilege, PrivilegeSet, Role};
use sets::Set;

// How many roles and privileges there are.
const ROLES: u8 = 64;

const PRIVILEGES: u8 = 64;

// A row: its role, and the set of its marked columns.
#[derive(Clone, Copy)]
pub(crate) struct Row {
    pub(crate) role: Role,
    pub(crate) set: PrivilegeSet,
}

// The columns at a text's front, strictly ascending, each behind a comma.
// They stand in an array up to a count, since a vector would need a heap.
fn read_columns(text: &[u8]) -> Parsed<'_, Columns>
    ensures { read_columns result ≡ columns privilege_count 0 text.now }
{
    let mut array = [0u8; 64];
    let mut count: usize = 0;
    let mut low: u8 = 0;
    let mut left = text;
    while let Some(number) = left.strip_prefix(b",") {
        let (column, behind) = field(number, PRIVILEGES)?;
        if column < low {
            return None;
        }
        array[count] = column;
        count += 1;
        low = column + 1;
        left = behind;
    }
    Some((Columns { array, count }, left))
}

// The heading of a text, with the end of its line.
pub(crate) fn read_heading(text: &[u8]) -> Parsed<'_, Columns>
    ensures { read_columns result ≡ heading text.now }
{
    let (columns, behind) = read_columns(opened(text))?;
    if columns.as_slice().is_empty() {
        return None;
    }
    Some((columns, ended(behind)?))
}

// The set with the privilege of a column, if the column is marked.
fn with_mark(set: PrivilegeSet, mark: u8, column: Privilege) -> PrivilegeSet
    ensures { read_set result ≡ union (read_set set) (column_set column.0 (eqb mark 1)) }
{
    if mark == 1 {
        set.union(PrivilegeSet::single(column))
    } else {
        set
    }
}

// The set of the marks at a text's front, one for each column.
fn read_marks<'a>(text: &'a [u8], columns: &[u8]) -> Parsed<'a, PrivilegeSet>
    ensures { read_marks result ≡ added columns.now empty (marks (length columns.now) text.now) }
{
    let mut set = PrivilegeSet::empty();
    let mut left = text;
    for column in columns {
        let (mark, behind) = further(left)?;
        set = with_mark(set, mark, Privilege(*column));
        left = behind;
    }
    Some((set, left))
}

// The row at a text's front, with the end of its line.
pub(crate) fn read_row<'a>(text: &'a [u8], columns: &[u8]) -> Parsed<'a, Row>
    ensures { read_row result ≡ meant columns.now (row (length columns.now) text.now) }
{
    let (role, behind) = field(text, ROLES)?;
    let (set, behind) = read_marks(behind, columns)?;
    let end = ended(behind)?;
    let role = Role(role);
    Some((Row { role, set }, end))
}
