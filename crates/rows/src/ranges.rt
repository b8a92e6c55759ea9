// The ranges of a row's fields, as 01's table of bytes has them. They are tests of their own, apart from those of the bytes.
ghost use Rattle.std.specs.Prelude.{◌≡◌};
ghost use Rattle.book.specs.Rows.{is_visit, is_cell, is_row_number, fits};
ghost use Rattle.rows.specs.Meaning.{meant};

use crate::limits::{CELL_LIMIT, ROW_LIMIT, VISIT_LIMIT};
use crate::{Cell, Lsn, Row, Visit};

// The limits as numbers of the fields' types. `try_from` is no constant function.
pub const VISITS: u16 = VISIT_LIMIT as u16;

const CELLS: u8 = CELL_LIMIT as u8;

const ROWS: u16 = ROW_LIMIT as u16;

pub fn is_visit(v: Visit) -> bool
    ensures { result ≡ is_visit v.0 }
{
    (1..=VISITS).contains(&v.0)
}

pub fn is_cell(c: Cell) -> bool
    ensures { result ≡ is_cell c.0 }
{
    c.0 < CELLS
}

pub fn is_row_number(n: Lsn) -> bool
    ensures { result ≡ is_row_number n.0 }
{
    (1..=ROWS).contains(&n.0)
}

// Every field is within its range.
#[tactic(auto, unfolding(book::specs::Rows::fits), using(crate::proofs::Fit::of_amounts))]
pub fn in_range(row: Row) -> bool
    ensures { result ≡ fits (meant row) }
{
    match row {
        Row::Begin(v) | Row::Commit(v) | Row::Abort(v) => is_visit(v),
        Row::Change(v, c, _) => is_visit(v) && is_cell(c),
        Row::HandOver(g, r, c) => is_visit(g) && is_visit(r) && is_cell(c),
        Row::Undo(h, c, n, _) => is_visit(h) && is_cell(c) && is_row_number(n),
        Row::HandOverAll(g, r) => is_visit(g) && is_visit(r),
    }
}
