// Format: charts from the values of the cells, and an empty log; for whatever values it is handed.
ghost use Rattle.std.specs.Prelude.{◌≡◌, [], length};
ghost use Rattle.book.specs.Limits.{format_bound, log_length, charts_length, cell_limit};
ghost use Rattle.book.specs.Numbers.{within};
ghost use Rattle.book.specs.Pages.{chart_bytes, page_after};
ghost use Rattle.state.specs.CallContracts.{bad_cell, cells_of};
ghost use Rattle.recovery_model.specs.Charts.{below};
ghost use Rattle.recovery_model.specs.Answering.{formatted_as, format_bytes};

use charts::page::build_page;
use rows::Cell;
use rows::limits::{CELL_LIMIT, PAGE_LENGTH, PAGE_LIMIT, PLACES};
use state::answers::Refusal;

// A cell is formatted within plus and minus so many grams.
const FORMAT_BOUND: i32 = 1_000_000;

// A number of grams within that bound.
fn is_format(z: i32) -> bool
    ensures { result ≡ within format_bound z }
{
    (-FORMAT_BOUND..=FORMAT_BOUND).contains(&z)
}

// The first cell that is not. An iterator would hand over an Option of a reference at each step, which lies otherwise in memory with the unit's pointers.
fn bad_cell(cells: &[i32]) -> Option<usize>
    requires { length cells.now ≡ cell_limit }
    ensures { result ≡ below cell_limit (bad_cell cells.now) }
{
    for c in 0..CELL_LIMIT {
        if !is_format(cells[c]) {
            return Some(c);
        }
    }
    None
}

// Charts of the cells, marks 0.
fn build_charts(charts: &mut [u8], cells: &[i32])
    requires charts_len { length charts.old ≡ charts_length }
    requires cells_len { length cells.now ≡ cell_limit }
    ensures { charts.new ≡ chart_bytes (page_after (cells_of cells.now) []) }
{
    for p in 0..PAGE_LIMIT {
        let a = PAGE_LENGTH * p;
        let e = a + PAGE_LENGTH;
        let from = PLACES * p;
        let to = from + PLACES;
        build_page(&mut charts[a..e], &cells[from..to]);
    }
}

// Log and charts have their lengths. A refusal changes nothing; where this is done, RAM is to be cleared.
pub fn format(cells: &[i32], log: &mut [u8], charts: &mut [u8]) -> Result<(), Refusal>
    requires { (length log.old ≡ log_length) × (length charts.old ≡ charts_length) }
    ensures { formatted_as result log.new charts.new ≡ format_bytes cells.now log.old charts.old }
{
    if cells.len() != CELL_LIMIT {
        return Err(Refusal::WrongLength);
    }
    if let Some(c) = bad_cell(cells) {
        return Err(Refusal::CellOutOfRange(Cell(c as u8)));
    }
    build_charts(charts, cells);
    log.fill(0);
    Ok(())
}
