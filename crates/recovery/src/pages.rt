// The check of the pages against the log, and the forward part of an opening, page by page.
ghost use Rattle.std.specs.Prelude.{◌≡◌, ◌+◌, ◌-◌, ◌*◌, ◌/◌, ◌<◌, ◌||◌, length, replicate, ◌==◌};
ghost use Rattle.book.specs.Rows.{effect};
ghost use Rattle.book.specs.RowBytes.{row_of};
ghost use Rattle.book.specs.Cells.{touches, on_page};
ghost use Rattle.book.specs.Limits.{row_length, page_limit, page_length, places, charts_length};
ghost use Rattle.rows.specs.Meaning.{effect_meant};
ghost use Rattle.recovery_model.specs.Scan.{row_in};
ghost use Rattle.recovery_model.specs.Checking.{Rows};
ghost use Rattle.recovery_model.specs.Charts.{is_page_by, below, bad_page_by, redo_from, redo_page, redo_charts, named_pages, Ends};
ghost use Rattle.recovery_model.specs.Forward.{page_with};

use crate::look::row_bytes;
use charts::check::page_ok;
use charts::page::{move_place, read_mark};
use rows::effects::effect_of;
use rows::limits::{PAGE_LENGTH, PAGE_LIMIT, PLACES, ROW_LENGTH};
use rows::reader::row_in;
use rows::{Cell, Effect, Lsn};
use wal::look::row_of_part;

// The cells of a page as a number of a cell's type.
const CELLS_OF_PAGE: u8 = PLACES as u8;

// The pages that the byte of a row's cell can name.
const NAMED_PAGES: usize = u8::MAX as usize / PLACES + 1;

// ── The check ─────────────────────────────────────────────────────────────────────────────────────────────────────────

// The cell is on page p.
fn is_on_page(c: Cell, p: usize) -> bool
    ensures { result ≡ (c.0 / places == p) }
{
    usize::from(c.0) / PLACES == p
}

// The effect is on a cell of page p.
fn touches_page(effect: Effect, p: usize) -> bool
    ensures { result ≡ touches p (effect_meant effect) }
{
    match effect {
        Effect::Nothing => false,
        Effect::Adds(c, _) | Effect::Subtracts(c, _) => is_on_page(c, p),
    }
}

// The mark is 0, or a change or undo row of page p.
fn mark_ok(log: &[u8], rows: usize, p: usize, mark: Lsn) -> bool
    requires { Rows (length log.now) rows }
    ensures { result ≡ (mark.0 == 0 || on_page p (row_in log.now rows mark.0)) }
{
    if mark.0 == 0 {
        return true;
    }
    let row = row_of_part(log, 0, rows, usize::from(mark.0));
    touches_page(effect_of(row), p)
}

// Page p, by its bytes and the log.
#[tactic(auto, unfolding(recovery_model::specs::Charts::is_page_by))]
fn page_passes(log: &[u8], rows: usize, page: &[u8], p: usize) -> bool
    requires rows { Rows (length log.now) rows }
    requires page_len { length page.now ≡ page_length }
    ensures { result ≡ is_page_by log.now rows p page.now }
{
    let mark = read_mark(page);
    let allowed = mark_ok(log, rows, p, mark);
    page_ok(page, allowed)
}

// The first page that fails.
pub fn bad_page(log: &[u8], rows: usize, charts: &[u8]) -> Option<usize>
    requires rows { Rows (length log.now) rows }
    requires charts_len { length charts.now ≡ charts_length }
    ensures { result ≡ below page_limit (bad_page_by log.now rows charts.now) }
{
    for p in 0..PAGE_LIMIT {
        let a = PAGE_LENGTH * p;
        let e = a + PAGE_LENGTH;
        if !page_passes(log, rows, &charts[a..e], p) {
            return Some(p);
        }
    }
    None
}

// ── The forward part ──────────────────────────────────────────────────────────────────────────────────────────────────

// The effect of row n on the page of its cell.
fn move_page(page: &mut [u8], effect: Effect, n: Lsn)
    requires { length page.old ≡ page_length }
    ensures { page.new ≡ page_with (effect_meant effect) n.0 page.old }
{
    match effect {
        Effect::Nothing => {}
        Effect::Adds(c, a) => move_place(page, usize::from(c.0) % PLACES, i32::from(a), n),
        Effect::Subtracts(c, a) => move_place(page, usize::from(c.0) % PLACES, -i32::from(a), n),
    }
}

// The effect of row n, 16 bytes, on the page of its cell.
fn redo_row(b: &[u8], page: &mut [u8], n: Lsn)
    requires b_len { length b.now ≡ row_length }
    requires page_len { length page.old ≡ page_length }
    ensures { page.new ≡ page_with (effect (row_of b.now)) n.0 page.old }
{
    move_page(page, effect_of(row_in(b)), n);
}

// The rows from place `from` on, up to row `rows`, applied to page p. Most rows are of other pages: one comparison of the cell rules them out.
fn redo_rows(log: &[u8], from: usize, rows: usize, page: &mut [u8], p: usize)
    requires rows { Rows (length log.now) rows }
    requires page_len { length page.old ≡ page_length }
    requires p_lt_page_limit { p < page_limit }
    ensures { page.new ≡ redo_from (rows - from) from log.now p page.old }
{
    let lowest = (PLACES * p) as u8;
    for k in from..rows {
        if log[ROW_LENGTH * k + 3].wrapping_sub(lowest) < CELLS_OF_PAGE {
            redo_row(row_bytes(log, k), page, Lsn((k + 1) as u16));
        }
    }
}

// The rows above the page's mark: the forward part of an opening for one page, from that page's bytes alone.
#[tactic(auto, unfolding(recovery_model::specs::Charts::redo_page))]
pub(crate) fn redo_page(log: &[u8], rows: usize, page: &mut [u8], p: usize)
    requires rows { Rows (length log.now) rows }
    requires page_len { length page.old ≡ page_length }
    requires p_lt_page_limit { p < page_limit }
    ensures { page.new ≡ redo_page log.now rows p page.old }
{
    let mark = read_mark(page);
    redo_rows(log, usize::from(mark.0), rows, page, p);
}

// For each page the number of rows up to the last one whose cell byte names it, whatever its kind; 0 where none does.
fn note_ends(log: &[u8], rows: usize, ends: &mut [u16])
    requires rows { Rows (length log.now) rows }
    requires ends_value { ends.old ≡ replicate named_pages 0 }
    ensures { Ends log.now rows ends.new }
{
    for k in 0..rows {
        let p = usize::from(log[ROW_LENGTH * k + 3]) / PLACES;
        ends[p] = (k + 1) as u16;
    }
}

// All pages of the copy, one after another, each by the rows up to the last one that names it: no later row changes it.
pub fn redo(log: &[u8], rows: usize, copy: &mut [u8])
    requires rows { Rows (length log.now) rows }
    requires copy_len { length copy.old ≡ charts_length }
    ensures { copy.new ≡ redo_charts log.now rows copy.old }
{
    let mut ends = [0u16; NAMED_PAGES];
    note_ends(log, rows, &mut ends);
    for p in 0..PAGE_LIMIT {
        let a = PAGE_LENGTH * p;
        let e = a + PAGE_LENGTH;
        redo_page(log, usize::from(ends[p]), &mut copy[a..e], p);
    }
}
