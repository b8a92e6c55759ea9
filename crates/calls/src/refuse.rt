// Document 01's table of refusals, from begin on: the checks that are a call's own, in their order, by the tables and the number of rows. The first that
// is not passed refuses the call.
ghost use Rattle.std.specs.Prelude.{◌≡◌, not, ℕ, List, ltb, length, cond};
ghost use Rattle.book.specs.Book.{◌else◌, refused_by};
ghost use Rattle.book.specs.Limits.{page_limit};
ghost use Rattle.book.specs.Rows.{is_cell};
ghost use Rattle.tables_model.specs.Visits.{tables_in, Listed, is_listed};
ghost use Rattle.tables_model.specs.Rows.{Ready, Ranged, index};
ghost use Rattle.tables_model.specs.Table.{among};
ghost use Rattle.state.specs.Answers.{checked};
ghost use Rattle.calls_model.specs.Refusals.{cells_in_range, begin_refusal, change_refusal, hand_over_refusal};

use rows::limits::{ACTIVE_LIMIT, PAGE_LIMIT};
use rows::ranges::{VISITS, is_cell};
use rows::{Cell, Visit};
use state::answers::Refusal;
use tables::lookup::holds_cell;
use tables::rules::{has_entry, has_room};
use tables::visits::is_listed;
use tables_model::{CellSet, Counts};

// The limit of pages as a number of a page's type.
const PAGES: u8 = PAGE_LIMIT as u8;

// A check that the call passes, or else is refused by.
#[inline]
fn pass(test: bool, refusal: Refusal) -> Result<(), Refusal>
    ensures { result ≡ cond test (Ok tt) (Err refusal) }
{
    if test { Ok(()) } else { Err(refusal) }
}

#[inline(always)]
pub(crate) fn refuse_begin(t: Counts, scopes: &[u16], rows: usize) -> Result<(), Refusal>
    requires { Ranged t (length scopes.now) }
    ensures { (vs : List ℕ) → checked result ≡ refused_by (begin_refusal (index t vs scopes.now) rows) }
{
    pass(t.begun < VISITS, Refusal::VisitsUsedUp)?;
    pass(t.count < ACTIVE_LIMIT, Refusal::TooManyActive)?;
    pass(has_room(t, scopes, rows, 2), Refusal::NoRoom)
}

#[inline(always)]
pub(crate) fn refuse_change(
    t: Counts,
    visits: &[u16],
    scopes: &[u16],
    rows: usize,
    v: Visit,
    k: Cell,
) -> Result<(), Refusal>
    requires { Ready t (length visits.now) (length scopes.now) }
    ensures { checked result ≡ refused_by (change_refusal (index t visits.now scopes.now) rows v.0 k.0) }
{
    pass(is_listed(t, visits, v), Refusal::NotActive)?;
    pass(is_cell(k), Refusal::NoSuchCell)?;
    pass(has_entry(t, scopes, v, k), Refusal::ScopesUsedUp)?;
    pass(has_room(t, scopes, rows, 2), Refusal::NoRoom)
}

// A hand-over of one cell names one that there is; one of all cells names none.
fn cells_in_range(cs: CellSet) -> bool
    ensures { result ≡ cells_in_range cs }
{
    match cs {
        CellSet::Only(c) => is_cell(c),
        CellSet::Every => true,
    }
}

// A hand-over of one cell, or of all.
#[inline(always)]
pub(crate) fn refuse_hand_over(
    t: Counts,
    visits: &[u16],
    scopes: &[u16],
    rows: usize,
    g: Visit,
    r: Visit,
    cs: CellSet,
) -> Result<(), Refusal>
    requires { Ready t (length visits.now) (length scopes.now) }
    ensures { checked result ≡ refused_by (hand_over_refusal (index t visits.now scopes.now) rows g.0 r.0 (cells_in_range cs) (among cs)) }
{
    pass(is_listed(t, visits, g), Refusal::NotActive)?;
    pass(is_listed(t, visits, r), Refusal::NotActive)?;
    pass(g != r, Refusal::SameVisit)?;
    pass(cells_in_range(cs), Refusal::NoSuchCell)?;
    pass(holds_cell(scopes, t.used, g, cs), Refusal::HoldsNone)?;
    pass(has_room(t, scopes, rows, 1), Refusal::NoRoom)
}

// Commit and abort: the visit is active.
#[inline(always)]
pub(crate) fn refuse_end(t: Counts, visits: &[u16], visit: Visit) -> Result<(), Refusal>
    requires { Listed (length visits.now) t.count }
    ensures { checked result ≡ refused_by ((9, not (is_listed (tables_in t visits.now) visit.0)) else 0) }
{
    pass(is_listed(t, visits, visit), Refusal::NotActive)
}

#[inline(always)]
pub(crate) fn refuse_flush(page: u8) -> Result<(), Refusal>
    ensures { checked result ≡ refused_by ((14, not (ltb page page_limit)) else 0) }
{
    pass(page < PAGES, Refusal::NoSuchPage)
}

#[inline(always)]
pub(crate) fn refuse_read(cell: Cell) -> Result<(), Refusal>
    ensures { checked result ≡ refused_by ((10, not (is_cell cell.0)) else 0) }
{
    pass(is_cell(cell), Refusal::NoSuchCell)
}
