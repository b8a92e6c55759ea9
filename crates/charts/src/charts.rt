// The 1,024 bytes of all pages. Cell c is at place c mod 7 of page c / 7; beyond the last page there is nothing to move, and what is read is 0.
ghost use Rattle.std.specs.Prelude.{◌≡◌, length};
ghost use Rattle.book.specs.Pages.{page_at, page_of, cell_of};
ghost use Rattle.book.specs.Rows.{moves};
ghost use Rattle.book.specs.Limits.{charts_length};
ghost use Rattle.rows.specs.Meaning.{effect_meant};
ghost use Rattle.charts.specs.Moves.{charts_moved};

use crate::page;
use rows::limits::{CELL_LIMIT, PAGE_LENGTH, PAGE_LIMIT, PLACES};
use rows::{Cell, Effect, Lsn};

// The mark of a page.
pub fn read_mark(charts: &[u8], p: usize) -> Lsn
    requires { length charts.now ≡ charts_length }
    ensures { result.0 ≡ (page_of (page_at charts.now p)).mark }
{
    if PAGE_LIMIT <= p {
        return Lsn(0);
    }
    let a = PAGE_LENGTH * p;
    page::read_mark(&charts[a..a + PAGE_LENGTH])
}

// A cell.
pub fn read_cell(charts: &[u8], cell: Cell) -> i32
    requires { length charts.now ≡ charts_length }
    ensures { result ≡ cell_of charts.now cell.0 }
{
    let c = usize::from(cell.0);
    if CELL_LIMIT <= c {
        return 0;
    }
    let a = PAGE_LENGTH * (c / PLACES);
    page::read_place(&charts[a..a + PAGE_LENGTH], c % PLACES)
}

// The grams are added to a cell, in 32 bits, and row n becomes its page's mark.
pub fn apply(charts: &mut [u8], cell: Cell, grams: i32, n: Lsn)
    requires { length charts.old ≡ charts_length }
    ensures { charts.new ≡ charts_moved charts.old (moves cell.0 grams) n.0 }
{
    let c = usize::from(cell.0);
    if CELL_LIMIT <= c {
        return;
    }
    let a = PAGE_LENGTH * (c / PLACES);
    page::move_place(&mut charts[a..a + PAGE_LENGTH], c % PLACES, grams, n);
}

// The effect of row n.
#[tactic(auto, unfolding(crate::specs::Moves::charts_moved))]
pub fn apply_effect(charts: &mut [u8], effect: Effect, n: Lsn)
    requires { length charts.old ≡ charts_length }
    ensures { charts.new ≡ charts_moved charts.old (effect_meant effect) n.0 }
{
    match effect {
        Effect::Nothing => {}
        Effect::Adds(cell, amount) => apply(charts, cell, i32::from(amount), n),
        Effect::Subtracts(cell, amount) => apply(charts, cell, -i32::from(amount), n),
    }
}
