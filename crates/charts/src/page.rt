// The 32 bytes of one page: mark and cells read, a cell moved, a page built.
ghost use Rattle.std.specs.Prelude.{◌≡◌, ◌<◌, length, pos, slice_index_or};
ghost use Rattle.book.specs.Pages.{page_bytes, page_of};
ghost use Rattle.book.specs.Limits.{page_length, places};
ghost use Rattle.charts.specs.Moves.{page_moved};
ghost use Rattle.charts.specs.Build.{from_cells, cells_written};

use crate::numbers::{write16, write32};
use rows::Lsn;
use rows::numbers::{read16, read32};

// The page's mark.
#[tactic(auto, unfolding(book::specs::Pages::page_of))]
pub fn read_mark(p: &[u8]) -> Lsn
    requires { length p.now ≡ page_length }
    ensures { result.0 ≡ (page_of p.now).mark }
{
    Lsn(read16(p, 0))
}

// The cell at a place of the page.
#[tactic(auto, unfolding(book::specs::Pages::page_of))]
pub fn read_place(p: &[u8], place: usize) -> i32
    requires { (length p.now ≡ page_length) × (place < places) }
    ensures { result ≡ (page_of p.now).cell place }
{
    read32(p, 4 + 4 * place).cast_signed()
}

// The grams are added to the cell at a place, in 32 bits, and row n becomes the page's mark.
#[tactic(auto, unfolding(crate::specs::Moves::page_moved))]
pub fn move_place(p: &mut [u8], place: usize, grams: i32, n: Lsn)
    requires { (length p.old ≡ page_length) × (place < places) }
    ensures { p.new ≡ page_moved p.old place grams n.0 }
{
    let at = 4 + 4 * place;
    let new = read32(p, at).wrapping_add(grams.cast_unsigned());
    write16(p, 0, n.0);
    write32(p, at, new);
}

// The seven cells, one after the other.
fn write_cells(p: &mut [u8], cells: &[i32])
    requires { (length p.old ≡ page_length) × (length cells.now ≡ places) }
    ensures { p.new ≡ cells_written places 0 (λ j. slice_index_or cells.now j (pos 0)) p.old }
{
    for (i, cell) in cells.iter().enumerate() {
        write32(p, 4 + 4 * i, cell.cast_unsigned());
    }
}

// A page of seven cells that no row has changed.
pub fn build_page(p: &mut [u8], cells: &[i32])
    requires { (length p.old ≡ page_length) × (length cells.now ≡ places) }
    ensures { p.new ≡ page_bytes (from_cells cells.now) }
{
    write32(p, 0, 0);
    write_cells(p, cells);
}
