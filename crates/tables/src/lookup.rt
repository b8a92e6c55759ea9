// What is found in the scope table: the scope that may grow, a cell that a visit holds, the highest open change, the number of open changes.
ghost use Rattle.std.specs.Prelude.{◌≡◌, ◌<◌, length, slice_index_or};
ghost use Rattle.book.specs.Scopes.{unused};
ghost use Rattle.tables_model.specs.Entries.{Sized, Inside};
ghost use Rattle.tables_model.specs.Layout.{entries as entries_of};
ghost use Rattle.tables_model.specs.Table.{find, grows, among, holds_cell, highest as highest_in, last_at, open_count, last_by, Reaches};

use crate::entries::{cell_at, count_at, entry_at, handed_at, holder_at, last_at, maker_at};
use crate::scopes::{covers, is_held};
use rows::{Cell, Lsn, Visit};
use tables_model::{CellSet, Whom};

// Entry i grows by a change of the cell by the visit: it is a scope of the cell that its maker, the visit, has not handed over since. The cell is compared
// first, since it rules most entries out.
#[tactic(auto, using(crate::proofs::Flat::entries_read))]
fn grows_at(t: &[u16], i: usize, v: Visit, c: Cell) -> bool
    requires { Inside (length t.now) i }
    ensures { result ≡ grows v.0 c.0 (slice_index_or (entries_of t.now) i unused) }
{
    cell_at(t, i) == c && maker_at(t, i) == v && !handed_at(t, i)
}

// The first entry in use that a change of the cell by the visit grows.
#[tactic(auto, unfolding(tables_model::specs::Table::find), using(crate::proofs::Loops::looking, crate::proofs::Flat::entries_read))]
pub fn find_growing(t: &[u16], used: usize, v: Visit, c: Cell) -> Option<usize>
    requires { Sized (length t.now) used }
    ensures { result ≡ find (grows v.0 c.0) used (entries_of t.now) }
{
    for i in 0..used as u32 {
        if grows_at(t, i as usize, v, c) {
            return Some(i as usize);
        }
    }
    None
}

// The visit holds changes of these cells.
#[tactic(auto, unfolding(tables_model::specs::Table::holds_cell), using(crate::proofs::Loops::looking, crate::proofs::Flat::entries_read))]
pub fn holds_cell(t: &[u16], used: usize, v: Visit, cs: CellSet) -> bool
    requires { Sized (length t.now) used }
    ensures { result ≡ holds_cell used v.0 (among cs) (entries_of t.now) }
{
    for i in 0..used as u32 {
        if is_held(entry_at(t, i as usize), v, cs) {
            return true;
        }
    }
    false
}

// The highest open change of entry i, 0 for none and where these visits do not hold it.
#[tactic(auto, using(crate::proofs::Flat::entries_read))]
fn last_by(t: &[u16], i: usize, w: Whom) -> u16
    requires { Inside (length t.now) i }
    ensures { result ≡ last_by w (slice_index_or (entries_of t.now) i unused) }
{
    if covers(w, holder_at(t, i)) {
        last_at(t, i).0
    } else {
        0
    }
}

// The entry with the highest open change of these visits. The loop keeps the change and the entry as two numbers, none as a change of 0: an Option in their
// place takes a third more instructions.
#[tactic(auto, unfolding(tables_model::specs::Table::highest), using(crate::proofs::Loops::left_end))]
pub fn highest(t: &[u16], used: usize, w: Whom) -> Option<usize>
    requires { Sized (length t.now) used }
    ensures { result ≡ highest_in w used (entries_of t.now) }
{
    let mut last = 0;
    let mut found = 0;
    for i in 0..used as u32 {
        let x = last_by(t, i as usize, w);
        if last < x {
            last = x;
            found = i;
        }
    }
    (last > 0).then_some(found as usize)
}

// The highest open change of the entry found, 0 for none.
#[tactic(auto, using(crate::proofs::Flat::entries_read))]
pub fn last_found(t: &[u16], found: Option<usize>) -> Lsn
    requires { Reaches (length t.now) found }
    ensures { result.0 ≡ last_at found (entries_of t.now) }
{
    match found {
        Some(i) => last_at(t, i),
        None => Lsn(0),
    }
}

// The open changes: the sum of the counts.
#[tactic(auto, unfolding(tables_model::specs::Table::open_count), using(crate::proofs::Searches::count_next, crate::proofs::Loops::left_end, crate::proofs::Flat::entries_read))]
pub fn open_count(t: &[u16], used: usize) -> usize
    requires { Sized (length t.now) used }
    ensures { (result ≡ open_count used (entries_of t.now)) × (result < 4194305) }
{
    let mut sum = 0;
    for i in 0..used as u32 {
        sum += u32::from(count_at(t, i as usize));
    }
    sum as usize
}
