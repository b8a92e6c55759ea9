// The flat scope table, entry by entry, and field by field where a loop needs no more of an entry.
ghost use Rattle.std.specs.Prelude.{◌≡◌, ◌+◌, ◌*◌, ◌<◌, length, slice_index_or, slice_set};
ghost use Rattle.book.specs.Scopes.{unused};
ghost use Rattle.tables_model.specs.Entries.{Inside, scope_in};
ghost use Rattle.tables_model.specs.Layout.{entry_width, field_at, entry_at, entries as entries_of};

use crate::layout::{CELL, COUNT, ENTRY_WIDTH, FIRST, HANDED, HOLDER, LAST, MAKER};
use rows::{Cell, Lsn, Visit};
use tables_model::Scope;

// Number k of entry i.
fn number_at(t: &[u16], i: usize, k: usize) -> u16
    requires { Inside (length t.now) i × (k < entry_width) }
    ensures { result ≡ field_at t.now i k }
{
    t[ENTRY_WIDTH * i + k]
}

pub(crate) fn maker_at(t: &[u16], i: usize) -> Visit
    requires { Inside (length t.now) i }
    ensures { result.0 ≡ (entry_at t.now i).maker }
{
    Visit(number_at(t, i, MAKER))
}

pub(crate) fn holder_at(t: &[u16], i: usize) -> Visit
    requires { Inside (length t.now) i }
    ensures { result.0 ≡ (entry_at t.now i).holder }
{
    Visit(number_at(t, i, HOLDER))
}

// A cell has one byte.
pub(crate) fn cell_at(t: &[u16], i: usize) -> Cell
    requires { Inside (length t.now) i }
    ensures { result.0 ≡ (entry_at t.now i).cell }
{
    Cell((number_at(t, i, CELL) % 256) as u8)
}

fn first_at(t: &[u16], i: usize) -> Lsn
    requires { Inside (length t.now) i }
    ensures { result.0 ≡ (entry_at t.now i).first }
{
    Lsn(number_at(t, i, FIRST))
}

pub(crate) fn last_at(t: &[u16], i: usize) -> Lsn
    requires { Inside (length t.now) i }
    ensures { result.0 ≡ (entry_at t.now i).last }
{
    Lsn(number_at(t, i, LAST))
}

// Whatever is not 0 counts as handed.
pub(crate) fn handed_at(t: &[u16], i: usize) -> bool
    requires { Inside (length t.now) i }
    ensures { result ≡ (entry_at t.now i).handed }
{
    number_at(t, i, HANDED) != 0
}

pub(crate) fn count_at(t: &[u16], i: usize) -> u16
    requires { Inside (length t.now) i }
    ensures { result ≡ (entry_at t.now i).count }
{
    number_at(t, i, COUNT)
}

// Entry i.
#[tactic(auto, using(crate::proofs::Flat::entries_read))]
pub fn entry_at(t: &[u16], i: usize) -> Scope
    requires { Inside (length t.now) i }
    ensures { scope_in result ≡ slice_index_or (entries_of t.now) i unused }
{
    Scope {
        maker: maker_at(t, i),
        holder: holder_at(t, i),
        cell: cell_at(t, i),
        first: first_at(t, i),
        last: last_at(t, i),
        handed: handed_at(t, i),
        count: count_at(t, i),
    }
}

// Number k of entry i is set.
fn put_number(t: &mut [u16], i: usize, k: usize, x: u16)
    requires { Inside (length t.old) i × (k < entry_width) }
    ensures { t.new ≡ slice_set t.old (entry_width * i + k) x }
{
    t[ENTRY_WIDTH * i + k] = x;
}

// Entry i is set.
pub fn put_entry(t: &mut [u16], i: usize, e: Scope)
    requires { Inside (length t.old) i }
    ensures { entries_of t.new ≡ slice_set (entries_of t.old) i (scope_in e) }
{
    put_number(t, i, MAKER, e.maker.0);
    put_number(t, i, HOLDER, e.holder.0);
    put_number(t, i, CELL, u16::from(e.cell.0));
    put_number(t, i, FIRST, e.first.0);
    put_number(t, i, LAST, e.last.0);
    put_number(t, i, HANDED, u16::from(e.handed));
    put_number(t, i, COUNT, e.count);
}
