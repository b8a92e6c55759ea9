// The scope table after a row: a change, a hand-over, an undo, the end of a visit.
ghost use Rattle.std.specs.Prelude.{◌≡◌, length};
ghost use Rattle.tables_model.specs.Entries.{Sized, Inside};
ghost use Rattle.tables_model.specs.Layout.{entries as entries_of};
ghost use Rattle.tables_model.specs.Table.{scopes_in, MayNote, ClosedRanks, scopes_changed, among, scopes_handed, scopes_ended, undone_at};

use crate::entries::{entry_at, put_entry};
use crate::layout::ENTRY_WIDTH;
use crate::lookup::find_growing;
use crate::scopes::{grown, is_held, lowered, passed, started};
use rows::{Cell, Lsn, Visit};
use tables_model::CellSet;

// A change in row n grows the scope that may grow, or starts one behind the last. Returns the entries then in use.
#[tactic(auto, unfolding(tables_model::specs::Table::scopes_changed), using(crate::proofs::Searches::in_use))]
pub fn note_change(t: &mut [u16], used: usize, n: Lsn, v: Visit, c: Cell) -> usize
    requires { MayNote t.old used v.0 c.0 }
    ensures { scopes_in result t.new ≡ scopes_changed used n.0 v.0 c.0 (entries_of t.old) }
{
    match find_growing(t, used, v, c) {
        Some(i) => {
            let e = entry_at(t, i);
            put_entry(t, i, grown(e, n));
            used
        }
        None => {
            put_entry(t, used, started(n, v, c));
            used + 1
        }
    }
}

// A hand-over: every entry of these cells that the giver holds passes to the receiver.
#[tactic(auto, unfolding(tables_model::specs::Table::scopes_handed))]
pub fn hand_over(t: &mut [u16], used: usize, g: Visit, r: Visit, cs: CellSet)
    requires { Sized (length t.old) used }
    ensures { entries_of t.new ≡ scopes_handed used g.0 r.0 (among cs) (entries_of t.old) }
{
    for i in 0..used as u32 {
        let e = entry_at(t, i as usize);
        if is_held(e, g, cs) {
            put_entry(t, i as usize, passed(e, r));
        }
    }
}

// The last change of entry i is undone; `before` is the change before it in its scope, 0 for none.
pub fn undo_at(t: &mut [u16], i: usize, before: Lsn)
    requires { Inside (length t.old) i }
    ensures { entries_of t.new ≡ undone_at (Some i) before.0 (entries_of t.old) }
{
    let e = entry_at(t, i);
    put_entry(t, i, lowered(e, before));
}

// The entries that another visit holds close ranks; one that keeps its place is not written again. Returns how many they are; what stands behind them is not
// said. The loop is like that of `visits::close_ranks`, which writes a visit again that keeps its place: a trait over both would be longer than they are.
fn close_ranks(t: &mut [u16], used: usize, v: Visit) -> usize
    requires { Sized (length t.old) used }
    ensures { ClosedRanks used v.0 (entries_of t.old) (scopes_in result t.new) }
{
    let mut kept: u32 = 0;
    for i in 0..used as u32 {
        let e = entry_at(t, i as usize);
        if e.holder != v {
            if kept != i {
                put_entry(t, kept as usize, e);
            }
            kept += 1;
        }
    }
    kept as usize
}

// A commit or an abort: the entries that another visit holds close ranks, the rest is unused. Returns the entries then in use.
#[tactic(auto, unfolding(tables_model::specs::Table::scopes_ended), using(crate::proofs::Flat::entries_cleared))]
pub fn end_visit(t: &mut [u16], used: usize, v: Visit) -> usize
    requires { Sized (length t.old) used }
    ensures { scopes_in result t.new ≡ scopes_ended used v.0 (entries_of t.old) }
{
    let kept = close_ranks(t, used, v);
    t[ENTRY_WIDTH * kept..].fill(0);
    kept
}
