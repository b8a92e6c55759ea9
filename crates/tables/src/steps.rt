// Both tables after a row that the rules allow.
ghost use Rattle.std.specs.Prelude.{◌≡◌, ℕ, List, length};
ghost use Rattle.rows.specs.Meaning.{meant};
ghost use Rattle.tables_model.specs.Rows.{Ready, Steps, Changes, index, after_change, after_undo, after_end, step_by};

use crate::lookup::highest;
use crate::updates::{end_visit, hand_over, note_change, undo_at};
use crate::visits::{with_begun, with_ended, with_undo};
use rows::{Cell, Lsn, Row, Visit};
use tables_model::{CellSet, Counts, Whom};

// A change in row n.
#[tactic(auto, using(crate::proofs::Verdicts::may_note))]
pub fn after_change(t: Counts, scopes: &mut [u16], n: Lsn, v: Visit, c: Cell) -> Counts
    requires { Changes t scopes.old v.0 c.0 }
    ensures { (vs : List ℕ) → index result vs scopes.new ≡ after_change (index t vs scopes.old) n.0 v.0 c.0 }
{
    let used = note_change(scopes, t.used, n, v, c);
    Counts { used, ..t }
}

// The holder's highest open change is undone; `before` is the change before it in its scope, 0 for none.
#[tactic(auto, unfolding(tables_model::specs::Table::scopes_undone), using(crate::proofs::Searches::in_use))]
fn after_undo(t: Counts, visits: &mut [u16], scopes: &mut [u16], h: Visit, before: Lsn)
    requires { Ready t (length visits.old) (length scopes.old) }
    ensures { index t visits.new scopes.new ≡ after_undo (index t visits.old scopes.old) h.0 before.0 }
{
    if let Some(i) = highest(scopes, t.used, Whom::One(h)) {
        undo_at(scopes, i, before);
    }
    with_undo(t, visits, h);
}

// A commit or an abort.
#[inline(always)]
pub fn after_end(t: Counts, visits: &mut [u16], scopes: &mut [u16], v: Visit) -> Counts
    requires { Ready t (length visits.old) (length scopes.old) }
    ensures { index result visits.new scopes.new ≡ after_end (index t visits.old scopes.old) v.0 }
{
    let used = end_visit(scopes, t.used, v);
    with_ended(t, visits, v, used)
}

// The row has number n; of an undo row, `before` is the change before the one undone in its scope, 0 for none.
#[tactic(auto, unfolding(tables_model::specs::Rows::step_by, tables_model::specs::Rows::grows_by))]
pub fn step(
    t: Counts,
    visits: &mut [u16],
    scopes: &mut [u16],
    n: Lsn,
    row: Row,
    before: Lsn,
) -> Counts
    requires { Steps t visits.old scopes.old (meant row) }
    ensures { index result visits.new scopes.new
        ≡ step_by (index t visits.old scopes.old) n.0 before.0 (meant row) }
{
    match row {
        Row::Begin(v) => with_begun(t, visits, v),
        Row::Change(v, c, _) => after_change(t, scopes, n, v, c),
        Row::HandOver(g, r, c) => {
            hand_over(scopes, t.used, g, r, CellSet::Only(c));
            t
        }
        Row::Undo(h, ..) => {
            after_undo(t, visits, scopes, h, before);
            t
        }
        Row::Commit(v) | Row::Abort(v) => after_end(t, visits, scopes, v),
        Row::HandOverAll(g, r) => {
            hand_over(scopes, t.used, g, r, CellSet::Every);
            t
        }
    }
}
