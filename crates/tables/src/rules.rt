// The row rules by the tables: what a row needs of visits, cells, holders and undo rows, and of the sixteen visits, the scopes and the free rows.
ghost use Rattle.std.specs.Prelude.{◌≡◌, ℕ, suc, ◌<◌, List, length, ◌==◌};
ghost use Rattle.rows.specs.Meaning.{meant};
ghost use Rattle.tables_model.specs.Rows.{Ready, Ranged, index, reserve_by, room_by, highest_of, grows_by, has_entry, is_change};
ghost use Rattle.tables_model.specs.Table.{among};
ghost use Rattle.tables_model.specs.Rows.{may_hand_over_by, may_undo, may_abort, lawful_by, room_to_begin, room_to_change, within_limits_by, judge_by};

use crate::lookup::{find_growing, highest, holds_cell, last_found, open_count};
use crate::visits::{is_listed, may_act};
use rows::limits::{ACTIVE_LIMIT, ROW_LIMIT, SCOPE_LIMIT};
use rows::{Cell, Lsn, Row, Visit};
use tables_model::{Breach, CellSet, Counts, Whom};

// The rows that must stay free: an end for each active visit, and an undo for each open change.
#[tactic(auto, unfolding(tables_model::specs::Rows::reserve_by))]
pub fn reserve(t: Counts, scopes: &[u16]) -> usize
    requires { Ranged t (length scopes.now) }
    ensures { ((vs : List ℕ) → result ≡ reserve_by (index t vs scopes.now)) × (result < 4194321) }
{
    t.count + open_count(scopes, t.used)
}

// After so many rows, n more are free besides the reserve.
#[tactic(auto, unfolding(tables_model::specs::Rows::room_by))]
pub fn has_room(t: Counts, scopes: &[u16], rows: usize, n: usize) -> bool
    requires ranged { Ranged t (length scopes.now) }
    requires n_bound { n < 65536 }
    ensures { (vs : List ℕ) → result ≡ room_by (index t vs scopes.now) rows n }
{
    reserve(t, scopes) + n <= ROW_LIMIT.saturating_sub(rows)
}

// The highest open change that the visit holds, 0 for none.
#[tactic(auto, unfolding(tables_model::specs::Rows::highest_of), using(crate::proofs::Verdicts::reaches))]
pub fn highest_of(t: Counts, scopes: &[u16], v: Visit) -> Lsn
    requires { Ranged t (length scopes.now) }
    ensures { (vs : List ℕ) → result.0 ≡ highest_of (index t vs scopes.now) v.0 }
{
    last_found(scopes, highest(scopes, t.used, Whom::One(v)))
}

// A change of the cell by the visit would grow a scope.
#[tactic(auto, unfolding(tables_model::specs::Rows::grows_by))]
fn grows_scope(t: Counts, scopes: &[u16], v: Visit, c: Cell) -> bool
    requires { Ranged t (length scopes.now) }
    ensures { (vs : List ℕ) → result ≡ grows_by (index t vs scopes.now) v.0 c.0 }
{
    find_growing(scopes, t.used, v, c).is_some()
}

// A change of the cell by the visit has an entry: a vacant one, or that of a scope which it grows. The second test searches the table, so it comes second.
pub fn has_entry(t: Counts, scopes: &[u16], v: Visit, c: Cell) -> bool
    requires { Ranged t (length scopes.now) }
    ensures { (vs : List ℕ) → result ≡ has_entry (index t vs scopes.now) v.0 c.0 }
{
    t.used < SCOPE_LIMIT || grows_scope(t, scopes, v, c)
}

pub fn may_hand_over(
    t: Counts,
    visits: &[u16],
    scopes: &[u16],
    g: Visit,
    r: Visit,
    cs: CellSet,
) -> bool
    requires { Ready t (length visits.now) (length scopes.now) }
    ensures { result ≡ may_hand_over_by (index t visits.now scopes.now) g.0 r.0 (among cs) }
{
    g != r && may_act(t, visits, g) && may_act(t, visits, r) && holds_cell(scopes, t.used, g, cs)
}

// The row is a change with this cell and amount.
fn is_change(row: Row, c: Cell, a: i16) -> bool
    ensures { result ≡ is_change (meant row) c.0 a }
{
    matches!(row, Row::Change(_, k, z) if k == c && z == a)
}

// The row undone is the holder's highest open change, and `named`, the row with that number, has the cell and the amount.
pub fn may_undo(t: Counts, scopes: &[u16], named: Row, h: Visit, c: Cell, n: Lsn, a: i16) -> bool
    requires { Ranged t (length scopes.now) }
    ensures { (vs : List ℕ) → result ≡ may_undo (index t vs scopes.now) (meant named) h.0 c.0 n.0 a }
{
    n.0 >= 1 && highest_of(t, scopes, h) == n && is_change(named, c, a)
}

// The visit is active, and all its changes are undone.
pub fn may_abort(t: Counts, visits: &[u16], scopes: &[u16], v: Visit) -> bool
    requires { Ready t (length visits.now) (length scopes.now) }
    ensures { result ≡ may_abort (index t visits.now scopes.now) v.0 }
{
    is_listed(t, visits, v) && highest_of(t, scopes, v).0 == 0
}

// The visit's number is the next one.
pub fn is_next(t: Counts, v: Visit) -> bool
    ensures { result ≡ (v.0 == suc t.begun) }
{
    u32::from(v.0) == u32::from(t.begun) + 1
}

// What a row needs of visits, cells, holders and undo rows. `named` is the row that an undo row names.
#[tactic(auto, unfolding(tables_model::specs::Rows::lawful_by))]
pub fn is_lawful(t: Counts, visits: &[u16], scopes: &[u16], row: Row, named: Row) -> bool
    requires { Ready t (length visits.now) (length scopes.now) }
    ensures { result ≡ lawful_by (index t visits.now scopes.now) (meant named) (meant row) }
{
    match row {
        Row::Begin(v) => is_next(t, v),
        Row::Change(v, ..) | Row::Commit(v) => may_act(t, visits, v),
        Row::HandOver(g, r, c) => may_hand_over(t, visits, scopes, g, r, CellSet::Only(c)),
        Row::Undo(h, c, n, a) => may_undo(t, scopes, named, h, c, n, a),
        Row::Abort(v) => may_abort(t, visits, scopes, v),
        Row::HandOverAll(g, r) => may_hand_over(t, visits, scopes, g, r, CellSet::Every),
    }
}

fn room_to_begin(t: Counts, scopes: &[u16], rows: usize) -> bool
    requires { Ranged t (length scopes.now) }
    ensures { (vs : List ℕ) → result ≡ room_to_begin (index t vs scopes.now) rows }
{
    t.count < ACTIVE_LIMIT && has_room(t, scopes, rows, 2)
}

fn room_to_change(t: Counts, scopes: &[u16], rows: usize, v: Visit, c: Cell) -> bool
    requires { Ranged t (length scopes.now) }
    ensures { (vs : List ℕ) → result ≡ room_to_change (index t vs scopes.now) rows v.0 c.0 }
{
    has_entry(t, scopes, v, c) && has_room(t, scopes, rows, 2)
}

// What a row needs of the sixteen visits, the scopes and the free rows, after so many rows.
#[tactic(auto, unfolding(tables_model::specs::Rows::within_limits_by))]
pub fn is_within_limits(t: Counts, scopes: &[u16], rows: usize, row: Row) -> bool
    requires { Ranged t (length scopes.now) }
    ensures { (vs : List ℕ) → result ≡ within_limits_by (index t vs scopes.now) rows (meant row) }
{
    match row {
        Row::Begin(_) => room_to_begin(t, scopes, rows),
        Row::Change(v, c, _) => room_to_change(t, scopes, rows, v, c),
        Row::HandOver(..) | Row::HandOverAll(..) => has_room(t, scopes, rows, 1),
        Row::Undo(..) | Row::Commit(_) | Row::Abort(_) => true,
    }
}

// A row judged after so many rows.
#[tactic(auto, unfolding(tables_model::specs::Rows::judge_by))]
pub fn judge(
    t: Counts,
    visits: &[u16],
    scopes: &[u16],
    rows: usize,
    row: Row,
    named: Row,
) -> Result<(), Breach>
    requires { Ready t (length visits.now) (length scopes.now) }
    ensures { result ≡ judge_by (index t visits.now scopes.now) rows (meant named) (meant row) }
{
    if !is_lawful(t, visits, scopes, row, named) {
        return Err(Breach::Rule);
    }
    if !is_within_limits(t, scopes, rows, row) {
        return Err(Breach::Limit);
    }
    Ok(())
}
