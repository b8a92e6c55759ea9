// One entry of the scope table: the tests on it, and what a row makes of it.
ghost use Rattle.std.specs.Prelude.{◌≡◌};
ghost use Rattle.tables_model.specs.Entries.{scope_in};
ghost use Rattle.tables_model.specs.Table.{among, is_held, covers as covers_by, grown as grown_scope};
ghost use Rattle.tables_model.specs.Table.{started as started_scope, passed as passed_scope, lowered as lowered_scope};

use rows::{Cell, Lsn, Visit};
use tables_model::{CellSet, Scope, Whom};

// The hand-over is about the cell.
pub fn is_among(cs: CellSet, cell: Cell) -> bool
    ensures { result ≡ among cs cell.0 }
{
    match cs {
        CellSet::Only(c) => cell == c,
        CellSet::Every => true,
    }
}

// The holder has changes of these cells in this scope.
pub fn is_held(e: Scope, v: Visit, cs: CellSet) -> bool
    ensures { result ≡ is_held v.0 (among cs) (scope_in e) }
{
    e.holder == v && is_among(cs, e.cell)
}

// The take-back is about the holder.
pub fn covers(w: Whom, holder: Visit) -> bool
    ensures { result ≡ covers_by w holder.0 }
{
    match w {
        Whom::One(v) => holder == v,
        Whom::All => true,
    }
}

// A change in row n starts a scope.
pub fn started(n: Lsn, v: Visit, c: Cell) -> Scope
    ensures { scope_in result ≡ started_scope n.0 v.0 c.0 }
{
    Scope {
        maker: v,
        holder: v,
        cell: c,
        first: n,
        last: n,
        handed: false,
        count: 1,
    }
}

// A change in row n grows the scope. The count of a table of any origin may be full: it wraps.
pub fn grown(e: Scope, n: Lsn) -> Scope
    ensures { scope_in result ≡ grown_scope n.0 (scope_in e) }
{
    Scope {
        last: n,
        count: e.count.wrapping_add(1),
        ..e
    }
}

// The scope passes to another holder.
pub fn passed(e: Scope, r: Visit) -> Scope
    ensures { scope_in result ≡ passed_scope r.0 (scope_in e) }
{
    Scope {
        holder: r,
        handed: true,
        ..e
    }
}

// The scope's last change is undone; `before` is the one before it. The entry stays, though it may be empty: it is in use until its holder ends.
pub fn lowered(e: Scope, before: Lsn) -> Scope
    ensures { scope_in result ≡ lowered_scope before.0 (scope_in e) }
{
    Scope {
        last: before,
        count: e.count.saturating_sub(1),
        ..e
    }
}
