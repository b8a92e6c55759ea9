// Open changes fall, highest row first, each by an undo row. The scope table says which is next; only the rows that its scopes cover are looked at.
ghost use Rattle.std.specs.Prelude.{◌≡◌, cond, ◌+◌, ◌<◌, ◌≤◌, length, None};
ghost use Rattle.book.specs.Limits.{scope_limit};
ghost use Rattle.rows.specs.Meaning.{meant};
ghost use Rattle.tables_model.specs.Layout.{flat_length, entries};
ghost use Rattle.wal.specs.Writing.{Fits};
ghost use Rattle.state.specs.World.{is_open_phase};
ghost use Rattle.tables_model.specs.Table.{highest as highest_in};
ghost use Rattle.wal.specs.TakeBack.{taking, undo_row, fallen, fall_all, Reach};

use crate::look::{before_last, row_at};
use crate::write::write;
use journal::Control;
use rows::{Cell, Lsn, Row, Visit};
use state::ram::Phase;
use tables::entries::entry_at;
use tables::lookup::highest;
use tables::updates::undo_at;
use tables_model::Whom;

// The undo row of row n: cell and change as first logged.
fn undo_row(holder: Visit, n: Lsn, row: Row) -> Row
    ensures { meant result ≡ undo_row holder.0 n.0 (meant row) }
{
    if let Row::Change(_, cell, amount) = row {
        Row::Undo(holder, cell, n, amount)
    } else {
        Row::Undo(holder, Cell(0), n, 0)
    }
}

// The last change of entry i falls.
fn fall(
    c: Control,
    log: &mut [u8],
    tail: &mut [u8],
    copy: &mut [u8],
    scopes: &mut [u16],
    i: usize,
) -> Control
    requires { Fits c (length log.old) (length tail.old) (length copy.old) × (length scopes.old ≡ flat_length) × (i < scope_limit) }
    ensures { taking result log.new tail.new copy.new scopes.new
        ≡ fallen i (taking c log.old tail.old copy.old scopes.old) }
{
    let s = entry_at(scopes, i);
    let row = row_at(c, log, tail, usize::from(s.last.0));
    let before = before_last(c, log, tail, s);
    undo_at(scopes, i, before.unwrap_or_default());
    write(c, log, tail, copy, undo_row(s.holder, s.last, row))
}

// The entry whose last change falls next; none once the journal is closed.
fn next_to_fall(c: Control, scopes: &[u16], used: usize, w: Whom) -> Option<usize>
    requires { (length scopes.now ≡ flat_length) × (used ≤ scope_limit) }
    ensures { (result ≡ cond (is_open_phase c.phase) (highest_in w used (entries scopes.now)) None) × Reach result }
{
    match c.phase {
        Phase::Open => highest(scopes, used, w),
        Phase::Closed => None,
    }
}

// All open changes of these visits fall; at most as many as there are rows.
pub fn take_back(
    c: Control,
    log: &mut [u8],
    tail: &mut [u8],
    copy: &mut [u8],
    scopes: &mut [u16],
    used: usize,
    w: Whom,
) -> Control
    requires { Fits c (length log.old) (length tail.old) (length copy.old) × (length scopes.old ≡ flat_length) × (used ≤ scope_limit) }
    ensures { taking result log.new tail.new copy.new scopes.new
        ≡ fall_all (c.stored + c.waiting) w used (taking c log.old tail.old copy.old scopes.old) }
{
    let most = c.stored + c.waiting;
    let mut d = c;
    for _ in 0..most {
        let Some(i) = next_to_fall(d, scopes, used, w) else {
            return d;
        };
        d = fall(d, log, tail, copy, scopes, i);
    }
    d
}
