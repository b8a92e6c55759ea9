// The tail: rows that wait for a force.
ghost use Rattle.std.specs.Prelude.{◌≡◌, ◌+◌, ◌<◌, length, []};
ghost use Rattle.book.specs.Limits.{row_limit, tail_limit};
ghost use Rattle.journal.specs.Force.{Sizes};
ghost use Rattle.journal.specs.Journal.{journal, with_room, joined, closed_journal, appended};
ghost use Rattle.rows.specs.Meaning.{meant};
ghost use Rattle.state.specs.World.{tail_length};

use crate::Control;
use crate::force::force;
use rows::limits::{ROW_LENGTH, ROW_LIMIT, TAIL_LIMIT};
use rows::{Lsn, Row};
use state::ram::Phase;

// A full tail is forced.
fn make_room(c: Control, log: &mut [u8], tail: &mut [u8]) -> Control
    requires { Sizes c (length log.old) (length tail.old) }
    ensures { journal result log.new tail.new ≡ with_room (journal c log.old tail.old) }
{
    if TAIL_LIMIT <= c.waiting {
        force(c, log, tail)
    } else {
        c
    }
}

// The row's bytes are put behind the waiting ones.
fn join(c: Control, tail: &mut [u8], row: Row) -> Control
    requires { (length tail.old ≡ tail_length) × (c.waiting < tail_limit) × (c.stored + c.waiting < row_limit) }
    ensures { journal result [] tail.new ≡ joined (journal c [] tail.old) (meant row) }
{
    let n = Lsn((c.stored + c.waiting + 1) as u16);
    let at = ROW_LENGTH * c.waiting;
    rows::writer::write_row(&mut tail[at..at + ROW_LENGTH], row, n);
    Control {
        phase: Phase::Open,
        waiting: c.waiting + 1,
        ..c
    }
}

// A journal whose log is full closes, and nothing waits in it.
fn close(c: Control, tail: &mut [u8]) -> Control
    ensures { journal result [] tail.new ≡ closed_journal (journal c [] tail.old) }
{
    tail.fill(0);
    Control::closed(c.stored)
}

// A row joins those that wait; a full tail is forced first, and a closed journal takes none.
pub fn append(c: Control, log: &mut [u8], tail: &mut [u8], row: Row) -> Control
    requires { Sizes c (length log.old) (length tail.old) }
    ensures { journal result log.new tail.new ≡ appended (journal c log.old tail.old) (meant row) }
{
    let d = make_room(c, log, tail);
    let Phase::Open = d.phase else {
        return d;
    };
    if d.stored + d.waiting < ROW_LIMIT {
        join(d, tail, row)
    } else {
        close(d, tail)
    }
}
