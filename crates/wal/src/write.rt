// A row goes to the journal, and what it does to its cell to the copy of the charts.
ghost use Rattle.std.specs.Prelude.{◌≡◌, length};
ghost use Rattle.book.specs.Rows.{effect};
ghost use Rattle.book.specs.Limits.{charts_length};
ghost use Rattle.charts.specs.Moves.{charts_moved};
ghost use Rattle.rows.specs.Meaning.{meant};
ghost use Rattle.wal.specs.Writing.{ram, Fits, written};

use charts::charts::apply_effect;
use journal::Control;
use journal::tail::append;
use rows::effects::effect_of;
use rows::{Lsn, Row};
use state::ram::Phase;

// What row n does to the copy.
fn apply_row(copy: &mut [u8], row: Row, n: Lsn)
    requires { length copy.old ≡ charts_length }
    ensures { copy.new ≡ charts_moved copy.old (effect (meant row)) n.0 }
{
    apply_effect(copy, effect_of(row), n);
}

// The row is appended; a journal that closed has taken none.
pub fn write(c: Control, log: &mut [u8], tail: &mut [u8], copy: &mut [u8], row: Row) -> Control
    requires { Fits c (length log.old) (length tail.old) (length copy.old) }
    ensures { ram result log.new tail.new copy.new
        ≡ written (ram c log.old tail.old copy.old) (meant row) }
{
    let d = append(c, log, tail, row);
    let Phase::Open = d.phase else {
        return d;
    };
    let n = Lsn((d.stored + d.waiting) as u16);
    apply_row(copy, row, n);
    d
}
