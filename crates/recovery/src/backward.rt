// The backward part of an opening: open changes fall over all visits, an abort row ends each active visit, then a force.
ghost use Rattle.std.specs.Prelude.{◌≡◌, ◌≤◌, length, replicate};
ghost use Rattle.book.specs.Limits.{active_limit, log_length};
ghost use Rattle.tables_model.specs.Layout.{visits_length, actives};
ghost use Rattle.tables_model.specs.Rows.{index};
ghost use Rattle.state.specs.World.{tail_length};
ghost use Rattle.wal.specs.Writing.{ram, Fits};
ghost use Rattle.recovery_model.specs.Backward.{abort_all, backward as backward_of};

use journal::Control;
use journal::force::force;
use recovery_model::LogScan;
use rows::Row;
use rows::limits::{CHARTS_LENGTH, TAIL_LENGTH};
use state::ram::{Fuse, Phase};
use tables::layout::{FLAT_LENGTH, VISITS_LENGTH};
use tables::visits::active_at;
use tables_model::Whom;
use wal::take_back::take_back;
use wal::write::write;

// An abort row for each of the first `count` visits, the last one first.
fn abort_all(
    c: Control,
    log: &mut [u8],
    tail: &mut [u8],
    copy: &mut [u8],
    visits: &[u16],
    count: usize,
) -> Control
    requires { Fits c (length log.old) (length tail.old) (length copy.old) × (length visits.now ≡ visits_length) × (count ≤ active_limit) }
    ensures { ram result log.new tail.new copy.new
        ≡ abort_all count (actives visits.now) (ram c log.old tail.old copy.old) }
{
    let mut d = c;
    for n in (0..count).rev() {
        let v = active_at(visits, n).visit;
        d = write(d, log, tail, copy, Row::Abort(v));
    }
    d
}

// The scan says which visits are active, and with the scope table which changes are open. The tail is empty.
pub fn backward(
    fuse: Fuse,
    s: LogScan,
    log: &mut [u8],
    tail: &mut [u8; TAIL_LENGTH],
    copy: &mut [u8; CHARTS_LENGTH],
    visits: &[u16; VISITS_LENGTH],
    scopes: &mut [u16; FLAT_LENGTH],
) -> Control
    requires log_len { length log.old ≡ log_length }
    requires tail_value { tail.old ≡ replicate tail_length 0 }
    ensures { ram result log.new tail.new copy.new
        ≡ backward_of fuse s.rows (index s.counts visits.now scopes.old) log.old copy.old }
{
    let t = s.counts;
    let c = Control {
        phase: Phase::Open,
        fuse,
        stored: s.rows,
        waiting: 0,
    };
    let d = take_back(c, log, tail, copy, scopes, t.used, Whom::All);
    let e = abort_all(d, log, tail, copy, visits, t.count);
    force(e, log, tail)
}
