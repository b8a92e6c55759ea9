// An opening from its checks to what it gives back and leaves; for whatever it is handed.
ghost use Rattle.std.specs.Prelude.{◌≡◌, ℕ, ◌+◌, ◌-◌, ◌≤◌, List, length, pos};
ghost use Rattle.book.specs.Book.{answer};
ghost use Rattle.book.specs.Limits.{row_limit, log_length, charts_length, tail_limit};
ghost use Rattle.state.specs.Answers.{refusal_answer};
ghost use Rattle.wal.specs.Writing.{ram};
ghost use Rattle.wal.specs.Arrays.{left};
ghost use Rattle.recovery_model.specs.Checking.{found};
ghost use Rattle.recovery_model.specs.Answering.{OpenOutcome};
ghost use Rattle.recovery_model.specs.Scan.{number_of_reason, scanned};
ghost use Rattle.recovery_model.specs.Openings.{no_index, settled_opening, recovered_by, checked_by};

use crate::backward::backward;
use crate::pages::{bad_page, redo};
use crate::scan::scan_log;
use journal::{Control, Outcome};
use recovery_model::{BadRow, LogScan, Reason};
use rows::limits::{CHARTS_LENGTH, TAIL_LENGTH};
use state::answers::{Done, Refusal, Writes};
use state::ram::{Fuse, Phase};
use tables::layout::{FLAT_LENGTH, VISITS_LENGTH};
use tables_model::Counts;
use wal::ram::Ram;

// The rows that an opening wrote after the first `rows`.
fn rows_written(c: Control, rows: usize) -> u16
    requires { c.stored + c.waiting ≤ row_limit }
    ensures { result ≡ c.stored + c.waiting - rows }
{
    (c.stored + c.waiting).saturating_sub(rows) as u16
}

// Ready, with nobody active after so many begin rows, or the power failed on the way.
fn settle(
    c: Control,
    rows: usize,
    begun: u16,
    copy: &mut [u8; CHARTS_LENGTH],
    tail: &mut [u8; TAIL_LENGTH],
    visits: &mut [u16; VISITS_LENGTH],
    scopes: &mut [u16; FLAT_LENGTH],
) -> Outcome
    requires { (c.waiting ≤ tail_limit) × (c.stored + c.waiting ≤ row_limit) }
    ensures { (log charts : List ℕ) → OpenOutcome (settled_opening rows begun (ram c log tail.old copy.old) charts)
        result log charts copy.new tail.new visits.new scopes.new }
{
    let writes = Writes {
        rows: c.stored.saturating_sub(rows),
        pages: 0,
    };
    let Phase::Open = c.phase else {
        let ram = Ram {
            copy,
            tail,
            visits,
            scopes,
        };
        return ram.clear(Err(Refusal::Closed), writes);
    };
    visits.fill(0);
    scopes.fill(0);
    Outcome {
        answer: Ok(Done::Wrote(rows_written(c, rows))),
        control: c,
        counts: Counts {
            begun,
            count: 0,
            used: 0,
        },
        writes,
    }
}

// Of a log and charts that passed: the copy is loaded, forward page by page, then backward.
fn recover(
    fuse: Fuse,
    s: LogScan,
    log: &mut [u8],
    charts: &[u8],
    copy: &mut [u8; CHARTS_LENGTH],
    tail: &mut [u8; TAIL_LENGTH],
    visits: &mut [u16; VISITS_LENGTH],
    scopes: &mut [u16; FLAT_LENGTH],
) -> Outcome
    requires { (length log.old ≡ log_length) × (length charts.now ≡ charts_length) }
    ensures { OpenOutcome (recovered_by fuse log.old charts.now (found s visits.old scopes.old))
        result log.new charts.now copy.new tail.new visits.new scopes.new }
{
    copy.copy_from_slice(charts);
    redo(log, s.rows, copy);
    tail.fill(0);
    let c = backward(fuse, s, log, tail, copy, visits, scopes);
    settle(c, s.rows, s.counts.begun, copy, tail, visits, scopes)
}

// What is answered of a bad row.
fn refusal_of(bad: BadRow) -> Refusal
    ensures { refusal_answer result ≡ answer (number_of_reason bad.reason) (pos bad.row.0) }
{
    match bad.reason {
        Reason::Bytes => Refusal::WrongBytes(bad.row),
        Reason::Rule => Refusal::BreaksRule(bad.row),
        Reason::Limit => Refusal::OverLimit(bad.row),
    }
}

// A bad row or a bad page closes the store and leaves log and charts as they are.
fn open_scanned(
    fuse: Fuse,
    s: LogScan,
    log: &mut [u8],
    charts: &[u8],
    copy: &mut [u8; CHARTS_LENGTH],
    tail: &mut [u8; TAIL_LENGTH],
    visits: &mut [u16; VISITS_LENGTH],
    scopes: &mut [u16; FLAT_LENGTH],
) -> Outcome
    requires { (length log.old ≡ log_length) × (length charts.now ≡ charts_length) }
    ensures { OpenOutcome (checked_by fuse log.old charts.now (found s visits.old scopes.old))
        result log.new charts.now copy.new tail.new visits.new scopes.new }
{
    let refusal = if let Some(bad) = s.bad {
        refusal_of(bad)
    } else if let Some(p) = bad_page(log, s.rows, charts) {
        Refusal::BadPage(p as u8)
    } else {
        return recover(fuse, s, log, charts, copy, tail, visits, scopes);
    };
    let ram = Ram {
        copy,
        tail,
        visits,
        scopes,
    };
    ram.clear(Err(refusal), Writes::default())
}

// Nothing is taken from what the arrays of RAM had. They go on one by one, since the functions below are lent two and more of them at once.
pub fn open(fuse: Fuse, log: &mut [u8], charts: &[u8], ram: Ram) -> Outcome
    requires { (length log.old ≡ log_length) × (length charts.now ≡ charts_length) }
    ensures { let a = left ram.exit in
        OpenOutcome (checked_by fuse log.old charts.now (scanned log.old no_index))
        result log.new charts.now a.copy a.tail a.visits a.scopes }
{
    let Ram {
        copy,
        tail,
        visits,
        scopes,
    } = ram;
    let s = scan_log(log, visits, scopes);
    open_scanned(fuse, s, log, charts, copy, tail, visits, scopes)
}
