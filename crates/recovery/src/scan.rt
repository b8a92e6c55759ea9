// The check of a log, row by row: each row is decoded once, judged by the tables, and applied to them; zero bytes follow the last.
ghost use Rattle.std.specs.Prelude.{◌≡◌, ◌-◌, length};
ghost use Rattle.rows.specs.Meaning.{meant};
ghost use Rattle.book.specs.Rows.{undone_by};
ghost use Rattle.book.specs.Limits.{row_limit, log_length};
ghost use Rattle.tables_model.specs.Rows.{Ready, index, judge_by};
ghost use Rattle.recovery_model.specs.Scan.{row_in, reason_of, ruled, judge_row, scan_from, first_set, scanned};
ghost use Rattle.recovery_model.specs.Checking.{Next, judgement, found};
ghost use Rattle.recovery_model.specs.Openings.{no_index};

use crate::look::{before_undone, named_by, row_bytes};
use recovery_model::{BadRow, LogScan, Reason};
use rows::limits::ROW_LIMIT;
use rows::reader::{is_blank, read_row};
use rows::{Lsn, Read, Row};
use tables::layout::{FLAT_LENGTH, VISITS_LENGTH};
use tables::rules::judge;
use tables::steps::step;
use tables_model::{Breach, Counts};

// The reason of a row that the tables forbid.
fn reason_of(b: Breach) -> Reason
    ensures { result ≡ reason_of b }
{
    match b {
        Breach::Rule => Reason::Rule,
        Breach::Limit => Reason::Limit,
    }
}

// A row that the rules allow is applied to the tables, and does not end the log.
fn take_row(
    log: &[u8],
    k: usize,
    t: Counts,
    visits: &mut [u16],
    scopes: &mut [u16],
    row: Row,
) -> Result<Option<Counts>, Reason>
    requires next { Next (length log.now) k }
    requires ready { Ready t (length visits.old) (length scopes.old) }
    ensures { judgement t result visits.new scopes.new
        ≡ ruled log.now k (index t visits.old scopes.old) (meant row)
        (judge_by (index t visits.old scopes.old) k (row_in log.now k (undone_by (meant row))) (meant row)) }
{
    let named = named_by(log, k, row);
    judge(t, visits, scopes, k, row, named).map_err(reason_of)?;
    let n = Lsn((k + 1) as u16);
    let before = before_undone(log, k, t, scopes, row);
    Ok(Some(step(t, visits, scopes, n, row, before.unwrap_or_default())))
}

// Row k + 1, after k rows: the counters of the tables after it, none where the log ends before it, or why it is not allowed.
#[tactic(auto, unfolding(recovery_model::specs::Scan::judge_row))]
fn judge_row(
    log: &[u8],
    k: usize,
    t: Counts,
    visits: &mut [u16],
    scopes: &mut [u16],
) -> Result<Option<Counts>, Reason>
    requires next { Next (length log.now) k }
    requires ready { Ready t (length visits.old) (length scopes.old) }
    ensures { judgement t result visits.new scopes.new
        ≡ judge_row log.now k (index t visits.old scopes.old) }
{
    match read_row(row_bytes(log, k), Lsn((k + 1) as u16)) {
        Read::Valid(row) => take_row(log, k, t, visits, scopes, row),
        Read::Blank => Ok(None),
        Read::Malformed => Err(Reason::Bytes),
        Read::OutOfRange => Err(Reason::Rule),
    }
}

// The rows up to the first that is blank or bad.
fn scan_rows(log: &[u8], first: Counts, visits: &mut [u16], scopes: &mut [u16]) -> LogScan
    requires log_len { length log.now ≡ log_length }
    requires ready { Ready first (length visits.old) (length scopes.old) }
    ensures { found result visits.new scopes.new
        ≡ scan_from row_limit 0 log.now (index first visits.old scopes.old) }
{
    let mut counts = first;
    for k in 0..ROW_LIMIT {
        match judge_row(log, k, counts, visits, scopes) {
            Ok(Some(next)) => counts = next,
            Ok(None) => {
                return LogScan {
                    rows: k,
                    counts,
                    bad: None,
                };
            }
            Err(reason) => {
                let row = Lsn((k + 1) as u16);
                return LogScan {
                    rows: k,
                    counts,
                    bad: Some(BadRow { row, reason }),
                };
            }
        }
    }
    LogScan {
        rows: ROW_LIMIT,
        counts,
        bad: None,
    }
}

// The first row from place k on that is not blank.
fn first_set(log: &[u8], k: usize) -> Option<BadRow>
    requires { length log.now ≡ log_length }
    ensures { result ≡ first_set (row_limit - k) k log.now }
{
    for i in k..ROW_LIMIT {
        if !is_blank(row_bytes(log, i)) {
            let row = Lsn((i + 1) as u16);
            let reason = Reason::Bytes;
            return Some(BadRow { row, reason });
        }
    }
    None
}

// The whole log: all rows, then zero bytes to the end. Both tables are cleared first.
pub fn scan_log(
    log: &[u8],
    visits: &mut [u16; VISITS_LENGTH],
    scopes: &mut [u16; FLAT_LENGTH],
) -> LogScan
    requires { length log.now ≡ log_length }
    ensures { found result visits.new scopes.new ≡ scanned log.now no_index }
{
    visits.fill(0);
    scopes.fill(0);
    let mut s = scan_rows(log, Counts::default(), visits, scopes);
    if s.bad.is_none() {
        s.bad = first_set(log, s.rows);
    }
    s
}
