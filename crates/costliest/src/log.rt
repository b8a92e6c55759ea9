// For each n up to 2,048 a log of n rows whose opening writes the most rows (document 02, L6): a begin, then changes of one cell by its visit.
ghost use Rattle.std.specs.Prelude.{◌≡◌, suc, ◌+◌, ◌*◌, ◌≤◌, ◌<◌, length, is_ok};
ghost use Rattle.book.specs.Limits.{row_length, row_limit};
ghost use Rattle.book.specs.RowBytes.{row_bytes};
ghost use Rattle.rows.specs.Meaning.{meant};
ghost use Rattle.journal.specs.Writes.{put_row};
ghost use Rattle.costliest.specs.Log.{is_written, log_after};
ghost use Rattle.costliest.specs.Argument.{asked, is_written_for, log_for};
ghost use Rattle.costliest.specs.NextRow.{costliest_row};

use crate::argument::read_argument;
use rows::limits::{COST_LIMIT, LOG_LENGTH, ROW_LENGTH};
use rows::writer::write_row;
use rows::{Cell, Lsn, Row, Visit};

// The row after k others.
fn next_row(k: usize) -> Row
    ensures { meant result ≡ costliest_row k }
{
    if k == 0 {
        Row::Begin(Visit(1))
    } else {
        Row::Change(Visit(1), Cell(0), 1)
    }
}

// Writes the row behind k others, with k + 1 for its own number.
fn put_row(log: &mut [u8], k: usize, row: Row)
    requires { (row_length * k + row_length ≤ length log.old) × (k < row_limit) }
    ensures { log.new ≡ put_row log.old k (row_bytes (suc k) (meant row)) }
{
    let at = ROW_LENGTH * k;
    write_row(&mut log[at..at + ROW_LENGTH], row, Lsn((k + 1) as u16));
}

// The log is left as it is.
#[derive(Clone, Copy)]
pub struct NotWritten;

// Writes the log of n rows. A log of another length is left as it is, and so is every log where n is above 2,048.
pub fn write_log(log: &mut [u8], n: usize) -> Result<(), NotWritten>
    ensures { (is_ok result ≡ is_written n log.old) × (log.new ≡ log_after n log.old) }
{
    if log.len() != LOG_LENGTH {
        return Err(NotWritten);
    }
    if COST_LIMIT < n {
        return Err(NotWritten);
    }
    log.fill(0);
    for k in 0..n {
        put_row(log, k, next_row(k));
    }
    Ok(())
}

// Writes the log that an argument asks for. One that asks for none leaves the log as it is.
pub fn write_asked(log: &mut [u8], text: &[u8]) -> Result<(), NotWritten>
    ensures { (is_ok result ≡ is_written_for (asked text.now) log.old) × (log.new ≡ log_for (asked text.now) log.old) }
{
    let Ok(Some(n)) = read_argument(text) else {
        return Err(NotWritten);
    };
    write_log(log, n)
}
