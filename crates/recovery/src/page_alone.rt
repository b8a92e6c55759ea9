// A page redone alone: lent the log and one page's 32 bytes, with its number, it leaves that page as an opening that takes them has it before going backward.
ghost use Rattle.std.specs.Prelude.{◌≡◌, ◌&&◌, length, ◌==◌};
ghost use Rattle.book.specs.Limits.{log_length, page_length};
ghost use Rattle.recovery_model.specs.PageAlone.{end_of, redone_as, redone_alone};

use crate::pages::redo_page;
use rows::limits::{LOG_LENGTH, PAGE_LENGTH, PAGE_LIMIT, ROW_LENGTH, ROW_LIMIT};
use state::answers::Refusal;

// The rows before the first one whose kind is 0.
fn end_of(log: &[u8]) -> usize
    requires { length log.now ≡ log_length }
    ensures { result ≡ end_of log.now }
{
    for k in 0..ROW_LIMIT {
        if log[ROW_LENGTH * k] == 0 {
            return k;
        }
    }
    ROW_LIMIT
}

// The log and the page have their lengths.
fn lengths_fit(log: usize, page: usize) -> bool
    ensures { result ≡ (log == log_length && page == page_length) }
{
    log == LOG_LENGTH && page == PAGE_LENGTH
}

// The rows above the page's mark, by the loop of the opening; for whatever log and page are lent. A refusal changes nothing.
pub fn redo_page_alone(log: &[u8], page: &mut [u8], p: u8) -> Result<(), Refusal>
    ensures { redone_as result page.new ≡ redone_alone log.now p page.old }
{
    if !lengths_fit(log.len(), page.len()) {
        return Err(Refusal::WrongLength);
    }
    let at = usize::from(p);
    if PAGE_LIMIT <= at {
        return Err(Refusal::NoSuchPage);
    }
    let rows = end_of(log);
    redo_page(log, rows, page, at);
    Ok(())
}
