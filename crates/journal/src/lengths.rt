// Document 01's lengths of the lent buffers, which every call checks first.
ghost use Rattle.std.specs.Prelude.{◌≡◌, ◌&&◌, eqb};
ghost use Rattle.book.specs.Limits.{log_length, charts_length, scope_limit};

use rows::limits::{CHARTS_LENGTH, LOG_LENGTH, SCOPE_LIMIT};

// The stored log and the stored charts have their lengths.
pub fn stored_fit(log: usize, charts: usize) -> bool
    ensures { result ≡ (eqb log log_length && eqb charts charts_length) }
{
    log == LOG_LENGTH && charts == CHARTS_LENGTH
}

// The log, the charts, the copy and the scope table have their lengths.
pub fn lengths_fit(log: usize, charts: usize, copy: usize, scopes: usize) -> bool
    ensures { result ≡ (eqb log log_length && eqb charts charts_length && eqb copy charts_length && eqb scopes scope_limit) }
{
    stored_fit(log, charts) && copy == CHARTS_LENGTH && scopes == SCOPE_LIMIT
}
