// Stored writes: one row of the log, one page of the charts. A write beyond the fuse changes no byte.
ghost use Rattle.std.specs.Prelude.{◌≡◌, ◌+◌, ◌*◌, ◌<◌, ◌≤◌, length};
ghost use Rattle.book.specs.Limits.{row_length, page_length};
ghost use Rattle.journal.specs.Writes.{spend_of, put_at, put_row, put_page, if_lands};

use crate::fuse::spend;
use rows::limits::{PAGE_LENGTH, ROW_LENGTH};
use state::ram::Fuse;

// Sixteen stored bytes from place `at` on are replaced. They go through a local array: to the compiler two lent slices may overlap, and it would copy from
// one to the other byte by byte, where this is one wide store.
fn put_sixteen(stored: &mut [u8], at: usize, new: &[u8])
    requires { (at + 16 ≤ length stored.old) × (length new.now ≡ 16) }
    ensures { stored.new ≡ put_at 16 stored.old at new.now }
{
    let mut local = [0u8; 16];
    local.copy_from_slice(new);
    stored[at..at + 16].copy_from_slice(&local);
}

// The row's bytes become row k of the log, counted from 0.
pub fn store_row(f: Fuse, k: usize, log: &mut [u8], row: &[u8]) -> Option<Fuse>
    requires { (row_length * k + row_length ≤ length log.old) × (length row.now ≡ row_length) }
    ensures { (result ≡ spend_of f) × (log.new ≡ if_lands (spend_of f) (put_row log.old k row.now) log.old) }
{
    let left = spend(f)?;
    put_sixteen(log, ROW_LENGTH * k, row);
    Some(left)
}

// A page's 32 stored bytes are replaced. The half with the mark is written last.
fn put_page(stored: &mut [u8], page: &[u8])
    requires { (length stored.old ≡ page_length) × (length page.now ≡ page_length) }
    ensures { stored.new ≡ page.now }
{
    put_sixteen(stored, 16, &page[16..PAGE_LENGTH]);
    put_sixteen(stored, 0, &page[0..16]);
}

// The page's bytes become page p of the charts, also if they do not change.
pub fn store_page(f: Fuse, p: usize, charts: &mut [u8], page: &[u8]) -> Option<Fuse>
    requires { (page_length * p + page_length ≤ length charts.old) × (length page.now ≡ page_length) }
    ensures { (result ≡ spend_of f) × (charts.new ≡ if_lands (spend_of f) (put_page charts.old p page.now) charts.old) }
{
    let left = spend(f)?;
    let at = PAGE_LENGTH * p;
    put_page(&mut charts[at..at + PAGE_LENGTH], page);
    Some(left)
}
