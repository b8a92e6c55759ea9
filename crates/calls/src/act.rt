// What an accepted call does: the rows that it adds, the tables after them, and its stored writes. The work of each kind of call is inlined,
// so that where one kind is asked for it stands in the caller, and is not called.
ghost use Rattle.std.specs.Prelude.{◌≡◌, ℕ, ◌+◌, ◌-◌, ◌≤◌, ◌<◌, cond, List, leb, length};
ghost use Rattle.book.specs.Calls.{Call};
ghost use Rattle.book.specs.Limits.{visit_limit, page_limit, charts_length};
ghost use Rattle.rows.specs.Meaning.{meant};
ghost use Rattle.tables_model.specs.declared.Counts.{Counts as TheCounts};
ghost use Rattle.tables_model.specs.Entries.{Sized};
ghost use Rattle.tables_model.specs.Rows.{Changes, Ready};
ghost use Rattle.tables_model.specs.Table.{among};
ghost use Rattle.tables_model.specs.Visits.{MayBegin};
ghost use Rattle.wal.specs.Writing.{Fits};
ghost use Rattle.calls_model.specs.Acts.{core, acted, cells_handed, handed_row};

use charts::charts::read_mark;
use journal::Control;
use journal::force::{force, force_up_to};
use journal::pages::write_page;
use journal::tail::append;
use rows::limits::PAGE_LENGTH;
use rows::{Cell, Lsn, Row, Visit};
use tables::steps::{after_change, after_end};
use tables::visits::with_begun;
use tables_model::{CellSet, Counts, Whom};
use wal::take_back::take_back;
use wal::write::write;

// What an accepted call leaves besides the arrays.
#[derive(Clone, Copy)]
pub(crate) struct Acted {
    pub control: Control,
    pub counts: Counts,
}

// A begin is forced: a number that was given is in the log.
#[inline(always)]
pub(crate) fn begin(
    c: Control,
    t: Counts,
    visits: &mut [u16],
    log: &mut [u8],
    copy: &mut [u8],
    tail: &mut [u8],
) -> Acted
    requires { Fits c (length log.old) (length tail.old) (length copy.old) × MayBegin t visits.old (t.begun + 1) × (t.begun < visit_limit) }
    ensures { (charts scopes : List ℕ) → core result.control result.counts visits.new log.new charts copy.new tail.new scopes
        ≡ acted (core c t visits.old log.old charts copy.old tail.old scopes) Call.begin }
{
    let v = Visit(t.begun + 1);
    let counts = with_begun(t, visits, v);
    let with_begin = write(c, log, tail, copy, Row::Begin(v));
    Acted {
        control: force(with_begin, log, tail),
        counts,
    }
}

#[inline(always)]
pub(crate) fn change(
    c: Control,
    t: Counts,
    log: &mut [u8],
    copy: &mut [u8],
    tail: &mut [u8],
    scopes: &mut [u16],
    v: Visit,
    k: Cell,
    a: i16,
) -> Acted
    requires { Fits c (length log.old) (length tail.old) (length copy.old) × Changes t scopes.old v.0 k.0 }
    ensures { (charts visits : List ℕ) → core result.control result.counts visits log.new charts copy.new tail.new scopes.new
        ≡ acted (core c t visits log.old charts copy.old tail.old scopes.old) (Call.change v.0 k.0 a) }
{
    let n = Lsn((c.stored + c.waiting + 1) as u16);
    let counts = after_change(t, scopes, n, v, k);
    Acted {
        control: write(c, log, tail, copy, Row::Change(v, k, a)),
        counts,
    }
}

// One row, whatever the number of cells.
#[inline(always)]
fn hand_over_row(g: Visit, r: Visit, cells: CellSet) -> Row
    ensures { meant result ≡ handed_row g.0 r.0 cells }
{
    match cells {
        CellSet::Only(k) => Row::HandOver(g, r, k),
        CellSet::Every => Row::HandOverAll(g, r),
    }
}

#[inline(always)]
pub(crate) fn hand_over(
    c: Control,
    t: Counts,
    log: &mut [u8],
    copy: &mut [u8],
    tail: &mut [u8],
    scopes: &mut [u16],
    g: Visit,
    r: Visit,
    cells: CellSet,
) -> Acted
    requires { Fits c (length log.old) (length tail.old) (length copy.old) × Sized (length scopes.old) t.used }
    ensures { (charts visits : List ℕ) → core result.control result.counts visits log.new charts copy.new tail.new scopes.new
        ≡ cells_handed (core c t visits log.old charts copy.old tail.old scopes.old) (handed_row g.0 r.0 cells) g.0 r.0 (among cells) }
{
    tables::updates::hand_over(scopes, t.used, g, r, cells);
    Acted {
        control: write(c, log, tail, copy, hand_over_row(g, r, cells)),
        counts: t,
    }
}

// A commit is forced.
#[inline(always)]
pub(crate) fn commit(
    c: Control,
    t: Counts,
    visits: &mut [u16],
    log: &mut [u8],
    copy: &mut [u8],
    tail: &mut [u8],
    scopes: &mut [u16],
    v: Visit,
) -> Acted
    requires { Fits c (length log.old) (length tail.old) (length copy.old) × Ready t (length visits.old) (length scopes.old) }
    ensures { (charts : List ℕ) → core result.control result.counts visits.new log.new charts copy.new tail.new scopes.new
        ≡ acted (core c t visits.old log.old charts copy.old tail.old scopes.old) (Call.commit v.0) }
{
    let counts = after_end(t, visits, scopes, v);
    let with_commit = write(c, log, tail, copy, Row::Commit(v));
    Acted {
        control: force(with_commit, log, tail),
        counts,
    }
}

// The visit's open changes fall; at most as many as there are rows. The abort row changes no cell, so that it is appended and not applied.
#[inline(always)]
pub(crate) fn abort(
    c: Control,
    t: Counts,
    visits: &mut [u16],
    log: &mut [u8],
    copy: &mut [u8],
    tail: &mut [u8],
    scopes: &mut [u16],
    v: Visit,
) -> Acted
    requires { Fits c (length log.old) (length tail.old) (length copy.old) × Ready t (length visits.old) (length scopes.old) }
    ensures { (charts : List ℕ) → core result.control result.counts visits.new log.new charts copy.new tail.new scopes.new
        ≡ acted (core c t visits.old log.old charts copy.old tail.old scopes.old) (Call.abort v.0) }
{
    let d = take_back(c, log, tail, copy, scopes, t.used, Whom::One(v));
    let counts = after_end(t, visits, scopes, v);
    Acted {
        control: append(d, log, tail, Row::Abort(v)),
        counts,
    }
}

// The waiting rows up to a page's mark, if that one waits; a mark beyond the rows counts as none.
fn up_to_mark(c: Control, mark: Lsn) -> usize
    ensures { (result ≡ cond (leb (mark.0 - c.stored) c.waiting) (mark.0 - c.stored) 0) × (result ≤ c.waiting) }
{
    let n = usize::from(mark.0).saturating_sub(c.stored);
    if n <= c.waiting { n } else { 0 }
}

// The rows up to the page's mark are stored, then the page.
#[inline(always)]
pub(crate) fn flush(
    c: Control,
    log: &mut [u8],
    charts: &mut [u8],
    copy: &[u8],
    tail: &mut [u8],
    page: u8,
) -> Control
    requires { Fits c (length log.old) (length tail.old) (length copy.now) × (length charts.old ≡ charts_length) × (page < page_limit) }
    ensures { (t : TheCounts) (visits scopes : List ℕ) → core result t visits log.new charts.new copy.now tail.new scopes
        ≡ acted (core c t visits log.old charts.old copy.now tail.old scopes) (Call.flush page) }
{
    let p = usize::from(page);
    let m = up_to_mark(c, read_mark(copy, p));
    let d = force_up_to(c, log, tail, m);
    let start = PAGE_LENGTH * p;
    write_page(d, charts, p, &copy[start..start + PAGE_LENGTH])
}
