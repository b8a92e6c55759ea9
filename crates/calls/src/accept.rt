// A call that no check refuses, in place: log, charts, copy, tail and the flat tables become what the call leaves.
ghost use Rattle.std.specs.Prelude.{◌≡◌, ◌⊎◌, List, ℕ, ◌+◌, ◌-◌, ◌≤◌, pos, length};
ghost use Rattle.book.specs.Calls.{Call};
ghost use Rattle.book.specs.Limits.{charts_length, row_limit};
ghost use Rattle.state.specs.Answers.{row, done_value, done_with};
ghost use Rattle.state.specs.Requests.{call_of};
ghost use Rattle.wal.specs.Arrays.{left};
ghost use Rattle.calls_model.specs.Acts.{core, Accepts};
ghost use Rattle.calls_model.specs.Perform.{Accepted, Held, Failed, IfRead, Unchanged};

use crate::act::{Acted, abort, begin, change, commit, flush, hand_over};
use charts::charts::read_cell;
use journal::force::force;
use journal::{Control, Outcome};
use rows::limits::{CHARTS_LENGTH, TAIL_LENGTH};
use rows::{Cell, Lsn, Visit};
use state::answers::{Done, Refusal, Writes};
use state::ram::Phase;
use state::requests::Request;
use tables::layout::{FLAT_LENGTH, VISITS_LENGTH};
use tables_model::{CellSet, Counts};
use wal::ram::Ram;

// Where the power held the call is done; where it failed RAM is cleared. `before` rows were stored before the call; `pages` is what it counts where the
// power held, since a page is its last write.
fn settle(
    before: usize,
    a: Acted,
    done: Done,
    pages: usize,
    copy: &mut [u8; CHARTS_LENGTH],
    tail: &mut [u8; TAIL_LENGTH],
    visits: &mut [u16; VISITS_LENGTH],
    scopes: &mut [u16; FLAT_LENGTH],
) -> Outcome
    ensures { Held a.control a.counts done (a.control.stored - before) pages copy.old tail.old visits.old scopes.old result
        copy.new tail.new visits.new scopes.new
        ⊎ Failed a.control (a.control.stored - before) result copy.new tail.new visits.new scopes.new }
{
    let Acted { control, counts } = a;
    let rows = control.stored.saturating_sub(before);
    if let Phase::Closed = control.phase {
        let ram = Ram {
            copy,
            tail,
            visits,
            scopes,
        };
        return ram.clear(Err(Refusal::Closed), Writes { rows, pages: 0 });
    }
    Outcome {
        answer: Ok(done),
        control,
        counts,
        writes: Writes { rows, pages },
    }
}

// A call that returns its row's number: that of the last row.
#[inline(always)]
fn row_done(c: Control) -> Done
    requires { c.stored + c.waiting ≤ row_limit }
    ensures { (done_value result ≡ pos (c.stored + c.waiting)) × (done_with result ≡ row) }
{
    Done::Row(Lsn((c.stored + c.waiting) as u16))
}

// Each is inlined, as `accept` is: its work stands in the caller, and is not called.
#[inline(always)]
pub fn accept_begin(
    c: Control,
    t: Counts,
    visits: &mut [u16; VISITS_LENGTH],
    log: &mut [u8],
    copy: &mut [u8; CHARTS_LENGTH],
    tail: &mut [u8; TAIL_LENGTH],
    scopes: &mut [u16; FLAT_LENGTH],
) -> Outcome
    requires { Accepts c t (length log.old) (length copy.old) (length tail.old) visits.old scopes.old Call.begin }
    ensures { (charts : List ℕ) → Accepted (core c t visits.old log.old charts copy.old tail.old scopes.old) Call.begin result
        log.new charts copy.new tail.new visits.new scopes.new }
{
    let a = begin(c, t, visits, log, copy, tail);
    let done = Done::Visit(Visit(t.begun + 1));
    settle(c.stored, a, done, 0, copy, tail, visits, scopes)
}

#[inline(always)]
pub fn accept_change(
    c: Control,
    t: Counts,
    visits: &mut [u16; VISITS_LENGTH],
    log: &mut [u8],
    copy: &mut [u8; CHARTS_LENGTH],
    tail: &mut [u8; TAIL_LENGTH],
    scopes: &mut [u16; FLAT_LENGTH],
    v: Visit,
    k: Cell,
    z: i16,
) -> Outcome
    requires { Accepts c t (length log.old) (length copy.old) (length tail.old) visits.old scopes.old (Call.change v.0 k.0 z) }
    ensures { (charts : List ℕ) → Accepted (core c t visits.old log.old charts copy.old tail.old scopes.old) (Call.change v.0 k.0 z) result
        log.new charts copy.new tail.new visits.new scopes.new }
{
    let a = change(c, t, log, copy, tail, scopes, v, k, z);
    let done = row_done(a.control);
    settle(c.stored, a, done, 0, copy, tail, visits, scopes)
}

#[inline(always)]
pub fn accept_hand_over(
    c: Control,
    t: Counts,
    visits: &mut [u16; VISITS_LENGTH],
    log: &mut [u8],
    copy: &mut [u8; CHARTS_LENGTH],
    tail: &mut [u8; TAIL_LENGTH],
    scopes: &mut [u16; FLAT_LENGTH],
    g: Visit,
    r: Visit,
    k: Cell,
) -> Outcome
    requires { Accepts c t (length log.old) (length copy.old) (length tail.old) visits.old scopes.old (Call.hand_over g.0 r.0 k.0) }
    ensures { (charts : List ℕ) → Accepted (core c t visits.old log.old charts copy.old tail.old scopes.old) (Call.hand_over g.0 r.0 k.0) result
        log.new charts copy.new tail.new visits.new scopes.new }
{
    let a = hand_over(c, t, log, copy, tail, scopes, g, r, CellSet::Only(k));
    let done = row_done(a.control);
    settle(c.stored, a, done, 0, copy, tail, visits, scopes)
}

#[inline(always)]
pub fn accept_hand_over_all(
    c: Control,
    t: Counts,
    visits: &mut [u16; VISITS_LENGTH],
    log: &mut [u8],
    copy: &mut [u8; CHARTS_LENGTH],
    tail: &mut [u8; TAIL_LENGTH],
    scopes: &mut [u16; FLAT_LENGTH],
    g: Visit,
    r: Visit,
) -> Outcome
    requires { Accepts c t (length log.old) (length copy.old) (length tail.old) visits.old scopes.old (Call.hand_over_all g.0 r.0) }
    ensures { (charts : List ℕ) → Accepted (core c t visits.old log.old charts copy.old tail.old scopes.old) (Call.hand_over_all g.0 r.0) result
        log.new charts copy.new tail.new visits.new scopes.new }
{
    let a = hand_over(c, t, log, copy, tail, scopes, g, r, CellSet::Every);
    let done = row_done(a.control);
    settle(c.stored, a, done, 0, copy, tail, visits, scopes)
}

#[inline(always)]
pub fn accept_commit(
    c: Control,
    t: Counts,
    visits: &mut [u16; VISITS_LENGTH],
    log: &mut [u8],
    copy: &mut [u8; CHARTS_LENGTH],
    tail: &mut [u8; TAIL_LENGTH],
    scopes: &mut [u16; FLAT_LENGTH],
    v: Visit,
) -> Outcome
    requires { Accepts c t (length log.old) (length copy.old) (length tail.old) visits.old scopes.old (Call.commit v.0) }
    ensures { (charts : List ℕ) → Accepted (core c t visits.old log.old charts copy.old tail.old scopes.old) (Call.commit v.0) result
        log.new charts copy.new tail.new visits.new scopes.new }
{
    let a = commit(c, t, visits, log, copy, tail, scopes, v);
    let done = row_done(a.control);
    settle(c.stored, a, done, 0, copy, tail, visits, scopes)
}

#[inline(always)]
pub fn accept_abort(
    c: Control,
    t: Counts,
    visits: &mut [u16; VISITS_LENGTH],
    log: &mut [u8],
    copy: &mut [u8; CHARTS_LENGTH],
    tail: &mut [u8; TAIL_LENGTH],
    scopes: &mut [u16; FLAT_LENGTH],
    v: Visit,
) -> Outcome
    requires { Accepts c t (length log.old) (length copy.old) (length tail.old) visits.old scopes.old (Call.abort v.0) }
    ensures { (charts : List ℕ) → Accepted (core c t visits.old log.old charts copy.old tail.old scopes.old) (Call.abort v.0) result
        log.new charts copy.new tail.new visits.new scopes.new }
{
    let a = abort(c, t, visits, log, copy, tail, scopes, v);
    let done = row_done(a.control);
    settle(c.stored, a, done, 0, copy, tail, visits, scopes)
}

#[inline(always)]
pub fn accept_force(
    c: Control,
    t: Counts,
    visits: &mut [u16; VISITS_LENGTH],
    log: &mut [u8],
    copy: &mut [u8; CHARTS_LENGTH],
    tail: &mut [u8; TAIL_LENGTH],
    scopes: &mut [u16; FLAT_LENGTH],
) -> Outcome
    requires { Accepts c t (length log.old) (length copy.old) (length tail.old) visits.old scopes.old Call.force }
    ensures { (charts : List ℕ) → Accepted (core c t visits.old log.old charts copy.old tail.old scopes.old) Call.force result
        log.new charts copy.new tail.new visits.new scopes.new }
{
    let a = Acted {
        control: force(c, log, tail),
        counts: t,
    };
    settle(c.stored, a, Done::Nothing, 0, copy, tail, visits, scopes)
}

#[inline(always)]
pub fn accept_flush(
    c: Control,
    t: Counts,
    visits: &mut [u16; VISITS_LENGTH],
    log: &mut [u8],
    charts: &mut [u8],
    copy: &mut [u8; CHARTS_LENGTH],
    tail: &mut [u8; TAIL_LENGTH],
    scopes: &mut [u16; FLAT_LENGTH],
    page: u8,
) -> Outcome
    requires { Accepts c t (length log.old) (length copy.old) (length tail.old) visits.old scopes.old (Call.flush page) × (length charts.old ≡ charts_length) }
    ensures { Accepted (core c t visits.old log.old charts.old copy.old tail.old scopes.old) (Call.flush page) result
        log.new charts.new copy.new tail.new visits.new scopes.new }
{
    let a = Acted {
        control: flush(c, log, charts, copy, tail, page),
        counts: t,
    };
    settle(c.stored, a, Done::Nothing, 1, copy, tail, visits, scopes)
}

// A read changes nothing.
#[inline(always)]
pub fn accept_read(
    c: Control,
    t: Counts,
    visits: &[u16],
    log: &[u8],
    copy: &[u8],
    tail: &[u8],
    scopes: &[u16],
    k: Cell,
) -> Outcome
    requires { Accepts c t (length log.now) (length copy.now) (length tail.now) visits.now scopes.now (Call.read k.0) }
    ensures { ((charts : List ℕ) → Accepted (core c t visits.now log.now charts copy.now tail.now scopes.now) (Call.read k.0) result
        log.now charts copy.now tail.now visits.now scopes.now)
        × (result.control ≡ c) × (result.counts ≡ t) × (result.writes ≡ record { rows = 0; pages = 0 }) }
{
    Outcome {
        answer: Ok(Done::Grams(read_cell(copy, k))),
        control: c,
        counts: t,
        writes: Writes::default(),
    }
}

// It is inlined, so that a caller with one kind of request has the work of that kind alone.
#[inline(always)]
pub fn accept(
    c: Control,
    t: Counts,
    ram: Ram,
    log: &mut [u8],
    charts: &mut [u8],
    request: Request,
) -> Outcome
    requires { Accepts c t (length log.old) (length ram.copy.now) (length ram.tail.now) ram.visits.now ram.scopes.now (call_of request)
        × (length charts.old ≡ charts_length) }
    ensures accepted { let r = left ram.exit in
        Accepted (core c t ram.entry.visits.now log.old charts.old ram.entry.copy.now ram.entry.tail.now ram.entry.scopes.now) (call_of request) result
        log.new charts.new r.copy r.tail r.visits r.scopes }
    ensures read { let r = left ram.exit in
        IfRead (call_of request) (Unchanged c t log.old charts.old ram.entry.copy.now ram.entry.tail.now ram.entry.visits.now ram.entry.scopes.now
        result.control result.counts log.new charts.new r.copy r.tail r.visits r.scopes
        × (result.writes ≡ record { rows = 0; pages = 0 })) }
{
    let Ram {
        copy,
        tail,
        visits,
        scopes,
    } = ram;
    match request {
        Request::Begin => accept_begin(c, t, visits, log, copy, tail, scopes),
        Request::Change(v, k, z) => {
            accept_change(c, t, visits, log, copy, tail, scopes, v, k, z)
        }
        Request::HandOver(g, r, k) => {
            accept_hand_over(c, t, visits, log, copy, tail, scopes, g, r, k)
        }
        Request::HandOverAll(g, r) => {
            accept_hand_over_all(c, t, visits, log, copy, tail, scopes, g, r)
        }
        Request::Commit(v) => accept_commit(c, t, visits, log, copy, tail, scopes, v),
        Request::Abort(v) => accept_abort(c, t, visits, log, copy, tail, scopes, v),
        Request::Force => accept_force(c, t, visits, log, copy, tail, scopes),
        Request::Flush(page) => {
            accept_flush(c, t, visits, log, charts, copy, tail, scopes, page)
        }
        Request::Read(k) => accept_read(c, t, visits, log, copy, tail, scopes, k),
    }
}
