// The calls for C, a function each, and the forward part of an opening for one page. Each call is lent five arrays of RAM (head, visits, scopes, tail
// and copy), which it works on where they lie, the stored log and the stored charts; an array crosses as a pointer, a slice as a pointer and a length.
#![tactic(auto)]

mod head; // where the journal stands and the counters, in eight numbers
mod opening; // format and open on the arrays, and a page alone
mod packed; // the answer in one number
mod run; // a call of an open store on the arrays

ghost use Rattle.book.specs.Calls.{Call};
ghost use Rattle.embed_model.specs.Arrays.{arrays};
ghost use Rattle.embed_model.specs.Called.{FormatsOfC, OpensOfC, CallsOfC};
ghost use Rattle.embed_model.specs.PageOfC.{RedoesOfC};

use head::HEAD_LENGTH;
use rows::limits::{CHARTS_LENGTH, TAIL_LENGTH};
use rows::{Cell, Visit};
use run::call;
use state::requests::Request;
use tables::layout::{FLAT_LENGTH, VISITS_LENGTH};

#[unsafe(no_mangle)]
pub extern "C" fn chart_format_on(
    head: &mut [u32; HEAD_LENGTH],
    visits: &mut [u16; VISITS_LENGTH],
    scopes: &mut [u16; FLAT_LENGTH],
    tail: &mut [u8; TAIL_LENGTH],
    copy: &mut [u8; CHARTS_LENGTH],
    log: &mut [u8],
    charts: &mut [u8],
    cells: &[i32],
) -> u64
    ensures { FormatsOfC cells.now (arrays head.old visits.old scopes.old tail.old copy.old log.old charts.old) result
        (arrays head.new visits.new scopes.new tail.new copy.new log.new charts.new) }
{
    opening::format(head, visits, scopes, tail, copy, log, charts, cells)
}

#[unsafe(no_mangle)]
pub extern "C" fn chart_open_on(
    head: &mut [u32; HEAD_LENGTH],
    visits: &mut [u16; VISITS_LENGTH],
    scopes: &mut [u16; FLAT_LENGTH],
    tail: &mut [u8; TAIL_LENGTH],
    copy: &mut [u8; CHARTS_LENGTH],
    log: &mut [u8],
    charts: &mut [u8],
    fuse: u32,
) -> u64
    ensures { OpensOfC fuse (arrays head.old visits.old scopes.old tail.old copy.old log.old charts.old) result
        (arrays head.new visits.new scopes.new tail.new copy.new log.new charts.new) }
{
    opening::open(head, visits, scopes, tail, copy, log, charts, fuse)
}

#[unsafe(no_mangle)]
pub extern "C" fn chart_begin_on(
    head: &mut [u32; HEAD_LENGTH],
    visits: &mut [u16; VISITS_LENGTH],
    scopes: &mut [u16; FLAT_LENGTH],
    tail: &mut [u8; TAIL_LENGTH],
    copy: &mut [u8; CHARTS_LENGTH],
    log: &mut [u8],
    charts: &mut [u8],
) -> u64
    ensures { CallsOfC Call.begin (arrays head.old visits.old scopes.old tail.old copy.old log.old charts.old) result
        (arrays head.new visits.new scopes.new tail.new copy.new log.new charts.new) }
{
    call(
        head,
        visits,
        scopes,
        tail,
        copy,
        log,
        charts,
        Request::Begin,
    )
}

#[unsafe(no_mangle)]
pub extern "C" fn chart_change_on(
    head: &mut [u32; HEAD_LENGTH],
    visits: &mut [u16; VISITS_LENGTH],
    scopes: &mut [u16; FLAT_LENGTH],
    tail: &mut [u8; TAIL_LENGTH],
    copy: &mut [u8; CHARTS_LENGTH],
    log: &mut [u8],
    charts: &mut [u8],
    visit: u16,
    cell: u8,
    amount: i16,
) -> u64
    ensures { CallsOfC (Call.change visit cell amount) (arrays head.old visits.old scopes.old tail.old copy.old log.old charts.old) result
        (arrays head.new visits.new scopes.new tail.new copy.new log.new charts.new) }
{
    let request = Request::Change(Visit(visit), Cell(cell), amount);
    call(head, visits, scopes, tail, copy, log, charts, request)
}

#[unsafe(no_mangle)]
pub extern "C" fn chart_hand_over_on(
    head: &mut [u32; HEAD_LENGTH],
    visits: &mut [u16; VISITS_LENGTH],
    scopes: &mut [u16; FLAT_LENGTH],
    tail: &mut [u8; TAIL_LENGTH],
    copy: &mut [u8; CHARTS_LENGTH],
    log: &mut [u8],
    charts: &mut [u8],
    giver: u16,
    receiver: u16,
    cell: u8,
) -> u64
    ensures { CallsOfC (Call.hand_over giver receiver cell) (arrays head.old visits.old scopes.old tail.old copy.old log.old charts.old) result
        (arrays head.new visits.new scopes.new tail.new copy.new log.new charts.new) }
{
    let request = Request::HandOver(Visit(giver), Visit(receiver), Cell(cell));
    call(head, visits, scopes, tail, copy, log, charts, request)
}

#[unsafe(no_mangle)]
pub extern "C" fn chart_hand_over_all_on(
    head: &mut [u32; HEAD_LENGTH],
    visits: &mut [u16; VISITS_LENGTH],
    scopes: &mut [u16; FLAT_LENGTH],
    tail: &mut [u8; TAIL_LENGTH],
    copy: &mut [u8; CHARTS_LENGTH],
    log: &mut [u8],
    charts: &mut [u8],
    giver: u16,
    receiver: u16,
) -> u64
    ensures { CallsOfC (Call.hand_over_all giver receiver) (arrays head.old visits.old scopes.old tail.old copy.old log.old charts.old) result
        (arrays head.new visits.new scopes.new tail.new copy.new log.new charts.new) }
{
    let request = Request::HandOverAll(Visit(giver), Visit(receiver));
    call(head, visits, scopes, tail, copy, log, charts, request)
}

#[unsafe(no_mangle)]
pub extern "C" fn chart_commit_on(
    head: &mut [u32; HEAD_LENGTH],
    visits: &mut [u16; VISITS_LENGTH],
    scopes: &mut [u16; FLAT_LENGTH],
    tail: &mut [u8; TAIL_LENGTH],
    copy: &mut [u8; CHARTS_LENGTH],
    log: &mut [u8],
    charts: &mut [u8],
    visit: u16,
) -> u64
    ensures { CallsOfC (Call.commit visit) (arrays head.old visits.old scopes.old tail.old copy.old log.old charts.old) result
        (arrays head.new visits.new scopes.new tail.new copy.new log.new charts.new) }
{
    let request = Request::Commit(Visit(visit));
    call(head, visits, scopes, tail, copy, log, charts, request)
}

#[unsafe(no_mangle)]
pub extern "C" fn chart_abort_on(
    head: &mut [u32; HEAD_LENGTH],
    visits: &mut [u16; VISITS_LENGTH],
    scopes: &mut [u16; FLAT_LENGTH],
    tail: &mut [u8; TAIL_LENGTH],
    copy: &mut [u8; CHARTS_LENGTH],
    log: &mut [u8],
    charts: &mut [u8],
    visit: u16,
) -> u64
    ensures { CallsOfC (Call.abort visit) (arrays head.old visits.old scopes.old tail.old copy.old log.old charts.old) result
        (arrays head.new visits.new scopes.new tail.new copy.new log.new charts.new) }
{
    let request = Request::Abort(Visit(visit));
    call(head, visits, scopes, tail, copy, log, charts, request)
}

#[unsafe(no_mangle)]
pub extern "C" fn chart_force_on(
    head: &mut [u32; HEAD_LENGTH],
    visits: &mut [u16; VISITS_LENGTH],
    scopes: &mut [u16; FLAT_LENGTH],
    tail: &mut [u8; TAIL_LENGTH],
    copy: &mut [u8; CHARTS_LENGTH],
    log: &mut [u8],
    charts: &mut [u8],
) -> u64
    ensures { CallsOfC Call.force (arrays head.old visits.old scopes.old tail.old copy.old log.old charts.old) result
        (arrays head.new visits.new scopes.new tail.new copy.new log.new charts.new) }
{
    call(
        head,
        visits,
        scopes,
        tail,
        copy,
        log,
        charts,
        Request::Force,
    )
}

#[unsafe(no_mangle)]
pub extern "C" fn chart_flush_on(
    head: &mut [u32; HEAD_LENGTH],
    visits: &mut [u16; VISITS_LENGTH],
    scopes: &mut [u16; FLAT_LENGTH],
    tail: &mut [u8; TAIL_LENGTH],
    copy: &mut [u8; CHARTS_LENGTH],
    log: &mut [u8],
    charts: &mut [u8],
    page: u8,
) -> u64
    ensures { CallsOfC (Call.flush page) (arrays head.old visits.old scopes.old tail.old copy.old log.old charts.old) result
        (arrays head.new visits.new scopes.new tail.new copy.new log.new charts.new) }
{
    let request = Request::Flush(page);
    call(head, visits, scopes, tail, copy, log, charts, request)
}

#[unsafe(no_mangle)]
pub extern "C" fn chart_read_on(
    head: &mut [u32; HEAD_LENGTH],
    visits: &mut [u16; VISITS_LENGTH],
    scopes: &mut [u16; FLAT_LENGTH],
    tail: &mut [u8; TAIL_LENGTH],
    copy: &mut [u8; CHARTS_LENGTH],
    log: &mut [u8],
    charts: &mut [u8],
    cell: u8,
) -> u64
    ensures { CallsOfC (Call.read cell) (arrays head.old visits.old scopes.old tail.old copy.old log.old charts.old) result
        (arrays head.new visits.new scopes.new tail.new copy.new log.new charts.new) }
{
    let request = Request::Read(Cell(cell));
    call(head, visits, scopes, tail, copy, log, charts, request)
}

// Lent the log and one page's bytes alone, with its number: no call of a session.
#[unsafe(no_mangle)]
pub extern "C" fn chart_redo_page(log: &[u8], page: &mut [u8], number: u8) -> u64
    ensures { RedoesOfC log.now number page.old result page.new }
{
    opening::redo_page(log, page, number)
}
