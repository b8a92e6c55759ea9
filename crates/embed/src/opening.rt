// Format and open on the arrays; neither takes anything from the arrays of RAM. And the forward part for one page, which is lent none.
ghost use Rattle.embed_model.specs.Arrays.{arrays};
ghost use Rattle.embed_model.specs.Called.{FormatsOfC, OpensOfC};
ghost use Rattle.embed_model.specs.PageOfC.{RedoesOfC};

use crate::head::{HEAD_LENGTH, finish};
use crate::packed::{packed, refused};
use journal::lengths::stored_fit;
use recovery::page_alone::redo_page_alone;
use rows::limits::{CHARTS_LENGTH, TAIL_LENGTH};
use state::answers::{Done, Refusal, Writes};
use state::ram::Fuse;
use tables::layout::{FLAT_LENGTH, VISITS_LENGTH};
use wal::ram::Ram;

pub(crate) fn format(
    head: &mut [u32; HEAD_LENGTH],
    visits: &mut [u16; VISITS_LENGTH],
    scopes: &mut [u16; FLAT_LENGTH],
    tail: &mut [u8; TAIL_LENGTH],
    copy: &mut [u8; CHARTS_LENGTH],
    log: &mut [u8],
    charts: &mut [u8],
    cells: &[i32],
) -> u64
    ensures { FormatsOfC cells.now (arrays head.old visits.old scopes.old tail.old copy.old log.old charts.old) result
        (arrays head.new visits.new scopes.new tail.new copy.new log.new charts.new) }
{
    if !stored_fit(log.len(), charts.len()) {
        return refused(Refusal::WrongLength);
    }
    if let Err(refusal) = recovery::format::format(cells, log, charts) {
        return refused(refusal);
    }
    let ram = Ram {
        copy,
        tail,
        visits,
        scopes,
    };
    finish(head, ram.clear(Ok(Done::Nothing), Writes::default()))
}

pub(crate) fn open(
    head: &mut [u32; HEAD_LENGTH],
    visits: &mut [u16; VISITS_LENGTH],
    scopes: &mut [u16; FLAT_LENGTH],
    tail: &mut [u8; TAIL_LENGTH],
    copy: &mut [u8; CHARTS_LENGTH],
    log: &mut [u8],
    charts: &[u8],
    fuse: u32,
) -> u64
    ensures { OpensOfC fuse (arrays head.old visits.old scopes.old tail.old copy.old log.old charts.now) result
        (arrays head.new visits.new scopes.new tail.new copy.new log.new charts.now) }
{
    if !stored_fit(log.len(), charts.len()) {
        return refused(Refusal::WrongLength);
    }
    let ram = Ram {
        copy,
        tail,
        visits,
        scopes,
    };
    let r = recovery::open::open(Fuse::from(fuse), log, charts, ram);
    finish(head, r)
}

pub(crate) fn redo_page(log: &[u8], page: &mut [u8], number: u8) -> u64
    ensures { RedoesOfC log.now number page.old result page.new }
{
    match redo_page_alone(log, page, number) {
        Ok(()) => packed(Ok(Done::Nothing), Writes::default()),
        Err(refusal) => refused(refusal),
    }
}
