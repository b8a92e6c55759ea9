// A call of an open store on the arrays: every check, then the call, in place. Nothing is written where a check refuses.
ghost use Rattle.state.specs.Requests.{call_of};
ghost use Rattle.embed_model.specs.Arrays.{arrays};
ghost use Rattle.embed_model.specs.Called.{CallsOfC};

use crate::head::{HEAD_LENGTH, control_in, counts_in, finish};
use crate::packed::{packed, refused};
use calls::accept::accept;
use calls::check::check;
use journal::lengths::stored_fit;
use rows::limits::{CHARTS_LENGTH, TAIL_LENGTH};
use state::answers::Refusal;
use state::requests::{Request, is_typed};
use tables::layout::{FLAT_LENGTH, VISITS_LENGTH};
use wal::ram::Ram;

// Each function for C passes a request of one kind. It is inlined, so that the function has the code of that kind alone.
#[inline(always)]
pub(crate) fn call(
    head: &mut [u32; HEAD_LENGTH],
    visits: &mut [u16; VISITS_LENGTH],
    scopes: &mut [u16; FLAT_LENGTH],
    tail: &mut [u8; TAIL_LENGTH],
    copy: &mut [u8; CHARTS_LENGTH],
    log: &mut [u8],
    charts: &mut [u8],
    request: Request,
) -> u64
    ensures { CallsOfC (call_of request) (arrays head.old visits.old scopes.old tail.old copy.old log.old charts.old) result
        (arrays head.new visits.new scopes.new tail.new copy.new log.new charts.new) }
{
    is_typed(request);
    if !stored_fit(log.len(), charts.len()) {
        return refused(Refusal::WrongLength);
    }
    let c = control_in(head);
    let t = counts_in(head);
    if let Err(refusal) = check(c, t, visits, scopes, request) {
        return refused(refusal);
    }
    let ram = Ram {
        copy,
        tail,
        visits,
        scopes,
    };
    let r = accept(c, t, ram, log, charts, request);
    if let Request::Read(_) = request {
        // A read writes nothing.
        return packed(r.answer, r.writes);
    }
    finish(head, r)
}
