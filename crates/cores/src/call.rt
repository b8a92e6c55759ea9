// The calls of an open store: every check in document 01's order, the lengths first, on flat copies of the tables; then the call.
ghost use Rattle.std.specs.Prelude.{◌≡◌, length};
ghost use Rattle.book.specs.Calls.{returns};
ghost use Rattle.state.specs.Answers.{done_case, HasCase};
ghost use Rattle.state.specs.CallContracts.{returned, answered_by};
ghost use Rattle.state.specs.Functions.{Calls};
ghost use Rattle.state.specs.Requests.{call_of};
ghost use Rattle.state.specs.World.{world};
ghost use Rattle.calls_model.specs.Perform.{performed, LentLengths};
ghost use Rattle.cores.specs.Lent.{ByValue};

use crate::crossing::{flat_into, visits_into};
use crate::outs::{Out, out_after, out_with};
use crate::ram::{control_in, counts_in};
use calls::accept::accept;
use calls::check::check;
use journal::lengths::lengths_fit;
use rows::limits::{CHARTS_LENGTH, SCOPE_LIMIT};
use state::answers::Refusal;
use state::ram::State;
use state::requests::{Request, is_typed};
use tables::layout::{FLAT_LENGTH, VISITS_LENGTH};
use tables_model::Scope;
use wal::ram::Ram;

// The checks but that of the lengths, and the call. A refusal leaves state and table as they are.
fn decide(
    state: State,
    log: &mut [u8],
    charts: &mut [u8],
    copy: &mut [u8; CHARTS_LENGTH],
    table: [Scope; SCOPE_LIMIT],
    request: Request,
) -> Out
    requires { LentLengths (length log.old) (length charts.old) (length copy.old) }
    ensures { (answered_by (returned result.result log.new charts.new copy.new result.table)
        ≡ performed (world state log.old charts.old copy.old table) (call_of request))
        × HasCase (done_case (returns (call_of request))) result.result.answer }
{
    let mut visits = [0; VISITS_LENGTH];
    visits_into(state.tables.active, &mut visits);
    let mut scopes = [0; FLAT_LENGTH];
    flat_into(table, &mut scopes);
    let c = control_in(state);
    let t = counts_in(state.tables);
    if let Err(refusal) = check(c, t, &visits, &scopes, request) {
        return out_with(Err(refusal), state, table);
    }
    let mut tail = state.tail;
    let ram = Ram {
        copy,
        tail: &mut tail,
        visits: &mut visits,
        scopes: &mut scopes,
    };
    let o = accept(c, t, ram, log, charts, request);
    out_after(o, &visits, tail, &scopes)
}

// The lent table has n entries: another number than 64 is a wrong length.
pub fn call_core(
    state: State,
    log: &mut [u8],
    charts: &mut [u8],
    copy: &mut [u8],
    n: usize,
    t: [Scope; SCOPE_LIMIT],
    request: Request,
) -> Out
    ensures { ByValue (Calls request) (world state log.old charts.old copy.old) n t
        (returned result.result log.new charts.new copy.new) result.table }
{
    is_typed(request);
    if !lengths_fit(log.len(), charts.len(), copy.len(), n) {
        return out_with(Err(Refusal::WrongLength), state, t);
    }
    let Some(copy) = copy.as_mut_array::<CHARTS_LENGTH>() else {
        return out_with(Err(Refusal::WrongLength), state, t);
    };
    decide(state, log, charts, copy, t, request)
}
