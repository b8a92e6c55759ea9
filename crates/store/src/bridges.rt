// The public calls with the scope table by value, in and out. The table is lent from a local.
ghost use Rattle.state.specs.CallContracts.{returned};
ghost use Rattle.state.specs.Functions.{Formats, Opens, Calls};
ghost use Rattle.state.specs.World.{world};

use crate::public::{call, format, open};
use cores::outs::Out;
use rows::limits::SCOPE_LIMIT;
use state::ram::{Fuse, State};
use state::requests::Request;
use tables_model::Scope;

pub fn format_on(
    state: State,
    log: &mut [u8],
    charts: &mut [u8],
    copy: &mut [u8],
    table: [Scope; SCOPE_LIMIT],
    cells: &[i32],
) -> Out
    ensures { Formats cells.now (world state log.old charts.old copy.old table)
        (returned result.result log.new charts.new copy.new result.table) }
{
    let mut table = table;
    let result = format(state, log, charts, copy, &mut table, cells);
    Out { result, table }
}

pub fn open_on(
    state: State,
    log: &mut [u8],
    charts: &mut [u8],
    copy: &mut [u8],
    table: [Scope; SCOPE_LIMIT],
    fuse: Fuse,
) -> Out
    ensures { Opens fuse (world state log.old charts.old copy.old table)
        (returned result.result log.new charts.new copy.new result.table) }
{
    let mut table = table;
    let result = open(state, log, charts, copy, &mut table, fuse);
    Out { result, table }
}

pub fn call_on(
    state: State,
    log: &mut [u8],
    charts: &mut [u8],
    copy: &mut [u8],
    table: [Scope; SCOPE_LIMIT],
    request: Request,
) -> Out
    ensures { Calls request (world state log.old charts.old copy.old table)
        (returned result.result log.new charts.new copy.new result.table) }
{
    let mut table = table;
    let result = call(state, log, charts, copy, &mut table, request);
    Out { result, table }
}
