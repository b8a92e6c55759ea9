// The public calls: a store is formatted, opened, and then asked. Each loads the lent table, has its core work on that, and stores it again.
// Each names its core, since the caller of a closure over the lent bytes is not told what it leaves in them.
ghost use Rattle.state.specs.CallContracts.{returned};
ghost use Rattle.state.specs.Functions.{Formats, Opens, Calls};
ghost use Rattle.state.specs.World.{world};

use crate::table::{load, store};
use cores::call::call_core;
use cores::opening::{format_core, open_core};
use state::answers::Reply;
use state::ram::{Fuse, State};
use state::requests::Request;
use tables_model::Scope;

pub fn format(
    state: State,
    log: &mut [u8],
    charts: &mut [u8],
    copy: &mut [u8],
    scopes: &mut [Scope],
    cells: &[i32],
) -> Reply
    ensures { Formats cells.now (world state log.old charts.old copy.old scopes.old)
        (returned result log.new charts.new copy.new scopes.new) }
{
    let o = format_core(state, log, charts, copy, scopes.len(), load(scopes), cells);
    store(scopes, o.table);
    o.result
}

pub fn open(
    state: State,
    log: &mut [u8],
    charts: &mut [u8],
    copy: &mut [u8],
    scopes: &mut [Scope],
    fuse: Fuse,
) -> Reply
    ensures { Opens fuse (world state log.old charts.old copy.old scopes.old)
        (returned result log.new charts.new copy.new scopes.new) }
{
    let o = open_core(state, log, charts, copy, scopes.len(), load(scopes), fuse);
    store(scopes, o.table);
    o.result
}

pub fn call(
    state: State,
    log: &mut [u8],
    charts: &mut [u8],
    copy: &mut [u8],
    scopes: &mut [Scope],
    request: Request,
) -> Reply
    ensures { Calls request (world state log.old charts.old copy.old scopes.old)
        (returned result log.new charts.new copy.new scopes.new) }
{
    let o = call_core(
        state,
        log,
        charts,
        copy,
        scopes.len(),
        load(scopes),
        request,
    );
    store(scopes, o.table);
    o.result
}
