// The public calls with a table of any number of entries, up to 128: the first of a table made of numbers are lent.
ghost use Rattle.std.specs.Prelude.{◌≡◌, ◌≤◌, take};
ghost use Rattle.state.specs.CallContracts.{returned};
ghost use Rattle.state.specs.Functions.{Formats, Opens, Calls};
ghost use Rattle.state.specs.World.{world};

use crate::asked::Asked;
use crate::entries::{ENTRIES, table_from, table_into};
use state::answers::Reply;
use state::ram::{Fuse, State};
use state::requests::Request;
use store::public::{call, format, open};
use tables::layout::ENTRY_WIDTH;
use tables_model::Scope;

// The first n entries are lent.
pub fn format_on(
    state: State,
    log: &mut [u8],
    charts: &mut [u8],
    copy: &mut [u8],
    table: &mut [Scope; ENTRIES],
    n: usize,
    cells: &[i32],
) -> Reply
    requires { n ≤ 128 }
    ensures { Formats cells.now (world state log.old charts.old copy.old (take n table.old))
        (returned result log.new charts.new copy.new (take n table.new)) }
{
    format(state, log, charts, copy, &mut table[..n], cells)
}

pub fn open_on(
    state: State,
    log: &mut [u8],
    charts: &mut [u8],
    copy: &mut [u8],
    table: &mut [Scope; ENTRIES],
    n: usize,
    fuse: Fuse,
) -> Reply
    requires { n ≤ 128 }
    ensures { Opens fuse (world state log.old charts.old copy.old (take n table.old))
        (returned result log.new charts.new copy.new (take n table.new)) }
{
    open(state, log, charts, copy, &mut table[..n], fuse)
}

pub fn call_on(
    state: State,
    log: &mut [u8],
    charts: &mut [u8],
    copy: &mut [u8],
    table: &mut [Scope; ENTRIES],
    n: usize,
    request: Request,
) -> Reply
    requires { n ≤ 128 }
    ensures { Calls request (world state log.old charts.old copy.old (take n table.old))
        (returned result log.new charts.new copy.new (take n table.new)) }
{
    call(state, log, charts, copy, &mut table[..n], request)
}

// The entries that there are numbers for are lent to the public function that is asked for. What it leaves of them is written back.
pub(crate) fn ask(
    state: State,
    log: &mut [u8],
    charts: &mut [u8],
    copy: &mut [u8],
    scopes: &mut [u16],
    cells: &[i32],
    asked: Asked,
) -> Reply {
    let n = (scopes.len() / ENTRY_WIDTH).min(ENTRIES);
    let mut table = table_from(scopes);
    let reply = match asked {
        Asked::Format => format_on(state, log, charts, copy, &mut table, n, cells),
        Asked::Open(fuse) => open_on(state, log, charts, copy, &mut table, n, fuse),
        Asked::Call(request) => call_on(state, log, charts, copy, &mut table, n, request),
    };
    table_into(table, scopes);
    reply
}
