// Format and open: the lengths are checked first. They take nothing from state and scope table, and leave or clear them.
ghost use Rattle.std.specs.Prelude.{◌≡◌, length};
ghost use Rattle.book.specs.Limits.{log_length, charts_length};
ghost use Rattle.recovery_model.specs.Openings.{no_index, checked_by};
ghost use Rattle.recovery_model.specs.Scan.{scanned};
ghost use Rattle.state.specs.Answers.{written, HasCase};
ghost use Rattle.state.specs.CallContracts.{returned, answered_by};
ghost use Rattle.state.specs.Functions.{Formats, Opens};
ghost use Rattle.state.specs.World.{world};
ghost use Rattle.cores.specs.Lent.{ByValue};

use crate::outs::{Out, out_after, out_with};
use crate::ram::closed_state;
use journal::lengths::lengths_fit;
use recovery::format::format;
use recovery::open::open;
use rows::limits::{CHARTS_LENGTH, SCOPE_LIMIT, TAIL_LENGTH};
use state::answers::{Done, Refusal};
use state::ram::{Fuse, State};
use tables::layout::{FLAT_LENGTH, VISITS_LENGTH};
use tables_model::Scope;
use wal::ram::Ram;

// A format that is done closes the store and clears RAM.
pub fn format_core(
    state: State,
    log: &mut [u8],
    charts: &mut [u8],
    copy: &mut [u8],
    n: usize,
    t: [Scope; SCOPE_LIMIT],
    cells: &[i32],
) -> Out
    ensures { ByValue (Formats cells.now) (world state log.old charts.old copy.old) n t
        (returned result.result log.new charts.new copy.new) result.table }
{
    if !lengths_fit(log.len(), charts.len(), copy.len(), n) {
        return out_with(Err(Refusal::WrongLength), state, t);
    }
    if let Err(refusal) = format(cells, log, charts) {
        return out_with(Err(refusal), state, t);
    }
    copy.fill(0);
    out_with(
        Ok(Done::Nothing),
        closed_state(),
        [Scope::default(); SCOPE_LIMIT],
    )
}

// An opening of a log and charts of their lengths, on flat tables and a tail of its own.
fn opened(log: &mut [u8], charts: &[u8], copy: &mut [u8; CHARTS_LENGTH], fuse: Fuse) -> Out
    requires { (length log.old ≡ log_length) × (length charts.now ≡ charts_length) }
    ensures { (answered_by (returned result.result log.new charts.now copy.new result.table)
        ≡ checked_by fuse log.old charts.now (scanned log.old no_index)) × HasCase written result.result.answer }
{
    let mut visits = [0; VISITS_LENGTH];
    let mut scopes = [0; FLAT_LENGTH];
    let mut tail = [0; TAIL_LENGTH];
    let ram = Ram {
        copy,
        tail: &mut tail,
        visits: &mut visits,
        scopes: &mut scopes,
    };
    let o = open(fuse, log, charts, ram);
    out_after(o, &visits, tail, &scopes)
}

pub fn open_core(
    state: State,
    log: &mut [u8],
    charts: &mut [u8],
    copy: &mut [u8],
    n: usize,
    t: [Scope; SCOPE_LIMIT],
    fuse: Fuse,
) -> Out
    ensures { ByValue (Opens fuse) (world state log.old charts.old copy.old) n t
        (returned result.result log.new charts.new copy.new) result.table }
{
    if !lengths_fit(log.len(), charts.len(), copy.len(), n) {
        return out_with(Err(Refusal::WrongLength), state, t);
    }
    let Some(copy) = copy.as_mut_array::<CHARTS_LENGTH>() else {
        return out_with(Err(Refusal::WrongLength), state, t);
    };
    opened(log, charts, copy, fuse)
}
