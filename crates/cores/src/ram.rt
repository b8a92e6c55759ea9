// The state between its struct and the parts that a call works on.
ghost use Rattle.std.specs.Prelude.{◌≡◌, length};
ghost use Rattle.tables_model.specs.Visits.{tables_in};
ghost use Rattle.tables_model.specs.Layout.{visits_length};
ghost use Rattle.state.specs.World.{closed_state};
ghost use Rattle.journal.specs.Outcomes.{state_after};
ghost use Rattle.calls_model.specs.Perform.{control_in};
ghost use Rattle.cores.specs.Lent.{counts_in};

use crate::crossing::visits_from;
use journal::{Control, Outcome};
use rows::limits::{ACTIVE_LIMIT, TAIL_LENGTH};
use state::ram::{Fuse, Phase, State};
use tables_model::{Active, Counts, Tables};

// Where the journal stands.
pub fn control_in(s: State) -> Control
    ensures { result ≡ control_in s }
{
    Control {
        phase: s.phase,
        fuse: s.fuse,
        stored: s.stored,
        waiting: s.waiting,
    }
}

// The counters of the tables.
pub fn counts_in(t: Tables) -> Counts
    ensures { result ≡ counts_in t }
{
    Counts {
        begun: t.begun,
        count: t.count,
        used: t.used,
    }
}

// The state after a call on flat visits and a tail.
pub fn state_after(o: Outcome, visits: &[u16], tail: [u8; TAIL_LENGTH]) -> State
    requires { length visits.now ≡ visits_length }
    ensures { result ≡ state_after o.control (tables_in o.counts visits.now) tail }
{
    let c = o.control;
    let t = o.counts;
    let tables = Tables {
        begun: t.begun,
        active: visits_from(visits),
        count: t.count,
        used: t.used,
    };
    State {
        phase: c.phase,
        fuse: c.fuse,
        stored: c.stored,
        waiting: c.waiting,
        tables,
        tail,
    }
}

// The one closed state.
pub fn closed_state() -> State
    ensures { result ≡ closed_state }
{
    let tables = Tables {
        begun: 0,
        active: [Active::default(); ACTIVE_LIMIT],
        count: 0,
        used: 0,
    };
    State {
        phase: Phase::Closed,
        fuse: Fuse::Unlimited,
        stored: 0,
        waiting: 0,
        tables,
        tail: [0; TAIL_LENGTH],
    }
}
