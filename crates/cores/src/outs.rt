// What the cores give back: the reply, and the scope table.
ghost use Rattle.std.specs.Prelude.{◌≡◌, map, length};
ghost use Rattle.tables_model.specs.Layout.{entries};
ghost use Rattle.tables_model.specs.Meaning.{scope_of};
ghost use Rattle.tables_model.specs.Visits.{tables_in};
ghost use Rattle.journal.specs.Outcomes.{state_after};
ghost use Rattle.calls_model.specs.Perform.{Flat};

use crate::crossing::table_from;
use crate::ram::state_after;
use journal::Outcome;
use rows::limits::{SCOPE_LIMIT, TAIL_LENGTH};
use state::answers::{Answer, Reply, Writes};
use state::ram::State;
use tables_model::Scope;

#[derive(Clone, Copy)]
pub struct Out {
    pub result: Reply,
    pub table: [Scope; SCOPE_LIMIT],
}

// This answer, state and table; nothing was stored.
pub(crate) fn out_with(answer: Answer, state: State, table: [Scope; SCOPE_LIMIT]) -> Out
    ensures { result ≡ record { result = record { state = state; answer = answer; writes = record { rows = 0; pages = 0 } }; table = table } }
{
    let writes = Writes::default();
    let result = Reply {
        state,
        answer,
        writes,
    };
    Out { result, table }
}

// What a call on the flat tables and a tail came to.
pub(crate) fn out_after(o: Outcome, visits: &[u16], tail: [u8; TAIL_LENGTH], flat: &[u16]) -> Out
    requires { Flat (length visits.now) (length flat.now) }
    ensures { result ≡ record {
      result = record { state = state_after o.control (tables_in o.counts visits.now) tail; answer = o.answer; writes = o.writes };
      table = map scope_of (entries flat.now);
    } }
{
    let result = Reply {
        state: state_after(o, visits, tail),
        answer: o.answer,
        writes: o.writes,
    };
    Out {
        result,
        table: table_from(flat),
    }
}
