// The arrays of RAM that a call and an opening work on in place: all of RAM but the counters. Where one call is lent two of them, the struct is taken apart
// first, since no proof is made of a call that is lent two fields behind references.
ghost use Rattle.std.specs.Prelude.{◌≡◌};
ghost use Rattle.journal.specs.Outcomes.{Zeroed};
ghost use Rattle.wal.specs.Arrays.{left};

use journal::{Control, Outcome};
use rows::limits::{CHARTS_LENGTH, TAIL_LENGTH};
use state::answers::{Answer, Writes};
use tables::layout::{FLAT_LENGTH, VISITS_LENGTH};
use tables_model::Counts;

#[derive(Drop)]
pub struct Ram<'a> {
    pub copy: &'a mut [u8; CHARTS_LENGTH],
    pub tail: &'a mut [u8; TAIL_LENGTH],
    pub visits: &'a mut [u16; VISITS_LENGTH],
    pub scopes: &'a mut [u16; FLAT_LENGTH],
}

impl Ram<'_> {
    // After a format and a power failure, and of a rejected store: the store is closed, and every number of RAM is 0.
    pub fn clear(self, answer: Answer, writes: Writes) -> Outcome
        ensures { let ram = left self.exit in (result.answer ≡ answer) × (result.writes ≡ writes)
            × Zeroed result ram.copy ram.tail ram.visits ram.scopes }
    {
        self.copy.fill(0);
        self.tail.fill(0);
        self.visits.fill(0);
        self.scopes.fill(0);
        Outcome {
            answer,
            control: Control::closed(0),
            counts: Counts::default(),
            writes,
        }
    }
}
