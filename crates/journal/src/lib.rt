// The journal: rows go through the tail to the stored log, and pages to the stored charts, one stored write each under the fuse (document 01, "Power" and "Calls").
// `proofs/Meaning` says that these functions do to the bytes what the book's steps do to its rows.
#![tactic(auto)]

ghost use Rattle.std.specs.Prelude.{◌≡◌};
ghost use Rattle.journal.specs.Force.{closed_at};

use state::answers::{Answer, Writes};
use state::ram::{Fuse, Phase};
use tables_model::Counts;

pub mod force;
pub mod fuse;
pub mod lengths;
pub mod pages;
pub mod tail;
pub mod writes;

// Where the journal stands. A write beyond the fuse closes it: then nothing waits, the fuse is gone, and the rows that landed stay counted. Log and tail
// are lent beside it: a stored write takes from the tail for the log, and no proof is made of a call that is lent two fields behind references.
#[derive(Clone, Copy)]
pub struct Control {
    pub phase: Phase,
    pub fuse: Fuse,
    pub stored: usize,
    pub waiting: usize,
}

impl Control {
    // Closed, with so many rows stored.
    pub fn closed(stored: usize) -> Control
        ensures { result ≡ closed_at stored }
    {
        Control {
            phase: Phase::Closed,
            fuse: Fuse::Unlimited,
            stored,
            waiting: 0,
        }
    }
}

// What a call comes to besides the lent arrays: its answer, where the journal stands, the counters of the tables, and the stored writes that landed.
#[derive(Clone, Copy)]
pub struct Outcome {
    pub answer: Answer,
    pub control: Control,
    pub counts: Counts,
    pub writes: Writes,
}
