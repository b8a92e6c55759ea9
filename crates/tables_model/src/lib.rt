// The tables of an open store, without the functions that keep them: the types, the definitions of what every row makes of them (`specs/`), and the
// theorems that they say at every moment what the rows of log and tail say (`proofs/Simulation`, `proofs/Judge`). It stands apart from crate `tables`
// so that a wrong definition is refused in seconds, with no code to be proved.
#![tactic(auto)]

use rows::limits::ACTIVE_LIMIT;
use rows::{Cell, Lsn, Visit};

// An active visit. Later fields move with it: the array is compacted entry by entry.
#[derive(Clone, Copy, Default)]
pub struct Active {
    pub visit: Visit,
    pub bears: bool, // an undo row bears it
}

// The active visits stand in ascending order in the first `count` places, vacant ones after them; the first `used` scope entries are in use.
#[derive(Clone, Copy)]
pub struct Tables {
    pub begun: u16, // begin rows so far
    pub active: [Active; ACTIVE_LIMIT],
    pub count: usize,
    pub used: usize,
}

// The same without the visits, which are lent beside it where they are worked on in place.
#[derive(Clone, Copy, Default)]
pub struct Counts {
    pub begun: u16,
    pub count: usize,
    pub used: usize,
}

// An entry of the scope table: changes of one cell by one maker that share a holder.
#[derive(Clone, Copy, Default)]
pub struct Scope {
    pub maker: Visit,
    pub holder: Visit,
    pub cell: Cell,
    pub first: Lsn,
    pub last: Lsn, // the highest of its changes that is not undone, 0 for none
    pub handed: bool, // it was handed over, so its maker's next change starts another
    pub count: u16, // its changes that are not undone
}

// The visits that a take-back is about: abort is about one, an opening about all.
#[derive(Clone, Copy)]
pub enum Whom {
    One(Visit),
    All,
}

// The cells that a hand-over is about: one, or all. It is no generic type with `Whom`, since the definitions speak of the numbers of cells and of visits.
#[derive(Clone, Copy)]
pub enum CellSet {
    Only(Cell),
    Every,
}

// What the row rules say against a row whose bytes are well formed.
#[derive(Clone, Copy)]
pub enum Breach {
    Rule, // it lacks what it needs of visits, cells, holders or undo rows
    Limit, // the sixteen visits, the scopes or the free rows have no room for it
}
