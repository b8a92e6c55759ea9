// The flat forms of the tables: the numbers of a place and of an entry, where each field stands in them, and how long the arrays are.
use rows::limits::{ACTIVE_LIMIT, SCOPE_LIMIT};

// A place of the active visits.
pub(crate) const PLACE_WIDTH: usize = 2;

pub(crate) const VISIT: usize = 0;

pub(crate) const BEARS: usize = 1;

pub const VISITS_LENGTH: usize = ACTIVE_LIMIT * PLACE_WIDTH;

// An entry of the scope table.
pub const ENTRY_WIDTH: usize = 7;

pub const MAKER: usize = 0;

pub const HOLDER: usize = 1;

pub const CELL: usize = 2;

pub const FIRST: usize = 3;

pub const LAST: usize = 4;

pub const HANDED: usize = 5;

pub const COUNT: usize = 6;

pub const FLAT_LENGTH: usize = SCOPE_LIMIT * ENTRY_WIDTH;
