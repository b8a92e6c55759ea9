// The numbers that documents 01 and 02 fix, each in one place, under their names in `book/specs/Limits`: sizes of the store, lengths of the lent buffers,
// limits.

// A log of 4,096 rows of 16 bytes.
pub const ROW_LIMIT: usize = 4096;

pub const ROW_LENGTH: usize = 16;

pub const LOG_LENGTH: usize = ROW_LIMIT * ROW_LENGTH;

// Charts of 32 pages of 32 bytes with 7 cells each. The copy in RAM is as long.
pub const PAGE_LIMIT: usize = 32;

pub const PAGE_LENGTH: usize = 32;

pub const PLACES: usize = 7;

pub const CHARTS_LENGTH: usize = PAGE_LIMIT * PAGE_LENGTH;

// Cells are numbered below this.
pub const CELL_LIMIT: usize = PAGE_LIMIT * PLACES;

// The greatest visit number, of two bytes.
pub const VISIT_LIMIT: usize = 65535;

// The greatest kind of a row; kind 0 is a blank row.
pub const KIND_LIMIT: usize = 7;

// Active visits, and entries of the scope table.
pub const ACTIVE_LIMIT: usize = 16;

pub const SCOPE_LIMIT: usize = 64;

// A tail of at most 64 rows.
pub const TAIL_LIMIT: usize = 64;

pub const TAIL_LENGTH: usize = TAIL_LIMIT * ROW_LENGTH;

// A cell of an opened store is within plus and minus so many grams.
pub const CHART_BOUND: i32 = 200_000_000;

// No opening writes more rows.
pub const COST_LIMIT: usize = 2048;
