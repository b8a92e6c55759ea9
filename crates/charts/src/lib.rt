// The charts: pages of 32 bytes, each a mark, two zero bytes and 7 cells. `page` and `check` work on the bytes of one page,
// `charts` on those of all pages, and `numbers` puts numbers into bytes.
#![tactic(auto)]

pub mod charts;
pub mod check;
mod numbers;
pub mod page;
