// The functions of format and of the opening: the check of the log and of the pages, the forward part page by page, and the backward part. Each is
// proved to equal its definition in crate `recovery_model`, which has what they mean.
#![tactic(auto)]

pub mod backward; // open changes fall, and each active visit ends
pub mod format; // charts from the values of the cells, and an empty log
pub mod look; // rows of the log looked up
pub mod open; // an opening from its checks to what it leaves
pub mod page_alone; // the forward part for one page, public
pub mod pages; // the check of the pages, and the forward part
pub mod scan; // the check of the log
