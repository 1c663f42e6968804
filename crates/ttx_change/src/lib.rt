//! Changes for receivers that show a page only where it ends: whether one that is tuned to a page number shows an old page or a new one
//! through the change from one cycle to another, and through all changes of a schedule, and never a mixture.
#![tactic(auto)]

mod editions;
mod late_verdict;
pub mod laws;
mod lines;
mod on_air;
mod spliced_files;
mod verdict;

pub use editions::open_between;
pub use late_verdict::late_splice;
pub use lines::late_splice_line;
pub use on_air::judge_whole;
pub use spliced_files::Late;
pub use verdict::{LateSplice, WholeChange};
