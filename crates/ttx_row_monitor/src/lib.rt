//! Monitors for receivers that refuse a row with a wrong byte whole: whether a feed of received slots stays within the error rule by rows.
#![tactic(auto)]

mod breach;
mod feed_verdict;
mod flags;
pub mod laws;
mod lines;
mod monitor;
mod muted_rows;
mod row_step;
mod verdict;
mod verdict_text;

pub use breach::RowBreach;
pub use monitor::RowMonitor;
pub use verdict::RowVerdict;
pub use verdict_text::monitor_rows;
