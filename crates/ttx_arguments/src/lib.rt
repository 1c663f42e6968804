//! The command line of `ttx`: what it asks for, and why it is refused.
#![tactic(auto)]

mod airings;
mod arguments;
mod command_line;
mod command_names;
mod commands;
mod conflicts;
mod grammar;
mod help;
mod laws;
mod moments;
pub mod orders;
mod page_names;
mod ranges;
mod seconds;
mod timings;
mod values;

pub use command_line::words;
pub use conflicts::{Conflict, conflict_line};
pub use laws::{
    air_words, certify_words, check_words, compose_words, explain_words, find_words, monitor_words,
    plan_words, preview_words, repeat_words, seconds_texts, send_words, splice_words, twice_words,
    version_words, wait_words,
};
pub use moments::Moment;
pub use orders::{
    AirOrder, AirReplayOrder, CertifyOrder, CheckOrder, Clock, FindOrder, Look, MonitorOrder,
    Order, PlanOrder, ReceiverKind, RefuteOrder, ReplayForm, ReplayOrder, ReportOrder, SendOrder,
    Sending, SpliceOrder, Start, Timing, Tuning, WaitOrder, WordsFault,
};
pub use ranges::{Fields, Lines, Offset, Repeat};
