//! The commands, one module each, over readers and writers, and the reports of what goes wrong.
//!
//! `run` of a module is its command. `certify` has `run_twice` beside it, for a cycle that is read twice.

pub mod air;
pub mod beginnings;
pub mod book;
pub mod certify;
pub mod check;
pub mod check_json;
pub mod compose;
pub mod decompose;
pub mod diagnosis;
pub mod explain;
pub mod extract;
pub mod extract_lines;
pub mod extract_partly;
mod feed_verdicts;
pub mod find;
pub mod find_deadline;
pub mod inspect;
pub mod monitor;
pub mod monitor_reports;
pub mod other_kind;
pub mod pages;
pub mod plan;
pub mod plan_spread;
pub mod preview;
pub mod preview_all;
mod promised;
pub mod receive;
pub mod refute;
pub mod replay;
pub mod replay_air;
pub mod replay_page;
pub mod report;
pub mod send;
pub mod service_text;
pub mod show;
pub mod splice;
mod stays;
pub mod version;
pub mod wait;

pub use ttx_faults::{report_air, report_extraction, report_fault, report_words};
