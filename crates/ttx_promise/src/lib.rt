//! Spread plans that keep the promises of a service (`within`): pages that would come too late are sent more often.
//! And reports on how long viewers wait, beside what is promised.
#![tactic(auto)]

mod absent_pages;
mod deadlines;
mod faults;
mod lateness;
mod layout;
mod layout_search;
mod parallel_layout;
mod promise_lines;
mod promised_lines;
mod promised_plan;
mod promised_reports;
mod serial_layout;
mod waits_and_promises;
mod waits_by_layout;

pub use absent_pages::other_pages;
pub use faults::{LatePage, PromiseFault};
pub use promise_lines::late_lines;
pub use promised_plan::{Viewers, plan_promises};
pub use promised_reports::{
    PromisedReport, Reported, report_promised_items, report_promises, report_promises_with,
};
pub use ttx_wait::Detail;
pub use waits_and_promises::{PromisedWait, promised_waits, some_late, with_promises};
