//! Subpages of one page number, as viewers see them who key only the number: what a cycle has to send so that receivers that show a
//! page only where it ends show each subpage in turn, and whole.
#![tactic(auto)]

mod acceptance;
mod intervals;
mod judge;
mod lack;
mod lacks;
pub mod laws;
mod number_lines;
mod numbers;
mod reports;
mod sought;
mod stays;
mod verdict;
mod wait_lines;

pub use acceptance::certify_numbers;
pub use intervals::longest_interval;
pub use judge::ByNumber;
pub use lack::Lack;
pub use lacks::first_lack;
pub use number_lines::numbers_verdict_text;
pub use numbers::count_of;
pub use reports::{NumberReport, number_reports};
pub use stays::{greatest_interval, least_stay};
pub use verdict::NumbersVerdict;
pub use wait_lines::number_waits;
