//! Receivers that refuse a whole row for one wrong byte, or lose rows. They too see what the certifier accepts, under the error rule by rows:
//! of k successive transmissions of a row that a viewer sees, at least one arrives whole.
//!
//! A receiver that stores characters of even parity needs whole rows: after one row with a wrong character it is wrong until the next whole
//! one. So a repeat count above 1 does not help it (`RowExamples.stored`).
#![tactic(auto)]

mod acceptance;
pub mod laws;

pub use acceptance::{certify_by_rows, certify_late_by_rows};
