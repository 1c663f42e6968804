//! Reports to print and to file: the verdict on a carousel, what it promises, and how long viewers wait, as an HTML document.
#![tactic(auto)]

mod dates;
mod marks;
mod reports;
mod verdicts;
mod waits;

pub use dates::is_date;
pub use marks::{Marks, marks_of};
pub use reports::{Document, Filing, Imprint, report};
