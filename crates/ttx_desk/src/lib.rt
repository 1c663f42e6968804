//! Whole texts as authors write them: an author's text as the text of a service, and back.
#![tactic(auto)]

mod author_text;
mod comments;
mod composition;
mod decomposition;
mod depths;
pub mod laws;
mod lines;
mod messages;
mod mistakes;
mod pages;
mod places;
mod rows;
mod said;
mod service_text;
mod tables;
mod texts;
mod translation;
mod words;
mod wrongs;

pub use composition::{ComposeFault, Composed, compose};
pub use decomposition::{DecomposeFault, Decomposed, decompose, decompose_service};
pub use messages::{mistakes_report, push_mistakes, toml_report};
pub use mistakes::{Fault, Mistake, Part};
pub use places::mistake_place;
pub use translation::{Translated, service_of};
pub use words::push_fault;
