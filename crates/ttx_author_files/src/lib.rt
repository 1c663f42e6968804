//! Files of authors: what `compose` and `decompose` read and write, and authors' texts where a service text is read.
#![tactic(auto)]

mod author_notes;
mod author_reports;
mod author_text;
mod author_texts;
mod mistakes;
mod service_text;
mod translation;

pub use author_reports::told_of_author;
pub use author_text::Decompose;
pub use author_texts::{Standing, is_author_text, read_standing};
pub use mistakes::check_file;
pub use service_text::Compose;
pub use translation::{Translation, translate_file};
pub use ttx_mistakes::Style;
