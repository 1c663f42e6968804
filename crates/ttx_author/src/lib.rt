//! Pages as authors write them: characters as they are seen, control codes by their names in braces.
#![tactic(auto)]

pub mod laws;
mod marks;
mod options;
mod remedies;
mod rows;
mod signs;
mod tags;
mod texts;

pub use options::NationalOption;
pub use remedies::{nearest_tag, options_with};
pub use rows::{Lack, Why, codes_of, head_of, row_of};
pub use texts::text_of;
