//! HTML documents to read and to print: their frame, and texts with their reserved characters escaped.
#![tactic(auto)]

mod escapes;
mod frames;

pub use escapes::push_escaped;
pub use frames::{
    push_body, push_end, push_heading, push_paragraph, push_start, push_style, push_words,
};
