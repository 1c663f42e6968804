//! Pictures of Views: plain text, text with terminal codes, SVG and HTML.
#![tactic(auto)]

mod ansi;
mod escapes;
mod forms;
mod html;
pub mod laws;
mod links;
mod shown;
mod svg;
mod text;

pub use escapes::push_escaped;
pub use forms::{Form, push_picture};
pub use html::{push_figure, push_sheet};
