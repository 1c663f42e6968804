//! All pages of a cycle as one HTML file.
#![tactic(auto)]

mod books;
mod html_book;
mod leaves;
mod packet_index;
mod page_views;

pub use books::book_text;
pub use html_book::book;
