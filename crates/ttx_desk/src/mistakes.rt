//! The mistakes of an author's text.

use ttx_author::Why;

/// A part of an author's text.
#[derive(Clone, Copy)]
pub enum Part {
    /// `option` of a page.
    Option,
    /// `head` of a page.
    Head,
    /// A row, 1 to 24, by its number.
    Row { number: usize },
    /// A line of `text` in `rows`, from 1.
    Line { number: usize },
    /// `text` of `info`.
    Status,
}

/// What is wrong.
#[derive(Clone, Copy)]
pub enum Fault {
    /// No national option has the name.
    Name,
    /// A mark has no code.
    Mark { why: Why },
    /// The row is also in `text`.
    Twice,
    /// `text` has more than 24 lines.
    Lines,
}

/// A mistake in a page, counted from 1, or outside the pages (0).
#[derive(Clone, Copy)]
pub struct Mistake {
    pub page: usize,
    pub part: Part,
    /// The index of the character in its part: in a row, in a line, in another text.
    pub place: usize,
    pub fault: Fault,
}
