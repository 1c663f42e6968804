//! Why a service definition is refused.

use crate::keys::accepted;
use std::fmt;
use thiserror::Error;

/// A fault of a service definition. If it names a key, this is the last part of the key's name; texts in the table `rows` and in
/// the array `links` are named `rows` and `links`.
#[derive(Clone, Copy, Debug, PartialEq, Eq, Error)]
pub enum SourceFault {
    /// The bytes are not UTF-8, or the text is not a TOML document.
    #[error("the text isn't a TOML document")]
    NotToml,
    /// A required key is missing.
    #[error("`{key}` is missing: it takes {values}", values = accepted(.key))]
    Missing { key: &'static str },
    /// A value is of another kind than its key takes.
    #[error("`{key}` has a value of another kind: it takes {values}", values = accepted(.key))]
    Kind { key: &'static str },
    /// A page number is not a magazine from 1 to 8 and two hexadecimal digits other than FF, or a link has another shape.
    #[error("`number`, `links` or `initial` names no page: a page is a magazine from 1 to 8 and two hexadecimal digits in capitals, \
        not FF, as in \"100\"; a link may have a subcode too, as in \"100/0001\"")]
    PageNumber,
    /// A link's subcode is outside 3F7F; or a page's subcode is not four hexadecimal digits, is outside 3F7F, or is 3F7F itself.
    #[error("`sub` or a link has no subcode: it takes four hexadecimal digits inside 3F7F, as in \"0001\", and a page not 3F7F itself")]
    Subcode,
    /// An earlier page has the same number and subcode.
    #[error("an earlier page has this `number` and `sub`: each page takes others")]
    Duplicate,
    /// A text has more characters than fit.
    #[error("a text is too long: `head` takes 24 characters, each of `rows` 40, and `text` 20")]
    RowTooLong,
    /// A character is not below U+0080.
    #[error("`head`, `rows` or `text` has a character that can't be sent: it takes characters below U+0080")]
    Character,
    /// `often` is not 1, 2, 4 or 8.
    #[error("`often` takes 1, 2, 4 or 8")]
    Often,
    /// A value is out of its range.
    #[error("`{key}` is out of range: it takes {values}", values = accepted(.key))]
    Range { key: &'static str },
    /// An allocation failed.
    #[error("out of memory")]
    NoMemory,
}

// A page, counted from 1; 0 is the service outside its pages.
#[derive(Clone, Copy)]
struct Place(usize);

impl fmt::Display for Place {
    fn fmt<W: fmt::Write>(&self, f: &mut fmt::Formatter<W>) -> fmt::Result {
        match self.0 {
            0 => f.write_str("the service"),
            page => write!(f, "page {page}"),
        }
    }
}

/// A fault and the page it is in, counted from 1. The page is 0 outside pages, and if an allocation failed.
#[derive(Clone, Copy, Debug, PartialEq, Eq, Error)]
#[error("{place}: {fault}", place = Place(*.page))]
pub struct SourceError {
    pub fault: SourceFault,
    pub page: usize,
}
