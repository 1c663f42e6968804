//! An author's comments before a page.

use std::alloc::{AllocError, Global};
use std::mem::replace;

// The number of ends of a text of several lines, `"""` or `'''`, in a line.
fn count_quotes(line: &[u8]) -> usize {
    let mut count = 0usize;
    let mut run = 0usize;
    let mut last = 0u8;
    for byte in line {
        run = if *byte == last && (*byte == b'"' || *byte == b'\'') {
            run.saturating_add(1)
        } else {
            1
        };
        last = *byte;
        if run == 3 && (last == b'"' || last == b'\'') {
            count = count.saturating_add(1);
            run = 0;
            last = 0;
        }
    }
    count
}

// What a line is for a reader of comments.
#[derive(Clone, Copy, PartialEq, Eq)]
enum Kind {
    Blank,
    Comment,
    /// A header `[[page]]`.
    Page,
    Other,
}

fn kind_of(line: &[u8]) -> Kind {
    let Some(start) = line
        .iter()
        .position(|byte| *byte != b' ' && *byte != b'\t' && *byte != b'\r')
    else {
        return Kind::Blank;
    };
    match &line[start..] {
        [b'#', ..] => Kind::Comment,
        [b'[', b'[', ..] => Kind::Page,
        _ => Kind::Other,
    }
}

// The comments of pages so far, and those since the last line that is no comment.
#[derive(Drop)]
struct Reader {
    pages: Vec<String>,
    waiting: String,
    inside: bool,
}

impl Reader {
    // Reads a line.
    fn read(&mut self, alloc: Global, line: &str) -> Result<(), AllocError> {
        let kind = if self.inside {
            Kind::Other
        } else {
            kind_of(line.as_bytes())
        };
        match kind {
            Kind::Blank => {}
            Kind::Comment => {
                self.waiting.push_str(line)?;
                self.waiting.push('\n')?;
            }
            Kind::Page => {
                let comment = replace(&mut self.waiting, String::new(alloc));
                self.pages.push(comment)?;
            }
            Kind::Other => self.waiting = String::new(alloc),
        }
        if kind != Kind::Comment && count_quotes(line.as_bytes()) % 2 == 1 {
            self.inside = !self.inside;
        }
        Ok(())
    }
}

/// For each header `[[page]]` the lines of comments before it.
pub(crate) fn page_comments(alloc: Global, text: &str) -> Result<Vec<String>, AllocError> {
    let mut reader = Reader {
        pages: Vec::new(alloc),
        waiting: String::new(alloc),
        inside: false,
    };
    let mut line = String::new(alloc);
    for c in text.chars() {
        if c == '\n' {
            reader.read(alloc, line.as_str())?;
            line = String::new(alloc);
        } else {
            line.push(c)?;
        }
    }
    Ok(reader.pages)
}
