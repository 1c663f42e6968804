//! `check`: what is wrong, or probably wrong, in the text of a service or of an author.

ghost use Rattle.std.specs.Prelude.{◌∷◌, [], None, IfErr, IfSome};
ghost use Rattle.ttx_check.specs.Checking.{IsCheckFault};
ghost use Rattle.ttx_cycle.specs.Counters.{inner_of, faults_of};
ghost use Rattle.ttx_files.specs.Answers.{IsUntouched, is_write};
ghost use Rattle.ttx_files.specs.Devices.{AtService, input, output, failed_at, IsFirstFailure};
ghost use Rattle.ttx_author_files.specs.Checking as rule;

use crate::author_reports::reported_author;
use crate::author_texts::is_author_text;
use std::alloc::{AllocError, Global};
use std::io::{Read, Write};
use ttx_check::{Reported, Reporter, check};
use ttx_cycle::Counted;
use ttx_files::FilesFault;
use ttx_mistakes::{Style, report_in_style};

// Reports in a style.
#[derive(Clone, Copy)]
struct InStyle<'a>(Style<'a>);

impl Reporter for InStyle<'_> {
    ghost says = { λ s. rule.IsReport s.0 };

    fn report(&self, alloc: Global, bytes: &[u8]) -> Result<Reported, AllocError> {
        if is_author_text(alloc, bytes)? {
            reported_author(alloc, bytes, self.0)
        } else {
            report_in_style(alloc, bytes, self.0)
        }
    }
}

/// Reads the text of a service or of an author, of at most 4,194,304 bytes, and writes the report on it. Returns the status: 2 if the
/// text is refused, 1 if there are warnings and `strict` is asked for, otherwise 0.
///
/// Nothing is written before the whole text has been read. After `Write` exactly the first `written` bytes went out; after any other
/// fault the writer is unchanged.
pub fn check_file<R: Read, W: Write>(
    alloc: Global,
    style: Style<'_>,
    reader: &mut Counted<R>,
    writer: &mut Counted<W>,
) -> Result<u8, FilesFault>
    ensures bytes { IfSome (R.remaining (inner_of reader.old))
        (λ bytes. rule.Checks style.entry bytes (W.contents (inner_of writer.old)) (W.contents (inner_of writer.new)) result) }
    ensures own { IfErr result IsCheckFault }
    ensures faults { IsFirstFailure (input AtService None (faults_of reader.old) (faults_of reader.new)
        ∷ output (faults_of writer.old) (faults_of writer.new) ∷ []) (failed_at result) }
    ensures untouched { IsUntouched is_write result writer.old writer.new }
{
    check(alloc, &InStyle(style), reader, writer)
}
