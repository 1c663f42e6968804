//! `check --json`: what is wrong, or probably wrong, in the text of a service or of an author, as JSON objects.

ghost use Rattle.std.specs.Prelude.{◌∷◌, [], None, IfErr, IfOk, IfSome, string_bytes};
ghost use Rattle.ttx_check.specs.Checking.{IsCheckFault};
ghost use Rattle.ttx_cycle.specs.Counters.{inner_of, faults_of};
ghost use Rattle.ttx_files.specs.Answers.{IsUntouched, is_write};
ghost use Rattle.ttx_files.specs.Devices.{AtService, input, output, failed_at, IsFirstFailure};
ghost use Rattle.ttx_mistake_records.specs.Checking as rule;

use crate::author_records::author_record;
use crate::service_records::service_record;
use std::alloc::{AllocError, Global};
use std::io::{Read, Write};
use ttx_author_files::is_author_text;
use ttx_check::{Checked, Reported, Reporter, check};
use ttx_cycle::Counted;
use ttx_files::FilesFault;

// The objects of a text, by its first key, and the status.
fn record_by_key(
    alloc: Global,
    file: &str,
    bytes: &[u8],
    strict: bool,
) -> Result<Checked, AllocError>
    ensures { IfOk result (λ r. rule.IsRecord file.now strict bytes.now (string_bytes r.text) r.status) }
{
    if is_author_text(alloc, bytes)? {
        author_record(alloc, file, bytes, strict)
    } else {
        service_record(alloc, file, bytes, strict)
    }
}

// Reports in objects: the name of the file, and whether a warning makes the status 1.
#[derive(Clone, Copy)]
struct Objects<'a> {
    file: &'a str,
    strict: bool,
}

impl Reporter for Objects<'_> {
    ghost says = { λ o. rule.IsRecord o.file.now o.strict };

    fn report(&self, alloc: Global, bytes: &[u8]) -> Result<Reported, AllocError> {
        let record = record_by_key(alloc, self.file, bytes, self.strict)?;
        Ok(Reported {
            text: record.text.into_bytes(),
            status: record.status,
        })
    }
}

/// Reads the text of a service or of an author, of at most 4,194,304 bytes, and writes a JSON object for each error and each warning that
/// `check_file` reports at length, at most 100, and one with their numbers. `file` is the name of the file. Returns the same status: 2 if
/// the text is refused, 1 if there are warnings and `strict` is asked for, otherwise 0.
///
/// Nothing is written before the whole text has been read. After `Write` exactly the first `written` bytes went out; after any other
/// fault the writer is unchanged.
pub fn check_file_json<R: Read, W: Write>(
    alloc: Global,
    file: &str,
    strict: bool,
    reader: &mut Counted<R>,
    writer: &mut Counted<W>,
) -> Result<u8, FilesFault>
    ensures bytes { IfSome (R.remaining (inner_of reader.old))
        (λ bytes. rule.Checks file.now strict bytes (W.contents (inner_of writer.old)) (W.contents (inner_of writer.new)) result) }
    ensures own { IfErr result IsCheckFault }
    ensures faults { IsFirstFailure (input AtService None (faults_of reader.old) (faults_of reader.new)
        ∷ output (faults_of writer.old) (faults_of writer.new) ∷ []) (failed_at result) }
    ensures untouched { IsUntouched is_write result writer.old writer.new }
{
    check(alloc, &Objects { file, strict }, reader, writer)
}
