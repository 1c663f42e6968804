//! `compose` and `decompose`: a text is read, and another that it means is written, with a line.

ghost use Rattle.std.specs.Prelude.{◌∷◌, [], ℕ, List, None, IfSome, IfOk, IfErr, string_bytes};
ghost use Rattle.ttx_cycle.specs.Counters.{inner_of, faults_of};
ghost use Rattle.ttx_files.specs.Answers.{IsUntouched, is_write};
ghost use Rattle.ttx_files.specs.Devices.{AtService, AtOutput, input, output, failed_at, IsFirstFailure, IsOf};
ghost use Rattle.ttx_source.specs.declared.faults.SourceError.{SourceError as TheError};
ghost use Rattle.ttx_author_files.specs.Translating.{IsRefusedText, TranslatesFile};

use std::alloc::Global;
use std::io::{Read, Write};
use ttx_cycle::Counted;
use ttx_files::{Filed, FilesFault, read_service_text, write_both};

/// A translation of texts. `says` is the status, the text and the line for the bytes of a text with this name; `refuses` why there are none.
pub trait Translation {
    ghost says: { List ℕ → List ℕ → ℕ → List ℕ → List ℕ → Type 0 };

    ghost refuses: { List ℕ → TheError → Type 0 };

    /// The status, the text and the line for a text.
    fn tell(alloc: Global, name: &str, bytes: &[u8]) -> Result<Filed<u8>, FilesFault>
        ensures told { IfOk result (λ told. says name.now bytes.now told.verdict told.file.items (string_bytes told.line)) }
        ensures refused { IfErr result (IsRefusedText (refuses bytes.now)) };
}

/// Reads a text of at most 4,194,304 bytes, and writes the text that it means to `file`, then a line to `writer`. Returns the status. `name`
/// is the name of the text that is read.
///
/// Nothing is written before the whole text is translated. After `Write` exactly the first `written` bytes of both went out, the file's
/// before the line's; after any other fault both writers are unchanged.
pub fn translate_file<T: Translation, R: Read, O: Write, W: Write>(
    alloc: Global,
    name: &str,
    reader: &mut Counted<R>,
    file: &mut Counted<O>,
    writer: &mut Counted<W>,
) -> Result<u8, FilesFault>
    ensures bytes { IfSome (R.remaining (inner_of reader.old)) (λ bytes. TranslatesFile (T.says name.now bytes) (T.refuses bytes) bytes
        (O.contents (inner_of file.old)) (O.contents (inner_of file.new)) (W.contents (inner_of writer.old)) (W.contents (inner_of writer.new))
        result) }
    ensures own { IfErr result (IsOf (AtService ∷ AtOutput ∷ [])) }
    ensures faults { IsFirstFailure (input AtService None (faults_of reader.old) (faults_of reader.new)
        ∷ output (faults_of file.old) (faults_of file.new) ∷ output (faults_of writer.old) (faults_of writer.new) ∷ []) (failed_at result) }
    ensures untouched { IsUntouched is_write result file.old file.new × IsUntouched is_write result writer.old writer.new }
{
    let text = read_service_text(alloc, reader)?;
    let told = T::tell(alloc, name, text.as_slice())?;
    write_both(file, told.file.as_slice(), writer, told.line.as_bytes())?;
    Ok(told.verdict)
}
