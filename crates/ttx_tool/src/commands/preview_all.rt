//! `preview --all`: all pages of a service as they are shown once they are received whole.

ghost use Rattle.std.specs.Prelude.{◌≡◌, ◌∷◌, ◌++◌, [], None, IfSome, IfOk, OnOk, map, string_bytes};
ghost use Rattle.ttx_cycle.specs.Counters.{inner_of, faults_of};
ghost use Rattle.ttx_files.specs.Answers.{IsUntouched};
ghost use Rattle.ttx_files.specs.Devices.{AtService, input};
ghost use Rattle.ttx_page.specs.Views.{page_of};
ghost use Rattle.ttx_source.specs.Services.{read_bytes};
ghost use Rattle.ttx_faults.specs.Devices.{is_tool_write, Fails, written_to};
ghost use Rattle.ttx_tool.specs.PreviewAll.{page_part, pages_part, ShowsPages, PreviewsText, Previews};

use std::alloc::{AllocError, Global};
use std::io::{Read, Write};
use ttx_check::{Reading, reading_of};
use ttx_cycle::Counted;
use ttx_digits::push_id;
use ttx_faults::{ToolFault, write_text};
use ttx_files::{FilesFault, Told, read_service_text};
use ttx_page::{Page, PageMemory};
use ttx_picture::{Form, push_picture};
use ttx_render::render;

// Appends a page: a line with its id, and its View.
fn push_page(text: &mut String, form: Form, reveal: bool, page: &Page) -> Result<(), AllocError>
    ensures { OnOk result (string_bytes text.new ≡ string_bytes text.old ++ page_part form reveal (page_of page.now)) }
{
    push_id(text, page.id())?;
    text.push('\n')?;
    push_picture(text, form, reveal, &render(&PageMemory::of(page)))
}

// The pages, one after another.
fn pages_text(alloc: Global, form: Form, reveal: bool, pages: &[Page]) -> Result<String, AllocError>
    ensures { IfOk result (λ text. string_bytes text ≡ pages_part form reveal (map page_of pages.now)) }
{
    let mut text = String::new(alloc);
    for page in pages {
        push_page(&mut text, form, reveal, page)?;
    }
    Ok(text)
}

// What is shown of a text: its pages, or why it is refused.
fn text_shown(alloc: Global, text: &[u8], form: Form, reveal: bool) -> Result<Told<u8>, AllocError>
    ensures { IfOk result (λ preview.
        ShowsPages text.now form reveal (read_bytes text.now) (string_bytes preview.line) preview.verdict) }
{
    match reading_of(alloc, text)? {
        Reading::Read(service) => Ok(Told {
            verdict: 0,
            line: pages_text(alloc, form, reveal, service.pages())?,
        }),
        Reading::Refused(line) => Ok(Told { verdict: 2, line }),
    }
}

// What is shown of a text that is read here.
fn preview_service<R: Read>(
    alloc: Global,
    reader: &mut Counted<R>,
    form: Form,
    reveal: bool,
) -> Result<Told<u8>, ToolFault>
    ensures bytes { IfSome (R.remaining (inner_of reader.old)) (λ bytes. PreviewsText bytes form reveal result) }
    ensures faults { Fails (input AtService None (faults_of reader.old) (faults_of reader.new) ∷ []) result }
{
    let text = read_service_text(alloc, reader)?;
    match text_shown(alloc, text.as_slice(), form, reveal) {
        Ok(preview) => Ok(preview),
        Err(_) => Err(ToolFault::Files(FilesFault::NoMemory)),
    }
}

/// Reads the text of a service, and writes each of its pages, behind a line with its id: the status is 0. Where the text is refused,
/// writes the line that `check` writes: the status is 2.
///
/// Nothing is written before the text is read. At `Write` exactly the first `written` bytes went out; at each other fault the
/// writer is as it was.
pub fn run<R: Read, W: Write>(
    alloc: Global,
    reader: &mut Counted<R>,
    form: Form,
    reveal: bool,
    writer: &mut Counted<W>,
) -> Result<u8, ToolFault>
    ensures bytes { IfSome (R.remaining (inner_of reader.old))
        (λ bytes. Previews bytes form reveal (W.contents (inner_of writer.old)) (W.contents (inner_of writer.new)) result) }
    ensures faults { Fails (input AtService None (faults_of reader.old) (faults_of reader.new) ∷ written_to writer.old writer.new ∷ []) result }
    ensures untouched { IsUntouched is_tool_write result writer.old writer.new }
{
    let preview = preview_service(alloc, reader, form, reveal)?;
    write_text(writer, preview.line.as_str(), preview.verdict)
}
