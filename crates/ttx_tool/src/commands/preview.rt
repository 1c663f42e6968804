//! `preview`: a page of a service as it is shown once it is received whole.

ghost use Rattle.std.specs.Prelude.{◌≡◌, ◌∷◌, [], None, IfSome, IfOk, map, option_map, string_bytes};
ghost use Rattle.ttx_cycle.specs.Counters.{inner_of, faults_of};
ghost use Rattle.ttx_page.specs.Views.{page_of};
ghost use Rattle.ttx_files.specs.Answers.{IsUntouched};
ghost use Rattle.ttx_files.specs.Devices.{AtService, input};
ghost use Rattle.ttx_source.specs.Services.{pages_of, read_bytes};
ghost use Rattle.ttx_faults.specs.Devices.{is_tool_write, Fails, written_to};
ghost use Rattle.ttx_tool.specs.Preview.{first_match, preview_text, preview_status, ShowsReading, PreviewsText, Previews};

use super::show::{no_page_line, picture};
use std::alloc::{AllocError, Global};
use std::io::{Read, Write};
use ttx_arguments::Look;
use ttx_check::{Reading, reading_of};
use ttx_cycle::Counted;
use ttx_faults::{ToolFault, write_text};
use ttx_files::{FilesFault, Told, read_service_text};
use ttx_page::{Page, PageMemory, Selection};
use ttx_render::render;
use ttx_source::Service;

// The first page that the selection matches.
fn first_match<'a>(pages: &'a [Page], selection: &Selection) -> Option<&'a Page>
    ensures { option_map (λ p. page_of p.now) result ≡ first_match selection.now (map page_of pages.now) }
{
    for page in pages {
        if selection.matches(page.id()) {
            return Some(page);
        }
    }
    None
}

// What is shown of a page.
fn preview_text(alloc: Global, look: &Look<'_>, page: Option<&Page>) -> Result<String, AllocError>
    ensures { IfOk result (λ text. string_bytes text ≡ preview_text look.now (option_map (λ p. page_of p.now) page.entry)) }
{
    match page {
        None => no_page_line(alloc, look.page),
        Some(page) => picture(alloc, look, &render(&PageMemory::of(page))),
    }
}

fn preview_status(page: Option<&Page>) -> u8
    ensures { result ≡ preview_status (option_map (λ p. page_of p.now) page.entry) }
{
    match page {
        None => 1,
        Some(_) => 0,
    }
}

// What is shown of a service.
fn shown(
    alloc: Global,
    service: &Service,
    selection: &Selection,
    look: &Look<'_>,
) -> Result<Told<u8>, AllocError>
    ensures { IfOk result (λ preview. (string_bytes preview.line ≡ preview_text look.now (first_match selection.now (pages_of service.now)))
        × (preview.verdict ≡ preview_status (first_match selection.now (pages_of service.now)))) }
{
    let page = first_match(service.pages(), selection);
    Ok(Told {
        verdict: preview_status(page),
        line: preview_text(alloc, look, page)?,
    })
}

// What is shown of a text: the page, or why the text is refused.
fn text_shown(
    alloc: Global,
    text: &[u8],
    selection: &Selection,
    look: &Look<'_>,
) -> Result<Told<u8>, AllocError>
    ensures { IfOk result (λ preview.
        ShowsReading text.now selection.now look.now (read_bytes text.now) (string_bytes preview.line) preview.verdict) }
{
    match reading_of(alloc, text)? {
        Reading::Read(service) => shown(alloc, &service, selection, look),
        Reading::Refused(line) => Ok(Told { verdict: 2, line }),
    }
}

// What is shown of the service of a text that is read here.
fn preview_service<R: Read>(
    alloc: Global,
    reader: &mut Counted<R>,
    selection: &Selection,
    look: &Look<'_>,
) -> Result<Told<u8>, ToolFault>
    ensures bytes { IfSome (R.remaining (inner_of reader.old)) (λ bytes. PreviewsText bytes selection.now look.now result) }
    ensures faults { Fails (input AtService None (faults_of reader.old) (faults_of reader.new) ∷ []) result }
{
    let text = read_service_text(alloc, reader)?;
    match text_shown(alloc, text.as_slice(), selection, look) {
        Ok(preview) => Ok(preview),
        Err(_) => Err(ToolFault::Files(FilesFault::NoMemory)),
    }
}

/// Reads the text of a service, and writes the View of the first page that the selection matches, as it is asked for: the status
/// is 0. If there is no such page, it writes a line that says so: the status is 1. Where the text is refused, writes the line that
/// `check` writes: the status is 2.
///
/// Nothing is written before the text is read. After `Write` exactly the first `written` bytes went out; after any other fault the
/// writer is unchanged.
pub fn run<R: Read, W: Write>(
    alloc: Global,
    reader: &mut Counted<R>,
    selection: &Selection,
    look: &Look<'_>,
    writer: &mut Counted<W>,
) -> Result<u8, ToolFault>
    ensures bytes { IfSome (R.remaining (inner_of reader.old))
        (λ bytes. Previews bytes selection.now look.now (W.contents (inner_of writer.old)) (W.contents (inner_of writer.new)) result) }
    ensures faults { Fails (input AtService None (faults_of reader.old) (faults_of reader.new) ∷ written_to writer.old writer.new ∷ []) result }
    ensures untouched { IsUntouched is_tool_write result writer.old writer.new }
{
    let preview = preview_service(alloc, reader, selection, look)?;
    write_text(writer, preview.line.as_str(), preview.verdict)
}
