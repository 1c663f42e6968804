//! The frame of a document.

ghost use Rattle.std.specs.Prelude.{◌≡◌, ◌++◌, OnOk, string_bytes};
ghost use Rattle.ttx_document.specs.Frames.{type_html, start_html, page_style, table_style, print_style, style, body_html, end_html, heading_html, paragraph_html};

use std::alloc::AllocError;

#[tactic(auto, unfolding(crate::specs::Frames::page_style))]
fn push_page_style(text: &mut String) -> Result<(), AllocError>
    ensures { OnOk result (string_bytes text.new ≡ string_bytes text.old ++ page_style) }
{
    text.push_str(
        "body{margin:0;background:#fff;color:#000;font:16px/1.45 Helvetica,Arial,sans-serif}main{max-width:60em;margin:auto;padding:1em}\
          h1{font-size:1.5em}h2{font-size:1.1em;margin:1.6em 0 .4em;border-bottom:1px solid #000}p,ul{margin:.4em 0}",
    )
}

#[tactic(auto, unfolding(crate::specs::Frames::table_style))]
fn push_table_style(text: &mut String) -> Result<(), AllocError>
    ensures { OnOk result (string_bytes text.new ≡ string_bytes text.old ++ table_style) }
{
    text.push_str(
        "table{border-collapse:collapse}td,th{padding:.15em 1.2em .15em 0;text-align:left;vertical-align:top;border-bottom:1px solid #ccc}\
          code,pre{margin:0;font-family:DejaVu Sans Mono,Menlo,Consolas,monospace;font-size:.9em;overflow-wrap:anywhere}",
    )
}

#[tactic(auto, unfolding(crate::specs::Frames::print_style))]
fn push_print_style(text: &mut String) -> Result<(), AllocError>
    ensures { OnOk result (string_bytes text.new ≡ string_bytes text.old ++ print_style) }
{
    text.push_str(
        "@page{margin:15mm}@media print{body{font-size:10pt}main{max-width:none;padding:0}h2{break-after:avoid}tr,figure{break-inside:avoid}details{display:none}}",
    )
}

#[tactic(auto, unfolding(crate::specs::Frames::type_html))]
fn push_type(text: &mut String) -> Result<(), AllocError>
    ensures { OnOk result (string_bytes text.new ≡ string_bytes text.old ++ type_html) }
{
    text.push_str(
        "<!DOCTYPE html>\n<html lang=\"en\"><head><meta charset=\"utf-8\"/>\
          <meta name=\"viewport\" content=\"width=device-width\"/><title>",
    )
}

/// Appends the start of a document up to its style sheet. `title` is HTML. `Err` if memory runs out, as in all of this crate.
#[tactic(auto, unfolding(crate::specs::Frames::start_html))]
pub fn push_start(text: &mut String, title: &str) -> Result<(), AllocError>
    ensures { OnOk result (string_bytes text.new ≡ string_bytes text.old ++ start_html title.now) }
{
    push_type(text)?;
    text.push_str(title)?;
    text.push_str("</title><style>\n")
}

/// Appends the style sheet.
#[tactic(auto, unfolding(crate::specs::Frames::style))]
pub fn push_style(text: &mut String) -> Result<(), AllocError>
    ensures { OnOk result (string_bytes text.new ≡ string_bytes text.old ++ style) }
{
    push_page_style(text)?;
    push_table_style(text)?;
    push_print_style(text)
}

/// Appends the end of the head, and the heading of the document.
#[tactic(auto, unfolding(crate::specs::Frames::body_html))]
pub fn push_body(text: &mut String, title: &str) -> Result<(), AllocError>
    ensures { OnOk result (string_bytes text.new ≡ string_bytes text.old ++ body_html title.now) }
{
    text.push_str("\n</style></head><body><main><h1>")?;
    text.push_str(title)?;
    text.push_str("</h1>\n")
}

/// Appends the end of a document.
#[tactic(auto, unfolding(crate::specs::Frames::end_html))]
pub fn push_end(text: &mut String) -> Result<(), AllocError>
    ensures { OnOk result (string_bytes text.new ≡ string_bytes text.old ++ end_html) }
{
    text.push_str("</main></body></html>\n")
}

/// Appends words as they are.
pub fn push_words(text: &mut String, words: &str) -> Result<(), AllocError>
    ensures { OnOk result (string_bytes text.new ≡ string_bytes text.old ++ words.now) }
{
    text.push_str(words)
}

/// Appends a heading. `words` are HTML.
#[tactic(auto, unfolding(crate::specs::Frames::heading_html))]
pub fn push_heading(text: &mut String, words: &str) -> Result<(), AllocError>
    ensures { OnOk result (string_bytes text.new ≡ string_bytes text.old ++ heading_html words.now) }
{
    text.push_str("<h2>")?;
    text.push_str(words)?;
    text.push_str("</h2>\n")
}

/// Appends a paragraph. `words` are HTML.
#[tactic(auto, unfolding(crate::specs::Frames::paragraph_html))]
pub fn push_paragraph(text: &mut String, words: &str) -> Result<(), AllocError>
    ensures { OnOk result (string_bytes text.new ≡ string_bytes text.old ++ paragraph_html words.now) }
{
    text.push_str("<p>")?;
    text.push_str(words)?;
    text.push_str("</p>\n")
}
