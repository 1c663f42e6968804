//! A book: its head, its index, its pages, and the script that handles typed page numbers.

ghost use Rattle.std.specs.Prelude.{◌≡◌, ◌++◌, IfOk, OnOk, codes, length, string_bytes};
ghost use Rattle.ttx_book.specs.Books.{book_start, book_style, index_start, script, book_end, head_of, book_of, book_text};
ghost use Rattle.ttx_picture.specs.Html.{sheet};

use crate::leaves::{push_index, push_leaves};
use crate::packet_index::{Index, index_of};
use crate::page_views::leaf_ids;
use std::alloc::{AllocError, Global};
use ttx_header::PageId;
use ttx_pages::keys::owners;
use ttx_pages::page_headers;
use ttx_picture::push_sheet;

#[tactic(auto, unfolding(crate::specs::Books::book_start))]
fn push_book_start(text: &mut String) -> Result<(), AllocError>
    ensures { OnOk result (string_bytes text.new ≡ string_bytes text.old ++ book_start) }
{
    text.push_str(
        "<!DOCTYPE html>\n<html lang=\"en\"><head><meta charset=\"utf-8\"/>\
          <meta name=\"viewport\" content=\"width=device-width\"/><title>Teletext pages</title><style>",
    )
}

#[tactic(auto, unfolding(crate::specs::Books::book_style))]
fn push_book_style(text: &mut String) -> Result<(), AllocError>
    ensures { OnOk result (string_bytes text.new ≡ string_bytes text.old ++ book_style) }
{
    text.push_str(
        ".i{flex-wrap:wrap}.i a{padding:.4em;color:#fff}h2{font-size:1em;margin:0;padding:.7em}\
          .i a{display:flex;flex:1 1 22em;gap:1em;text-decoration:none}.i span{white-space:pre;font-family:monospace}\
          section{content-visibility:auto;contain-intrinsic-size:auto calc(min(100vw,800px)*.75 + 7.7em)}\
          #n{position:fixed;top:0;right:0;background:#000;color:#fff;padding:.2em .4em;font-size:1.5em}#n:empty{display:none}",
    )
}

#[tactic(auto, unfolding(crate::specs::Books::index_start))]
fn push_index_start(text: &mut String) -> Result<(), AllocError>
    ensures { OnOk result (string_bytes text.new ≡ string_bytes text.old ++ index_start) }
{
    text.push_str(
        "</style></head><body><main><output id=\"n\"></output><nav class=\"i\" aria-label=\"Pages\">",
    )
}

#[tactic(auto, unfolding(crate::specs::Books::script))]
fn push_script(text: &mut String) -> Result<(), AllocError>
    ensures { OnOk result (string_bytes text.new ≡ string_bytes text.old ++ script) }
{
    text.push_str(
        "<script>var t='',n=document.getElementById('n');document.addEventListener('keydown',function(e){\
          if(e.ctrlKey||e.altKey||e.metaKey||!/^[0-9]$/.test(e.key))return;t=t.length==3?e.key:t+e.key;n.textContent=t;\
          if(t.length==3){var p=document.getElementById(t);if(p){location.hash=t;n.textContent='';s(p,9)}\
          else n.textContent=t+'?'}});function s(p,k){p.scrollIntoView();if(k)setTimeout(function(){s(p,k-1)},50)}</script>",
    )
}

#[tactic(auto, unfolding(crate::specs::Books::book_end))]
fn push_book_end(text: &mut String) -> Result<(), AllocError>
    ensures { OnOk result (string_bytes text.new ≡ string_bytes text.old ++ book_end) }
{
    text.push_str("</main></body></html>\n")
}

fn push_styles(text: &mut String) -> Result<(), AllocError>
    ensures { OnOk result (string_bytes text.new ≡ string_bytes text.old ++ book_start ++ sheet ++ book_style) }
{
    push_book_start(text)?;
    push_sheet(text)?;
    push_book_style(text)
}

fn push_head(text: &mut String, headers: &[[u8; 42]]) -> Result<(), AllocError>
    ensures { OnOk result (string_bytes text.new ≡ string_bytes text.old ++ head_of headers.now) }
{
    push_styles(text)?;
    push_index_start(text)?;
    push_index(text, headers)?;
    text.push_str("</nav>")
}

#[tactic(auto, unfolding(crate::specs::Books::book_of))]
fn push_book(
    text: &mut String,
    slots: &[[u8; 42]],
    pages: &Index,
    headers: &[[u8; 42]],
    ids: &[PageId],
) -> Result<(), AllocError>
    requires { length pages.now ≡ length slots.now }
    ensures { OnOk result (string_bytes text.new ≡ string_bytes text.old ++ book_of slots.now pages.now headers.now ids.now) }
{
    push_head(text, headers)?;
    push_leaves(text, slots, pages, ids)?;
    push_script(text)?;
    push_book_end(text)
}

/// The pages of a cycle as one HTML file. `Err` if memory runs out.
#[tactic(auto, unfolding(crate::specs::Books::book_text))]
pub fn book_text(alloc: Global, slots: &[[u8; 42]]) -> Result<String, AllocError>
    ensures { IfOk result (λ text. string_bytes text ≡ book_text slots.now) }
{
    let pages = index_of(alloc, owners(alloc, slots)?)?;
    let headers = page_headers(alloc, slots)?;
    let ids = leaf_ids(alloc, headers.as_slice())?;
    let mut text = String::new(alloc);
    push_book(&mut text, slots, &pages, headers.as_slice(), ids.as_slice())?;
    Ok(text)
}
