//! A View as an HTML page.

ghost use Rattle.std.specs.Prelude.{◌≡◌, ◌++◌, [], None, OnOk, codes, string_bytes, true, false};
ghost use Rattle.ttx_picture.specs.Svg.{style};
ghost use Rattle.ttx_picture.specs.Html.{key_class, key_start, key_title, key_end, key_html, keys_html, html_start, page_style, key_style};
ghost use Rattle.ttx_picture.specs.Html.{head_end, head_html, picture_html, nav_html, text_html, sheet, figure_html, html_of, coloured_link};

use crate::links::push_target;
use crate::svg::{push_body, push_style, push_svg_start};
use crate::text::push_rows;
use std::alloc::AllocError;
use ttx_links::Target;
use ttx_render::View;

fn push_key_class(text: &mut String, colour: u8) -> Result<(), AllocError>
    ensures { OnOk result (string_bytes text.new ≡ string_bytes text.old ++ key_class colour) }
{
    write!(text, " class=\"k c{colour}")
}

fn push_no_key(text: &mut String, colour: u8) -> Result<(), AllocError>
    ensures { OnOk result (string_bytes text.new ≡ string_bytes text.old ++ key_html true [] colour None) }
{
    text.push_str("<span")?;
    push_key_class(text, colour)?;
    text.push_str("\">-</span>")
}

#[tactic(auto, unfolding(crate::specs::Html::key_start))]
fn push_key_start(
    text: &mut String,
    linked: bool,
    colour: u8,
    target: &Target,
) -> Result<(), AllocError>
    ensures { OnOk result (string_bytes text.new ≡ string_bytes text.old ++ key_start linked colour target.now) }
{
    text.push_str("<a")?;
    push_key_class(text, colour)?;
    if !linked {
        return Ok(());
    }
    text.push_str("\" href=\"#")?;
    push_target(text, target)
}

#[tactic(auto, unfolding(crate::specs::Html::key_title))]
fn push_key_title(text: &mut String, name: &str, target: &Target) -> Result<(), AllocError>
    ensures { OnOk result (string_bytes text.new ≡ string_bytes text.old ++ key_title name.now target.now) }
{
    text.push_str("\" title=\"")?;
    text.push_str(name)?;
    text.push_str(": page ")?;
    push_target(text, target)
}

#[tactic(auto, unfolding(crate::specs::Html::key_end))]
fn push_key_end(text: &mut String, target: &Target) -> Result<(), AllocError>
    ensures { OnOk result (string_bytes text.new ≡ string_bytes text.old ++ key_end target.now) }
{
    text.push_str("\">")?;
    push_target(text, target)?;
    text.push_str("</a>")
}

// Appends a link, with the name and in the colour of its key.
fn push_key(
    text: &mut String,
    linked: bool,
    name: &str,
    colour: u8,
    link: &Option<Target>,
) -> Result<(), AllocError>
    ensures { OnOk result (string_bytes text.new ≡ string_bytes text.old ++ key_html linked name.now colour link.now) }
{
    match link {
        None => push_no_key(text, colour),
        Some(target) => {
            push_key_start(text, linked, colour, target)?;
            push_key_title(text, name, target)?;
            push_key_end(text, target)
        }
    }
}

fn push_three_keys(text: &mut String, linked: bool, view: &View) -> Result<(), AllocError>
    ensures { OnOk result (string_bytes text.new ≡ string_bytes text.old ++ key_html linked (codes "Red") 1 (coloured_link view.now 0)
        ++ key_html linked (codes "Green") 2 (coloured_link view.now 1) ++ key_html linked (codes "Yellow") 3 (coloured_link view.now 2)) }
{
    push_key(text, linked, "Red", 1, &view.links[0])?;
    push_key(text, linked, "Green", 2, &view.links[1])?;
    push_key(text, linked, "Yellow", 3, &view.links[2])
}

fn push_keys(text: &mut String, linked: bool, view: &View) -> Result<(), AllocError>
    ensures { OnOk result (string_bytes text.new ≡ string_bytes text.old ++ keys_html linked view.now) }
{
    push_three_keys(text, linked, view)?;
    push_key(text, linked, "Cyan", 6, &view.links[3])?;
    push_key(text, linked, "Next", 7, &view.links[4])?;
    push_key(text, linked, "Index", 7, &view.links[5])
}

#[tactic(auto, unfolding(crate::specs::Html::html_start))]
fn push_html_start(text: &mut String) -> Result<(), AllocError>
    ensures { OnOk result (string_bytes text.new ≡ string_bytes text.old ++ html_start) }
{
    text.push_str(
        "<!DOCTYPE html>\n<html lang=\"en\"><head><meta charset=\"utf-8\"/>\
          <meta name=\"viewport\" content=\"width=device-width\"/><title>Teletext page</title><style>",
    )
}

#[tactic(auto, unfolding(crate::specs::Html::page_style))]
fn push_page_style(text: &mut String) -> Result<(), AllocError>
    ensures { OnOk result (string_bytes text.new ≡ string_bytes text.old ++ page_style) }
{
    text.push_str(
        "body{margin:0;background:#222;color:#ddd;font:16px sans-serif}main{max-width:800px;margin:auto}\
          .t{display:block;width:100%;height:auto;aspect-ratio:4/3}",
    )
}

#[tactic(auto, unfolding(crate::specs::Html::key_style))]
fn push_key_style(text: &mut String) -> Result<(), AllocError>
    ensures { OnOk result (string_bytes text.new ≡ string_bytes text.old ++ key_style) }
{
    text.push_str(
        "nav{display:flex;background:#000}.k{flex:1;padding:.7em 0;text-align:center;text-decoration:none}\
          .k:focus,a.k:hover{outline:2px solid}details{padding:.7em}",
    )
}

fn push_styles(text: &mut String) -> Result<(), AllocError>
    ensures { OnOk result (string_bytes text.new ≡ string_bytes text.old ++ html_start ++ style ++ page_style) }
{
    push_html_start(text)?;
    push_style(text)?;
    push_page_style(text)
}

#[tactic(auto, unfolding(crate::specs::Html::head_end))]
fn push_head_end(text: &mut String) -> Result<(), AllocError>
    ensures { OnOk result (string_bytes text.new ≡ string_bytes text.old ++ head_end) }
{
    text.push_str("</style></head><body><main>")
}

fn push_head(text: &mut String) -> Result<(), AllocError>
    ensures { OnOk result (string_bytes text.new ≡ string_bytes text.old ++ head_html) }
{
    push_styles(text)?;
    push_key_style(text)?;
    push_head_end(text)
}

fn push_picture(text: &mut String, reveal: bool, view: &View) -> Result<(), AllocError>
    ensures { OnOk result (string_bytes text.new ≡ string_bytes text.old ++ picture_html reveal view.now) }
{
    push_svg_start(text)?;
    push_body(text, reveal, view)?;
    text.push_str("</svg>")
}

fn push_nav(text: &mut String, linked: bool, view: &View) -> Result<(), AllocError>
    ensures { OnOk result (string_bytes text.new ≡ string_bytes text.old ++ nav_html linked view.now) }
{
    text.push_str("<nav>")?;
    push_keys(text, linked, view)?;
    text.push_str("</nav>")
}

fn push_plain(text: &mut String, reveal: bool, view: &View) -> Result<(), AllocError>
    ensures { OnOk result (string_bytes text.new ≡ string_bytes text.old ++ text_html reveal view.now) }
{
    text.push_str("<details><summary>Text</summary><pre>")?;
    push_rows(text, true, reveal, &view.cells)?;
    text.push_str("</pre></details>")
}

fn push_page(text: &mut String, reveal: bool, view: &View) -> Result<(), AllocError>
    ensures { OnOk result (string_bytes text.new ≡ string_bytes text.old ++ head_html ++ picture_html reveal view.now ++ nav_html false view.now) }
{
    push_head(text)?;
    push_picture(text, reveal, view)?;
    push_nav(text, false, view)
}

/// Appends a View as an HTML page. Concealed characters are shown only if `reveal` is true.
pub(crate) fn push_html(text: &mut String, reveal: bool, view: &View) -> Result<(), AllocError>
    ensures { OnOk result (string_bytes text.new ≡ string_bytes text.old ++ html_of reveal view.now) }
{
    push_page(text, reveal, view)?;
    push_plain(text, reveal, view)?;
    text.push_str("</main></body></html>\n")
}

/// Appends the style sheet for pages that contain figures. `Err` if memory runs out.
#[tactic(auto, unfolding(crate::specs::Html::sheet))]
pub fn push_sheet(text: &mut String) -> Result<(), AllocError>
    ensures { OnOk result (string_bytes text.new ≡ string_bytes text.old ++ sheet) }
{
    push_style(text)?;
    push_page_style(text)?;
    push_key_style(text)
}

/// Appends the picture of a View, its links and its text, for a page with that style sheet. Concealed characters are shown only if
/// `reveal` is true. `Err` if memory runs out.
#[tactic(auto, unfolding(crate::specs::Html::figure_html))]
pub fn push_figure(text: &mut String, reveal: bool, view: &View) -> Result<(), AllocError>
    ensures { OnOk result (string_bytes text.new ≡ string_bytes text.old ++ figure_html reveal view.now) }
{
    push_picture(text, reveal, view)?;
    push_nav(text, true, view)?;
    push_plain(text, reveal, view)
}
