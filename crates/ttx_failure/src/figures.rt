//! Two Views beside each other, as HTML.

ghost use Rattle.std.specs.Prelude.{◌≡◌, ◌≤◌, ◌<◌, ◌++◌, OnOk, length, string_bytes};
ghost use Rattle.ttx_failure.specs.Figures as rule;

use crate::unlike::is_unlike;
use std::alloc::AllocError;
use ttx_document::push_words;
use ttx_picture::push_figure;
use ttx_render::{Cell, View};

/// Appends the style of figures with marks.
#[tactic(auto, unfolding(crate::specs::Figures::figures_style))]
pub(crate) fn push_figures_style(text: &mut String) -> Result<(), AllocError>
    ensures { OnOk result (string_bytes text.new ≡ string_bytes text.old ++ rule.figures_style) }
{
    text.push_str(
        ".b{display:flex;flex-wrap:wrap;gap:1em;margin-top:1em}figure{flex:1 1 18em;margin:0}figcaption{font-weight:bold;padding-bottom:.4em}\
          .p{position:relative}.p i{position:absolute;top:0;left:0;right:0;padding-top:3%;outline:2px solid #d0a}\
          nav{-webkit-print-color-adjust:exact;print-color-adjust:exact}nav a{pointer-events:none}",
    )
}

// Appends a mark of a row, if it differs.
#[tactic(auto, unfolding(crate::specs::Figures::mark_if))]
fn push_mark(text: &mut String, unlike: bool, number: usize) -> Result<(), AllocError>
    requires { number < 25 }
    ensures { OnOk result (string_bytes text.new ≡ string_bytes text.old ++ rule.mark_if unlike number) }
{
    if unlike {
        let top = 3 * number;
        write!(text, "<i style=\"margin-top:{top}%\"></i>")
    } else {
        Ok(())
    }
}

// Appends the marks of the rows that differ.
fn push_marks(text: &mut String, shown: &[[Cell; 40]], own: &[[Cell; 40]]) -> Result<(), AllocError>
    requires within { length shown.now ≤ length own.now }
    requires few { length shown.now ≤ 25 }
    ensures { OnOk result (string_bytes text.new ≡ string_bytes text.old ++ rule.marks_html own.now 0 shown.now) }
{
    for (number, cells) in shown.iter().enumerate() {
        push_mark(text, is_unlike(number, cells, &own[number]), number)?;
    }
    Ok(())
}

#[tactic(auto, unfolding(crate::specs::Figures::figure_start))]
fn push_figure_start(text: &mut String, caption: &str) -> Result<(), AllocError>
    ensures { OnOk result (string_bytes text.new ≡ string_bytes text.old ++ rule.figure_start caption.now) }
{
    push_words(text, "<figure><figcaption>")?;
    push_words(text, caption)?;
    push_words(text, "</figcaption><div class=\"p\">")
}

#[tactic(auto, unfolding(crate::specs::Figures::figure_end))]
fn push_figure_end(text: &mut String) -> Result<(), AllocError>
    ensures { OnOk result (string_bytes text.new ≡ string_bytes text.old ++ rule.figure_end) }
{
    text.push_str("</div></figure>\n")
}

// Appends a View with marks where the two differ.
#[tactic(auto, unfolding(crate::specs::Figures::marked_html))]
fn push_marked(
    text: &mut String,
    caption: &str,
    view: &View,
    shown: &View,
    own: &View,
) -> Result<(), AllocError>
    ensures { OnOk result (string_bytes text.new ≡ string_bytes text.old ++ rule.marked_html caption.now view.now shown.now own.now) }
{
    push_figure_start(text, caption)?;
    push_figure(text, false, view)?;
    push_marks(text, &shown.cells, &own.cells)?;
    push_figure_end(text)
}

/// Appends the page as it was authored beside what is shown. Rows that differ are marked in both.
#[tactic(auto, unfolding(crate::specs::Figures::figures_html))]
pub(crate) fn push_figures(text: &mut String, shown: &View, own: &View) -> Result<(), AllocError>
    ensures { OnOk result (string_bytes text.new ≡ string_bytes text.old ++ rule.figures_html shown.now own.now) }
{
    push_words(text, "<div class=\"b\">")?;
    push_marked(text, "As authored", own, shown, own)?;
    push_marked(text, "As the receiver shows it", shown, shown, own)?;
    push_words(text, "</div>\n")
}
