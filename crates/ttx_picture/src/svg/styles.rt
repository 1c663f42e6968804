//! The style sheet for pictures.

ghost use Rattle.std.specs.Prelude.{◌≡◌, ◌++◌, OnOk, string_bytes};
ghost use Rattle.ttx_picture.specs.Svg.{path_style, gap_style, text_style, ink_style, picture_style, flash_style, style};

use std::alloc::AllocError;

#[tactic(auto, unfolding(crate::specs::Svg::path_style))]
fn push_path_style(text: &mut String) -> Result<(), AllocError>
    ensures { OnOk result (string_bytes text.new ≡ string_bytes text.old ++ path_style) }
{
    text.push_str(
        ".t path{fill:none;stroke:currentColor;stroke-width:8;shape-rendering:crispEdges}.t .g{stroke-width:24}",
    )
}

#[tactic(auto, unfolding(crate::specs::Svg::gap_style))]
fn push_gap_style(text: &mut String) -> Result<(), AllocError>
    ensures { OnOk result (string_bytes text.new ≡ string_bytes text.old ++ gap_style) }
{
    text.push_str(".t .s{stroke-width:6;stroke-dasharray:0 1 8 1}")
}

#[tactic(auto, unfolding(crate::specs::Svg::text_style))]
fn push_text_style(text: &mut String) -> Result<(), AllocError>
    ensures { OnOk result (string_bytes text.new ≡ string_bytes text.old ++ text_style) }
{
    text.push_str(
        ".t text{font:24px Bedstead Extended,Bedstead,ui-monospace,Menlo,Consolas,DejaVu Sans Mono,monospace;\
          white-space:pre}.t tspan{fill:currentColor}",
    )
}

#[tactic(auto, unfolding(crate::specs::Svg::ink_style))]
fn push_ink_style(text: &mut String) -> Result<(), AllocError>
    ensures { OnOk result (string_bytes text.new ≡ string_bytes text.old ++ ink_style) }
{
    text.push_str(
        ".c0{color:#000}.c1{color:#f00}.c2{color:#0f0}.c3{color:#ff0}.c4{color:#00f}.c5{color:#f0f}.c6{color:#0ff}.c7{color:#fff}",
    )
}

#[tactic(auto, unfolding(crate::specs::Svg::picture_style))]
fn push_picture_style(text: &mut String) -> Result<(), AllocError>
    ensures { OnOk result (string_bytes text.new ≡ string_bytes text.old ++ picture_style) }
{
    text.push_str(".t .c8{color:#456;stroke-dasharray:19 1}")
}

#[tactic(auto, unfolding(crate::specs::Svg::flash_style))]
fn push_flash_style(text: &mut String) -> Result<(), AllocError>
    ensures { OnOk result (string_bytes text.new ≡ string_bytes text.old ++ flash_style) }
{
    text.push_str(
        ".f{animation:f 1s step-end infinite}@keyframes f{50%{color:transparent}}@media(prefers-reduced-motion:reduce){.f{animation:none}}",
    )
}

fn push_shapes(text: &mut String) -> Result<(), AllocError>
    ensures { OnOk result (string_bytes text.new ≡ string_bytes text.old ++ path_style ++ gap_style ++ text_style) }
{
    push_path_style(text)?;
    push_gap_style(text)?;
    push_text_style(text)
}

/// Appends the style rules for the classes of pictures.
#[tactic(auto, unfolding(crate::specs::Svg::style))]
pub fn push_style(text: &mut String) -> Result<(), AllocError>
    ensures { OnOk result (string_bytes text.new ≡ string_bytes text.old ++ style) }
{
    push_shapes(text)?;
    push_ink_style(text)?;
    push_picture_style(text)?;
    push_flash_style(text)
}
