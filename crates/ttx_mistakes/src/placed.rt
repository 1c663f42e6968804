//! Errors and warnings at their places.

ghost use Rattle.std.specs.Prelude.{◌≡◌, ◌++◌, IfOk, OnOk, Some, map};
ghost use Rattle.ttx_places.specs.Places.{place_of};
ghost use Rattle.ttx_mistakes.specs.LongLines as rule;
ghost use Rattle.ttx_mistakes.specs.NoteViews.{note_view, note_views};
ghost use Rattle.ttx_mistakes.specs.PlacedViews.{placed_view, placed_views};

use crate::long_lines::copied;
use crate::notes::Note;
use std::alloc::{AllocError, Global};
use ttx_places::{character_place, place_of};

/// A text, the name of its file, and whether its report is in the long form.
#[derive(Clone, Copy)]
pub struct Paper<'a> {
    pub file: &'a str,
    pub bytes: &'a [u8],
    pub long: bool,
}

/// An error or a warning at a place of a text.
#[derive(Drop)]
pub struct Placed {
    /// Whether the text is refused for it.
    pub error: bool,
    /// The byte of the text that it concerns.
    pub place: usize,
    /// The name of the value and what is wrong.
    pub words: Vec<u8>,
}

/// The place of a value, if the text has it.
pub fn value_place(alloc: Global, text: &str, path: &str) -> Result<Option<usize>, AllocError>
    ensures { IfOk result (λ place. place ≡ rule.known (place_of path.now text.now)) }
{
    place_of(alloc, text, path)
}

// The place of a note.
#[tactic(auto, unfolding(crate::specs::LongLines::note_place))]
fn note_place(alloc: Global, text: &str, note: &Note) -> Result<usize, AllocError>
    ensures { IfOk result (λ place. place ≡ rule.note_place text.now (note_view note.now)) }
{
    let place = value_place(alloc, text, note.path.as_str())?;
    match (place, note.sign) {
        (None, _) => Ok(0),
        (Some(place), None) => Ok(place),
        (Some(place), Some(index)) => Ok(character_place(text.as_bytes(), place, index)),
    }
}

// A note at its place.
fn placed_note(alloc: Global, text: &str, note: &Note) -> Result<Placed, AllocError>
    ensures { IfOk result (λ placed. placed_view placed ≡ rule.placed text.now (note_view note.now)) }
{
    Ok(Placed {
        error: note.error,
        place: note_place(alloc, text, note)?,
        words: copied(alloc, note.words.as_slice())?,
    })
}

/// Adds notes at their places.
pub fn push_notes(
    alloc: Global,
    found: &mut Vec<Placed>,
    text: &str,
    notes: &[Note],
) -> Result<(), AllocError>
    ensures { OnOk result (placed_views found.new.items ≡ placed_views found.old.items ++ map (rule.placed text.now) (note_views notes.now)) }
{
    for note in notes {
        found.push(placed_note(alloc, text, note)?)?;
    }
    Ok(())
}
