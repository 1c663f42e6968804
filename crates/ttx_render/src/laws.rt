//! Laws of the display. A call does nothing at run time, and gives the law to the caller's proof.

ghost use Rattle.ttx_render.specs.Laws.{AttributesAreInForce, HeldIsFromLatest, ContentsDecide, ShowingIsSeeing};
ghost use Rattle.ttx_render.specs.Laws.{LetterIsShown, LetterIsSeen, WrongLetterIsSeen, ViewsArePrinted};

use ttx_charset::laws::letters_stand_alone;

/// Each attribute at a column has the value of the last code that sets it and already acts there, or the start value of the row.
pub fn attributes_are_in_force()
    ensures { AttributesAreInForce }
{}

/// The held mosaic is that of the latest column that shows one, if mode and height have stayed the same since then.
pub fn held_is_from_latest()
    ensures { HeldIsFromLatest }
{}

/// A View depends only on rows, control bits and links.
pub fn contents_decide()
    ensures { ContentsDecide }
{}

/// A memory with a page's control bits and needed items has the page's View, except the receiver's own columns and the clock.
pub fn showing_is_seeing()
    ensures { ShowingIsSeeing }
{}

/// In a row that is shown and not hidden, a cell shows an A or a B if and only if its code is that of the letter.
pub fn letter_is_shown()
    ensures { LetterIsShown }
{
    letters_stand_alone();
}

/// Two memories have different Views if one has a letter in such a cell and the other does not.
pub fn letter_is_seen()
    ensures { LetterIsSeen }
{
    letters_stand_alone();
}

/// A memory that has one of these letters in place of another character of a needed row does not have the page's View.
pub fn wrong_letter_is_seen()
    ensures { WrongLetterIsSeen }
{
    letters_stand_alone();
}

/// No cell of a View shows a control character.
pub fn views_are_printed()
    ensures { ViewsArePrinted }
{}
