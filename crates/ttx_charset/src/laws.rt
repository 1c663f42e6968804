//! Laws of the national characters.

ghost use Rattle.ttx_charset.specs.Laws.{LettersStandAlone};

/// Under every national option, the letters A and B are shown by their own codes and by no others.
pub fn letters_stand_alone()
    ensures { LettersStandAlone }
{}
