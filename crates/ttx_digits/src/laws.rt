//! Laws of numbers and ids in texts. Calling one does nothing at run time; it gives the caller's proof the law.

ghost use Rattle.ttx_digits.specs.Laws.{WrittenNumbersAreRead, ReadNumbersAreWritten, NumbersHoldNoSeparator};
ghost use Rattle.ttx_digits.specs.Laws.{WrittenIdsAreRead, ReadIdsAreWritten, IdsHoldNoSeparator};

/// The digits written for a number below 10,000,000 are read as that number.
pub fn written_numbers_are_read()
    ensures { WrittenNumbersAreRead }
{}

/// A word that is read as a number is the text written for that number. So each number has one word.
pub fn read_numbers_are_written()
    ensures { ReadNumbersAreWritten }
{}

/// The digits of a number contain no space and no line break.
pub fn numbers_hold_no_separator()
    ensures { NumbersHoldNoSeparator }
{}

/// The text of an id is read as the id.
pub fn written_ids_are_read()
    ensures { WrittenIdsAreRead }
{}

/// A word that is read as an id is the text written for that id. So each id has one word.
pub fn read_ids_are_written()
    ensures { ReadIdsAreWritten }
{}

/// The text of an id contains no space and no line break.
pub fn ids_hold_no_separator()
    ensures { IdsHoldNoSeparator }
{}
