//! Laws of the codes. Calling one does nothing at run time; it gives the caller's proof the law.

ghost use Rattle.ttx_code.specs.Laws.{OneWrongBitIsCorrected, WordsAreRead, WordsAreBytes, WordsAreWords, WordsHaveNumbers, ReadingsAreNumbers};
ghost use Rattle.ttx_code.specs.Laws.{WordsAreReadUnderOneWrongBit, OddBytesUnderOneWrongBit, OddBytesHoldTheirCodes, EachByteIsNearItself};

/// A byte that differs in at most one bit from the code word of a number reads as this number, and as no other.
pub fn one_wrong_bit_is_corrected()
    ensures { OneWrongBitIsCorrected }
{}

/// Each code word reads as its number.
pub fn words_are_read()
    ensures { WordsAreRead }
{}

/// Each code word is below 256.
pub fn words_are_bytes()
    ensures { WordsAreBytes }
{}

/// Each code word passes the test for code words.
pub fn words_are_words()
    ensures { WordsAreWords }
{}

/// A byte that passes the test for code words is the code word of the number that it reads as.
pub fn words_have_numbers()
    ensures { WordsHaveNumbers }
{}

/// The number that a byte reads as is below 16.
pub fn readings_are_numbers()
    ensures { ReadingsAreNumbers }
{}

/// A code word that is received with at most one wrong bit reads as it was sent.
pub fn words_are_read_under_one_wrong_bit()
    ensures { WordsAreReadUnderOneWrongBit }
{}

/// A byte of odd parity that is received with at most one wrong bit is the byte sent, or has even parity.
pub fn odd_bytes_under_one_wrong_bit()
    ensures { OddBytesUnderOneWrongBit }
{}

/// The byte of a character has odd parity and holds the character.
pub fn odd_bytes_hold_their_codes()
    ensures { OddBytesHoldTheirCodes }
{}

/// A byte that is received as it was sent has at most one wrong bit.
pub fn each_byte_is_near_itself()
    ensures { EachByteIsNearItself }
{}
