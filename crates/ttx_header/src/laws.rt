//! Laws of page headers, and of Hamming bytes in packets. Calling one does nothing at run time; it gives the caller's proof the
//! law.

ghost use Rattle.ttx_header.specs.Laws.{HeaderIsKept, HeadersHaveFields, HeadersAreHeaders, SaidHeadersAreRead, ReadHeadersAreSaid};
ghost use Rattle.ttx_header.specs.Laws.{WrittenHeadersAreRead, WordsAreKept, ReadBytesAreReadable, ReadableBytesHaveNumbers};
ghost use Rattle.ttx_header.specs.Laws.{ReadNumbersAreNumbers, WrittenWordsAreRead};

/// Code words that are received with at most one wrong bit in each byte read as they were sent.
pub fn words_are_kept()
    ensures { WordsAreKept }
{
    ttx_code::laws::words_are_read_under_one_wrong_bit();
}

/// Bytes that read as numbers are readable.
pub fn read_bytes_are_readable()
    ensures { ReadBytesAreReadable }
{}

/// Readable bytes read as four-bit numbers.
pub fn readable_bytes_have_numbers()
    ensures { ReadableBytesHaveNumbers }
{
    ttx_code::laws::readings_are_numbers();
}

/// Bytes that read as a list of numbers have these numbers one by one.
pub fn read_numbers_are_numbers()
    ensures { ReadNumbersAreNumbers }
{}

/// The code words written for a list of numbers read as these numbers, wherever they are placed in a packet.
pub fn written_words_are_read()
    ensures { WrittenWordsAreRead }
{
    ttx_code::laws::words_are_read();
    ttx_code::laws::words_are_words();
}

/// One wrong bit in each byte leaves the id and the control bits of a clean page header unchanged.
pub fn header_is_kept()
    ensures { HeaderIsKept }
{
    words_are_kept();
}

/// A slot whose kind is a page header is a readable packet 0 of that magazine, with its id and its control bits in range.
pub fn headers_have_fields()
    ensures { HeadersHaveFields }
{
    ttx_code::laws::readings_are_numbers();
}

/// A readable packet 0 is a page header of the magazine that its id names.
pub fn headers_are_headers()
    ensures { HeadersAreHeaders }
{}

/// 42 bytes that encode a header are read as that header.
pub fn said_headers_are_read()
    ensures { SaidHeadersAreRead }
{}

/// A readable packet 0 encodes the header that is read from it.
pub fn read_headers_are_said()
    ensures { ReadHeadersAreSaid }
{
    readable_bytes_have_numbers();
    headers_are_headers();
    headers_have_fields();
}

/// The bytes written for a header are clean, have the kind of a page header, encode the header, and are read as the same header.
pub fn written_headers_are_read()
    ensures { WrittenHeadersAreRead }
{
    ttx_packet::laws::address_is_read_back();
    written_words_are_read();
}
