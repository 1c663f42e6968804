//! The Hamming 8/4 code (EN 300 706, 8.2): four bits in a byte. One wrong bit in the byte is corrected.

ghost use Rattle.std.specs.Prelude.{◌≡◌, ℕ, ◌<◌, ◌/◌, ◌%◌, ◌↔◌, [], ◌∷◌, IsTrue, MatchOption, is_some};
ghost use Rattle.std.specs.List.{list_all};
ghost use Rattle.ttx_code.specs.Words.{hamming_word, Reads, IsWord, is_word, number_of, reading};

// The code word of each number from 0 to 15.
static WORDS: [u8; 16] = [
    0x15, 0x02, 0x49, 0x5e, 0x64, 0x73, 0x38, 0x2f, 0xd0, 0xc7, 0x8c, 0x9b, 0xa1, 0xb6, 0xfd, 0xea,
];

// The two code words of each byte: that of its lower four bits, then that of its upper four bits.
#[rattlefmt::skip]
static PAIRS: [[u8; 2]; 256] = [
    [21, 21], [2, 21], [73, 21], [94, 21], [100, 21], [115, 21], [56, 21], [47, 21], [208, 21], [199, 21], [140, 21], [155, 21], [161, 21], [182, 21], [253, 21], [234, 21],
    [21, 2], [2, 2], [73, 2], [94, 2], [100, 2], [115, 2], [56, 2], [47, 2], [208, 2], [199, 2], [140, 2], [155, 2], [161, 2], [182, 2], [253, 2], [234, 2],
    [21, 73], [2, 73], [73, 73], [94, 73], [100, 73], [115, 73], [56, 73], [47, 73], [208, 73], [199, 73], [140, 73], [155, 73], [161, 73], [182, 73], [253, 73], [234, 73],
    [21, 94], [2, 94], [73, 94], [94, 94], [100, 94], [115, 94], [56, 94], [47, 94], [208, 94], [199, 94], [140, 94], [155, 94], [161, 94], [182, 94], [253, 94], [234, 94],
    [21, 100], [2, 100], [73, 100], [94, 100], [100, 100], [115, 100], [56, 100], [47, 100], [208, 100], [199, 100], [140, 100], [155, 100], [161, 100], [182, 100], [253, 100], [234, 100],
    [21, 115], [2, 115], [73, 115], [94, 115], [100, 115], [115, 115], [56, 115], [47, 115], [208, 115], [199, 115], [140, 115], [155, 115], [161, 115], [182, 115], [253, 115], [234, 115],
    [21, 56], [2, 56], [73, 56], [94, 56], [100, 56], [115, 56], [56, 56], [47, 56], [208, 56], [199, 56], [140, 56], [155, 56], [161, 56], [182, 56], [253, 56], [234, 56],
    [21, 47], [2, 47], [73, 47], [94, 47], [100, 47], [115, 47], [56, 47], [47, 47], [208, 47], [199, 47], [140, 47], [155, 47], [161, 47], [182, 47], [253, 47], [234, 47],
    [21, 208], [2, 208], [73, 208], [94, 208], [100, 208], [115, 208], [56, 208], [47, 208], [208, 208], [199, 208], [140, 208], [155, 208], [161, 208], [182, 208], [253, 208], [234, 208],
    [21, 199], [2, 199], [73, 199], [94, 199], [100, 199], [115, 199], [56, 199], [47, 199], [208, 199], [199, 199], [140, 199], [155, 199], [161, 199], [182, 199], [253, 199], [234, 199],
    [21, 140], [2, 140], [73, 140], [94, 140], [100, 140], [115, 140], [56, 140], [47, 140], [208, 140], [199, 140], [140, 140], [155, 140], [161, 140], [182, 140], [253, 140], [234, 140],
    [21, 155], [2, 155], [73, 155], [94, 155], [100, 155], [115, 155], [56, 155], [47, 155], [208, 155], [199, 155], [140, 155], [155, 155], [161, 155], [182, 155], [253, 155], [234, 155],
    [21, 161], [2, 161], [73, 161], [94, 161], [100, 161], [115, 161], [56, 161], [47, 161], [208, 161], [199, 161], [140, 161], [155, 161], [161, 161], [182, 161], [253, 161], [234, 161],
    [21, 182], [2, 182], [73, 182], [94, 182], [100, 182], [115, 182], [56, 182], [47, 182], [208, 182], [199, 182], [140, 182], [155, 182], [161, 182], [182, 182], [253, 182], [234, 182],
    [21, 253], [2, 253], [73, 253], [94, 253], [100, 253], [115, 253], [56, 253], [47, 253], [208, 253], [199, 253], [140, 253], [155, 253], [161, 253], [182, 253], [253, 253], [234, 253],
    [21, 234], [2, 234], [73, 234], [94, 234], [100, 234], [115, 234], [56, 234], [47, 234], [208, 234], [199, 234], [140, 234], [155, 234], [161, 234], [182, 234], [253, 234], [234, 234],
];

// The number that each byte reads as; 16 marks an unreadable byte.
#[rattlefmt::skip]
static NUMBERS: [u8; 256] = [
     1, 16,  1,  1, 16,  0,  1, 16, 16,  2,  1, 16, 10, 16, 16,  7,
    16,  0,  1, 16,  0,  0, 16,  0,  6, 16, 16, 11, 16,  0,  3, 16,
    16, 12,  1, 16,  4, 16, 16,  7,  6, 16, 16,  7, 16,  7,  7,  7,
     6, 16, 16,  5, 16,  0, 13, 16,  6,  6,  6, 16,  6, 16, 16,  7,
    16,  2,  1, 16,  4, 16, 16,  9,  2,  2, 16,  2, 16,  2,  3, 16,
     8, 16, 16,  5, 16,  0,  3, 16, 16,  2,  3, 16,  3, 16,  3,  3,
     4, 16, 16,  5,  4,  4,  4, 16, 16,  2, 15, 16,  4, 16, 16,  7,
    16,  5,  5,  5,  4, 16, 16,  5,  6, 16, 16,  5, 16, 14,  3, 16,
    16, 12,  1, 16, 10, 16, 16,  9, 10, 16, 16, 11, 10, 10, 10, 16,
     8, 16, 16, 11, 16,  0, 13, 16, 16, 11, 11, 11, 10, 16, 16, 11,
    12, 12, 16, 12, 16, 12, 13, 16, 16, 12, 15, 16, 10, 16, 16,  7,
    16, 12, 13, 16, 13, 16, 13, 13,  6, 16, 16, 11, 16, 14, 13, 16,
     8, 16, 16,  9, 16,  9,  9,  9, 16,  2, 15, 16, 10, 16, 16,  9,
     8,  8,  8, 16,  8, 16, 16,  9,  8, 16, 16, 11, 16, 14,  3, 16,
    16, 12, 15, 16,  4, 16, 16,  9, 15, 16, 15, 15, 16, 14, 15, 16,
     8, 16, 16,  5, 16, 14, 13, 16, 16, 14, 15, 16, 14, 14, 16, 14,
];

// Whether each byte is a code word.
#[rattlefmt::skip]
static ARE_WORDS: [bool; 256] = [
    false, false, true, false, false, false, false, false, false, false, false, false, false, false, false, false,
    false, false, false, false, false, true, false, false, false, false, false, false, false, false, false, false,
    false, false, false, false, false, false, false, false, false, false, false, false, false, false, false, true,
    false, false, false, false, false, false, false, false, true, false, false, false, false, false, false, false,
    false, false, false, false, false, false, false, false, false, true, false, false, false, false, false, false,
    false, false, false, false, false, false, false, false, false, false, false, false, false, false, true, false,
    false, false, false, false, true, false, false, false, false, false, false, false, false, false, false, false,
    false, false, false, true, false, false, false, false, false, false, false, false, false, false, false, false,
    false, false, false, false, false, false, false, false, false, false, false, false, true, false, false, false,
    false, false, false, false, false, false, false, false, false, false, false, true, false, false, false, false,
    false, true, false, false, false, false, false, false, false, false, false, false, false, false, false, false,
    false, false, false, false, false, false, true, false, false, false, false, false, false, false, false, false,
    false, false, false, false, false, false, false, true, false, false, false, false, false, false, false, false,
    true, false, false, false, false, false, false, false, false, false, false, false, false, false, false, false,
    false, false, false, false, false, false, false, false, false, false, true, false, false, false, false, false,
    false, false, false, false, false, false, false, false, false, false, false, false, false, true, false, false,
];

/// The Hamming 8/4 code word of a number below 16.
pub fn ham(n: u8) -> u8
    requires { n < 16 }
    ensures { result ≡ hamming_word n }
{
    WORDS[usize::from(n)]
}

/// The Hamming 8/4 code words of the lower and of the upper four bits of a byte.
#[inline(always)]
pub fn ham_pair(b: u8) -> [u8; 2]
    ensures { result ≡ hamming_word (b % 16) ∷ hamming_word (b / 16) ∷ [] }
{
    PAIRS[usize::from(b)]
}

/// Decodes a byte: the number, 0 to 15, whose code word differs from the byte in at most one bit. Any two code words
/// differ in at least four bits, so at most one number fits. `None` means that at least two bits are wrong.
pub fn unham(b: u8) -> Option<u8>
    ensures near { MatchOption result ((n : ℕ) → Reads b n → ⊥) (λ n. Reads b n) }
    ensures value { result ≡ reading b }
{
    let n = NUMBERS[usize::from(b)];
    if n < 16 { Some(n) } else { None }
}

/// Whether the byte is a code word, that is, none of its bits is wrong.
pub fn is_word(b: u8) -> bool
    ensures word { IsTrue result ↔ IsWord b }
    ensures value { result ≡ is_word b }
{
    ARE_WORDS[usize::from(b)]
}

/// The number, 0 to 15, that a byte reads as; 0 if the byte is unreadable.
#[inline(always)]
pub fn number_of(b: u8) -> u8
    ensures value { result ≡ number_of b }
    ensures range { result < 16 }
{
    NUMBERS[usize::from(b)] % 16
}

/// Whether all bytes are readable: no mark is set in the union of their numbers.
#[inline(always)]
pub fn are_readable(bytes: &[u8]) -> bool
    ensures { result ≡ list_all (λ b. is_some (reading b)) bytes.now }
{
    let mut union = 0;
    for i in 0..bytes.len() {
        union |= NUMBERS[usize::from(bytes[i])];
    }
    union < 16
}

/// Whether all bytes are code words.
#[inline(always)]
pub fn are_words(bytes: &[u8]) -> bool
    ensures { result ≡ list_all is_word bytes.now }
{
    let mut all = true;
    for i in 0..bytes.len() {
        all &= is_word(bytes[i]);
    }
    all
}
