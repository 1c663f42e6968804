//! Bytes of the standard's tables, and a sent text.

use std::test::Fail;
use ttx_code::{
    all_odd, are_readable, are_words, ham, ham_pair, is_word, number_of, odd, odd_of, unham,
};
use ttx_digits::push_digit;

// The code word of each number (EN 300 706, 8.2).
const WORDS: [u8; 16] = [
    0x15, 0x02, 0x49, 0x5e, 0x64, 0x73, 0x38, 0x2f, 0xd0, 0xc7, 0x8c, 0x9b, 0xa1, 0xb6, 0xfd, 0xea,
];

// The characters of a text, and how they are sent.
static TEXT: [(u8, u8); 5] = [
    (b'T', 0x54),
    (b'E', 0x45),
    (b'S', 0xd3),
    (b'T', 0x54),
    (b' ', 0x20),
];

#[test]
fn words_of_numbers(rt: HostRuntime) {
    for n in 0..16u8 {
        let word = WORDS[usize::from(n)];
        assert!(rt;
            ham(n) == word && unham(word) == Some(n) && is_word(word),
            "{n}"
        );
    }
}

// How many bytes are read as a number: the words, and each with one wrong bit.
fn readable() -> u32 {
    let mut count = 0u32;
    for b in 0..=255u8 {
        if unham(b).is_some() {
            count = count.saturating_add(1);
        }
    }
    count
}

#[test]
fn one_wrong_bit_is_corrected(rt: HostRuntime) {
    assert!(rt; readable() == 144);
    assert!(rt; unham(0x14) == Some(0) && !is_word(0x14));
    assert!(rt; unham(0x00) == Some(1) && unham(0x16).is_none());
    // 0x14 is the word of 0 with one wrong bit, 0x16 is unreadable
    assert!(rt; number_of(0x14) == 0 && number_of(0xea) == 15 && number_of(0x16) == 0);
    assert!(rt; are_readable(&[0x15, 0x14]) && !are_readable(&[0x15, 0x16]));
    assert!(rt; are_words(&WORDS) && !are_words(&[0x15, 0x14]));
    // the lower four bits come first
    assert!(rt; ham_pair(0x2f) == [0xea, 0x49]);
}

#[test]
fn odd_parity_of_a_text(rt: HostRuntime) {
    for (character, byte) in &TEXT {
        assert!(rt;
            odd(*character) == *byte && odd_of(*byte) == Some(*character),
            "{character}"
        );
    }
}

// A byte among 40 spaces, its place, and whether all have odd parity. The last eight places are not in the lanes of the vector.
static PARITIES: [(usize, u8, bool); 6] = [
    (0, 0x20, true),
    (31, 0x54, true),
    (0, 0x00, false),
    (31, 0xd4, false),
    (32, 0x45, true),
    (39, 0xa0, false),
];

#[test]
fn odd_parity_of_a_row(rt: HostRuntime) {
    for (at, byte, is_odd) in &PARITIES {
        let mut bytes = [0x20; 40];
        if *at < 40 {
            bytes[*at] = *byte;
        }
        assert!(rt; all_odd(&bytes) == *is_odd, "{at}");
    }
}

#[test]
fn digits_of_a_text(rt: HostRuntime) -> Result<(), Fail> {
    let mut text = String::new(rt.alloc());
    push_digit(&mut text, 0)?;
    push_digit(&mut text, 9)?;
    assert!(rt; text.as_str() == "09");
    Ok(())
}
