//! Writes page headers.

ghost use Rattle.std.specs.Prelude.{◌≡◌, ◌≤◌, ◌++◌, [], map};
ghost use Rattle.ttx_code.specs.Words.{hamming_word};
ghost use Rattle.ttx_header.specs.Control.{IsControl};
ghost use Rattle.ttx_header.specs.Fields.{fields_at};
ghost use Rattle.ttx_header.specs.Headers.{numbers_of, header_bytes, time_filling};
ghost use Rattle.ttx_header.specs.Ids.{IsId, id_at};

use crate::control::Control;
use crate::headers::Header;
use crate::parts::put;
use ttx_code::ham;

// The code words of bytes 0 to 9.
fn words_of(mag: u8, page: u8, sub: u16, control: u16) -> [u8; 10]
    requires id { IsId (id_at mag page sub) }
    requires control { IsControl control }
    ensures { result ≡ map hamming_word (numbers_of (fields_at (id_at mag page sub) control [] [])) }
{
    [
        ham(mag % 8),
        ham(0),
        ham(page % 16),
        ham(page / 16),
        ham((sub % 16) as u8),
        ham((sub / 16 % 8 + 8 * (control % 2)) as u8),
        ham((sub / 256 % 16) as u8),
        ham((sub / 4096 + 4 * (control / 2 % 4)) as u8),
        ham((control / 8 % 16) as u8),
        ham((control / 128) as u8),
    ]
}

// A packet made of these three parts.
fn joined(words: &[u8; 10], text: &[u8; 24], clock: &[u8; 8]) -> [u8; 42]
    ensures { result ≡ words.now ++ text.now ++ clock.now }
{
    let mut bytes = [0; 42];
    put(&mut bytes, 0, words);
    put(&mut bytes, 10, text);
    put(&mut bytes, 34, clock);
    bytes
}

/// The 42 bytes of a page header.
pub fn write_header(header: &Header) -> [u8; 42]
    ensures { result ≡ header_bytes header.now }
{
    let id = header.id();
    let words = words_of(id.mag(), id.page(), id.sub(), header.control().0);
    joined(&words, header.text(), header.clock())
}

/// The time-filling header of a magazine, 42 bytes: page FF, subcode 3F7F, 32 spaces, and no control bit except C11, which is
/// `serial`.
pub fn time_fill(mag: u8, serial: bool) -> [u8; 42]
    requires low { 1 ≤ mag }
    requires high { mag ≤ 8 }
    ensures { result ≡ header_bytes (time_filling mag serial) }
{
    let control = if serial { Control::C11.0 } else { 0 };
    let words = words_of(mag, 0xff, 0x3f7f, control);
    joined(&words, &[b' '; 24], &[b' '; 8])
}
