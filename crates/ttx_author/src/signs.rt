//! The characters that an author writes for codes 20 to 7F.

ghost use Rattle.std.specs.Prelude.{◌≡◌, ◌<◌, ◌≤◌, IfSome};
ghost use Rattle.ttx_author.specs.Signs as rule;

use ttx_charset::glyph;

// The character for the six blocks of a mosaic.
#[tactic(auto, unfolding(crate::specs::Signs::block_character))]
fn block_character(blocks: u8) -> char
    requires { blocks < 64 }
    ensures { result ≡ rule.block_character blocks }
{
    match blocks {
        0 => ' ',
        21 => '\u{258c}',
        42 => '\u{2590}',
        63 => '\u{2588}',
        _ => {
            let skipped = u32::from(21 < blocks) + u32::from(42 < blocks);
            char::from_u32(0x1faff + u32::from(blocks) - skipped).unwrap()
        }
    }
}

/// The character that stands for a code, 20 to 7F, under a national option, 0 to 7: the one that the option shows, or in mosaic
/// mode the Unicode character with the same six blocks.
#[tactic(auto, unfolding(crate::specs::Signs::sign))]
pub fn sign(mosaic: bool, option: u8, code: u8) -> char
    requires option { option < 8 }
    requires printed { 0x20 ≤ code }
    requires code { code < 0x80 }
    ensures { result ≡ rule.sign mosaic option code }
{
    if mosaic && code / 32 % 2 == 1 {
        block_character(code % 32 + 32 * (code / 64 % 2))
    } else {
        glyph(option, code)
    }
}

/// The code, 20 to 7F, that shows a character in this mode, under this option. `None` if none does.
#[tactic(auto, unfolding(crate::specs::Signs::code_of))]
pub fn code_of(mosaic: bool, option: u8, character: char) -> Option<u8>
    requires { option < 8 }
    ensures { result ≡ rule.code_of mosaic option character }
{
    (0x20..0x80).find(|code| sign(mosaic, option, *code) == character)
}

/// Whether a national option has a character.
pub fn has_character(option: u8, character: char) -> bool
    requires { option < 8 }
    ensures { result ≡ rule.has_character option character }
{
    code_of(false, option, character).is_some()
}
