//! National characters: the characters that codes 20 to 7F show under each national option.
#![tactic(auto)]

ghost use Rattle.std.specs.Prelude.{◌≡◌, ◌<◌, ◌≤◌, ◌==◌, position};
ghost use Rattle.ttx_charset.specs.Glyphs.{glyph, places};

pub mod laws;

// For each option, the characters at the places of the national set.
#[rattlefmt::skip]
static SETS: [[char; 13]; 8] = [
    ['£', '$', '@', '←', '½', '→', '↑', '#', '\u{2015}', '¼', '\u{2016}', '¾', '÷'],
    ['#', '$', '§', 'Ä', 'Ö', 'Ü', '^', '_', '°', 'ä', 'ö', 'ü', 'ß'],
    ['#', '¤', 'É', 'Ä', 'Ö', 'Å', 'Ü', '_', 'é', 'ä', 'ö', 'å', 'ü'],
    ['£', '$', 'é', '°', 'ç', '→', '↑', '#', 'ù', 'à', 'ò', 'è', 'ì'],
    ['é', 'ï', 'à', 'ë', 'ê', 'ù', 'î', '#', 'è', 'â', 'ô', 'û', 'ç'],
    ['ç', '$', '¡', 'á', 'é', 'í', 'ó', 'ú', '¿', 'ü', 'ñ', 'è', 'à'],
    ['#', 'ů', 'č', 'ť', 'ž', 'ý', 'í', 'ř', 'é', 'á', 'ě', 'ú', 'š'],
    ['£', '$', '@', '←', '½', '→', '↑', '#', '\u{2015}', '¼', '\u{2016}', '¾', '÷'],
];

// The index of a code among the places of a national set.
fn place_of(code: u8) -> Option<usize>
    ensures { result ≡ position (λ place. place == code) places }
{
    match code {
        0x23 => Some(0),
        0x24 => Some(1),
        0x40 => Some(2),
        0x5b..=0x60 => Some(usize::from(code - 0x5b) + 3),
        0x7b..=0x7e => Some(usize::from(code - 0x7b) + 9),
        _ => None,
    }
}

/// The character that a code, 20 to 7F, shows under a national option, 0 to 7.
///
/// The table of national sets is a choice of this project (profile).
#[tactic(auto, unfolding(crate::specs::Glyphs::glyph, crate::specs::Glyphs::national_set))]
pub fn glyph(option: u8, code: u8) -> char
    requires option { option < 8 }
    requires printed { 0x20 ≤ code }
    requires code { code < 0x80 }
    ensures { result ≡ glyph option code }
{
    match place_of(code) {
        Some(place) => SETS[usize::from(option)][place],
        None if code == 0x7f => '\u{25a0}',
        None => char::from(code),
    }
}
