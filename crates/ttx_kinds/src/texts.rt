//! How a text begins.

ghost use Rattle.std.specs.Prelude.{◌≡◌, false, option_map};
ghost use Rattle.ttx_kinds.specs.Texts.{is_white, is_bare, is_end, after_mark, after_blank, text_of, begins_with, has_key};

// White space, or a bracket before the name of a table.
fn is_white(byte: u8) -> bool
    ensures { result ≡ is_white byte }
{
    matches!(byte, b' ' | b'\t' | b'\n' | b'\r' | b'[')
}

// A letter of a bare key.
fn is_bare(byte: u8) -> bool
    ensures { result ≡ is_bare byte }
{
    matches!(byte, b'A'..=b'Z' | b'a'..=b'z' | b'0'..=b'9' | b'-' | b'_')
}

// Whether a word ends before this byte, or with the text.
fn is_end(byte: Option<&u8>) -> bool
    ensures { result ≡ is_end (option_map (λ b. b.now) byte.entry) }
{
    match byte {
        Some(byte) => !is_bare(*byte),
        None => true,
    }
}

// The bytes after a byte order mark, if there is one.
fn after_mark(bytes: &[u8]) -> &[u8]
    ensures { result.now ≡ after_mark bytes.now }
{
    if bytes.starts_with(b"\xEF\xBB\xBF") {
        &bytes[3..]
    } else {
        bytes
    }
}

// The bytes after white space, opening brackets and comments.
#[tactic(auto, unfolding(crate::specs::Texts::after_blank))]
fn after_blank(bytes: &[u8]) -> &[u8]
    ensures { result.now ≡ after_blank false bytes.now }
{
    let mut is_comment = false;
    for i in 0..bytes.len() {
        let byte = bytes[i];
        if is_comment {
            is_comment = byte != b'\n';
        } else if byte == b'#' {
            is_comment = true;
        } else if !is_white(byte) {
            return &bytes[i..];
        }
    }
    &bytes[bytes.len()..]
}

/// The bytes of a TOML text from its first key or table on.
pub fn text_of(bytes: &[u8]) -> &[u8]
    ensures { result.now ≡ text_of bytes.now }
{
    after_blank(after_mark(bytes))
}

/// Whether bytes begin with a word, whatever follows it.
pub fn begins_with(bytes: &[u8], word: &str) -> bool
    ensures { result ≡ begins_with bytes.now word.now }
{
    bytes.starts_with(word.as_bytes())
}

/// Whether bytes begin with a key, and with no longer one.
pub fn has_key(bytes: &[u8], key: &str) -> bool
    ensures { result ≡ has_key bytes.now key.now }
{
    begins_with(bytes, key) && is_end(bytes.get(key.len()))
}
