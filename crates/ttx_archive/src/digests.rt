//! The text of a digest.

ghost use Rattle.std.specs.Prelude.{◌≡◌, MatchOption, map};
ghost use Rattle.ttx_archive.specs.Archives.{text_of, IsFiled, IsLost};

use crate::filed::FiledText;

/// The text with this digest in hexadecimal, if the archive has one.
pub fn find_text<'a>(archive: &'a [FiledText], digest: &str) -> Option<&'a FiledText>
    ensures { MatchOption result (IsLost (map text_of archive.now) digest.now)
        (λ filed. IsFiled (map text_of archive.now) digest.now (text_of filed.now)) }
{
    for filed in archive {
        if filed.digest.as_str() == digest {
            return Some(filed);
        }
    }
    None
}
