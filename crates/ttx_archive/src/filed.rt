//! A text and its digest.

ghost use Rattle.std.specs.Prelude.{◌≡◌, string_bytes, IfOk};
ghost use Rattle.hex.specs.Hex.{encode_lower};
ghost use Rattle.sha2.specs.Sha256.{sha256};

use sha2::{Digest, Sha256};
use std::alloc::{AllocError, Global};

/// A text, and its SHA-256 in hexadecimal.
#[derive(Drop)]
pub struct FiledText {
    pub text: Vec<u8>,
    pub digest: String,
    ghost is_digest: { string_bytes digest ≡ encode_lower (sha256 text.items) },
}

impl FiledText {
    /// A text with its digest. `Err` if memory runs out.
    pub fn new(alloc: Global, text: Vec<u8>) -> Result<FiledText, AllocError>
        ensures { IfOk result (λ filed. filed.text.items ≡ text.items) }
    {
        let hash = Sha256::digest(text.as_slice());
        let digest = hex::encode(alloc, hash.as_slice())?;
        Ok(FiledText { text, digest })
    }
}
