//! The texts of digests, written out.
ghost use Rattle.std.specs.Prelude.{◌≡◌, ◌++◌, codes, length};
ghost use Rattle.hex.specs.Hex.{encode_lower};

use crate::digits::write_digits;
use std::marker::Model;
use std::str;

/// The text of a digest, written out. It takes no memory.
#[derive(Drop)]
pub struct DigestText {
    written: Written,
}

#[derive(Drop)]
pub(crate) enum Written {
    Short([u8; 71]),
    Long([u8; 135]),
}

impl Model for DigestText {
    ghost use Rattle.std.specs.Prelude.{List, ℕ, IsAscii};
    ghost use Rattle.meta_types.specs.Digests.{written_text};

    ghost Value = { List ℕ };

    ghost view = { λ t. written_text t.written };

    ghost invariant = { λ t. IsAscii (written_text t.written) };
}

impl DigestText {
    // That of a SHA-256 digest.
    pub(crate) fn short(bytes: &[u8]) -> DigestText
        requires { length bytes.now ≡ 32 }
        ensures { result ≡ codes "sha256:" ++ encode_lower bytes.now }
    {
        let mut text = *b"sha256:0000000000000000000000000000000000000000000000000000000000000000";
        write_digits(bytes, &mut text, 7);
        let written = Written::Short(text);
        DigestText { written }
    }

    // That of a SHA-512 digest.
    pub(crate) fn long(bytes: &[u8]) -> DigestText
        requires { length bytes.now ≡ 64 }
        ensures { result ≡ codes "sha512:" ++ encode_lower bytes.now }
    {
        let mut text =
            *b"sha512:00000000000000000000000000000000000000000000000000000000000000000000000000000000000000000000000000000000000000000000000000000000";
        write_digits(bytes, &mut text, 7);
        let written = Written::Long(text);
        DigestText { written }
    }

    /// The text.
    pub fn as_str(&self) -> &str
        ensures { result.now ≡ self.now }
    {
        match &self.written {
            Written::Short(text) => unsafe { str::from_utf8_unchecked(text) },
            Written::Long(text) => unsafe { str::from_utf8_unchecked(text) },
        }
    }
}
