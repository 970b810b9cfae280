//! Digests: an algorithm and a hash, which name a blob by its bytes.
ghost use Rattle.std.specs.Prelude.{◌≡◌, ◌++◌, ◌∷◌, [], IfOk, Some, None, bytes_eq, length, refl};
ghost use Rattle.std.specs.Ordering.{nat_cmp};
ghost use Rattle.std.specs.Cmp.Lexicographic.{slice_cmp, nat_list_cmp_total, texts_po, texts_ties};
ghost use Rattle.std.specs.Cmp.{partial_equiv_from_equiv};
ghost use Rattle.std.specs.Cmp.Rules.{hashing};
ghost use Rattle.std.proofs.Common.{rules};
ghost use Rattle.std.proofs.lemmas.Cmp.{nat_list_eq_equiv};
ghost use Rattle.meta_types.specs.Text.{IsDigest, is_digest};
ghost use Rattle.meta_types.specs.Digests.{bytes_in};
ghost use Rattle.meta_types.specs.Faults.{Refuses, unless};
ghost use Rattle.meta_types.specs.declared.fault.Fault.TheVariants.{InvalidArgument};

use crate::digest_text::DigestText;
use crate::digits::{are_equal, long_of, order, short_of};
use crate::fault::Fault;
use crate::kept::Kept;
use crate::text::is_hash;
use std::alloc::{AllocError, Global};
use std::cmp::Ordering;
use std::hash::{Hash, Hasher};
use std::marker::Model;
use std::sync::Arc;

/// The digest of a blob (OCI image specification, descriptor.md). It is kept as the bytes that its
/// digits stand for.
#[derive(Drop)]
pub struct Digest {
    kept: Kept,
}

impl Model for Digest {
    ghost use Rattle.std.specs.Prelude.{List, ℕ};
    ghost use Rattle.meta_types.specs.Digests.{text_of, IsKept};

    ghost Value = { List ℕ };

    ghost view = { λ d. text_of d.kept };

    ghost invariant = { λ d. IsKept d.kept };
}

impl PartialEq for Digest {
    ghost eq = { λ a b. bytes_eq a b };

    ghost laws = { partial_equiv_from_equiv nat_list_eq_equiv };

    fn eq(&self, other: &Digest) -> bool {
        match (&self.kept, &other.kept) {
            (Kept::Short(a), Kept::Short(b)) => are_equal(a.as_slice(), b.as_slice()),
            (Kept::Long(a), Kept::Long(b)) => are_equal(a.as_slice(), b.as_slice()),
            _ => false,
        }
    }
}

impl Eq for Digest {
    ghost laws = { nat_list_eq_equiv };
}

/// Ordered by the bytes of the text.
impl PartialOrd for Digest {
    ghost partial_cmp = { λ a b. Some (slice_cmp nat_cmp a b) };

    ghost laws = { texts_po };

    fn partial_cmp(&self, other: &Digest) -> Option<Ordering> {
        Some(self.cmp(other))
    }
}

impl Ord for Digest {
    ghost cmp = { λ a b. slice_cmp nat_cmp a b };

    ghost total = { nat_list_cmp_total };

    ghost matches_partial_cmp = { λ _ _. refl };

    ghost matches_eq = { λ a b. texts_ties a b };

    fn cmp(&self, other: &Digest) -> Ordering {
        match (&self.kept, &other.kept) {
            (Kept::Short(a), Kept::Short(b)) => order(a.as_slice(), b.as_slice()),
            (Kept::Long(a), Kept::Long(b)) => order(a.as_slice(), b.as_slice()),
            (Kept::Short(_), Kept::Long(_)) => Ordering::Less,
            (Kept::Long(_), Kept::Short(_)) => Ordering::Greater,
        }
    }
}

impl Hash for Digest {
    ghost hash_input = { λ n. bytes_in n ∷ [] };

    ghost respects_eq = { Prim.search (hashing, rules) };

    fn hash<H: Hasher>(&self, state: &mut H) {
        state.write(self.bytes());
    }
}

impl Clone for Digest {
    ghost is_clone = { λ a b. b ≡ a };

    fn clone(&self) -> Result<Digest, AllocError> {
        let kept = match &self.kept {
            Kept::Short(bytes) => Kept::Short(*bytes),
            Kept::Long(bytes) => Kept::Long(Arc::try_clone(bytes)?),
        };
        Ok(Digest { kept })
    }
}

impl Digest {
    /// Reads a text. Only that of a SHA-512 digest takes memory, which all its copies share.
    pub fn read(alloc: Global, text: &str) -> Result<Digest, Fault>
        ensures fault { Refuses result (unless (is_digest text.now) InvalidArgument) }
        ensures ok { IfOk result (λ n. n ≡ text.now) }
    {
        let bytes = text.as_bytes();
        if is_hash(bytes, b"sha256:", 64) {
            let kept = Kept::Short(short_of(&bytes[7..]));
            return Ok(Digest { kept });
        }
        if is_hash(bytes, b"sha512:", 128) {
            let Ok(long) = Arc::new(alloc, long_of(&bytes[7..])) else {
                return Err(Fault::OutOfMemory);
            };
            let kept = Kept::Long(long);
            return Ok(Digest { kept });
        }
        Err(Fault::InvalidArgument)
    }

    /// A copy. It takes no memory.
    pub fn copy(&self) -> Result<Digest, AllocError>
        ensures ok { IfOk result (λ n. n ≡ self.now) }
    {
        self.clone()
    }

    /// The text as it was read.
    pub fn text(&self) -> DigestText
        ensures text { result ≡ self.now }
        ensures valid { IsDigest self.now }
    {
        match &self.kept {
            Kept::Short(bytes) => DigestText::short(bytes.as_slice()),
            Kept::Long(bytes) => DigestText::long(bytes.as_slice()),
        }
    }

    /// The length of the text.
    pub fn text_len(&self) -> usize
        ensures length { result ≡ length self.now }
        ensures valid { IsDigest self.now }
    {
        match &self.kept {
            Kept::Short(_) => 71,
            Kept::Long(_) => 135,
        }
    }

    /// The bytes that its digits stand for.
    pub fn bytes(&self) -> &[u8]
        ensures { result.now ≡ bytes_in self.now }
    {
        match &self.kept {
            Kept::Short(bytes) => bytes.as_slice(),
            Kept::Long(bytes) => bytes.as_slice(),
        }
    }
}
