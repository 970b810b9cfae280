//! A name in a listing.
ghost use Rattle.std.specs.Prelude.{◌≡◌};
ghost use Rattle.std.specs.Cmp.{partial_equiv_from_equiv};
ghost use Rattle.meta_types.specs.Listings.{listed_equiv, listed_text, same_name};

use crate::digest::Digest;
use std::alloc::AllocError;
use std::sync::ArcStr;

/// A name in a listing. It shares what it is kept as.
#[derive(Drop)]
pub enum Listed {
    Text(ArcStr),
    Digest(Digest),
}

impl PartialEq for Listed {
    ghost eq = { same_name };

    ghost laws = { partial_equiv_from_equiv listed_equiv };

    fn eq(&self, other: &Listed) -> bool {
        match (self, other) {
            (Listed::Text(a), Listed::Text(b)) => a == b,
            (Listed::Text(a), Listed::Digest(b)) => a.as_str() == b.text().as_str(),
            (Listed::Digest(a), Listed::Text(b)) => a.text().as_str() == b.as_str(),
            (Listed::Digest(a), Listed::Digest(b)) => a == b,
        }
    }
}

impl Clone for Listed {
    ghost is_clone = { λ a b. listed_text b ≡ listed_text a };

    fn clone(&self) -> Result<Listed, AllocError> {
        let copy = match self {
            Listed::Text(text) => Listed::Text(text.clone()?),
            Listed::Digest(digest) => Listed::Digest(digest.clone()?),
        };
        Ok(copy)
    }
}
