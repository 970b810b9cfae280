//! What rows are found by.
ghost use Rattle.std.specs.Prelude.{◌≡◌, ◌∷◌, [], None, IfOk};
ghost use Rattle.std.specs.Cmp.Lexicographic.{slice_cmp};
ghost use Rattle.meta_types.specs.Text.{text_cmp};
ghost use Rattle.meta_types.specs.Keys.{Key, is_key};
ghost use Rattle.meta_types.specs.Faults.{Refuses};
ghost use Rattle.row_tables.specs.Arrived.{one_text, same_text};

use meta_types::{Digest, Fault, Name, ShortName};
use std::cmp::Ordering;
use std::hash::Hash;

/// The name of a row in its table: a text of its own, or several.
pub trait Named: Eq + Hash + Drop {
    /// The texts of the name.
    ghost texts_of: { Self → Key };

    /// Where the name stands to another, by the bytes of their texts.
    fn order(&self, other: &Self) -> Ordering
        ensures { result ≡ slice_cmp text_cmp (texts_of self.now) (texts_of other.now) };

    /// A copy, which shares its text.
    fn copy_name(&self) -> Result<Self, Fault>
        ensures fault { Refuses result None }
        ensures ok { IfOk result (λ name. name ≡ self.now) };

    /// Two names are one where their texts are.
    ghost same: { (a b : Self) → Self.eq a b ≡ is_key (texts_of a) (texts_of b) };
}

impl Named for ShortName {
    ghost texts_of = { one_text };

    fn order(&self, other: &ShortName) -> Ordering {
        match self.text().cmp(other.text()) {
            Ordering::Less => Ordering::Less,
            Ordering::Equal => Ordering::Equal,
            Ordering::Greater => Ordering::Greater,
        }
    }

    fn copy_name(&self) -> Result<ShortName, Fault> {
        Ok(self.copy()?)
    }

    ghost same = { same_text };
}

impl Named for Name {
    ghost texts_of = { one_text };

    fn order(&self, other: &Name) -> Ordering {
        match self.text().cmp(other.text()) {
            Ordering::Less => Ordering::Less,
            Ordering::Equal => Ordering::Equal,
            Ordering::Greater => Ordering::Greater,
        }
    }

    fn copy_name(&self) -> Result<Name, Fault> {
        Ok(self.copy()?)
    }

    ghost same = { same_text };
}

impl Named for Digest {
    ghost texts_of = { one_text };

    fn order(&self, other: &Digest) -> Ordering {
        match self.cmp(other) {
            Ordering::Less => Ordering::Less,
            Ordering::Equal => Ordering::Equal,
            Ordering::Greater => Ordering::Greater,
        }
    }

    fn copy_name(&self) -> Result<Digest, Fault> {
        Ok(self.copy()?)
    }

    ghost same = { same_text };
}
