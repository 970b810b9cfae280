//! Texts of a request, as they arrived.
ghost use Rattle.std.specs.Prelude.{◌≡◌, ◌&&◌, string_bytes, bytes_eq};
ghost use Rattle.std.specs.Cmp.Lexicographic.{pointwise};
ghost use Rattle.std.specs.Cmp.{partial_equiv_from_equiv};
ghost use Rattle.std.proofs.lemmas.Cmp.{nat_list_eq_equiv, on_equiv, and_equiv, lists_equiv};

use std::alloc::Global;
use std::borrow::CowStr;
use std::marker::Model;

/// A text that was not yet read as a name, a digest or a time. A line lends it, or it is owned.
#[derive(Drop)]
pub struct RawText<'a> {
    text: CowStr<'a, Global>,
}

impl<'a> Model for RawText<'a> {
    ghost use Rattle.std.specs.Prelude.{List, ℕ};
    ghost use Rattle.std.specs.Cow.{cow_str_bytes};

    ghost Value = { List ℕ };

    ghost view = { λ w. cow_str_bytes w.text };
}

impl<'a> PartialEq for RawText<'a> {
    ghost eq = { λ a b. bytes_eq a b };

    ghost laws = { partial_equiv_from_equiv nat_list_eq_equiv };

    fn eq(&self, other: &RawText<'a>) -> bool {
        self.text() == other.text()
    }
}

impl<'a> RawText<'a> {
    /// A text of its own.
    pub fn new(text: String) -> RawText<'a>
        ensures { result ≡ string_bytes text }
    {
        RawText {
            text: CowStr::Owned(text),
        }
    }

    /// A text that a line lends.
    pub fn lent(text: &'a str) -> RawText<'a>
        ensures { result ≡ text.now }
    {
        RawText {
            text: CowStr::Borrowed(text),
        }
    }

    /// The text as it arrived.
    pub fn text(&self) -> &str
        ensures { result.now ≡ self.now }
    {
        self.text.as_str()
    }
}

/// One label that was not yet read.
#[derive(PartialEq, Drop)]
pub struct RawLabel<'a> {
    pub key: RawText<'a>,
    pub value: RawText<'a>,
}

/// Labels that were not yet read: keys and values, as they arrived.
#[derive(Drop)]
pub struct RawLabels<'a> {
    entries: Vec<(RawText<'a>, RawText<'a>)>,
}

impl<'a> Model for RawLabels<'a> {
    ghost use Rattle.std.specs.Prelude.{List, ℕ};

    ghost Value = { List (List ℕ × List ℕ) };

    ghost view = { λ l. l.entries.items };
}

impl<'a> PartialEq for RawLabels<'a> {
    ghost eq = { λ a b. pointwise (λ x y. bytes_eq x.0 y.0 && bytes_eq x.1 y.1) a b };

    ghost laws = { partial_equiv_from_equiv (lists_equiv (and_equiv (on_equiv (λ x. x.0) nat_list_eq_equiv) (on_equiv (λ x. x.1) nat_list_eq_equiv))) };

    fn eq(&self, other: &RawLabels<'a>) -> bool {
        self.entries == other.entries
    }
}

impl<'a> RawLabels<'a> {
    /// The pairs as they arrived.
    pub fn new(entries: Vec<(RawText<'a>, RawText<'a>)>) -> RawLabels<'a>
        ensures { result ≡ entries.entry.items }
    {
        RawLabels { entries }
    }

    /// The keys and values as they arrived.
    pub fn entries(&self) -> &[(RawText<'a>, RawText<'a>)]
        ensures { result.now ≡ self.now }
    {
        &self.entries
    }
}
