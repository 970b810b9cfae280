//! Names of namespaces and snapshotters.
ghost use Rattle.std.specs.Prelude.{◌≡◌, IfOk, Some, None, bytes_eq, refl};
ghost use Rattle.std.specs.Arc.{arc_str_bytes};
ghost use Rattle.std.specs.Ordering.{nat_cmp};
ghost use Rattle.std.specs.Cmp.Lexicographic.{slice_cmp, nat_list_cmp_total, texts_po, texts_ties};
ghost use Rattle.std.specs.Cmp.{partial_equiv_from_equiv};
ghost use Rattle.std.specs.Cmp.Rules.{hashing};
ghost use Rattle.std.specs.Hash as fed;
ghost use Rattle.std.proofs.Common.{rules};
ghost use Rattle.std.proofs.lemmas.Cmp.{nat_list_eq_equiv};
ghost use Rattle.meta_types.specs.Text.{IsShortName, is_short_name};
ghost use Rattle.meta_types.specs.Faults.{Refuses, unless};
ghost use Rattle.meta_types.specs.declared.fault.Fault.TheVariants.{InvalidArgument};

use crate::fault::Fault;
use crate::text::is_short_name;
use std::alloc::{AllocError, Global};
use std::cmp::Ordering;
use std::hash::{Hash, Hasher};
use std::marker::Model;
use std::sync::ArcStr;

/// The name of a namespace or a snapshotter (containerd namespaces.md).
#[derive(Drop)]
pub struct ShortName {
    text: ArcStr,
}

impl Model for ShortName {
    ghost use Rattle.std.specs.Prelude.{List, ℕ};
    ghost use Rattle.std.specs.Arc.{arc_str_bytes};
    ghost use Rattle.meta_types.specs.Text.{IsShortName};

    ghost Value = { List ℕ };

    ghost view = { λ n. arc_str_bytes n.text };

    ghost invariant = { λ n. IsShortName (arc_str_bytes n.text) };
}

impl PartialEq for ShortName {
    ghost eq = { λ a b. bytes_eq a b };

    ghost laws = { partial_equiv_from_equiv nat_list_eq_equiv };

    fn eq(&self, other: &ShortName) -> bool {
        self.text.as_str() == other.text.as_str()
    }
}

impl Eq for ShortName {
    ghost laws = { nat_list_eq_equiv };
}

/// Ordered by the bytes of the text.
impl PartialOrd for ShortName {
    ghost partial_cmp = { λ a b. Some (slice_cmp nat_cmp a b) };

    ghost laws = { texts_po };

    fn partial_cmp(&self, other: &ShortName) -> Option<Ordering> {
        Some(self.cmp(other))
    }
}

impl Ord for ShortName {
    ghost cmp = { λ a b. slice_cmp nat_cmp a b };

    ghost total = { nat_list_cmp_total };

    ghost matches_partial_cmp = { λ _ _. refl };

    ghost matches_eq = { λ a b. texts_ties a b };

    fn cmp(&self, other: &ShortName) -> Ordering {
        self.text.as_str().cmp(other.text.as_str())
    }
}

impl Hash for ShortName {
    ghost hash_input = { λ n. fed.str n };

    ghost respects_eq = { Prim.search (hashing, rules) };

    fn hash<H: Hasher>(&self, state: &mut H) {
        self.text.as_str().hash(state);
    }
}

impl Clone for ShortName {
    ghost is_clone = { λ a b. b ≡ a };

    fn clone(&self) -> Result<ShortName, AllocError> {
        let text = self.text.clone()?;
        Ok(ShortName { text })
    }
}

impl ShortName {
    /// Reads a text. Its bytes are copied once; all copies of the name share them.
    pub fn read(alloc: Global, text: &str) -> Result<ShortName, Fault>
        ensures fault { Refuses result (unless (is_short_name text.now) InvalidArgument) }
        ensures ok { IfOk result (λ n. n ≡ text.now) }
    {
        if !is_short_name(text) {
            return Err(Fault::InvalidArgument);
        }
        ShortName::make(alloc, text)
    }

    /// The same of a text that is known to be allowed.
    pub(crate) fn make(alloc: Global, text: &str) -> Result<ShortName, Fault>
        requires { IsShortName text.now }
        ensures fault { Refuses result None }
        ensures ok { IfOk result (λ n. n ≡ text.now) }
    {
        let text = ArcStr::from_str(alloc, text)?;
        Ok(ShortName { text })
    }

    /// A copy, which shares its text: no bytes are copied.
    pub fn copy(&self) -> Result<ShortName, AllocError>
        ensures ok { IfOk result (λ n. n ≡ self.now) }
    {
        self.clone()
    }

    /// The text as it was read.
    pub fn text(&self) -> &str
        ensures text { result.now ≡ self.now }
        ensures valid { IsShortName self.now }
    {
        self.text.as_str()
    }

    /// The text, shared with this value.
    pub(crate) fn shared(&self) -> Result<ArcStr, AllocError>
        ensures ok { IfOk result (λ text. arc_str_bytes text ≡ self.now) }
    {
        self.text.clone()
    }
}
