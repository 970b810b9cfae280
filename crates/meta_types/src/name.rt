//! Names of images, containers, ingests, snapshots and leases.
ghost use Rattle.std.specs.Prelude.{◌≡◌, IfOk, Some, None, bytes_eq, refl};
ghost use Rattle.std.specs.Arc.{arc_str_bytes};
ghost use Rattle.std.specs.Ordering.{nat_cmp};
ghost use Rattle.std.specs.Cmp.Lexicographic.{slice_cmp, nat_list_cmp_total, texts_po, texts_ties};
ghost use Rattle.std.specs.Cmp.{partial_equiv_from_equiv};
ghost use Rattle.std.specs.Cmp.Rules.{hashing};
ghost use Rattle.std.specs.Hash as fed;
ghost use Rattle.std.proofs.Common.{rules};
ghost use Rattle.std.proofs.lemmas.Cmp.{nat_list_eq_equiv};
ghost use Rattle.meta_types.specs.Text.{IsName, is_name};
ghost use Rattle.meta_types.specs.Faults.{Refuses, unless};
ghost use Rattle.meta_types.specs.declared.fault.Fault.TheVariants.{InvalidArgument};

use crate::fault::Fault;
use crate::text::is_name;
use std::alloc::{AllocError, Global};
use std::cmp::Ordering;
use std::hash::{Hash, Hasher};
use std::marker::Model;
use std::sync::ArcStr;

/// The name of an image, a container, an ingest, a snapshot or a lease.
#[derive(Drop)]
pub struct Name {
    text: ArcStr,
}

impl Model for Name {
    ghost use Rattle.std.specs.Prelude.{List, ℕ};
    ghost use Rattle.std.specs.Arc.{arc_str_bytes};
    ghost use Rattle.meta_types.specs.Text.{IsName};

    ghost Value = { List ℕ };

    ghost view = { λ n. arc_str_bytes n.text };

    ghost invariant = { λ n. IsName (arc_str_bytes n.text) };
}

impl PartialEq for Name {
    ghost eq = { λ a b. bytes_eq a b };

    ghost laws = { partial_equiv_from_equiv nat_list_eq_equiv };

    fn eq(&self, other: &Name) -> bool {
        self.text.as_str() == other.text.as_str()
    }
}

impl Eq for Name {
    ghost laws = { nat_list_eq_equiv };
}

/// Ordered by the bytes of the text.
impl PartialOrd for Name {
    ghost partial_cmp = { λ a b. Some (slice_cmp nat_cmp a b) };

    ghost laws = { texts_po };

    fn partial_cmp(&self, other: &Name) -> Option<Ordering> {
        Some(self.cmp(other))
    }
}

impl Ord for Name {
    ghost cmp = { λ a b. slice_cmp nat_cmp a b };

    ghost total = { nat_list_cmp_total };

    ghost matches_partial_cmp = { λ _ _. refl };

    ghost matches_eq = { λ a b. texts_ties a b };

    fn cmp(&self, other: &Name) -> Ordering {
        self.text.as_str().cmp(other.text.as_str())
    }
}

impl Hash for Name {
    ghost hash_input = { λ n. fed.str n };

    ghost respects_eq = { Prim.search (hashing, rules) };

    fn hash<H: Hasher>(&self, state: &mut H) {
        self.text.as_str().hash(state);
    }
}

impl Clone for Name {
    ghost is_clone = { λ a b. b ≡ a };

    fn clone(&self) -> Result<Name, AllocError> {
        let text = self.text.clone()?;
        Ok(Name { text })
    }
}

impl Name {
    /// Reads a text. Its bytes are copied once; all copies of the name share them.
    pub fn read(alloc: Global, text: &str) -> Result<Name, Fault>
        ensures fault { Refuses result (unless (is_name text.now) InvalidArgument) }
        ensures ok { IfOk result (λ n. n ≡ text.now) }
    {
        if !is_name(text) {
            return Err(Fault::InvalidArgument);
        }
        Name::make(alloc, text)
    }

    /// The same of a text that is known to be allowed.
    pub(crate) fn make(alloc: Global, text: &str) -> Result<Name, Fault>
        requires { IsName text.now }
        ensures fault { Refuses result None }
        ensures ok { IfOk result (λ n. n ≡ text.now) }
    {
        let text = ArcStr::from_str(alloc, text)?;
        Ok(Name { text })
    }

    /// A copy, which shares its text: no bytes are copied.
    pub fn copy(&self) -> Result<Name, AllocError>
        ensures ok { IfOk result (λ n. n ≡ self.now) }
    {
        self.clone()
    }

    /// The text as it was read.
    pub fn text(&self) -> &str
        ensures text { result.now ≡ self.now }
        ensures valid { IsName self.now }
    {
        self.text.as_str()
    }

    /// The text, shared with this value.
    pub(crate) fn shared(&self) -> Result<ArcStr, AllocError>
        ensures ok { IfOk result (λ text. arc_str_bytes text ≡ self.now) }
    {
        self.text.clone()
    }
}
