//! Replies to requests: done, names, a row, or the resources of a lease.
ghost use Rattle.std.specs.Prelude.{◌≡◌, ◌++◌, ◌∷◌, [], map, None, OnOk, OnErr, IfOk, bytes_eq};
ghost use Rattle.std.specs.Cmp.{partial_equiv_from_equiv};
ghost use Rattle.std.specs.Cmp.Lexicographic.{pointwise};
ghost use Rattle.std.proofs.lemmas.Cmp.{nat_list_eq_equiv, lists_equiv};
ghost use Rattle.meta_types.specs.Listings.{listed_text};
ghost use Rattle.meta_types.specs.Faults.{Refuses};

use crate::data::Data;
use crate::digest::Digest;
use crate::fault::Fault;
use crate::labels::Labels;
use crate::listed::Listed;
use crate::name::Name;
use crate::resource::Resource;
use crate::rows::{ContainerRow, ContentRow, ImageRow, IngestRow, SnapRow};
use crate::short_name::ShortName;
use std::alloc::{AllocError, Global};
use std::marker::Model;

/// The names of a listing, in its order. They share the texts of what was listed.
#[derive(Drop)]
pub struct Listing {
    names: Vec<Listed>,
}

impl Model for Listing {
    ghost use Rattle.std.specs.Prelude.{List, ℕ, map};
    ghost use Rattle.meta_types.specs.Listings.{listed_text};

    ghost Value = { List (List ℕ) };

    ghost view = { λ l. map listed_text l.names.items };
}

impl PartialEq for Listing {
    ghost eq = { λ a b. pointwise (λ x y. bytes_eq x y) a b };

    ghost laws = { partial_equiv_from_equiv (lists_equiv nat_list_eq_equiv) };

    fn eq(&self, other: &Listing) -> bool {
        self.names == other.names
    }
}

impl Clone for Listing {
    ghost is_clone = { λ a b. b ≡ a };

    fn clone(&self) -> Result<Listing, AllocError> {
        let names = self.names.clone()?;
        Ok(Listing { names })
    }
}

impl Listing {
    /// No name.
    pub fn new(alloc: Global) -> Listing
        ensures { result ≡ [] }
    {
        Listing {
            names: Vec::new(alloc),
        }
    }

    /// The names.
    pub fn names(&self) -> &[Listed]
        ensures { map listed_text result.now ≡ self.now }
    {
        &self.names
    }

    /// A copy, which shares its texts.
    pub fn copy(&self, _alloc: Global) -> Result<Listing, Fault>
        ensures fault { Refuses result None }
        ensures ok { IfOk result (λ names. names ≡ self.now) }
    {
        Ok(Listing::clone(self)?)
    }

    fn push(&mut self, name: Listed) -> Result<(), Fault>
        ensures fault { Refuses result None }
        ensures ok { OnOk result (self.new ≡ self.old ++ listed_text name ∷ []) }
        ensures err { OnErr result (self.new ≡ self.old) }
    {
        self.names.push(name)?;
        Ok(())
    }

    /// Adds a name at the end.
    pub fn push_name(&mut self, name: &Name) -> Result<(), Fault>
        ensures fault { Refuses result None }
        ensures ok { OnOk result (self.new ≡ self.old ++ name.now ∷ []) }
        ensures err { OnErr result (self.new ≡ self.old) }
    {
        let text = name.shared()?;
        self.push(Listed::Text(text))
    }

    /// Adds a digest at the end.
    pub fn push_digest(&mut self, digest: &Digest) -> Result<(), Fault>
        ensures fault { Refuses result None }
        ensures ok { OnOk result (self.new ≡ self.old ++ digest.now ∷ []) }
        ensures err { OnErr result (self.new ≡ self.old) }
    {
        let digest = digest.copy()?;
        self.push(Listed::Digest(digest))
    }

    /// Adds the name of a namespace or a snapshotter at the end.
    pub fn push_short_name(&mut self, name: &ShortName) -> Result<(), Fault>
        ensures fault { Refuses result None }
        ensures ok { OnOk result (self.new ≡ self.old ++ name.now ∷ []) }
        ensures err { OnErr result (self.new ≡ self.old) }
    {
        let text = name.shared()?;
        self.push(Listed::Text(text))
    }
}

/// The resources of one lease, in the order of their types and ids.
#[derive(Clone, Drop)]
pub struct Holdings {
    resources: Vec<Resource>,
}

impl Model for Holdings {
    ghost use Rattle.std.specs.Prelude.{List};
    ghost use Rattle.meta_types.specs.declared.resource.Resource.{Resource};

    ghost Value = { List Resource };

    ghost view = { λ h. h.resources.items };
}

impl Holdings {
    /// These resources.
    pub fn new(resources: Vec<Resource>) -> Holdings
        ensures { result ≡ resources.items }
    {
        Holdings { resources }
    }

    /// A copy, which shares its texts.
    pub fn copy(&self, _alloc: Global) -> Result<Holdings, Fault>
        ensures fault { Refuses result None }
        ensures ok { IfOk result (λ holdings. holdings ≡ self.now) }
    {
        Ok(Holdings::clone(self)?)
    }

    /// The resources.
    pub fn resources(&self) -> &[Resource]
        ensures { result.now ≡ self.now }
    {
        &self.resources
    }
}

/// A row that was asked for; of a lease its id, its labels and its data.
#[derive(PartialEq, Clone, Drop)]
pub enum ReplyRow {
    Image(ImageRow),
    Container(ContainerRow),
    Content(ContentRow),
    Ingest(IngestRow),
    Snap(SnapRow),
    Lease(Name, Labels, Data),
}

/// What a request answers. One that changes the store answers `Done`.
#[derive(Clone, Drop)]
pub enum Reply {
    Done,
    Names(Listing),
    Row(ReplyRow),
    Resources(Holdings),
}
