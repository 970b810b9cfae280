//! Whether two reports, or two of their parts, say the same.
ghost use Rattle.std.specs.Prelude.{◌≡◌, ◌↔◌, IsTrue};

use crate::objects::Objects;
use crate::report::Report;
use crate::rows::{Kept, Removed};
use meta_types::{Digest, Name, ShortName};

#[tactic(auto, using(meta_types::proofs::Decided::same_names))]
fn are_same_digests(one: &[Digest], two: &[Digest]) -> bool
    ensures { IsTrue result ↔ (one.now ≡ two.now) }
{
    one == two
}

fn are_same_numbers(one: &[u64], two: &[u64]) -> bool
    ensures { IsTrue result ↔ (one.now ≡ two.now) }
{
    one == two
}

fn are_same_snapshots(one: &[(ShortName, u64)], two: &[(ShortName, u64)]) -> bool
    ensures { IsTrue result ↔ (one.now ≡ two.now) }
{
    one == two
}

fn are_same_names(one: &[(ShortName, Name)], two: &[(ShortName, Name)]) -> bool
    ensures { IsTrue result ↔ (one.now ≡ two.now) }
{
    one == two
}

fn are_same_contents(one: &[(ShortName, Digest)], two: &[(ShortName, Digest)]) -> bool
    ensures { IsTrue result ↔ (one.now ≡ two.now) }
{
    one == two
}

fn are_same_keys(one: &[(ShortName, ShortName, Name)], two: &[(ShortName, ShortName, Name)]) -> bool
    ensures { IsTrue result ↔ (one.now ≡ two.now) }
{
    one == two
}

impl Objects {
    /// Whether both are of the same names, in the same order.
    pub fn is(&self, other: &Objects) -> bool
        ensures { IsTrue result ↔ (self.now ≡ other.now) }
    {
        are_same_digests(&self.blobs, &other.blobs)
            && are_same_numbers(&self.ingests, &other.ingests)
            && are_same_snapshots(&self.snapshots, &other.snapshots)
    }
}

impl Removed {
    /// Whether both are of the same rows, in the same order.
    pub fn is(&self, other: &Removed) -> bool
        ensures { IsTrue result ↔ (self.now ≡ other.now) }
    {
        are_same_contents(&self.content, &other.content)
            && are_same_names(&self.images, &other.images)
            && are_same_names(&self.ingests, &other.ingests)
            && are_same_names(&self.leases, &other.leases)
            && are_same_keys(&self.snapshots, &other.snapshots)
    }
}

impl Kept {
    /// Whether both say the same.
    pub fn is(&self, other: &Kept) -> bool
        ensures { IsTrue result ↔ (self.now ≡ other.now) }
    {
        self.containers == other.containers
            && self.content == other.content
            && self.images == other.images
            && self.ingests == other.ingests
            && self.leases == other.leases
            && self.namespaces == other.namespaces
            && self.snapshots == other.snapshots
    }
}

impl Report {
    /// Whether both say the same.
    pub fn is(&self, other: &Report) -> bool
        ensures { IsTrue result ↔ (self.now ≡ other.now) }
    {
        self.backend.is(&other.backend)
            && self.dry == other.dry
            && self.failed.is(&other.failed)
            && are_same_names(&self.ignored, &other.ignored)
            && are_same_names(&self.ignored_images, &other.ignored_images)
            && self.kept.is(&other.kept)
            && self.profile == other.profile
            && self.removed.is(&other.removed)
            && self.scanned == other.scanned
    }
}
