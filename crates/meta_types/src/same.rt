//! Equality of requests and replies, text by text.
ghost use Rattle.std.specs.Prelude.{◌≡◌, ◌↔◌, IsTrue};

use crate::labels::Labels;
use crate::raw::{RawLabels, RawText};
use crate::reply::{Holdings, Listing, Reply, ReplyRow};
use crate::request::{Removal, Request};
use crate::resource::Resource;
use crate::rows::{ContainerRow, ContentRow, ImageRow, IngestRow, SnapKey, SnapRow};

impl<'a> RawText<'a> {
    /// Whether both are of one text.
    pub fn is(&self, words: &RawText<'a>) -> bool
        ensures { IsTrue result ↔ (self.now ≡ words.now) }
    {
        self == words
    }
}

impl<'a> RawLabels<'a> {
    /// Whether both are of the same texts, in the same order.
    #[tactic(auto, using(crate::proofs::Decided::same_labels))]
    pub fn is(&self, pairs: &RawLabels<'a>) -> bool
        ensures { IsTrue result ↔ (self.now ≡ pairs.now) }
    {
        self == pairs
    }
}

impl<'a> Removal<'a> {
    /// Whether both are of the same texts.
    pub fn is(&self, removal: &Removal<'a>) -> bool
        ensures { IsTrue result ↔ (self.now ≡ removal.now) }
    {
        self == removal
    }
}

impl<'a> Request<'a> {
    /// Whether both ask for the same, in the same texts.
    pub fn is(&self, request: &Request<'a>) -> bool
        ensures { IsTrue result ↔ (self.now ≡ request.now) }
    {
        self == request
    }
}

impl Listing {
    /// Whether both are of the same names, in the same order.
    #[tactic(auto, using(crate::proofs::Decided::same_names))]
    pub fn is(&self, names: &Listing) -> bool
        ensures { IsTrue result ↔ (self.now ≡ names.now) }
    {
        self == names
    }
}

impl Labels {
    /// Whether both are of the same pairs.
    #[tactic(auto, using(crate::proofs::Decided::same_labels))]
    pub fn is(&self, labels: &Labels) -> bool
        ensures { IsTrue result ↔ (self.now ≡ labels.now) }
    {
        self == labels
    }
}

impl Resource {
    /// Whether both are of one type and name.
    pub fn is(&self, resource: &Resource) -> bool
        ensures { IsTrue result ↔ (self.now ≡ resource.now) }
    {
        self == resource
    }
}

impl ImageRow {
    /// Whether both are the same row.
    pub fn is(&self, image: &ImageRow) -> bool
        ensures { IsTrue result ↔ (self.now ≡ image.now) }
    {
        self == image
    }
}

impl ContainerRow {
    /// Whether both are the same row.
    pub fn is(&self, container: &ContainerRow) -> bool
        ensures { IsTrue result ↔ (self.now ≡ container.now) }
    {
        self == container
    }
}

impl ContentRow {
    /// Whether both are the same row.
    pub fn is(&self, content: &ContentRow) -> bool
        ensures { IsTrue result ↔ (self.now ≡ content.now) }
    {
        self == content
    }
}

impl IngestRow {
    /// Whether both are the same row.
    pub fn is(&self, ingest: &IngestRow) -> bool
        ensures { IsTrue result ↔ (self.now ≡ ingest.now) }
    {
        self == ingest
    }
}

impl SnapKey {
    /// Whether both are of the same texts.
    pub fn is(&self, key: &SnapKey) -> bool
        ensures { IsTrue result ↔ (self.now ≡ key.now) }
    {
        self == key
    }
}

impl SnapRow {
    /// Whether both are the same row.
    pub fn is(&self, snapshot: &SnapRow) -> bool
        ensures { IsTrue result ↔ (self.now ≡ snapshot.now) }
    {
        self == snapshot
    }
}

impl ReplyRow {
    /// Whether both are the same row.
    pub fn is(&self, row: &ReplyRow) -> bool
        ensures { IsTrue result ↔ (self.now ≡ row.now) }
    {
        self == row
    }
}

impl Holdings {
    /// Whether both are of the same resources, in the same order.
    pub fn is(&self, holdings: &Holdings) -> bool
        ensures { IsTrue result ↔ (self.now ≡ holdings.now) }
    {
        self.resources() == holdings.resources()
    }
}

impl Reply {
    /// Whether both answer the same.
    pub fn is(&self, reply: &Reply) -> bool
        ensures { IsTrue result ↔ (self.now ≡ reply.now) }
    {
        match (self, reply) {
            (Reply::Done, Reply::Done) => true,
            (Reply::Names(one), Reply::Names(two)) => one.is(two),
            (Reply::Row(one), Reply::Row(two)) => one.is(two),
            (Reply::Resources(one), Reply::Resources(two)) => one.is(two),
            _ => false,
        }
    }
}
