//! Rows, names and objects that are compared.
ghost use Rattle.std.specs.Prelude.{◌≡◌, ◌↔◌, IsTrue};

use meta_types::{ContainerRow, ContentRow, Digest, ImageRow, IngestRow, Resource, SnapRow};

/// What is compared with others of its kind.
pub(crate) trait Compared {
    /// Whether both are the same.
    fn is_same(&self, other: &Self) -> bool
        ensures { IsTrue result ↔ (self.now ≡ other.now) };
}

impl Compared for ImageRow {
    fn is_same(&self, other: &ImageRow) -> bool {
        self.is(other)
    }
}

impl Compared for ContainerRow {
    fn is_same(&self, other: &ContainerRow) -> bool {
        self.is(other)
    }
}

impl Compared for ContentRow {
    fn is_same(&self, other: &ContentRow) -> bool {
        self.is(other)
    }
}

impl Compared for IngestRow {
    fn is_same(&self, other: &IngestRow) -> bool {
        self.is(other)
    }
}

impl Compared for SnapRow {
    fn is_same(&self, other: &SnapRow) -> bool {
        self.is(other)
    }
}

impl Compared for Resource {
    fn is_same(&self, other: &Resource) -> bool {
        self.is(other)
    }
}

impl Compared for Digest {
    fn is_same(&self, other: &Digest) -> bool {
        self == other
    }
}
