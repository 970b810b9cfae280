//! The report of a collection.
ghost use Rattle.std.specs.Prelude.{◌≡◌};
ghost use Rattle.gc_report.specs.Empty.{empty_report};

use crate::objects::Objects;
use crate::rows::{Kept, Removed};
use meta_types::{Name, ShortName};
use std::alloc::Global;
use std::marker::Model;

/// What a collection did, or what a dry run would do. In profile 2 images may expire, and it names
/// them.
#[derive(Clone, Drop)]
pub struct Report {
    pub backend: Objects,
    pub dry: bool,
    pub failed: Objects,
    pub ignored: Vec<(ShortName, Name)>,
    pub ignored_images: Vec<(ShortName, Name)>,
    pub kept: Kept,
    pub profile: u64,
    pub removed: Removed,
    pub scanned: u64,
}

impl Model for Report {
    ghost use Rattle.meta_types.specs.Reports.{Report as CollectionReport};

    ghost Value = { CollectionReport };

    ghost view = { λ r. record {
      backend = r.backend;
      dry = r.dry;
      failed = r.failed;
      ignored = r.ignored.items;
      ignored_images = r.ignored_images.items;
      kept = r.kept;
      profile = r.profile;
      removed = r.removed;
      scanned = r.scanned;
    } };
}

impl Report {
    /// The report of a store that holds nothing.
    pub fn new(alloc: Global, dry: bool, profile: u64) -> Report
        ensures { result ≡ empty_report dry profile }
    {
        Report {
            backend: Objects::new(alloc),
            dry,
            failed: Objects::new(alloc),
            ignored: Vec::new(alloc),
            ignored_images: Vec::new(alloc),
            kept: Kept::none(),
            profile,
            removed: Removed::new(alloc),
            scanned: 0,
        }
    }
}
