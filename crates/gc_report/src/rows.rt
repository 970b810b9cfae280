//! How many rows remain, and which were removed.
ghost use Rattle.std.specs.Prelude.{◌≡◌};
ghost use Rattle.gc_report.specs.Reports.{kept_data};
ghost use Rattle.gc_report.specs.Empty.{no_rows, none_kept};

use crate::writing::{WriteJson, write_member};
use json::Writer;
use meta_types::{Digest, Name, ShortName};
use std::alloc::{AllocError, Global};
use std::marker::Model;

/// How many rows of each kind remain.
#[derive(Clone, Copy)]
pub struct Kept {
    pub containers: u64,
    pub content: u64,
    pub images: u64,
    pub ingests: u64,
    pub leases: u64,
    pub namespaces: u64,
    pub snapshots: u64,
}

impl Model for Kept {
    ghost use Rattle.meta_types.specs.Reports.{Kept as KeptRows};

    ghost Value = { KeptRows };

    ghost view = { λ k. record {
      containers = k.containers;
      content = k.content;
      images = k.images;
      ingests = k.ingests;
      leases = k.leases;
      namespaces = k.namespaces;
      snapshots = k.snapshots;
    } };

    ghost inverse = { λ k. record {
      containers = k.containers;
      content = k.content;
      images = k.images;
      ingests = k.ingests;
      leases = k.leases;
      namespaces = k.namespaces;
      snapshots = k.snapshots;
    } };
}

impl Kept {
    /// No row.
    pub fn none() -> Kept
        ensures { result ≡ none_kept }
    {
        Kept {
            containers: 0,
            content: 0,
            images: 0,
            ingests: 0,
            leases: 0,
            namespaces: 0,
            snapshots: 0,
        }
    }
}

impl WriteJson for Kept {
    ghost as_data = { kept_data };

    fn write(&self, out: &mut Writer) -> Result<(), AllocError> {
        out.begin_object()?;
        write_member(out, "containers", &self.containers)?;
        write_member(out, "content", &self.content)?;
        write_member(out, "images", &self.images)?;
        write_member(out, "ingests", &self.ingests)?;
        write_member(out, "leases", &self.leases)?;
        write_member(out, "namespaces", &self.namespaces)?;
        write_member(out, "snapshots", &self.snapshots)?;
        out.end_object()
    }
}

/// The removed rows, each list by the bytes of its texts. Images are removed in profile 2 alone.
#[derive(Clone, Drop)]
pub struct Removed {
    pub content: Vec<(ShortName, Digest)>,
    pub images: Vec<(ShortName, Name)>,
    pub ingests: Vec<(ShortName, Name)>,
    pub leases: Vec<(ShortName, Name)>,
    pub snapshots: Vec<(ShortName, ShortName, Name)>,
}

impl Model for Removed {
    ghost use Rattle.meta_types.specs.Reports.{Removed as RemovedRows};

    ghost Value = { RemovedRows };

    ghost view = { λ r. record {
      content = r.content.items;
      images = r.images.items;
      ingests = r.ingests.items;
      leases = r.leases.items;
      snapshots = r.snapshots.items;
    } };
}

impl Removed {
    /// No row.
    pub fn new(alloc: Global) -> Removed
        ensures { result ≡ no_rows }
    {
        Removed {
            content: Vec::new(alloc),
            images: Vec::new(alloc),
            ingests: Vec::new(alloc),
            leases: Vec::new(alloc),
            snapshots: Vec::new(alloc),
        }
    }
}
