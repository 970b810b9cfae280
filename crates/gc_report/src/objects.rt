//! Names of backend objects.
ghost use Rattle.std.specs.Prelude.{◌≡◌};
ghost use Rattle.meta_types.specs.Backends.{no_objects};
ghost use Rattle.gc_report.specs.Reports.{objects_data};

use crate::writing::{WriteJson, write_member};
use json::Writer;
use meta_types::{Digest, ShortName};
use std::alloc::{AllocError, Global};
use std::marker::Model;

/// Backend objects by their names, in the order of a report.
#[derive(Clone, Drop)]
pub struct Objects {
    pub blobs: Vec<Digest>,
    pub ingests: Vec<u64>,
    pub snapshots: Vec<(ShortName, u64)>,
}

impl Model for Objects {
    ghost use Rattle.meta_types.specs.Backends.{BackNames};

    ghost Value = { BackNames };

    ghost view = { λ o. record {
      blobs = o.blobs.items;
      ingests = o.ingests.items;
      snapshots = o.snapshots.items;
    } };
}

impl Objects {
    /// No object.
    pub fn new(alloc: Global) -> Objects
        ensures { result ≡ no_objects }
    {
        Objects {
            blobs: Vec::new(alloc),
            ingests: Vec::new(alloc),
            snapshots: Vec::new(alloc),
        }
    }
}

impl WriteJson for Objects {
    ghost as_data = { objects_data };

    fn write(&self, out: &mut Writer) -> Result<(), AllocError> {
        out.begin_object()?;
        write_member(out, "blobs", &self.blobs)?;
        write_member(out, "ingests", &self.ingests)?;
        write_member(out, "snapshots", &self.snapshots)?;
        out.end_object()
    }
}
