//! What would go without a row, and its JSON.
ghost use Rattle.std.specs.Prelude.{◌≡◌};
ghost use Rattle.meta_types.specs.Impacts.{impact_of, objects_less, rows_less};
ghost use Rattle.gc_report.specs.Impacts.{impact_rows_data, impact_data};

use crate::difference::difference;
use crate::objects::Objects;
use crate::report::Report;
use crate::rows::Removed;
use crate::writing::{WriteJson, write_member};
use json::Writer;
use meta_types::{Digest, Name, ShortName};
use std::alloc::AllocError;
use std::marker::Model;

/// The rows that would go, each list by the bytes of its texts.
#[derive(Drop)]
pub struct ImpactRows {
    pub content: Vec<(ShortName, Digest)>,
    pub ingests: Vec<(ShortName, Name)>,
    pub snapshots: Vec<(ShortName, ShortName, Name)>,
}

impl Model for ImpactRows {
    ghost use Rattle.meta_types.specs.Impacts.{ImpactRows as RowsThatGo};

    ghost Value = { RowsThatGo };

    ghost view = { λ r. record {
      content = r.content.items;
      ingests = r.ingests.items;
      snapshots = r.snapshots.items;
    } };
}

impl WriteJson for ImpactRows {
    ghost as_data = { impact_rows_data };

    fn write(&self, out: &mut Writer) -> Result<(), AllocError> {
        out.begin_object()?;
        write_member(out, "content", &self.content)?;
        write_member(out, "ingests", &self.ingests)?;
        write_member(out, "snapshots", &self.snapshots)?;
        out.end_object()
    }
}

/// What would go without a row: the objects and the rows that a dry run names then, and not now.
#[derive(Drop)]
pub struct Impact {
    pub backend: Objects,
    pub removed: ImpactRows,
}

impl Model for Impact {
    ghost use Rattle.meta_types.specs.Impacts.{Impact as WhatGoes};

    ghost Value = { WhatGoes };

    ghost view = { λ i. record {
      backend = i.backend;
      removed = i.removed;
    } };
}

impl WriteJson for Impact {
    ghost as_data = { impact_data };

    fn write(&self, out: &mut Writer) -> Result<(), AllocError> {
        out.begin_object()?;
        write_member(out, "backend", &self.backend)?;
        write_member(out, "removed", &self.removed)?;
        out.end_object()
    }
}

// The objects without the others.
fn objects_difference(objects: Objects, other: Objects) -> Objects
    ensures { result ≡ objects_less objects other }
{
    Objects {
        blobs: difference(objects.blobs, other.blobs),
        ingests: difference(objects.ingests, other.ingests),
        snapshots: difference(objects.snapshots, other.snapshots),
    }
}

// The rows without the others.
fn rows_difference(rows: Removed, other: Removed) -> ImpactRows
    ensures { result ≡ rows_less rows other }
{
    ImpactRows {
        content: difference(rows.content, other.content),
        ingests: difference(rows.ingests, other.ingests),
        snapshots: difference(rows.snapshots, other.snapshots),
    }
}

impl Impact {
    /// What the second report names, and the first doesn't.
    pub fn of(now: Report, then: Report) -> Impact
        ensures { result ≡ impact_of now then }
    {
        Impact {
            backend: objects_difference(then.backend, now.backend),
            removed: rows_difference(then.removed, now.removed),
        }
    }
}
