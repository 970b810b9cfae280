//! The tables as they arrived: rows are numbered by their places, and kept by marks of these.
ghost use Rattle.std.specs.Prelude.{◌≡◌, Bool, map, filter, length};
ghost use Rattle.meta_types.specs.Rows.{image_key, container_key, content_key, ingest_key, snap_key};
ghost use Rattle.meta_types.specs.Sound.{AreNumbered};
ghost use Rattle.meta_types.specs.declared.rows.ImageRow.{ImageRow};
ghost use Rattle.meta_types.specs.declared.rows.ContentRow.{ContentRow};
ghost use Rattle.meta_types.specs.declared.rows.IngestRow.{IngestRow};
ghost use Rattle.meta_types.specs.declared.rows.SnapRow.{SnapRow};
ghost use Rattle.row_tables.specs.Arrived.{sorted, kept};
ghost use Rattle.object_tables.specs.InKeyOrder.{in_key_order};

use crate::children::{ArrivedSnapshots, Snapshots};
use crate::names::Names;
use crate::tables::Tables;
use meta_types::{ContainerRow, ContentRow, Digest, ImageRow, IngestRow, Name, ShortName, SnapRow};
use row_tables::{ArrivedByNamespace, ArrivedBySnapshotter, ByNamespace};
use std::marker::Model;

/// Lends the rows of each kind as they arrived.
#[derive(Clone, Copy)]
pub struct ArrivedRows<'a> {
    pub images: &'a ArrivedByNamespace<Name, ImageRow>,
    pub containers: &'a ArrivedByNamespace<Name, ContainerRow>,
    pub content: &'a ArrivedByNamespace<Digest, ContentRow>,
    pub ingests: &'a ArrivedByNamespace<Name, IngestRow>,
    pub snapshots: &'a ArrivedBySnapshotter<Name, SnapRow>,
}

/// Rows of all kinds, as they arrived.
#[derive(Drop)]
pub struct ArrivedTables {
    namespaces: Names<ShortName>,
    images: ArrivedByNamespace<Name, ImageRow>,
    containers: ArrivedByNamespace<Name, ContainerRow>,
    content: ArrivedByNamespace<Digest, ContentRow>,
    ingests: ArrivedByNamespace<Name, IngestRow>,
    snapshots: ArrivedSnapshots,
}

impl Model for ArrivedTables {
    ghost use Rattle.meta_types.specs.Rows.{Tables};
    ghost use Rattle.meta_types.specs.Sound.{AreTables};
    ghost use Rattle.object_tables.specs.InKeyOrder.{in_key_order};

    ghost Value = { Tables };

    ghost view = { λ t. record {
      namespaces = t.namespaces;
      images = t.images;
      containers = t.containers;
      content = t.content;
      ingests = t.ingests;
      snapshots = t.snapshots;
    } };

    ghost invariant = { λ t. AreTables (in_key_order (record {
      namespaces = t.namespaces;
      images = t.images;
      containers = t.containers;
      content = t.content;
      ingests = t.ingests;
      snapshots = t.snapshots;
    })) };
}

impl ArrivedTables {
    /// How many namespaces there are.
    pub fn count_ns(&self) -> u64
        ensures { result ≡ length self.now.namespaces }
    {
        self.namespaces.len() as u64
    }

    /// The rows of each kind, lent.
    pub fn rows(&self) -> ArrivedRows<'_>
        ensures images { result.images.now ≡ self.now.images }
        ensures containers { result.containers.now ≡ self.now.containers }
        ensures content { result.content.now ≡ self.now.content }
        ensures ingests { result.ingests.now ≡ self.now.ingests }
        ensures snapshots { result.snapshots.now ≡ self.now.snapshots }
    {
        ArrivedRows {
            images: &self.images,
            containers: &self.containers,
            content: &self.content,
            ingests: &self.ingests,
            snapshots: self.snapshots.table(),
        }
    }

    /// Keeps the images whose mark is set.
    pub fn retain_images(&mut self, marks: &[bool])
        requires { length marks.now ≡ length self.old.images }
        ensures left { self.new ≡ record self.old { images = kept marks.now self.old.images } }
        ensures stays { (stays : ImageRow → Bool) → marks.now ≡ map stays self.old.images
            → sorted image_key self.new.images
            ≡ filter stays (sorted image_key self.old.images) }
    {
        // Its clause says that no key stands twice.
        let _ = self.images.len();
        self.images.retain(marks);
    }

    /// Keeps the content rows whose mark is set.
    pub fn retain_content(&mut self, marks: &[bool])
        requires { length marks.now ≡ length self.old.content }
        ensures left { self.new ≡ record self.old { content = kept marks.now self.old.content } }
        ensures stays { (stays : ContentRow → Bool) → marks.now ≡ map stays self.old.content
            → sorted content_key self.new.content
            ≡ filter stays (sorted content_key self.old.content) }
    {
        // Its clause says that no key stands twice.
        let _ = self.content.len();
        self.content.retain(marks);
    }

    /// Keeps the ingests whose mark is set.
    pub fn retain_ingests(&mut self, marks: &[bool])
        requires { length marks.now ≡ length self.old.ingests }
        ensures left { self.new ≡ record self.old { ingests = kept marks.now self.old.ingests } }
        ensures stays { (stays : IngestRow → Bool) → marks.now ≡ map stays self.old.ingests
            → sorted ingest_key self.new.ingests
            ≡ filter stays (sorted ingest_key self.old.ingests) }
    {
        // Its clause says that no key stands twice.
        let _ = self.ingests.len();
        self.ingests.retain(marks);
    }

    /// Keeps the snapshots whose mark is set, the parent of each with it.
    pub fn retain_snapshots(&mut self, marks: &[bool])
        requires length { length marks.now ≡ length self.old.snapshots }
        requires numbered { AreNumbered (sorted snap_key (kept marks.now self.old.snapshots))
            (sorted ingest_key self.old.ingests) }
        ensures left { self.new ≡ record self.old { snapshots = kept marks.now self.old.snapshots } }
        ensures stays { (stays : SnapRow → Bool) → marks.now ≡ map stays self.old.snapshots
            → sorted snap_key self.new.snapshots
            ≡ filter stays (sorted snap_key self.old.snapshots) }
    {
        // Its clause says that no key stands twice.
        let _ = self.snapshots.table().len();
        self.snapshots.retain(marks);
    }
}

impl Tables {
    /// Lends the rows of each kind as they arrived.
    pub fn arrived(&self) -> ArrivedRows<'_>
        ensures images { sorted image_key result.images.now ≡ self.now.images }
        ensures containers { sorted container_key result.containers.now ≡ self.now.containers }
        ensures content { sorted content_key result.content.now ≡ self.now.content }
        ensures ingests { sorted ingest_key result.ingests.now ≡ self.now.ingests }
        ensures snapshots { sorted snap_key result.snapshots.now ≡ self.now.snapshots }
    {
        ArrivedRows {
            images: self.images.arrived(),
            containers: self.containers.arrived(),
            content: self.content.arrived(),
            ingests: self.ingests.arrived(),
            snapshots: self.snapshots.table().arrived(),
        }
    }

    /// Hands over the tables as they arrived; no row is copied or sorted.
    pub fn into_arrived(self) -> ArrivedTables
        ensures { in_key_order result ≡ self }
    {
        ArrivedTables {
            namespaces: self.namespaces,
            images: self.images.into_arrived(),
            containers: self.containers.into_arrived(),
            content: self.content.into_arrived(),
            ingests: self.ingests.into_arrived(),
            snapshots: self.snapshots.into_arrived(),
        }
    }

    /// Takes over the tables as they arrived; no row is copied or sorted.
    pub fn from_arrived(arrived: ArrivedTables) -> Tables
        ensures { result ≡ in_key_order arrived }
    {
        Tables {
            namespaces: arrived.namespaces,
            images: ByNamespace::from_arrived(arrived.images),
            containers: ByNamespace::from_arrived(arrived.containers),
            content: ByNamespace::from_arrived(arrived.content),
            ingests: ByNamespace::from_arrived(arrived.ingests),
            snapshots: Snapshots::from_arrived(arrived.snapshots),
        }
    }
}
