//! The rows of a store, listed as they arrived.
ghost use Rattle.std.specs.Prelude.{◌≡◌, ◌∷◌, [], map, filter, None, IfOk};
ghost use Rattle.meta_types.specs.Faults.{Refuses};
ghost use Rattle.meta_types.specs.Keys.{is_key};
ghost use Rattle.meta_types.specs.Rows.{image_key, container_key, lease_key};
ghost use Rattle.gc_graph.specs.Built.{AreApart};
ghost use Rattle.gc_graph.specs.Lent.{lent_in};
ghost use Rattle.gc_graph.specs.Others.{is_other};
ghost use Rattle.gc_graph.specs.Stored.{records_of, AreLent};

use crate::rows::{RowPlaces, StoreRows};
use lease_book::Lease;
use meta_types::{
    ContainerRow, ContentRow, Digest, Fault, ImageRow, IngestRow, Name, ShortName, SnapRow,
};
use object_tables::ArrivedRows;
use row_tables::{ArrivedByNamespace, PlacesByNamespace, PlacesBySnapshotter, Slices};
use std::alloc::Global;
use std::marker::Model;

/// A list of the images, of the containers and of the leases; the slices of the rows that have
/// numbers, and their places: contracts see the records. No row is copied.
#[derive(Drop)]
pub struct ListedRows<'a> {
    images: Vec<&'a ImageRow>,
    containers: Vec<&'a ContainerRow>,
    leases: Vec<&'a Lease>,
    ingests: Slices<'a, IngestRow>,
    content: Slices<'a, ContentRow>,
    snapshots: Slices<'a, SnapRow>,
    ingest_places: PlacesByNamespace<'a, Name, IngestRow>,
    content_places: PlacesByNamespace<'a, Digest, ContentRow>,
    snapshot_places: PlacesBySnapshotter<'a, Name, SnapRow>,
    profile: u8,
}

impl<'a> Model for ListedRows<'a> {
    ghost use Rattle.std.specs.Prelude.{[], map};
    ghost use Rattle.meta_types.specs.Rows.{Records};
    ghost use Rattle.gc_graph.specs.Lent.{HavePlaces};

    ghost Value = { Records };

    ghost view = { λ l. record {
      tables = record {
        namespaces = [];
        images = map (λ row. row.now) l.images.items;
        containers = map (λ row. row.now) l.containers.items;
        content = l.content;
        ingests = l.ingests;
        snapshots = l.snapshots;
      };
      leases = map (λ row. row.now) l.leases.items;
      next = 1;
      profile = l.profile;
    } };

    ghost invariant = { λ l. HavePlaces l.ingest_places l.ingests l.content_places l.content
        l.snapshot_places l.snapshots };
}

impl<'a> ListedRows<'a> {
    /// Lists rows as they arrived; none is sorted. The profile is 2 where images expire, else 1.
    pub fn new(
        alloc: Global,
        arrived: &ArrivedRows<'a>,
        leases: &'a ArrivedByNamespace<Name, Lease>,
        profile: u8,
    ) -> Result<ListedRows<'a>, Fault>
        ensures fault { Refuses result None }
        ensures ok { IfOk result (λ listed. listed ≡ lent_in arrived.now leases.now profile) }
    {
        let images = arrived.images.list_arrived(alloc)?;
        let containers = arrived.containers.list_arrived(alloc)?;
        let held = leases.list_arrived(alloc)?;
        let ingests = arrived.ingests.slices(alloc)?;
        let content = arrived.content.slices(alloc)?;
        let snapshots = arrived.snapshots.slices(alloc)?;
        let ingest_places = arrived.ingests.places(alloc)?;
        let content_places = arrived.content.places(alloc)?;
        let snapshot_places = arrived.snapshots.places(alloc)?;
        Ok(ListedRows {
            images,
            containers,
            leases: held,
            ingests,
            content,
            snapshots,
            ingest_places,
            content_places,
            snapshot_places,
            profile,
        })
    }

    /// For each image that is listed, at its place, whether it is another than that of a namespace
    /// and a name.
    pub fn other_images(
        &self,
        alloc: Global,
        ns: &ShortName,
        name: &Name,
    ) -> Result<Vec<bool>, Fault>
        ensures fault { Refuses result None }
        ensures ok { IfOk result (λ others. others.items
            ≡ map (is_other image_key (ns.now ∷ name.now ∷ [])) self.now.tables.images) }
    {
        // For the prover: the result is opened, not passed on.
        let others = others_of_images(alloc, &self.images, ns, name)?;
        Ok(others)
    }

    /// For each lease that is listed, at its place, whether it is another than that of a namespace
    /// and an id.
    pub fn other_leases(&self, alloc: Global, ns: &ShortName, id: &Name) -> Result<Vec<bool>, Fault>
        ensures fault { Refuses result None }
        ensures ok { IfOk result (λ others. others.items
            ≡ map (is_other lease_key (ns.now ∷ id.now ∷ [])) self.now.leases) }
    {
        // For the prover: the result is opened, not passed on.
        let others = others_of_leases(alloc, &self.leases, ns, id)?;
        Ok(others)
    }

    /// Leaves out the image of a namespace and a name. It takes no memory.
    pub fn leave_image(&mut self, ns: &ShortName, name: &Name)
        ensures { self.new ≡ record self.old {
          tables = record self.old.tables {
            images = filter (is_other image_key (ns.now ∷ name.now ∷ [])) self.old.tables.images;
          };
        } }
    {
        self.images
            .retain(|row: &&ImageRow| -> bool { !is_image(row, ns, name) });
    }

    /// Leaves out the container of a namespace and a name. It takes no memory.
    pub fn leave_container(&mut self, ns: &ShortName, name: &Name)
        ensures { self.new ≡ record self.old {
          tables = record self.old.tables {
            containers = filter (is_other container_key (ns.now ∷ name.now ∷ []))
                self.old.tables.containers;
          };
        } }
    {
        self.containers.retain(|row: &&ContainerRow| -> bool { !is_container(row, ns, name) });
    }

    /// Leaves out the lease of a namespace and an id. It takes no memory.
    pub fn leave_lease(&mut self, ns: &ShortName, id: &Name)
        ensures { self.new ≡ record self.old {
          leases = filter (is_other lease_key (ns.now ∷ id.now ∷ [])) self.old.leases;
        } }
    {
        self.leases
            .retain(|row: &&Lease| -> bool { !is_lease(row, ns, id) });
    }

    /// Lends the lists and the places. No key stands twice in them.
    pub fn rows(&self) -> StoreRows<'_>
        ensures records { records_of result ≡ self.now }
        ensures apart { AreApart (records_of result) }
        ensures lent { AreLent result }
    {
        // The clauses of `len` say that no key stands twice.
        let _ = self.ingest_places.len();
        let _ = self.content_places.len();
        let _ = self.snapshot_places.len();
        StoreRows {
            images: &self.images,
            containers: &self.containers,
            leases: &self.leases,
            ingests: &self.ingests,
            content: &self.content,
            snapshots: &self.snapshots,
            places: RowPlaces {
                ingests: &self.ingest_places,
                content: &self.content_places,
                snapshots: &self.snapshot_places,
            },
            profile: self.profile,
        }
    }
}

fn is_image(row: &ImageRow, ns: &ShortName, name: &Name) -> bool
    ensures { result ≡ is_key (ns.now ∷ name.now ∷ []) (image_key row.now) }
{
    *ns == row.ns && *name == row.name
}

fn is_container(row: &ContainerRow, ns: &ShortName, name: &Name) -> bool
    ensures { result ≡ is_key (ns.now ∷ name.now ∷ []) (container_key row.now) }
{
    *ns == row.ns && *name == row.name
}

fn is_lease(row: &Lease, ns: &ShortName, id: &Name) -> bool
    ensures { result ≡ is_key (ns.now ∷ id.now ∷ []) (lease_key row.now) }
{
    *ns == *row.ns() && *id == *row.id()
}

fn others_of_images(
    alloc: Global,
    rows: &[&ImageRow],
    ns: &ShortName,
    name: &Name,
) -> Result<Vec<bool>, Fault>
    ensures fault { Refuses result None }
    ensures ok { IfOk result (λ others. others.items
        ≡ map (λ row. is_other image_key (ns.now ∷ name.now ∷ []) row.now) rows.now) }
{
    let mut others = Vec::with_capacity(alloc, rows.len())?;
    for row in rows {
        others.push(!is_image(row, ns, name))?;
    }
    Ok(others)
}

fn others_of_leases(
    alloc: Global,
    rows: &[&Lease],
    ns: &ShortName,
    id: &Name,
) -> Result<Vec<bool>, Fault>
    ensures fault { Refuses result None }
    ensures ok { IfOk result (λ others. others.items
        ≡ map (λ row. is_other lease_key (ns.now ∷ id.now ∷ []) row.now) rows.now) }
{
    let mut others = Vec::with_capacity(alloc, rows.len())?;
    for row in rows {
        others.push(!is_lease(row, ns, id))?;
    }
    Ok(others)
}
