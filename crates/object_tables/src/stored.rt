//! Rows that are found by their names in tables of hashes: listings and labels.
ghost use Rattle.std.specs.Prelude.{◌≡◌, ◌∷◌, [], ◌++◌, map, None, IfOk, OnOk, OnErr, refl};
ghost use Rattle.meta_types.specs.Text.{Text};
ghost use Rattle.meta_types.specs.Keys.{row_at, change_row};
ghost use Rattle.meta_types.specs.Labels.{LabelList, is_label, put_label, takes_label};
ghost use Rattle.meta_types.specs.Rows.{snap_key};
ghost use Rattle.meta_types.specs.Faults.{Refuses, unless};
ghost use Rattle.meta_types.specs.Ops.{names_in};
ghost use Rattle.meta_types.specs.declared.fault.Fault.TheVariants.{InvalidArgument};
ghost use Rattle.row_tables.specs.Namespaces.{full_key};
ghost use Rattle.object_tables.specs.Calls.{labelling_fault};
ghost use Rattle.object_tables.specs.Edits.{Relabels, relabels_keep};

use meta_types::{
    ContainerRow, ContentRow, Digest, Fault, ImageRow, IngestRow, Listing, Name, ShortName,
    SnapKey, SnapRow,
};
use row_tables::{ByNamespace, BySnapshotter, Change, GroupedRow, Named};
use std::alloc::Global;

/// A row that is listed by its name.
pub(crate) trait ListedRow<K: Named>: GroupedRow<K> {
    /// The name that the row is listed by.
    ghost listed_as: { Self → Text };

    /// Adds the row's name to a listing.
    fn list_in(&self, names: &mut Listing) -> Result<(), Fault>
        ensures fault { Refuses result None }
        ensures ok { OnOk result (names.new ≡ names.old ++ listed_as self.now ∷ []) };
}

/// A row with labels.
pub(crate) trait StoredRow<K: Named>: GroupedRow<K> {
    /// The labels of the row.
    ghost labels_in: { Self → LabelList };

    /// The row with other labels.
    ghost with_labels: { LabelList → Self → Self };

    /// Puts one label.
    fn put_label(&mut self, alloc: Global, key: &str, value: &str) -> Result<(), Fault>
        ensures fault { Refuses result (unless (takes_label key.now value.now
            (labels_in self.old)) InvalidArgument) }
        ensures ok { OnOk result (self.new ≡ with_labels (put_label key.now value.now
            (labels_in self.old)) self.old) }
        ensures err { OnErr result (self.new ≡ self.old) };

    /// Labels are no part of a name.
    ghost keeps_name: { (labels : LabelList) (row : Self) →
        Self.name_of (with_labels labels row) ≡ Self.name_of row };

    /// Nor of a group.
    ghost keeps_group: { (labels : LabelList) (row : Self) →
        Self.group_of (with_labels labels row) ≡ Self.group_of row };
}

/// One label more, or another value of one.
#[derive(Drop)]
struct OneLabel<'a> {
    alloc: Global,
    key: &'a str,
    value: &'a str,
}

impl<'a, K: Named, R: StoredRow<K>> Change<K, R, Result<(), Fault>> for OneLabel<'a> {
    ghost changes = { λ c. Relabels R.labels_in R.with_labels c.key.now c.value.now };

    ghost keeps_name = { λ c. relabels_keep R.labels_in R.with_labels R.name_of R.keeps_name
        c.key.now c.value.now };

    fn change(self, row: &mut R) -> Result<(), Fault> {
        row.put_label(self.alloc, self.key, self.value)
    }
}

/// Puts one label on the row of a namespace and a name.
pub(crate) fn relabel<K: Named, R: StoredRow<K>>(
    table: &mut ByNamespace<K, R>,
    alloc: Global,
    ns: &ShortName,
    name: &K,
    key: &str,
    value: &str,
) -> Result<(), Fault>
    ensures fault { Refuses result (labelling_fault R.labels_in key.now value.now
        (row_at (full_key K.texts_of R.name_of R.group_of) (ns.now ∷ K.texts_of name.now)
        table.old)) }
    ensures ok { OnOk result (table.new ≡ change_row (full_key K.texts_of R.name_of R.group_of)
        (ns.now ∷ K.texts_of name.now)
        (λ row. R.with_labels (put_label key.now value.now (R.labels_in row)) row) table.old) }
    ensures err { OnErr result (table.new ≡ table.old) }
{
    match table.change(ns, name, OneLabel { alloc, key, value }) {
        Some(Ok(())) => Ok(()),
        Some(Err(fault)) => Err(fault),
        None if !is_label(key, value) => Err(Fault::InvalidArgument),
        None => Err(Fault::NotFound),
    }
}

/// Puts one label on a snapshot.
pub(crate) fn relabel_snap(
    table: &mut BySnapshotter<Name, SnapRow>,
    alloc: Global,
    at: &SnapKey,
    key: &str,
    value: &str,
) -> Result<(), Fault>
    ensures fault { Refuses result (labelling_fault (λ row. row.labels) key.now value.now
        (row_at snap_key (at.now.ns ∷ at.now.snapshotter ∷ at.now.name ∷ []) table.old)) }
    ensures ok { OnOk result (table.new ≡ change_row snap_key (at.now.ns
        ∷ at.now.snapshotter ∷ at.now.name ∷ [])
        (λ row. record row { labels = put_label key.now value.now row.labels }) table.old) }
    ensures err { OnErr result (table.new ≡ table.old) }
{
    match table.change(
        &at.ns,
        &at.snapshotter,
        &at.name,
        OneLabel { alloc, key, value },
    ) {
        Some(Ok(())) => Ok(()),
        Some(Err(fault)) => Err(fault),
        None if !is_label(key, value) => Err(Fault::InvalidArgument),
        None => Err(Fault::NotFound),
    }
}

/// The names of a namespace's rows, by their bytes.
pub(crate) fn names_in<K: Named, R: ListedRow<K>>(
    table: &ByNamespace<K, R>,
    alloc: Global,
    ns: &ShortName,
) -> Result<Listing, Fault>
    ensures fault { Refuses result None }
    ensures ok { IfOk result (λ names. names ≡ names_in R.group_of R.listed_as ns.now table.now) }
{
    let rows = table.rows_in(alloc, ns)?;
    names_of(alloc, &rows)
}

/// The names of rows, as they stand.
pub(crate) fn names_of<K: Named, R: ListedRow<K>>(
    alloc: Global,
    rows: &[&R],
) -> Result<Listing, Fault>
    ensures fault { Refuses result None }
    ensures ok { IfOk result (λ names. names ≡ map R.listed_as (map (λ row. row.now) rows.now)) }
{
    let mut names = Listing::new(alloc);
    for row in rows {
        row.list_in(&mut names)?;
    }
    Ok(names)
}

impl ListedRow<Name> for ImageRow {
    ghost listed_as = { λ row. row.name };

    fn list_in(&self, names: &mut Listing) -> Result<(), Fault> {
        names.push_name(&self.name)
    }
}

impl StoredRow<Name> for ImageRow {
    ghost labels_in = { λ row. row.labels };

    ghost with_labels = { λ labels row. record row { labels = labels } };

    fn put_label(&mut self, alloc: Global, key: &str, value: &str) -> Result<(), Fault> {
        self.labels.put(alloc, key, value)
    }

    ghost keeps_name = { λ _ _. refl };

    ghost keeps_group = { λ _ _. refl };
}

impl ListedRow<Name> for ContainerRow {
    ghost listed_as = { λ row. row.name };

    fn list_in(&self, names: &mut Listing) -> Result<(), Fault> {
        names.push_name(&self.name)
    }
}

impl StoredRow<Name> for ContainerRow {
    ghost labels_in = { λ row. row.labels };

    ghost with_labels = { λ labels row. record row { labels = labels } };

    fn put_label(&mut self, alloc: Global, key: &str, value: &str) -> Result<(), Fault> {
        self.labels.put(alloc, key, value)
    }

    ghost keeps_name = { λ _ _. refl };

    ghost keeps_group = { λ _ _. refl };
}

impl ListedRow<Digest> for ContentRow {
    ghost listed_as = { λ row. row.digest };

    fn list_in(&self, names: &mut Listing) -> Result<(), Fault> {
        names.push_digest(&self.digest)
    }
}

impl StoredRow<Digest> for ContentRow {
    ghost labels_in = { λ row. row.labels };

    ghost with_labels = { λ labels row. record row { labels = labels } };

    fn put_label(&mut self, alloc: Global, key: &str, value: &str) -> Result<(), Fault> {
        self.labels.put(alloc, key, value)
    }

    ghost keeps_name = { λ _ _. refl };

    ghost keeps_group = { λ _ _. refl };
}

impl ListedRow<Name> for SnapRow {
    ghost listed_as = { λ row. row.key.name };

    fn list_in(&self, names: &mut Listing) -> Result<(), Fault> {
        names.push_name(&self.key.name)
    }
}

impl StoredRow<Name> for SnapRow {
    ghost labels_in = { λ row. row.labels };

    ghost with_labels = { λ labels row. record row { labels = labels } };

    fn put_label(&mut self, alloc: Global, key: &str, value: &str) -> Result<(), Fault> {
        self.labels.put(alloc, key, value)
    }

    ghost keeps_name = { λ _ _. refl };

    ghost keeps_group = { λ _ _. refl };
}

impl ListedRow<Name> for IngestRow {
    ghost listed_as = { λ row. row.name };

    fn list_in(&self, names: &mut Listing) -> Result<(), Fault> {
        names.push_name(&self.name)
    }
}

fn is_label(key: &str, value: &str) -> bool
    ensures { result ≡ is_label key.now value.now }
{
    value == "" || (key != "" && value.len() <= 4096 && key.len() <= 4096 - value.len())
}
