//! Listings of snapshots and of snapshotters.
ghost use Rattle.std.specs.Prelude.{◌≡◌, ◌&&◌, map, filter, false, None, IfOk, option_copied, bytes_eq, not};
ghost use Rattle.std.specs.Option.{option_map_or};
ghost use Rattle.std.specs.List.{dedup};
ghost use Rattle.std.specs.List.Sorted.{IsStrictlySortedBy};
ghost use Rattle.meta_types.specs.Text.{text_cmp};
ghost use Rattle.meta_types.specs.Faults.{Refuses};
ghost use Rattle.meta_types.specs.Ops.Snapshots.{snapshots_in};
ghost use Rattle.meta_types.specs.Changes.{has_namespace};
ghost use Rattle.object_tables.specs.Calls.{missing_fault, snapshotters_in};

use crate::stored::names_of;
use crate::tables::Tables;
use meta_types::{Fault, Listing, ShortName, SnapRow};
use std::alloc::Global;

impl Tables {
    /// The names of a snapshotter's snapshots in a namespace, by their bytes.
    pub fn list_snaps(
        &self,
        alloc: Global,
        ns: &ShortName,
        snapshotter: &ShortName,
    ) -> Result<Listing, Fault>
        ensures fault { Refuses result (missing_fault (has_namespace self.now ns.now)) }
        ensures ok { IfOk result (λ names. names
            ≡ snapshots_in ns.now snapshotter.now self.now.snapshots) }
    {
        let rows = self.snaps_in(alloc, ns, snapshotter)?;
        names_of(alloc, &rows)
    }

    /// The snapshots of a snapshotter in a namespace, in the order of their names.
    pub fn snaps_in(
        &self,
        alloc: Global,
        ns: &ShortName,
        snapshotter: &ShortName,
    ) -> Result<Vec<&SnapRow>, Fault>
        ensures fault { Refuses result (missing_fault (has_namespace self.now ns.now)) }
        ensures ok { IfOk result (λ list. map (λ row. row.now) list.items
            ≡ filter (λ row. bytes_eq ns.now row.key.ns && bytes_eq snapshotter.now
            row.key.snapshotter) self.now.snapshots) }
    {
        if !self.has_ns(ns) {
            return Err(Fault::NotFound);
        }
        // For the prover: the result is opened, not passed on.
        let rows = self.snapshots.table().rows_of(alloc, ns, snapshotter)?;
        Ok(rows)
    }

    /// The snapshotters that have a snapshot in a namespace, each once, by their bytes.
    pub fn snapshotters(&self, alloc: Global, ns: &ShortName) -> Result<Listing, Fault>
        ensures fault { Refuses result (missing_fault (has_namespace self.now ns.now)) }
        ensures ok { IfOk result (λ names. names ≡ snapshotters_in ns.now self.now.snapshots) }
        ensures order { IfOk result (λ names. IsStrictlySortedBy text_cmp names) }
    {
        if !self.has_ns(ns) {
            return Err(Fault::NotFound);
        }
        let rows = self.snapshots.table().rows_in(alloc, ns)?;
        snapshotters_of(alloc, &rows)
    }
}

fn snapshotters_of(alloc: Global, rows: &[&SnapRow]) -> Result<Listing, Fault>
    ensures fault { Refuses result None }
    ensures ok { IfOk result (λ names. names
        ≡ dedup bytes_eq (map (λ row. row.key.snapshotter) (map (λ row. row.now) rows.now))) }
{
    let mut names = Listing::new(alloc);
    let mut last = None;
    for row in rows {
        if is_next(last, row) {
            names.push_short_name(&row.key.snapshotter)?;
            last = Some(&row.key.snapshotter);
        }
    }
    Ok(names)
}

// Whether the row's snapshotter is another than the last.
fn is_next(last: Option<&ShortName>, row: &SnapRow) -> bool
    ensures { result ≡ not (option_map_or (bytes_eq row.now.key.snapshotter) (option_copied
        last.entry) false) }
{
    match last {
        Some(last) => row.key.snapshotter != *last,
        None => true,
    }
}
