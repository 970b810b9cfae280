//! Rows that the texts of a request give.
ghost use Rattle.std.specs.Prelude.{◌≡◌, ◌∷◌, [], is_some};
ghost use Rattle.meta_types.specs.Time.{instant_of};
ghost use Rattle.meta_types.specs.Ops.Containers.{snapshot_named, are_together};
ghost use Rattle.meta_types.specs.Ops.Ingests.{end_of, own_end};
ghost use Rattle.meta_types.specs.Text.{is_short_name, is_name, is_digest};
ghost use Rattle.meta_types.specs.Changes.{all_of, is_allowed_if};
ghost use Rattle.meta_types.specs.Data.{is_data, data_of};
ghost use Rattle.meta_types.specs.Labels.{are_labels, labels_of};
ghost use Rattle.request_core.specs.Follows.{ReadsTexts};

use crate::read::labels::read_labels;
use crate::read::names::{
    read_content, read_digest, read_digest_if, read_name, read_name_if, read_object,
    read_short_name, read_snap,
};
use crate::read::updates::read_new_data;
use crate::refusal::Refusal;
use crate::row_parts::RowParts;
use gc_labels::read_instant;
use meta_types::{
    ContainerAdd, ContainerRow, ContentAdd, Data, Digest, Fault, ImageAdd, ImageRow, ImageTarget,
    IngestBegin, IngestCommit, Instant, LeaseAdd, Name, RawText, ShortName, SnapAdd, SnapCommit,
    SnapKey, SnapKind, SnapRow,
};
use std::alloc::Global;

/// Reads an image's row.
pub(crate) fn read_image(alloc: Global, asked: &ImageAdd) -> Result<ImageRow, Refusal>
    ensures { ReadsTexts result (all_of (is_short_name asked.now.image.ns
        ∷ is_name asked.now.image.name ∷ is_digest asked.now.target ∷ are_labels asked.now.labels
        ∷ is_allowed_if is_data asked.now.extra ∷ [])) (record {
          ns = asked.now.image.ns;
          name = asked.now.image.name;
          target = asked.now.target;
          labels = labels_of asked.now.labels;
          extra = data_of asked.now.extra;
        }) }
{
    let (ns, name) = read_object(alloc, &asked.image)?;
    let target = read_digest(alloc, &asked.target)?;
    let labels = read_labels(alloc, &asked.labels)?;
    let extra = read_new_data(alloc, &asked.extra)?;
    Ok(ImageRow {
        ns,
        name,
        target,
        labels,
        extra,
    })
}

/// Reads the texts of new content.
pub(crate) fn read_new_content(
    alloc: Global,
    asked: &ContentAdd,
) -> Result<(ShortName, Digest, RowParts, Option<Name>), Refusal>
    ensures { ReadsTexts result (all_of (is_short_name asked.now.content.ns
        ∷ is_digest asked.now.content.digest ∷ are_labels asked.now.labels
        ∷ is_allowed_if is_name asked.now.lease ∷ is_allowed_if is_data asked.now.extra ∷ [])) (
          asked.now.content.ns,
          asked.now.content.digest,
          record { labels = labels_of asked.now.labels; extra = data_of asked.now.extra },
          asked.now.lease,
        ) }
{
    let (ns, digest) = read_content(alloc, &asked.content)?;
    let labels = read_labels(alloc, &asked.labels)?;
    let lease = read_name_if(alloc, &asked.lease)?;
    let extra = read_new_data(alloc, &asked.extra)?;
    Ok((ns, digest, RowParts { labels, extra }, lease))
}

/// Reads an image's name and its new target.
pub(crate) fn read_target(
    alloc: Global,
    asked: &ImageTarget,
) -> Result<(ShortName, Name, Digest), Refusal>
    ensures { ReadsTexts result (all_of (is_short_name asked.now.image.ns
        ∷ is_name asked.now.image.name ∷ is_digest asked.now.target ∷ []))
        (asked.now.image.ns, asked.now.image.name, asked.now.target) }
{
    let (ns, name) = read_object(alloc, &asked.image)?;
    let target = read_digest(alloc, &asked.target)?;
    Ok((ns, name, target))
}

/// Reads a lease's namespace, id, labels and data.
pub(crate) fn read_lease(
    alloc: Global,
    asked: &LeaseAdd,
) -> Result<(ShortName, Name, RowParts), Refusal>
    ensures { ReadsTexts result (all_of (is_short_name asked.now.lease.ns
        ∷ is_name asked.now.lease.name ∷ are_labels asked.now.labels
        ∷ is_allowed_if is_data asked.now.extra ∷ [])) (
          asked.now.lease.ns,
          asked.now.lease.name,
          record { labels = labels_of asked.now.labels; extra = data_of asked.now.extra },
        ) }
{
    let (ns, id) = read_object(alloc, &asked.lease)?;
    let labels = read_labels(alloc, &asked.labels)?;
    let extra = read_new_data(alloc, &asked.extra)?;
    Ok((ns, id, RowParts { labels, extra }))
}

/// The lease that is to hold the new object of a commit, and the one that drops the old.
#[derive(Drop)]
pub struct Holders {
    pub lease: Option<Name>,
    pub dropped_by: Option<Name>,
}

/// Reads the texts of a commit.
pub(crate) fn read_commit(
    alloc: Global,
    asked: &SnapCommit,
) -> Result<(SnapKey, Name, RowParts, Holders), Refusal>
    ensures { ReadsTexts result (all_of (is_short_name asked.now.snapshot.ns
        ∷ is_short_name asked.now.snapshot.snapshotter ∷ is_name asked.now.snapshot.name
        ∷ is_name asked.now.name ∷ are_labels asked.now.labels
        ∷ is_allowed_if is_name asked.now.lease ∷ is_allowed_if is_name asked.now.dropped_by
        ∷ is_allowed_if is_data asked.now.extra ∷ [])) (
          record {
            ns = asked.now.snapshot.ns;
            snapshotter = asked.now.snapshot.snapshotter;
            name = asked.now.snapshot.name;
          },
          asked.now.name,
          record { labels = labels_of asked.now.labels; extra = data_of asked.now.extra },
          record { lease = asked.now.lease; dropped_by = asked.now.dropped_by },
        ) }
{
    let key = read_snap(alloc, &asked.snapshot)?;
    let name = read_name(alloc, &asked.name)?;
    let labels = read_labels(alloc, &asked.labels)?;
    let lease = read_name_if(alloc, &asked.lease)?;
    let dropped_by = read_name_if(alloc, &asked.dropped_by)?;
    let extra = read_new_data(alloc, &asked.extra)?;
    let parts = RowParts { labels, extra };
    Ok((key, name, parts, Holders { lease, dropped_by }))
}

/// When an ingest that begins at a time ends by itself: 24 hours later.
pub(crate) fn read_end(at: &RawText) -> Option<Instant>
    ensures there { is_some result ≡ is_some (instant_of at.now) }
    ensures end { result ≡ end_of at.now }
{
    match read_instant(at.text()) {
        Some(moment) => Some(Instant(moment.0 + 86_400_000_000_000)),
        None => None,
    }
}

/// Reads the texts of a beginning ingest, and when it ends by itself.
pub(crate) fn read_begin(
    alloc: Global,
    asked: &IngestBegin,
) -> Result<
    (
        ShortName,
        Name,
        Option<Instant>,
        Option<Digest>,
        Option<Name>,
        Data,
    ),
    Refusal,
>
    ensures { ReadsTexts result (all_of (is_short_name asked.now.ingest.ns
        ∷ is_name asked.now.ingest.name ∷ is_some (instant_of asked.now.at)
        ∷ is_allowed_if is_digest asked.now.expected ∷ is_allowed_if is_name asked.now.lease
        ∷ is_allowed_if is_data asked.now.extra ∷ [])) (
          asked.now.ingest.ns,
          asked.now.ingest.name,
          own_end asked.now.lease asked.now.at,
          asked.now.expected,
          asked.now.lease,
          data_of asked.now.extra,
        ) }
{
    let (ns, name) = read_object(alloc, &asked.ingest)?;
    let Some(end) = read_end(&asked.at) else {
        return Err(Refusal::By(Fault::InvalidArgument));
    };
    let expected = read_digest_if(alloc, &asked.expected)?;
    let lease = read_name_if(alloc, &asked.lease)?;
    let extra = read_new_data(alloc, &asked.extra)?;
    let expires = if lease.is_some() { None } else { Some(end) };
    Ok((ns, name, expires, expected, lease, extra))
}

/// Reads the row of a new snapshot, and the lease that is to hold it.
pub(crate) fn read_prepare(
    alloc: Global,
    kind: SnapKind,
    number: u64,
    asked: &SnapAdd,
) -> Result<(SnapRow, Option<Name>), Refusal>
    ensures { ReadsTexts result (all_of (is_short_name asked.now.snapshot.ns
        ∷ is_short_name asked.now.snapshot.snapshotter ∷ is_name asked.now.snapshot.name
        ∷ is_allowed_if is_name asked.now.parent ∷ are_labels asked.now.labels
        ∷ is_allowed_if is_name asked.now.lease ∷ is_allowed_if is_data asked.now.extra ∷ [])) (
          record {
            key = record {
              ns = asked.now.snapshot.ns;
              snapshotter = asked.now.snapshot.snapshotter;
              name = asked.now.snapshot.name;
            };
            kind = kind;
            parent = asked.now.parent;
            number = number;
            labels = labels_of asked.now.labels;
            extra = data_of asked.now.extra;
          },
          asked.now.lease,
        ) }
{
    let key = read_snap(alloc, &asked.snapshot)?;
    let parent = read_name_if(alloc, &asked.parent)?;
    let labels = read_labels(alloc, &asked.labels)?;
    let lease = read_name_if(alloc, &asked.lease)?;
    let extra = read_new_data(alloc, &asked.extra)?;
    let row = SnapRow {
        key,
        kind,
        parent,
        number,
        labels,
        extra,
    };
    Ok((row, lease))
}

/// Reads a container's row.
pub(crate) fn read_container(alloc: Global, asked: &ContainerAdd) -> Result<ContainerRow, Refusal>
    ensures { ReadsTexts result (all_of (is_short_name asked.now.container.ns
        ∷ is_name asked.now.container.name ∷ is_allowed_if is_short_name asked.now.snapshotter
        ∷ is_allowed_if is_name asked.now.key
        ∷ are_together asked.now.snapshotter asked.now.key ∷ are_labels asked.now.labels
        ∷ is_allowed_if is_data asked.now.extra ∷ [])) (record {
          ns = asked.now.container.ns;
          name = asked.now.container.name;
          snapshot = snapshot_named asked.now.snapshotter asked.now.key;
          labels = labels_of asked.now.labels;
          extra = data_of asked.now.extra;
        }) }
{
    let (ns, name) = read_object(alloc, &asked.container)?;
    let snapshot = read_snapshot_if(alloc, &asked.snapshotter, &asked.key)?;
    let labels = read_labels(alloc, &asked.labels)?;
    let extra = read_new_data(alloc, &asked.extra)?;
    Ok(ContainerRow {
        ns,
        name,
        snapshot,
        labels,
        extra,
    })
}

/// Reads a snapshotter and the name of a snapshot, which stand together or not at all.
pub(crate) fn read_snapshot_if(
    alloc: Global,
    snapshotter: &Option<RawText>,
    key: &Option<RawText>,
) -> Result<Option<(ShortName, Name)>, Refusal>
    ensures { ReadsTexts result (all_of (is_allowed_if is_short_name snapshotter.now
        ∷ is_allowed_if is_name key.now ∷ are_together snapshotter.now key.now ∷ []))
        (snapshot_named snapshotter.now key.now) }
{
    match (snapshotter, key) {
        (Some(snapshotter), Some(key)) => {
            let snapshotter = read_short_name(alloc, snapshotter)?;
            let key = read_name(alloc, key)?;
            Ok(Some((snapshotter, key)))
        }
        (None, None) => Ok(None),
        _ => Err(Refusal::By(Fault::InvalidArgument)),
    }
}

/// Reads the texts of an ingest's commit.
pub(crate) fn read_ingest_commit(
    alloc: Global,
    asked: &IngestCommit,
) -> Result<(ShortName, Name, Digest, RowParts, Holders), Refusal>
    ensures { ReadsTexts result (all_of (is_short_name asked.now.ingest.ns
        ∷ is_name asked.now.ingest.name ∷ is_digest asked.now.digest
        ∷ are_labels asked.now.labels ∷ is_allowed_if is_name asked.now.lease
        ∷ is_allowed_if is_name asked.now.dropped_by ∷ is_allowed_if is_data asked.now.extra
        ∷ [])) (
          asked.now.ingest.ns,
          asked.now.ingest.name,
          asked.now.digest,
          record { labels = labels_of asked.now.labels; extra = data_of asked.now.extra },
          record { lease = asked.now.lease; dropped_by = asked.now.dropped_by },
        ) }
{
    let (ns, name) = read_object(alloc, &asked.ingest)?;
    let digest = read_digest(alloc, &asked.digest)?;
    let labels = read_labels(alloc, &asked.labels)?;
    let lease = read_name_if(alloc, &asked.lease)?;
    let dropped_by = read_name_if(alloc, &asked.dropped_by)?;
    let extra = read_new_data(alloc, &asked.extra)?;
    let parts = RowParts { labels, extra };
    Ok((ns, name, digest, parts, Holders { lease, dropped_by }))
}
