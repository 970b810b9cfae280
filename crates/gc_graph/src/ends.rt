//! What has ended, and what holds itself.
ghost use Rattle.std.specs.Prelude.{◌≡◌, ◌&&◌};
ghost use Rattle.meta_types.specs.CollectorLabels.{is_unreadable};
ghost use Rattle.meta_types.specs.Paths.{images_expire, image_stays, lease_stays, ingest_holds_itself};

use gc_labels::{is_expired, is_unreadable};
use lease_book::Lease;
use meta_types::{ImageRow, IngestRow, Instant};

/// The image stays: it has no end that is past. Images end in profile 2 alone.
pub fn image_stays(row: &ImageRow, profile: u8, at: Instant) -> bool
    ensures { result ≡ image_stays profile at.0 row.now }
{
    !(profile == 2 && is_expired(&row.labels, at))
}

/// The lease stays: it has no end that is past.
pub fn lease_stays(row: &Lease, at: Instant) -> bool
    ensures { result ≡ lease_stays at.0 row.now }
{
    !is_expired(row.labels(), at)
}

pub(crate) fn ingest_holds_itself(row: &IngestRow, at: Instant) -> bool
    ensures { result ≡ ingest_holds_itself at.0 row.now }
{
    match row.expires {
        None => false,
        Some(end) => at.0 <= end.0,
    }
}

// An image's expiry is read in profile 2 alone.
pub(crate) fn image_is_unreadable(row: &ImageRow, profile: u8) -> bool
    ensures { result ≡ (images_expire profile && is_unreadable row.now.labels) }
{
    profile == 2 && is_unreadable(&row.labels)
}
