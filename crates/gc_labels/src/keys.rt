//! Label keys, and what they say to the collector.
ghost use Rattle.std.specs.Prelude.{◌≡◌, ◌++◌, option_map};
ghost use Rattle.meta_types.specs.Text.{texts_of};
ghost use Rattle.meta_types.specs.Labels.{value_of};
ghost use Rattle.meta_types.specs.CollectorLabels.{content_ref_key, is_content_key, snapshotter_in, is_marked_root, is_flat, expiry_of, is_expired, is_unreadable};
ghost use Rattle.gc_labels.specs.ExpiryEnds.{end_of, is_unread};

use crate::ends::Expiry;
use crate::instants::read_instant;
use meta_types::{Instant, Labels};

/// Marks content or a snapshot as a root, whatever its value (containerd garbage-collection.md).
const ROOT: &str = "containerd.io/gc.root";
/// Makes a lease hold its resources without their labels (containerd garbage-collection.md).
const FLAT: &str = "containerd.io/gc.flat";
/// The time after which a lease is collected (containerd garbage-collection.md).
const EXPIRE: &str = "containerd.io/gc.expire";
/// References content by its digest (containerd garbage-collection.md), alone or with anything
/// behind a `.` or, ours, a `/`.
const CONTENT: &str = "containerd.io/gc.ref.content";
/// References a snapshot of the snapshotter that follows (containerd garbage-collection.md).
const SNAPSHOT: &str = "containerd.io/gc.ref.snapshot.";

/// Whether labels with this key reference content.
pub fn content_ref(key: &str) -> bool
    ensures { result ≡ is_content_key key.now }
{
    match key.strip_prefix(CONTENT) {
        Some(rest) => is_apart(rest),
        None => false,
    }
}

// Whether nothing follows the key of content, or what follows is apart from it.
#[tactic(auto, using(crate::proofs::ContentKeys::alone, crate::proofs::ContentKeys::more))]
fn is_apart(rest: &str) -> bool
    ensures { result ≡ is_content_key (content_ref_key ++ rest.now) }
{
    match rest.as_bytes() {
        [] => true,
        [byte, ..] => *byte == b'.' || *byte == b'/',
    }
}

/// The snapshotter whose snapshots labels with this key reference. It may be no allowed name.
pub fn snapshot_ref(key: &str) -> Option<&str>
    ensures { option_map (λ s. s.now) result ≡ snapshotter_in key.now }
{
    match key.strip_prefix(SNAPSHOT) {
        None => None,
        Some(rest) => match rest.split_once('/') {
            Some((snapshotter, _)) => Some(snapshotter),
            None => Some(rest),
        },
    }
}

// Labels up to this number are passed one by one: most keys differ in their length already.
const FEW: usize = 16;

// The value of a key.
fn value_of<'a>(labels: &'a Labels, key: &str) -> Option<&'a str>
    ensures { option_map (λ s. s.now) result ≡ value_of labels.now key.now }
{
    if labels.len() <= FEW {
        value_among(labels.entries(), key)
    } else {
        labels.get(key)
    }
}

// The value of a key, found by passing the labels one by one.
fn value_among<'a>(entries: &'a [(String, String)], key: &str) -> Option<&'a str>
    ensures { option_map (λ s. s.now) result ≡ value_of (texts_of entries.now) key.now }
{
    for entry in entries {
        if key == entry.0.as_str() {
            return Some(entry.1.as_str());
        }
    }
    None
}

/// Whether the labels make content or a snapshot a root.
pub fn is_root(labels: &Labels) -> bool
    ensures { result ≡ is_marked_root labels.now }
{
    value_of(labels, ROOT).is_some()
}

/// Whether the labels make a lease flat.
pub fn is_flat(labels: &Labels) -> bool
    ensures { result ≡ is_flat labels.now }
{
    value_of(labels, FLAT).is_some()
}

/// When an object with these labels ends.
pub fn expiry(labels: &Labels) -> Expiry
    ensures end { end_of result ≡ expiry_of labels.now }
    ensures unread { is_unread result ≡ is_unreadable labels.now }
{
    match value_of(labels, EXPIRE) {
        None => Expiry::Never,
        Some(text) => match read_instant(text) {
            Some(instant) => Expiry::At(instant),
            None => Expiry::Unreadable,
        },
    }
}

/// Whether the end that the labels name is past: at that moment itself the object hasn't ended.
pub fn is_expired(labels: &Labels, at: Instant) -> bool
    ensures { result ≡ is_expired labels.now at.0 }
{
    match expiry(labels) {
        Expiry::Never => false,
        Expiry::Unreadable => false,
        Expiry::At(end) => end.0 < at.0,
    }
}

/// Whether labels have an expiry that can't be read: such an object never ends.
pub fn is_unreadable(labels: &Labels) -> bool
    ensures { result ≡ is_unreadable labels.now }
{
    match expiry(labels) {
        Expiry::Never => false,
        Expiry::Unreadable => true,
        Expiry::At(_) => false,
    }
}
