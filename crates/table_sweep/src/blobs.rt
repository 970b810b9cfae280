//! The blobs that no row owns, in the order of their digests.
ghost use Rattle.std.specs.Prelude.{◌≡◌, ◌<◌, ◌++◌, ◌∷◌, [], map, filter, length, not, false, bytes_eq, ◌&&◌, ◌||◌, if◌then◌else◌, List, OnOk, None, IfOk, IfSome, Bool, position, slice_get};
ghost use Rattle.std.specs.Option.{option_map_or};
ghost use Rattle.std.specs.List.Sorted.{IsPermutation};
ghost use Rattle.meta_types.specs.Keys.{is_key};
ghost use Rattle.meta_types.specs.Text.{Text, text_cmp};
ghost use Rattle.meta_types.specs.Faults.{Refuses};
ghost use Rattle.object_tables.specs.Calls.{kept};
ghost use Rattle.row_tables.specs.Arrived.{one_text, sorted};
ghost use Rattle.table_sweep.specs.BlobMarks.{AreBlobMarks};
ghost use Rattle.table_sweep.specs.Masks.{gone};
ghost use Rattle.table_sweep.specs.Owned.{owns_blob};

use crate::masks::count_removed;
use crate::prefix_order::{Prefixed, in_prefix_order, push_all_prefixed};
use meta_types::{ContentRow, Digest, Fault};
use row_tables::{RowTable, Slices};
use std::alloc::Global;
use std::cmp::Ordering;

// Whether the digest stands at a place.
fn is_at(digests: &[Digest], place: usize, digest: &Digest) -> bool
    ensures { result ≡ option_map_or (λ other. bytes_eq digest.now other)
        (slice_get digests.now place) false }
{
    match digests.get(place) {
        Some(other) => *digest == *other,
        None => false,
    }
}

// The place of a digest, where the backend has it: `near` is tried first.
fn near_place(blobs: &RowTable<Digest, Digest>, near: usize, digest: &Digest) -> Option<usize>
    ensures place { result
        ≡ position (λ other. is_key (one_text digest.now) (one_text other)) blobs.now }
    ensures within { IfSome result (λ place. place < length blobs.now) }
{
    if is_at(blobs.rows(), near, digest) {
        return Some(near);
    }
    blobs.place(digest)
}

// Marks the place of the digest, where the backend has it.
fn mark_blob(
    blobs: &RowTable<Digest, Digest>,
    near: usize,
    digest: &Digest,
    owned: &mut Vec<bool>,
) -> usize
    requires { length owned.old.items ≡ length blobs.now }
    ensures length { length owned.new.items ≡ length owned.old.items }
    ensures marks { (before : Text → Bool) → owned.old.items ≡ map before blobs.now
        → owned.new.items ≡ map (λ other. bytes_eq digest.now other || before other) blobs.now }
{
    // No digest stands twice.
    let _digests = blobs.rows();
    let Some(place) = near_place(blobs, near, digest) else {
        return near;
    };
    owned[place] = true;
    place
}

fn own_blob(
    blobs: &RowTable<Digest, Digest>,
    next: &mut usize,
    row: &ContentRow,
    stays: bool,
    owned: &mut Vec<bool>,
)
    requires { length owned.old.items ≡ length blobs.now }
    ensures length { length owned.new.items ≡ length owned.old.items }
    ensures marks { (before : Text → Bool) → owned.old.items ≡ map before blobs.now
        → owned.new.items
        ≡ map (λ other. (stays && bytes_eq row.now.digest other) || before other) blobs.now }
{
    let near = *next;
    if !stays {
        *next = near.saturating_add(1);
        return;
    }
    *next = mark_blob(blobs, near, &row.digest, owned).saturating_add(1);
}

// Marks the blobs that the rows in a slice own, of those that stay.
fn own_blobs(
    blobs: &RowTable<Digest, Digest>,
    next: &mut usize,
    rows: &[ContentRow],
    mask: &[bool],
    owned: &mut Vec<bool>,
)
    requires mask { length mask.now ≡ length rows.now }
    requires owned { length owned.old.items ≡ length blobs.now }
    ensures { (before : List ContentRow) → owned.old.items ≡ map (owns_blob before) blobs.now
        → owned.new.items ≡ map (owns_blob (before ++ kept mask.now rows.now)) blobs.now }
{
    for (i, row) in rows.iter().enumerate() {
        own_blob(blobs, next, row, mask[i], owned);
    }
}

// For each place of a blob, whether a row that stays owns it. Most blobs stand as the rows do: so
// the blob behind the last one is tried first.
fn owned_blobs(
    alloc: Global,
    rows: &Slices<'_, ContentRow>,
    mask: &[bool],
    blobs: &RowTable<Digest, Digest>,
) -> Result<Vec<bool>, Fault>
    requires { length mask.now ≡ length rows.now }
    ensures fault { Refuses result None }
    ensures ok { IfOk result (λ owned. owned.items
        ≡ map (owns_blob (kept mask.now rows.now)) blobs.now) }
{
    let mut owned = Vec::from_elem(alloc, false, blobs.len())?;
    let mut next = 0;
    let mut rest = mask;
    let slices = rows.as_slices();
    for slice in slices {
        let (here, behind) = rest.split_at(slice.len());
        own_blobs(blobs, &mut next, slice, here, &mut owned);
        rest = behind;
    }
    Ok(owned)
}

fn push_blob(digest: &Digest, is_owned: bool, gone: &mut Vec<Digest>) -> Result<(), Fault>
    ensures fault { Refuses result None }
    ensures ok { OnOk result (gone.new.items ≡ gone.old.items
        ++ (if is_owned then [] else digest.now ∷ [])) }
{
    if !is_owned {
        gone.push(digest.copy()?)?;
    }
    Ok(())
}

// The blobs whose mark is unset, as they arrived.
fn unowned_as_arrived(
    digests: Vec<Digest>,
    blobs: &[Digest],
    owned: &[bool],
) -> Result<Vec<Digest>, Fault>
    requires length { length owned.now ≡ length blobs.now }
    requires empty { digests.items ≡ [] }
    ensures fault { Refuses result None }
    ensures ok { IfOk result (λ gone_ones. gone_ones.items ≡ gone owned.now blobs.now) }
{
    let mut gone = digests;
    for (i, digest) in blobs.iter().enumerate() {
        push_blob(digest, owned[i], &mut gone)?;
    }
    Ok(gone)
}

// The digests, as they are listed.
fn copies_as_listed(
    digests: Vec<Digest>,
    near: &[Prefixed<'_, Digest>],
) -> Result<Vec<Digest>, Fault>
    requires { digests.items ≡ [] }
    ensures fault { Refuses result None }
    ensures ok { IfOk result (λ copies. copies.items ≡ map (λ one. one.row.now) near.now) }
{
    let mut copies = digests;
    for one in near {
        copies.push(one.row.copy()?)?;
    }
    Ok(copies)
}

// The blobs whose mark is unset, lent as they arrived.
fn near_unowned<'a>(
    alloc: Global,
    blobs: &'a [Digest],
    owned: &[bool],
) -> Result<Vec<Prefixed<'a, Digest>>, Fault>
    requires { length owned.now ≡ length blobs.now }
    ensures fault { Refuses result None }
    ensures ok { IfOk result (λ near. map (λ one. one.row.now) near.items
        ≡ gone owned.now blobs.now) }
{
    let mut near = Vec::with_capacity(alloc, count_removed(owned))?;
    push_all_prefixed(blobs, owned, &mut near)?;
    Ok(near)
}

// The blobs whose mark is unset: nearly in order, where there is memory for that.
fn unowned(alloc: Global, blobs: &[Digest], owned: &[bool]) -> Result<Vec<Digest>, Fault>
    requires { length owned.now ≡ length blobs.now }
    ensures fault { Refuses result None }
    ensures ok { IfOk result (λ gone_ones. IsPermutation (gone owned.now blobs.now) gone_ones.items) }
{
    let digests = Vec::with_capacity(alloc, count_removed(owned))?;
    let Ok(near) = near_unowned(alloc, blobs, owned) else {
        // For the prover: the result is opened, not passed on.
        let digests = unowned_as_arrived(digests, blobs, owned)?;
        return Ok(digests);
    };
    let near = in_prefix_order(near);
    // For the prover: the result is opened, not passed on.
    let digests = copies_as_listed(digests, &near)?;
    Ok(digests)
}

fn compare(a: &Digest, b: &Digest) -> Ordering
    ensures { result ≡ text_cmp a.now b.now }
{
    a.cmp(b)
}

fn digests_in_order(digests: Vec<Digest>) -> Result<Vec<Digest>, Fault>
    ensures fault { Refuses result None }
    ensures ok { IfOk result (λ list. list.items ≡ sorted one_text digests.items) }
{
    let mut digests = digests;
    digests.sort_unstable_by(|a, b| compare(a, b));
    Ok(digests)
}

// The blobs that no row that stays owns, and a mark for each place of one that stays. Only what goes
// is sorted.
pub(crate) fn removed_blobs(
    alloc: Global,
    rows: &Slices<'_, ContentRow>,
    mask: &[bool],
    blobs: &RowTable<Digest, Digest>,
) -> Result<(Vec<Digest>, Vec<bool>), Fault>
    requires { length mask.now ≡ length rows.now }
    ensures fault { Refuses result None }
    ensures ok { IfOk result (λ made. made.0.items ≡ filter
        (λ digest. not (owns_blob (kept mask.now rows.now) digest))
        (sorted one_text blobs.now)) }
    ensures marks { IfOk result (λ made. AreBlobMarks made.0.items blobs.now made.1.items) }
{
    let owned = owned_blobs(alloc, rows, mask, blobs)?;
    let gone = unowned(alloc, blobs.rows(), &owned)?;
    let digests = digests_in_order(gone)?;
    Ok((digests, owned))
}
