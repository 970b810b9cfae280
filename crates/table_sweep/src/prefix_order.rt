//! Removals, nearly in order: by numbers, of which each stands for the first bytes of a name. No
//! clause says that they are in order: a sort by names comes after it, and then goes over them once.
ghost use Rattle.std.specs.Prelude.{◌≡◌, ◌++◌, ◌∷◌, [], map, length, if◌then◌else◌, OnOk, None, IfOk};
ghost use Rattle.std.specs.List.Sorted.{IsPermutation};
ghost use Rattle.meta_types.specs.Faults.{Refuses};
ghost use Rattle.table_sweep.specs.Masks.{gone};

use crate::masks::count_removed;
use meta_types::{ContentRow, Digest, Fault, SnapRow};
use row_tables::Slices;
use std::alloc::Global;
use std::cmp::Ordering;

/// What has a name whose first bytes can be compared as a number.
pub(crate) trait HasPrefix {
    /// Whether both names differ in their last part alone.
    fn is_beside(&self, other: &Self) -> bool;

    /// The first bytes of the last part.
    fn first(&self) -> u64;

    /// How the last parts compare.
    fn compare_last(&self, other: &Self) -> Ordering;

    /// How the names compare.
    fn compare(&self, other: &Self) -> Ordering;
}

// The first eight bytes as a number; zeros stand for those that are missing.
fn first_bytes(bytes: &[u8]) -> u64 {
    if bytes.len() >= 8 {
        return u64::from_be_bytes([
            bytes[0], bytes[1], bytes[2], bytes[3], bytes[4], bytes[5], bytes[6], bytes[7],
        ]);
    }
    let mut number: u64 = 0;
    for byte in bytes {
        number = number.rotate_left(8) | u64::from(*byte);
    }
    number.rotate_right(8 * bytes.len() as u32)
}

impl HasPrefix for Digest {
    fn is_beside(&self, other: &Digest) -> bool {
        self.text_len() == other.text_len()
    }

    fn first(&self) -> u64 {
        first_bytes(self.bytes())
    }

    fn compare_last(&self, other: &Digest) -> Ordering {
        self.cmp(other)
    }

    fn compare(&self, other: &Digest) -> Ordering {
        self.cmp(other)
    }
}

impl HasPrefix for ContentRow {
    fn is_beside(&self, other: &ContentRow) -> bool {
        self.digest.is_beside(&other.digest) && self.ns == other.ns
    }

    fn first(&self) -> u64 {
        self.digest.first()
    }

    fn compare_last(&self, other: &ContentRow) -> Ordering {
        self.digest.cmp(&other.digest)
    }

    fn compare(&self, other: &ContentRow) -> Ordering {
        self.ns.cmp(&other.ns).then(self.digest.cmp(&other.digest))
    }
}

impl HasPrefix for SnapRow {
    fn is_beside(&self, other: &SnapRow) -> bool {
        self.key.snapshotter == other.key.snapshotter && self.key.ns == other.key.ns
    }

    fn first(&self) -> u64 {
        first_bytes(self.key.name.text().as_bytes())
    }

    fn compare_last(&self, other: &SnapRow) -> Ordering {
        self.key.name.cmp(&other.key.name)
    }

    fn compare(&self, other: &SnapRow) -> Ordering {
        let a = &self.key;
        let b = &other.key;
        a.ns.cmp(&b.ns)
            .then(a.snapshotter.cmp(&b.snapshotter))
            .then(a.name.cmp(&b.name))
    }
}

/// A removal, the first bytes of its name, and the number of the names beside its own.
#[derive(Drop)]
pub(crate) struct Prefixed<'a, R> {
    first: u64,
    group: u32,
    pub(crate) row: &'a R,
}

// The number of the names beside which the next one stands.
fn group_of<R: HasPrefix>(near: &[Prefixed<'_, R>], row: &R) -> u32 {
    let Some(last) = near.last() else {
        return 0;
    };
    if last.row.is_beside(row) {
        return last.group;
    }
    last.group.saturating_add(1)
}

pub(crate) fn push_prefixed<'a, R: HasPrefix>(
    row: &'a R,
    stays: bool,
    near: &mut Vec<Prefixed<'a, R>>,
) -> Result<(), Fault>
    ensures fault { Refuses result None }
    ensures ok { OnOk result (map (λ one. one.row.now) near.new.items
        ≡ map (λ one. one.row.now) near.old.items ++ (if stays then [] else row.now ∷ [])) }
{
    if !stays {
        let group = group_of(near, row);
        near.push(Prefixed {
            first: row.first(),
            group,
            row,
        })?;
    }
    Ok(())
}

/// Adds those in a slice that are removed.
pub(crate) fn push_all_prefixed<'a, R: HasPrefix>(
    rows: &'a [R],
    mask: &[bool],
    near: &mut Vec<Prefixed<'a, R>>,
) -> Result<(), Fault>
    requires { length mask.now ≡ length rows.now }
    ensures fault { Refuses result None }
    ensures ok { OnOk result (map (λ one. one.row.now) near.new.items
        ≡ map (λ one. one.row.now) near.old.items ++ gone mask.now rows.now) }
{
    for (i, row) in rows.iter().enumerate() {
        push_prefixed(row, mask[i], near)?;
    }
    Ok(())
}

// The removed rows, as they arrived.
fn prefixed_of<'a, R: HasPrefix>(
    alloc: Global,
    rows: &Slices<'a, R>,
    mask: &[bool],
) -> Result<Vec<Prefixed<'a, R>>, Fault>
    requires { length mask.now ≡ length rows.now }
    ensures fault { Refuses result None }
    ensures ok { IfOk result (λ near. map (λ one. one.row.now) near.items
        ≡ gone mask.now rows.now) }
{
    let mut near = Vec::with_capacity(alloc, count_removed(mask))?;
    let mut rest = mask;
    let slices = rows.as_slices();
    for slice in slices {
        let (here, behind) = rest.split_at(slice.len());
        push_all_prefixed(*slice, here, &mut near)?;
        rest = behind;
    }
    Ok(near)
}

fn compare<R: HasPrefix>(a: &Prefixed<'_, R>, b: &Prefixed<'_, R>) -> Ordering {
    if a.group != b.group {
        return a.row.compare(b.row);
    }
    if a.first != b.first {
        return a.first.cmp(&b.first);
    }
    a.row.compare_last(b.row)
}

/// The same, nearly in order.
pub(crate) fn in_prefix_order<'a, R: HasPrefix>(near: Vec<Prefixed<'a, R>>) -> Vec<Prefixed<'a, R>>
    ensures { IsPermutation (map (λ one. one.row.now) near.entry.items)
        (map (λ one. one.row.now) result.items) }
{
    let mut near = near;
    near.sort_unstable_by(|a, b| compare(a, b));
    near
}

/// The removed rows, nearly in order.
pub(crate) fn sorted_by_prefix<'a, R: HasPrefix>(
    alloc: Global,
    rows: &Slices<'a, R>,
    mask: &[bool],
) -> Result<Vec<Prefixed<'a, R>>, Fault>
    requires { length mask.now ≡ length rows.now }
    ensures fault { Refuses result None }
    ensures ok { IfOk result (λ near. IsPermutation (gone mask.now rows.now)
        (map (λ one. one.row.now) near.items)) }
{
    let near = prefixed_of(alloc, rows, mask)?;
    let near = in_prefix_order(near);
    Ok(near)
}
