//! The names of one snapshotter, cut out of the names of a report: they stand together.
ghost use Rattle.std.specs.Prelude.{◌≡◌, ◌≤◌, true, false, length, filter, bytes_eq};
ghost use Rattle.std.specs.List.{slice_range};
ghost use Rattle.std.specs.List.Sorted.{IsPartitionPoint};
ghost use Rattle.std.specs.Ordering.{is_lt, is_le};
ghost use Rattle.meta_types.specs.Text.{text_cmp};
ghost use Rattle.backend_sweep.specs.Parts.{StandBySnapshotter};

use meta_types::ShortName;

// How many names stand before those of a snapshotter, by halving.
fn begin_of(names: &[(ShortName, u64)], snapshotter: &ShortName) -> usize
    requires { StandBySnapshotter names.now }
    ensures bound { result ≤ length names.now }
    ensures point { IsPartitionPoint (λ name. is_lt (text_cmp name.0 snapshotter.now) ≡ true)
        (λ name. is_lt (text_cmp name.0 snapshotter.now) ≡ false) names.now result }
{
    names.partition_point(
        |name: &(ShortName, u64)| -> bool
            ensures { result ≡ is_lt (text_cmp name.now.0 snapshotter.entry.now) }
        { name.0.cmp(snapshotter).is_lt() },
    )
}

// How many names stand before those of the next snapshotter, by halving.
fn end_of(names: &[(ShortName, u64)], snapshotter: &ShortName) -> usize
    requires { StandBySnapshotter names.now }
    ensures bound { result ≤ length names.now }
    ensures point { IsPartitionPoint (λ name. is_le (text_cmp name.0 snapshotter.now) ≡ true)
        (λ name. is_le (text_cmp name.0 snapshotter.now) ≡ false) names.now result }
{
    names.partition_point(
        |name: &(ShortName, u64)| -> bool
            ensures { result ≡ is_le (text_cmp name.now.0 snapshotter.entry.now) }
        { name.0.cmp(snapshotter).is_le() },
    )
}

fn names_between(names: &[(ShortName, u64)], begin: usize, end: usize) -> &[(ShortName, u64)]
    requires order { begin ≤ end }
    requires within { end ≤ length names.now }
    ensures { result.now ≡ slice_range names.now begin end }
{
    &names[begin..end]
}

/// The names of a snapshotter.
pub(crate) fn part_of<'a>(
    names: &'a [(ShortName, u64)],
    snapshotter: &ShortName,
) -> &'a [(ShortName, u64)]
    requires { StandBySnapshotter names.now }
    ensures { result.now ≡ filter (λ name. bytes_eq name.0 snapshotter.now) names.now }
{
    let begin = begin_of(names, snapshotter);
    let end = end_of(names, snapshotter);
    names_between(names, begin, end)
}
