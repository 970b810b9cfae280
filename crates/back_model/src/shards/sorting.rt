//! Shards are put in the order of their snapshotters.
ghost use Rattle.std.specs.Prelude.{◌≡◌, map, None, IfOk};
ghost use Rattle.meta_types.specs.Faults.{Refuses};
ghost use Rattle.meta_types.specs.Text.{text_cmp};
ghost use Rattle.back_model.specs.Shown.{shown};
ghost use Rattle.back_model.specs.Settled.{snapshotters_of, AreOnce, PutsInOrder};

use crate::traits::SnapBackend;
use meta_types::{Fault, ShortName};
use std::alloc::Global;
use std::cmp::Ordering;

fn compare<S: SnapBackend>(a: &(ShortName, S), b: &(ShortName, S)) -> Ordering
    ensures { result ≡ text_cmp a.now.0 b.now.0 }
{
    a.0.cmp(&b.0)
}

/// Puts shards in order. It takes no memory.
pub(crate) fn sort<S: SnapBackend>(shards: &mut Vec<(ShortName, S)>)
    requires { AreOnce (snapshotters_of (map (shown S.contents S.fails) shards.old.items)) }
    ensures { PutsInOrder (map (shown S.contents S.fails) shards.old.items)
        (map (shown S.contents S.fails) shards.new.items) }
{
    shards.sort_unstable_by(|a, b| compare(a, b));
}

fn borrow_all<'a, S: SnapBackend>(
    alloc: Global,
    shards: &'a [(ShortName, S)],
) -> Result<Vec<&'a (ShortName, S)>, Fault>
    ensures fault { Refuses result None }
    ensures ok { IfOk result (λ list. map (λ entry. entry.now) list.items ≡ shards.now) }
{
    let mut list = Vec::with_capacity(alloc, shards.len())?;
    for entry in shards {
        list.push(entry)?;
    }
    Ok(list)
}

/// The shards, lent in order.
pub(crate) fn in_order<'a, S: SnapBackend>(
    alloc: Global,
    shards: &'a [(ShortName, S)],
) -> Result<Vec<&'a (ShortName, S)>, Fault>
    requires { AreOnce (snapshotters_of (map (shown S.contents S.fails) shards.now)) }
    ensures fault { Refuses result None }
    ensures ok { IfOk result (λ list. PutsInOrder (map (shown S.contents S.fails) shards.now)
        (map (λ entry. shown S.contents S.fails entry.now) list.items)) }
{
    let mut list = borrow_all(alloc, shards)?;
    list.sort_unstable_by(|a, b| compare(a, b));
    Ok(list)
}
