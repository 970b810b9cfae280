//! The place of a namespace among others.
ghost use Rattle.std.specs.Prelude.{◌≡◌, ◌<◌, false, IfSome, IfNone, Some, length, slice_get};
ghost use Rattle.meta_types.specs.Keys.{has_row};
ghost use Rattle.meta_types.specs.Rows.{namespace_key};

use crate::seed::Seed;
use indexmap::IndexMap;
use meta_types::ShortName;

/// Where the namespace is, if it has rows.
pub(crate) fn home<G>(groups: &IndexMap<ShortName, G, Seed>, ns: &ShortName) -> Option<usize>
    ensures found { IfSome result (λ place. (rows : G)
        × (slice_get groups.now.entries place ≡ Some (ns.now, rows))) }
    ensures none { IfNone result (has_row (λ group. namespace_key group.0)
        (namespace_key ns.now) groups.now.entries ≡ false) }
    ensures within { IfSome result (λ place. place < length groups.now.entries) }
{
    groups.get_index_of(ns)
}

/// The name of the namespace at a place.
pub(crate) fn name_at<G>(groups: &IndexMap<ShortName, G, Seed>, home: usize) -> &ShortName
    requires { home < length groups.now.entries }
    ensures { (group : _ × G) → slice_get groups.now.entries home ≡ Some group → result.now
        ≡ group.0 }
{
    &groups.keys().as_slice()[home]
}
