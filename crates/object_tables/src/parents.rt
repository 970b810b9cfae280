//! Which snapshots others stand over.
ghost use Rattle.std.specs.Prelude.{◌≡◌};
ghost use Rattle.object_tables.specs.Calls.{has_children};

use crate::tables::Tables;
use meta_types::SnapKey;

impl Tables {
    /// Whether the snapshot is the parent of another.
    pub fn is_parent(&self, key: &SnapKey) -> bool
        ensures { result ≡ has_children key.now.ns key.now.snapshotter key.now.name
            self.now.snapshots }
    {
        self.snapshots.is_parent(key)
    }
}
