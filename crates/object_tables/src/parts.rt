//! Parts of a row that a request replaces: its labels, its data, and what its kind has beside.
ghost use Rattle.std.specs.Prelude.{◌≡◌, ◌∷◌, [], refl};
ghost use Rattle.std.specs.Bool.{OnFalse};
ghost use Rattle.std.proofs.Common.{ap, ◌∙◌};
ghost use Rattle.meta_types.specs.Text.{Text};
ghost use Rattle.meta_types.specs.Keys.{has_row, change_row};
ghost use Rattle.meta_types.specs.Labels.{LabelList};
ghost use Rattle.meta_types.specs.Rows.{snap_key};
ghost use Rattle.row_tables.specs.Namespaces.{full_key};
ghost use Rattle.object_tables.specs.Edits.{image_with, container_with, content_with, snap_with};

use meta_types::{
    ContainerRow, ContentRow, Data, Digest, ImageRow, Labels, Name, ShortName, SnapKey, SnapRow,
};
use row_tables::{ByNamespace, BySnapshotter, Change, GroupedRow, Named};

/// A row whose labels and data a request replaces, with a part of its kind's own.
pub(crate) trait SetRow<K: Named, P>: GroupedRow<K> {
    /// The row with other parts.
    ghost with_parts: { P → LabelList → Text → Self → Self };

    /// Sets the parts.
    fn set_parts(&mut self, own: P, labels: Labels, extra: Data)
        ensures { self.new ≡ with_parts own labels extra self.old };

    /// None of them is part of a name.
    ghost parts_keep_name: { (own : P) (labels : LabelList) (extra : Text) (row : Self) →
        Self.name_of (with_parts own labels extra row) ≡ Self.name_of row };

    /// Nor of a group.
    ghost parts_keep_group: { (own : P) (labels : LabelList) (extra : Text) (row : Self) →
        Self.group_of (with_parts own labels extra row) ≡ Self.group_of row };
}

/// Other labels, other data, and another part of the kind's own.
#[derive(Drop)]
struct Parts<P> {
    own: P,
    labels: Labels,
    extra: Data,
}

impl<K: Named, P: Drop, R: SetRow<K, P>> Change<K, R, ()> for Parts<P> {
    ghost changes = { λ c old answer new. new ≡ R.with_parts c.own c.labels c.extra old };

    ghost keeps_name = { λ c old answer new is. ap R.name_of is
        ∙ R.parts_keep_name c.own c.labels c.extra old };

    fn change(self, row: &mut R) {
        row.set_parts(self.own, self.labels, self.extra)
    }
}

/// Sets the parts of the row of a namespace and a name; says whether it is there.
pub(crate) fn set_parts<K: Named, P: Drop, R: SetRow<K, P>>(
    table: &mut ByNamespace<K, R>,
    ns: &ShortName,
    name: &K,
    own: P,
    labels: Labels,
    extra: Data,
) -> bool
    ensures found { result ≡ has_row (full_key K.texts_of R.name_of R.group_of)
        (ns.now ∷ K.texts_of name.now) table.old }
    ensures left { table.new ≡ change_row (full_key K.texts_of R.name_of R.group_of)
        (ns.now ∷ K.texts_of name.now) (R.with_parts own labels extra) table.old }
    ensures same { OnFalse result (table.new ≡ table.old) }
{
    match table.change(ns, name, Parts { own, labels, extra }) {
        Some(()) => true,
        None => false,
    }
}

/// Sets labels and data of a snapshot; says whether it is there.
pub(crate) fn set_snap(
    table: &mut BySnapshotter<Name, SnapRow>,
    at: &SnapKey,
    labels: Labels,
    extra: Data,
) -> bool
    ensures found { result ≡ has_row snap_key
        (at.now.ns ∷ at.now.snapshotter ∷ at.now.name ∷ []) table.old }
    ensures left { table.new ≡ change_row snap_key
        (at.now.ns ∷ at.now.snapshotter ∷ at.now.name ∷ []) (snap_with labels extra) table.old }
    ensures same { OnFalse result (table.new ≡ table.old) }
{
    let own = ();
    let parts = Parts { own, labels, extra };
    let group = &at.snapshotter;
    match table.change(&at.ns, group, &at.name, parts) {
        Some(()) => true,
        None => false,
    }
}

impl SetRow<Name, Digest> for ImageRow {
    ghost with_parts = { image_with };

    fn set_parts(&mut self, own: Digest, labels: Labels, extra: Data) {
        self.target = own;
        self.labels = labels;
        self.extra = extra;
    }

    ghost parts_keep_name = { λ _ _ _ _. refl };

    ghost parts_keep_group = { λ _ _ _ _. refl };
}

impl SetRow<Name, Option<(ShortName, Name)>> for ContainerRow {
    ghost with_parts = { container_with };

    fn set_parts(&mut self, own: Option<(ShortName, Name)>, labels: Labels, extra: Data) {
        self.snapshot = own;
        self.labels = labels;
        self.extra = extra;
    }

    ghost parts_keep_name = { λ _ _ _ _. refl };

    ghost parts_keep_group = { λ _ _ _ _. refl };
}

impl SetRow<Digest, ()> for ContentRow {
    ghost with_parts = { λ own. content_with };

    fn set_parts(&mut self, own: (), labels: Labels, extra: Data) {
        // Its kind has no part of its own.
        let _own = own;
        self.labels = labels;
        self.extra = extra;
    }

    ghost parts_keep_name = { λ _ _ _ _. refl };

    ghost parts_keep_group = { λ _ _ _ _. refl };
}

impl SetRow<Name, ()> for SnapRow {
    ghost with_parts = { λ own. snap_with };

    fn set_parts(&mut self, own: (), labels: Labels, extra: Data) {
        // Its kind has no part of its own.
        let _own = own;
        self.labels = labels;
        self.extra = extra;
    }

    ghost parts_keep_name = { λ _ _ _ _. refl };

    ghost parts_keep_group = { λ _ _ _ _. refl };
}
