//! Images: names for the content that they run from.
ghost use Rattle.std.specs.Prelude.{◌≡◌, ◌∷◌, [], None, IfOk, OnOk, OnErr, bytes_eq, filter, map, option_copied};
ghost use Rattle.meta_types.specs.Changes.{has_namespace};
ghost use Rattle.meta_types.specs.Keys.{row_at, has_row, add_row, remove_row, change_row};
ghost use Rattle.meta_types.specs.Labels.{put_label};
ghost use Rattle.meta_types.specs.Rows.{image_key};
ghost use Rattle.meta_types.specs.Faults.{Refuses, OnlyRefuses};
ghost use Rattle.std.specs.Bool.{OnFalse};
ghost use Rattle.std.proofs.Common.{ap};
ghost use Rattle.object_tables.specs.Edits.{with_target, image_with};
ghost use Rattle.object_tables.specs.Calls.{adding_fault, missing_fault, labelling_fault};

use crate::parts::set_parts;
use crate::stored::relabel;
use crate::tables::Tables;
use meta_types::{Data, Digest, Fault, ImageRow, Labels, Name, ShortName};
use row_tables::{ByNamespace, Change};
use std::alloc::Global;

/// Other content for an image to run from.
#[derive(Drop)]
struct Target {
    target: Digest,
}

impl Change<Name, ImageRow, ()> for Target {
    ghost changes = { λ c old answer new. new ≡ with_target c.target old };

    ghost keeps_name = { λ c old answer new is. ap (λ row. row.name) is };

    fn change(self, row: &mut ImageRow) {
        row.target = self.target;
    }
}

impl Tables {
    /// The row of an image.
    pub fn get_image(&self, ns: &ShortName, name: &Name) -> Option<&ImageRow>
        ensures { option_copied result ≡ row_at image_key (ns.now ∷ name.now ∷ []) self.now.images }
    {
        self.images.get(ns, name)
    }

    /// Whether the image is there.
    pub fn has_image(&self, ns: &ShortName, name: &Name) -> bool
        ensures { result ≡ has_row image_key (ns.now ∷ name.now ∷ []) self.now.images }
    {
        self.images.has(ns, name)
    }

    /// The images of a namespace, in the order of their names.
    pub fn images_in(&self, alloc: Global, ns: &ShortName) -> Result<Vec<&ImageRow>, Fault>
        ensures fault { Refuses result (missing_fault (has_namespace self.now ns.now)) }
        ensures ok { IfOk result (λ list. map (λ row. row.now) list.items
            ≡ filter (λ row. bytes_eq ns.now row.ns) self.now.images) }
    {
        if !self.has_ns(ns) {
            return Err(Fault::NotFound);
        }
        // For the prover: the result is opened, not passed on.
        let rows = self.images.rows_in(alloc, ns)?;
        Ok(rows)
    }

    /// Adds an image's row.
    pub fn add_image(&mut self, alloc: Global, row: ImageRow) -> Result<(), Fault>
        ensures fault { Refuses result (adding_fault self.old row.ns (has_row image_key
            (image_key row) self.old.images)) }
        ensures ok { OnOk result (self.new ≡ record self.old
            { images = add_row image_key row self.old.images }) }
        ensures err { OnErr result (self.new ≡ self.old) }
    {
        if !self.has_ns(&row.ns) {
            return Err(Fault::NotFound);
        }
        self.images.add_new(alloc, row)
    }

    /// Removes an image's row.
    pub fn remove_image(&mut self, ns: &ShortName, name: &Name) -> Result<(), Fault>
        ensures fault { OnlyRefuses result (missing_fault (has_row image_key (ns.now ∷ name.now
            ∷ []) self.old.images)) }
        ensures left { self.new ≡ record self.old {
          images = remove_row image_key (ns.now
              ∷ name.now ∷ []) self.old.images;
        } }
        ensures err { OnErr result (self.new ≡ self.old) }
    {
        if self.images.remove(ns, name) {
            Ok(())
        } else {
            Err(Fault::NotFound)
        }
    }

    /// Sets an image's target.
    pub fn set_target(&mut self, ns: &ShortName, name: &Name, target: Digest) -> Result<(), Fault>
        ensures fault { OnlyRefuses result (missing_fault (has_row image_key (ns.now ∷ name.now
            ∷ []) self.old.images)) }
        ensures left { self.new ≡ record self.old {
          images = change_row image_key (ns.now
              ∷ name.now ∷ []) (λ row. record row { target = target }) self.old.images;
        } }
        ensures err { OnErr result (self.new ≡ self.old) }
    {
        if set_target(&mut self.images, ns, name, target) {
            Ok(())
        } else {
            Err(Fault::NotFound)
        }
    }

    /// Sets all that an image has but its name.
    pub fn set_image(
        &mut self,
        ns: &ShortName,
        name: &Name,
        target: Digest,
        labels: Labels,
        extra: Data,
    ) -> Result<(), Fault>
        ensures fault { OnlyRefuses result (missing_fault (has_row image_key (ns.now ∷ name.now
            ∷ []) self.old.images)) }
        ensures left { self.new ≡ record self.old {
          images = change_row image_key (ns.now ∷ name.now ∷ [])
              (image_with target labels extra) self.old.images;
        } }
        ensures err { OnErr result (self.new ≡ self.old) }
    {
        if set_parts(&mut self.images, ns, name, target, labels, extra) {
            Ok(())
        } else {
            Err(Fault::NotFound)
        }
    }

    /// Puts one label on an image.
    pub fn relabel_image(
        &mut self,
        alloc: Global,
        ns: &ShortName,
        name: &Name,
        key: &str,
        value: &str,
    ) -> Result<(), Fault>
        ensures fault { Refuses result (labelling_fault (λ row. row.labels) key.now value.now
            (row_at image_key (ns.now ∷ name.now ∷ []) self.old.images)) }
        ensures ok { OnOk result (self.new ≡ record self.old {
          images = change_row image_key
              (ns.now ∷ name.now ∷ []) (λ row. record row
              { labels = put_label key.now value.now row.labels }) self.old.images;
        }) }
        ensures err { OnErr result (self.new ≡ self.old) }
    {
        relabel(&mut self.images, alloc, ns, name, key, value)
    }
}

fn set_target(
    images: &mut ByNamespace<Name, ImageRow>,
    ns: &ShortName,
    name: &Name,
    target: Digest,
) -> bool
    ensures found { result ≡ has_row image_key (ns.now ∷ name.now ∷ []) images.old }
    ensures left { images.new ≡ change_row image_key (ns.now ∷ name.now ∷ [])
        (λ row. record row { target = target }) images.old }
    ensures same { OnFalse result (images.new ≡ images.old) }
{
    match images.change(ns, name, Target { target }) {
        Some(()) => true,
        None => false,
    }
}
