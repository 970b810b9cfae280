//! Content, as each namespace sees it.
ghost use Rattle.std.specs.Prelude.{◌≡◌, ◌∷◌, [], IfOk, OnOk, OnErr, option_copied, bytes_eq, filter, map};
ghost use Rattle.meta_types.specs.Changes.{has_namespace};
ghost use Rattle.meta_types.specs.Keys.{row_at, has_row, add_row, remove_row, change_row};
ghost use Rattle.meta_types.specs.Labels.{put_label};
ghost use Rattle.meta_types.specs.Rows.{content_key};
ghost use Rattle.meta_types.specs.Faults.{Refuses, OnlyRefuses};
ghost use Rattle.object_tables.specs.Edits.{content_with};
ghost use Rattle.object_tables.specs.Calls.{adding_fault, missing_fault, labelling_fault};

use crate::parts::set_parts;
use crate::stored::relabel;
use crate::tables::Tables;
use meta_types::{ContentRow, Data, Digest, Fault, Labels, ShortName};
use std::alloc::Global;

impl Tables {
    /// The row of content.
    pub fn get_content(&self, ns: &ShortName, digest: &Digest) -> Option<&ContentRow>
        ensures { option_copied result ≡ row_at content_key (ns.now ∷ digest.now
            ∷ []) self.now.content }
    {
        self.content.get(ns, digest)
    }

    /// Whether the content is there.
    pub fn has_content(&self, ns: &ShortName, digest: &Digest) -> bool
        ensures { result ≡ has_row content_key (ns.now ∷ digest.now ∷ []) self.now.content }
    {
        self.content.has(ns, digest)
    }

    /// The content of a namespace, in the order of the digests.
    pub fn content_in(&self, alloc: Global, ns: &ShortName) -> Result<Vec<&ContentRow>, Fault>
        ensures fault { Refuses result (missing_fault (has_namespace self.now ns.now)) }
        ensures ok { IfOk result (λ list. map (λ row. row.now) list.items
            ≡ filter (λ row. bytes_eq ns.now row.ns) self.now.content) }
    {
        if !self.has_ns(ns) {
            return Err(Fault::NotFound);
        }
        // For the prover: the result is opened, not passed on.
        let rows = self.content.rows_in(alloc, ns)?;
        Ok(rows)
    }

    /// Adds a row of content.
    pub fn add_content(&mut self, alloc: Global, row: ContentRow) -> Result<(), Fault>
        ensures fault { Refuses result (adding_fault self.old row.ns (has_row content_key
            (content_key row) self.old.content)) }
        ensures ok { OnOk result (self.new ≡ record self.old
            { content = add_row content_key row self.old.content }) }
        ensures err { OnErr result (self.new ≡ self.old) }
    {
        if !self.has_ns(&row.ns) {
            return Err(Fault::NotFound);
        }
        self.content.add_new(alloc, row)
    }

    /// Removes a row of content.
    pub fn remove_content(&mut self, ns: &ShortName, digest: &Digest) -> Result<(), Fault>
        ensures fault { OnlyRefuses result (missing_fault (has_row content_key (ns.now
            ∷ digest.now ∷ []) self.old.content)) }
        ensures left { self.new ≡ record self.old {
          content = remove_row content_key (ns.now
              ∷ digest.now ∷ []) self.old.content;
        } }
        ensures err { OnErr result (self.new ≡ self.old) }
    {
        if self.content.remove(ns, digest) {
            Ok(())
        } else {
            Err(Fault::NotFound)
        }
    }

    /// Sets the labels and the data of content.
    pub fn set_content(
        &mut self,
        ns: &ShortName,
        digest: &Digest,
        labels: Labels,
        extra: Data,
    ) -> Result<(), Fault>
        ensures fault { OnlyRefuses result (missing_fault (has_row content_key (ns.now
            ∷ digest.now ∷ []) self.old.content)) }
        ensures left { self.new ≡ record self.old {
          content = change_row content_key (ns.now ∷ digest.now ∷ [])
              (content_with labels extra) self.old.content;
        } }
        ensures err { OnErr result (self.new ≡ self.old) }
    {
        if set_parts(&mut self.content, ns, digest, (), labels, extra) {
            Ok(())
        } else {
            Err(Fault::NotFound)
        }
    }

    /// Puts one label on content.
    pub fn relabel_content(
        &mut self,
        alloc: Global,
        ns: &ShortName,
        digest: &Digest,
        key: &str,
        value: &str,
    ) -> Result<(), Fault>
        ensures fault { Refuses result (labelling_fault (λ row. row.labels) key.now value.now
            (row_at content_key (ns.now ∷ digest.now ∷ []) self.old.content)) }
        ensures ok { OnOk result (self.new ≡ record self.old {
          content = change_row content_key
              (ns.now ∷ digest.now ∷ []) (λ row. record row
              { labels = put_label key.now value.now row.labels }) self.old.content;
        }) }
        ensures err { OnErr result (self.new ≡ self.old) }
    {
        relabel(&mut self.content, alloc, ns, digest, key, value)
    }
}
