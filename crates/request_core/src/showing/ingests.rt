//! The rows of requests on ingests.
#![tactic(auto, unfolding(crate::specs::Foreseen::ShowsRow))]

ghost use Rattle.meta_types.specs.declared.request.Request.TheVariants as R;
ghost use Rattle.request_core.specs.Foreseen.{ShowsRow};

use crate::ops::ingests::reopened_end;
use crate::read::names::read_object;
use crate::read::rows::{read_begin, read_ingest_commit};
use crate::refusal::Refusal;
use crate::showing::plain;
use crate::state::State;
use back_model::{BlobBackend, IngestBackend, SnapBackend};
use meta_types::{ContentRow, IngestBegin, IngestCommit, IngestRow, RawName, ReplyRow, ShownRow};
use std::alloc::Global;

impl<S: SnapBackend, B: BlobBackend, I: IngestBackend> State<S, B, I> {
    pub(crate) fn show_ingest_begin(
        &self,
        alloc: Global,
        asked: &IngestBegin,
    ) -> Result<Option<ShownRow>, Refusal>
        ensures { ShowsRow self.now.state (R.IngestBegin asked.now) result }
    {
        let (ns, name, expires, expected, lease, extra) = read_begin(alloc, asked)?;
        // The row doesn't name its lease.
        let _lease = lease;
        let row = IngestRow {
            ns,
            name,
            expected,
            expires,
            number: self.records.next,
            extra,
        };
        Ok(plain(ReplyRow::Ingest(row)))
    }

    pub(crate) fn show_ingest_open(
        &self,
        alloc: Global,
        asked: &IngestBegin,
    ) -> Result<Option<ShownRow>, Refusal>
        ensures { ShowsRow self.now.state (R.IngestOpen asked.now) result }
    {
        let (ns, name, expires, expected, lease, extra) = read_begin(alloc, asked)?;
        // The row doesn't name its lease.
        let _lease = lease;
        match self.records.tables.get_ingest(&ns, &name) {
            Some(row) => {
                let expires = reopened_end(expires, row);
                let mut row = row.copy()?;
                row.expires = expires;
                Ok(plain(ReplyRow::Ingest(row)))
            }
            None => {
                let row = IngestRow {
                    ns,
                    name,
                    expected,
                    expires,
                    number: self.records.next,
                    extra,
                };
                Ok(plain(ReplyRow::Ingest(row)))
            }
        }
    }

    pub(crate) fn show_ingest_commit(
        &self,
        alloc: Global,
        asked: &IngestCommit,
    ) -> Result<Option<ShownRow>, Refusal>
        ensures { ShowsRow self.now.state (R.IngestCommit asked.now) result }
    {
        let (ns, name, digest, parts, holders) = read_ingest_commit(alloc, asked)?;
        // The row names neither the ingest nor a lease.
        let _name = name;
        let _holders = holders;
        let row = ContentRow {
            ns,
            digest,
            labels: parts.labels,
            extra: parts.extra,
        };
        Ok(plain(ReplyRow::Content(row)))
    }

    pub(crate) fn show_ingest_get(
        &self,
        alloc: Global,
        ingest: &RawName,
    ) -> Result<Option<ShownRow>, Refusal>
        ensures { ShowsRow self.now.state (R.IngestGet ingest.now) result }
    {
        let (ns, name) = read_object(alloc, ingest)?;
        let Some(row) = self.records.tables.get_ingest(&ns, &name) else {
            return Ok(None);
        };
        let row = row.copy()?;
        Ok(plain(ReplyRow::Ingest(row)))
    }
}
