//! Records whose rows stand as they arrived.
ghost use Rattle.std.specs.Prelude.{◌≡◌, None, IfOk, option_copied, false};
ghost use Rattle.meta_types.specs.Limits.{is_too_large};
ghost use Rattle.steal_mark.specs.Refusing.{RefusesThreads};
ghost use Rattle.collection.specs.Arrived.{in_order, arrived_in};
ghost use Rattle.collection.specs.Leaving.{IsPlanLess};
ghost use Rattle.collection.specs.Stores.{records_in};
ghost use Rattle.table_sweep.specs.Backed.{lists_of};
ghost use Rattle.table_sweep.specs.BlobMarks.{AreBlobMarks};

use crate::crew::CollectionCrew;
use crate::leaving::{Planned, leave};
use crate::planning::plan_listed;
use crate::removal::RemovedRow;
use backend_sweep::SweepGate;
use gc_graph::ListedRows;
use lease_book::{Lease, Leases};
use meta_types::{Fault, Instant, Name};
use object_tables::{ArrivedTables, Tables};
use request_core::Records;
use row_tables::ArrivedByNamespace;
use std::alloc::Global;
use std::mem;
use std::sync::Wait;
use std::thread::Threads;
use steal_mark::Gate;
use table_sweep::BackRows;

/// The records of a store as they arrived. A row's place is its number.
#[derive(Drop)]
pub(crate) struct ArrivedRecords {
    pub(crate) tables: ArrivedTables,
    pub(crate) leases: ArrivedByNamespace<Name, Lease>,
    pub(crate) next: u64,
    pub(crate) profile: u8,
}

/// A collection that is asked for: its moment, and the row that is removed with it.
#[derive(Drop)]
pub(crate) struct CollectionTask<'n> {
    pub(crate) at: Instant,
    pub(crate) without: Option<&'n RemovedRow>,
}

impl ArrivedRecords {
    /// The plan of a collection of these records without what is named. Its masks are of the rows that
    /// are listed.
    pub(crate) fn plan<R: Threads + Wait + Sync, G: Gate, H: SweepGate>(
        &self,
        crew: &CollectionCrew<'_, R, G, H>,
        back: &BackRows<'_>,
        task: &CollectionTask<'_>,
    ) -> Result<Planned, Fault>
        requires few { is_too_large (records_in (in_order self.now)) ≡ false }
        ensures fault { RefusesThreads result None }
        ensures ok { IfOk result (IsPlanLess (arrived_in self.now) (option_copied task.now.without)
            (lists_of back.now) task.now.at.0) }
        ensures blobs { IfOk result (λ planned. AreBlobMarks planned.plan.report.backend.blobs
            back.now.blobs.now planned.plan.blobs.items) }
    {
        let arrived = self.tables.rows();
        let namespaces = self.tables.count_ns();
        let alloc = crew.alloc;
        let mut listed = ListedRows::new(alloc, &arrived, &self.leases, self.profile)?;
        let others = leave(alloc, &mut listed, task.without)?;
        let plan = plan_listed(crew, &listed, namespaces, back, task.at)?;
        Ok(Planned { others, plan })
    }
}

// Takes the rows out; empty records stand there until `put_back`. It takes no memory.
pub(crate) fn take_out(alloc: Global, records: &mut Records) -> ArrivedRecords
    ensures { in_order result ≡ records.old }
{
    let whole = mem::replace(records, Records::empty(alloc));
    ArrivedRecords {
        tables: whole.tables.into_arrived(),
        leases: whole.leases.into_arrived(),
        next: whole.next,
        profile: whole.profile,
    }
}

// Puts the rows back.
pub(crate) fn put_back(records: &mut Records, arrived: ArrivedRecords)
    ensures { records.new ≡ in_order arrived }
{
    *records = Records {
        tables: Tables::from_arrived(arrived.tables),
        leases: Leases::from_arrived(arrived.leases),
        next: arrived.next,
        profile: arrived.profile,
    };
}
