//! The row that is removed with a collection: it isn't listed, and goes with the sweep.
ghost use Rattle.std.specs.Prelude.{◌≡◌, Some, None, IfOk, option_copied};
ghost use Rattle.meta_types.specs.Collected.{collected_records};
ghost use Rattle.meta_types.specs.Faults.{Refuses};
ghost use Rattle.meta_types.specs.Rows.{lease_key};
ghost use Rattle.row_tables.specs.Arrived.{sorted};
ghost use Rattle.object_tables.specs.InKeyOrder.{in_key_order};
ghost use Rattle.table_sweep.specs.InKeyOrder.{records_in_key_order};
ghost use Rattle.table_sweep.specs.Stays.{AreMasks, FitRows, StayNumbered, Collection};
ghost use Rattle.collection.specs.Leaving.{AreOthers, FitOthers, tables_by, leases_by, listed_by};

use crate::removal::RemovedRow;
use gc_graph::ListedRows;
use lease_book::Lease;
use meta_types::{Fault, Name};
use object_tables::ArrivedTables;
use row_tables::ArrivedByNamespace;
use std::alloc::Global;
use table_sweep::{Plan, sweep};

/// Which rows are listed: all, or of one kind, by their places, those whose mark is set.
#[derive(Drop)]
pub(crate) enum Others {
    All,
    Images(Vec<bool>),
    Leases(Vec<bool>),
}

impl Others {
    // Keeps the rows that are listed. It takes no memory.
    fn keep(&self, tables: &mut ArrivedTables, leases: &mut ArrivedByNamespace<Name, Lease>)
        requires { FitOthers self.now tables.old.images leases.old }
        ensures tables { tables.new ≡ tables_by self.now tables.old }
        ensures leases { leases.new ≡ leases_by self.now leases.old }
    {
        match self {
            Others::All => {}
            Others::Images(marks) => tables.retain_images(marks),
            Others::Leases(marks) => leases.retain(marks),
        }
    }
}

// Takes what is named out of the list, and tells which rows are left in it.
fn leave_named(
    alloc: Global,
    listed: &mut ListedRows<'_>,
    named: &RemovedRow,
) -> Result<Others, Fault>
    ensures fault { Refuses result None }
    ensures others { IfOk result (AreOthers (Some named.now) listed.old.tables.images
        listed.old.leases) }
    ensures left { IfOk result (λ others. listed.new ≡ listed_by others listed.old) }
{
    match named {
        RemovedRow::Image(ns, name) => {
            let marks = listed.other_images(alloc, ns, name)?;
            listed.leave_image(ns, name);
            Ok(Others::Images(marks))
        }
        RemovedRow::Lease(ns, id) => {
            let marks = listed.other_leases(alloc, ns, id)?;
            listed.leave_lease(ns, id);
            Ok(Others::Leases(marks))
        }
    }
}

/// Takes what is named, if anything is, out of the list, and tells which rows are left in it.
pub(crate) fn leave(
    alloc: Global,
    listed: &mut ListedRows<'_>,
    named: Option<&RemovedRow>,
) -> Result<Others, Fault>
    ensures fault { Refuses result None }
    ensures others { IfOk result (AreOthers (option_copied named.entry) listed.old.tables.images
        listed.old.leases) }
    ensures left { IfOk result (λ others. listed.new ≡ listed_by others listed.old) }
{
    match named {
        None => Ok(Others::All),
        Some(named) => {
            // For the prover: the result is opened, not passed on.
            let others = leave_named(alloc, listed, named)?;
            Ok(others)
        }
    }
}

/// The plan of a collection of the rows that are listed.
#[derive(Drop)]
pub(crate) struct Planned {
    pub(crate) others: Others,
    pub(crate) plan: Plan,
}

impl Planned {
    /// Keeps the rows that are listed and whose mask is set. It takes no memory.
    pub(crate) fn sweep(
        &self,
        tables: &mut ArrivedTables,
        leases: &mut ArrivedByNamespace<Name, Lease>,
    )
        requires others { FitOthers self.now.others tables.old.images leases.old }
        requires rows { FitRows (tables_by self.now.others tables.old)
            (leases_by self.now.others leases.old) self.now.plan.masks }
        requires numbered { StayNumbered (tables_by self.now.others tables.old) self.now.plan.masks }
        ensures tables { (of : Collection)
            → tables_by self.now.others tables.old ≡ of.records.tables
            → AreMasks of.records of.at of.reached self.now.plan.masks
            → in_key_order tables.new
            ≡ (collected_records of.at of.reached (records_in_key_order of.records)).tables }
        ensures leases { (of : Collection)
            → leases_by self.now.others leases.old ≡ of.records.leases
            → AreMasks of.records of.at of.reached self.now.plan.masks
            → sorted lease_key leases.new
            ≡ (collected_records of.at of.reached (records_in_key_order of.records)).leases }
    {
        self.others.keep(tables, leases);
        sweep(tables, leases, &self.plan.masks);
    }
}
