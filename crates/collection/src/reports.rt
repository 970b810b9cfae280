//! The report of a collection, and its copies where a history is kept.
ghost use Rattle.std.specs.Prelude.{◌≡◌, None, IfOk};
ghost use Rattle.meta_types.specs.Faults.{Refuses};
ghost use Rattle.collection.specs.Copies.{AreCopies};

use crate::history_mode::{HistoryMode, WithHistory};
use gc_report::Report;
use meta_types::Fault;
use std::alloc::Global;
use std::marker::{Model, PhantomData};
use std::mem::drop;

/// The report of an entry in the log, and of one in the session's list.
#[derive(Drop)]
pub struct Copies {
    pub log: Report,
    pub list: Report,
}

/// The report of a collection. It has copies where a history is kept, and only there.
#[derive(Drop)]
pub struct Reports<K: HistoryMode> {
    pub(crate) caller: Report,
    pub(crate) others: Option<Copies>,
    pub(crate) mode: PhantomData<K>,
}

impl<K: HistoryMode> Model for Reports<K> {
    ghost use Rattle.meta_types.specs.Reports.{Report as ReportValue};
    ghost use Rattle.collection.specs.Copies.{AreCopies};

    ghost Value = { ReportValue };

    ghost view = { λ r. r.caller };

    ghost invariant = { λ r. AreCopies K.KEPT r.caller r.others };
}

// Two copies, where a history is kept.
fn copies_of<K: HistoryMode>(alloc: Global, report: &Report) -> Result<Option<Copies>, Fault>
    ensures fault { Refuses result None }
    ensures ok { IfOk result (AreCopies K.KEPT report.now) }
{
    if !K::KEPT {
        return Ok(None);
    }
    let log = report.copy(alloc)?;
    let list = report.copy(alloc)?;
    Ok(Some(Copies { log, list }))
}

impl<K: HistoryMode> Reports<K> {
    /// The report, with copies where a history is kept.
    pub(crate) fn of(alloc: Global, report: Report) -> Result<Reports<K>, Fault>
        ensures fault { Refuses result None }
        ensures ok { IfOk result (λ reports. reports ≡ report) }
    {
        let others = copies_of::<K>(alloc, &report)?;
        Ok(Reports {
            caller: report,
            others,
            mode: PhantomData,
        })
    }

    /// The report alone.
    pub fn alone(self) -> Report
        ensures { result ≡ self }
    {
        let Reports {
            caller,
            others,
            mode: _,
        } = self;
        // For the prover: dropped by a call, not in place.
        drop(others);
        caller
    }
}

impl Reports<WithHistory> {
    /// The report, and its copies.
    pub fn apart(self) -> (Report, Copies)
        ensures caller { result.0 ≡ self }
        ensures log { result.1.log ≡ self }
        ensures list { result.1.list ≡ self }
    {
        let Reports {
            caller,
            others,
            mode: _,
        } = self;
        match others {
            Some(copies) => (caller, copies),
            None => unreachable!(),
        }
    }
}
