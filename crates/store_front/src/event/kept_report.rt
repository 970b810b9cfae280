//! The reports that entries keep, in room of their own.
ghost use Rattle.std.specs.Prelude.{◌≡◌, None, IfOk};
ghost use Rattle.meta_types.specs.Faults.{Refuses};

use gc_report::Report;
use meta_types::Fault;
use std::alloc::Global;
use std::boxed::Box;
use std::marker::Model;

/// The report of an entry. It lies apart, so that an entry is small, in room that is taken before
/// the collection removes anything.
#[derive(Drop)]
pub struct KeptReport {
    one: Box<Report, Global>,
}

impl Model for KeptReport {
    ghost use Rattle.std.specs.Box.{box_value};
    ghost use Rattle.meta_types.specs.Reports.{Report as ReportValue};

    ghost Value = { ReportValue };

    ghost view = { λ r. box_value r.one };
}

impl KeptReport {
    // Room for a report; the one that stands there is empty.
    pub(crate) fn room(alloc: Global) -> Result<KeptReport, Fault>
        ensures { Refuses result None }
    {
        let one = Box::new(alloc, Report::new(alloc, true, 1))?;
        Ok(KeptReport { one })
    }

    // This report, in the room of another.
    pub(crate) fn filled(self, report: Report) -> KeptReport
        ensures { result ≡ report }
    {
        let KeptReport { mut one } = self;
        let _empty = Box::replace(&mut one, report);
        KeptReport { one }
    }

    /// The report, as the caller got it.
    pub fn get(&self) -> &Report
        ensures { result.now ≡ self.now }
    {
        self.one.as_ref()
    }

    /// The same report, in memory of its own.
    pub fn copy(&self, alloc: Global) -> Result<KeptReport, Fault>
        ensures fault { Refuses result None }
        ensures ok { IfOk result (λ report. report ≡ self.now) }
    {
        let report = self.get().copy(alloc)?;
        let one = Box::new(alloc, report)?;
        Ok(KeptReport { one })
    }
}
