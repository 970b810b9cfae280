//! A copy of a report, which shares its texts.
ghost use Rattle.std.specs.Prelude.{◌≡◌, None, IfOk};
ghost use Rattle.meta_types.specs.Faults.{Refuses};

use crate::report::Report;
use meta_types::Fault;
use std::alloc::Global;

impl Report {
    /// A copy, which shares the texts.
    pub fn copy(&self, _alloc: Global) -> Result<Report, Fault>
        ensures fault { Refuses result None }
        ensures ok { IfOk result (λ copy. copy ≡ self.now) }
    {
        Ok(Report::clone(self)?)
    }
}
