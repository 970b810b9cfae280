//! A journal's file that tells when it can't grow, and when its name leads elsewhere.

use crate::names::OwnNames;
use crate::starting::progress::Progress;
use crate::telling::{tell_full, tell_gone};
use journal::{JournalError, Log};

/// A file that tells on standard error that it can't grow: once, until it has grown again. It takes
/// no bytes once its name leads to no file or to another, and tells that too.
#[derive(Drop)]
pub struct TellingFile<D: Log + Drop> {
    pub rt: HostRuntime,
    pub names: OwnNames,
    pub is_second: bool,
    pub log: D,
    pub is_told: bool,
    pub progress: Progress,
}

// Tells that a file can't grow, where that isn't told yet. Answers whether it is told now.
fn tell_of(rt: &HostRuntime, path: &str, grown: Result<(), JournalError>, is_told: bool) -> bool {
    let is_full = grown.is_err();
    if is_full && !is_told {
        tell_full(rt, path);
    }
    is_full
}

impl<D: Log + Drop> Log for TellingFile<D> {
    ghost text = { λ f. D.Log.text f.log };

    ghost may_leave = { λ f. D.Log.may_leave f.log };

    ghost rests = { λ f. D.Log.rests f.log };

    ghost is_clean = { λ f. D.Log.is_clean f.log };

    ghost rested = { λ f c rests left. D.Log.rested f.log c rests left };

    fn size(&self) -> Result<usize, JournalError> {
        self.log.size()
    }

    fn read(&mut self, at: usize, count: usize, block: &mut Vec<u8>) -> Result<(), JournalError> {
        let size = self.log.size()?;
        let path = self.names.of(self.is_second);
        self.progress.read(&self.rt, path, at, size);
        self.log.read(at, count, block)
    }

    fn put(&mut self, at: usize, bytes: &[u8]) -> Result<(), JournalError> {
        if !self.names.are_there(&self.rt, self.is_second) {
            tell_gone(&self.rt, self.names.of(self.is_second));
            return Err(JournalError::DiskFailed);
        }
        self.log.put(at, bytes)
    }

    fn grow(&mut self) -> Result<(), JournalError> {
        let grown = self.log.grow();
        let path = self.names.of(self.is_second);
        self.is_told = tell_of(&self.rt, path, grown, self.is_told);
        grown
    }
}
