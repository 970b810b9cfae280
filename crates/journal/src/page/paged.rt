//! The text of a file behind its page.
ghost use Rattle.std.specs.Prelude.{◌≡◌, ◌≢◌, ◌≤◌, ◌+◌, true, List, ℕ, length, take, drop, IsTrue, IfOk, IfErr};

use crate::page::PAGE;
use crate::{JournalError, Log};

/// A file without its page of notes: its text begins behind that. A file of format 1 has none.
#[derive(Drop)]
pub struct Paged<L: Log + Drop> {
    log: L,
    from: usize,
    is_open: bool,
    ghost room: { is_open ≡ true → IsTrue (L.Log.is_clean log)
        → from ≤ length (L.Log.text log) },
    ghost settled: { is_open ≡ true → IsTrue (L.Log.is_clean log) → (file : List ℕ)
        → L.Log.may_leave log file → take from file ≡ take from (L.Log.text log) },
}

// Where the text of a file begins.
fn from_of(has_page: bool) -> usize
    ensures { has_page ≡ true → result ≡ 4096 }
{
    if has_page {
        return PAGE;
    }
    0
}

// Whether a file is so long.
fn has_room<L: Log>(log: &L, from: usize) -> bool
    ensures { result ≡ true → IsTrue (L.is_clean log.now) → from ≤ length (L.text log.now) }
{
    match log.size() {
        Ok(size) => from <= size,
        Err(_) => false,
    }
}

impl<L: Log + Drop> Paged<L> {
    ghost use Rattle.std.specs.Prelude.{◌≡◌, true, drop, IsTrue};
    ghost use Rattle.journal.specs.Crashes.{Only};
    ghost use Rattle.journal.specs.Growth.{Behind};

    /// The text of a file, all of which is on the disk. Where the file is shorter than its page,
    /// each call is refused.
    pub fn new(log: L, has_page: bool) -> Paged<L>
        requires rests { IsTrue (L.Log.is_clean log)
            → Only (L.Log.text log) (L.Log.may_leave log) }
        ensures same { result.log ≡ log }
        ensures place { has_page ≡ true → result.from ≡ 4096 }
        ensures rests { L.Log.rests log → Only (drop result.from (L.Log.text result.log))
            (Behind result.from (L.Log.may_leave result.log)) }
    {
        let from = from_of(has_page);
        let is_open = has_room(&log, from);
        Paged { log, from, is_open }
    }

    /// The file with its page.
    pub fn into_log(self) -> L
        ensures { result ≡ self.log }
    {
        self.log
    }
}

// A place behind the page.
fn place_of(from: usize, at: usize) -> Result<usize, JournalError>
    ensures ok { IfOk result (λ place. place ≡ from + at) }
    ensures failed { IfErr result (λ error. error ≡ JournalError.DiskFailed) }
{
    match from.checked_add(at) {
        Some(place) => Ok(place),
        None => Err(JournalError::DiskFailed),
    }
}

// Whether a file goes on that can't grow.
fn goes_on(error: JournalError) -> bool
    ensures { result ≡ true → error ≢ JournalError.DiskFailed }
{
    match error {
        JournalError::DiskFailed => false,
        _ => true,
    }
}

impl<L: Log + Drop> Log for Paged<L> {
    ghost use Rattle.std.specs.Prelude.{drop};
    ghost use Rattle.journal.specs.Crashes.{Only};
    ghost use Rattle.journal.specs.Growth.{Behind};

    ghost text = { λ f. drop f.from (L.Log.text f.log) };

    ghost may_leave = { λ f. Behind f.from (L.Log.may_leave f.log) };

    ghost rests = { λ f. Only (drop f.from (L.Log.text f.log))
        (Behind f.from (L.Log.may_leave f.log)) };

    ghost is_clean = { λ f. L.Log.is_clean f.log };

    ghost rested = { λ f c only left. only c left };

    fn size(&self) -> Result<usize, JournalError> {
        let size = self.log.size()?;
        Ok(size.saturating_sub(self.from))
    }

    fn read(&mut self, at: usize, count: usize, block: &mut Vec<u8>) -> Result<(), JournalError> {
        let place = place_of(self.from, at)?;
        self.log.read(place, count, block)?;
        Ok(())
    }

    fn put(&mut self, at: usize, bytes: &[u8]) -> Result<(), JournalError> {
        if !self.is_open {
            return Err(JournalError::DiskFailed);
        }
        let place = place_of(self.from, at)?;
        self.is_open = false;
        self.log.put(place, bytes)?;
        self.is_open = true;
        Ok(())
    }

    fn grow(&mut self) -> Result<(), JournalError> {
        if !self.is_open {
            return Err(JournalError::DiskFailed);
        }
        match self.log.grow() {
            Ok(()) => {}
            Err(error) => {
                self.is_open = goes_on(error);
                return Err(error);
            }
        }
        Ok(())
    }
}
