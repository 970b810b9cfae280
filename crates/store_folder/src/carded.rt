//! The text of a file behind its page, which no call changes.
ghost use Rattle.std.specs.Prelude.{◌≡◌, ◌≢◌, ◌≤◌, ◌+◌, [], true, List, ℕ, length, take, IsTrue, IfOk, IfErr};
ghost use Rattle.journal.specs.Crashes.{Only};

use journal::{JournalError, Log, PAGE};
use std::marker::{Brand, PhantomData};

/// The page of a file while its text is open. Only proofs know it.
pub trait Page {
    ghost page: { List ℕ };
}

impl Page for Brand {
    ghost page = { [] };
}

/// A file without its page of notes. Whatever was asked of it, each file that a crash may leave has
/// the page that it had when its text was opened.
#[derive(Drop)]
pub struct Carded<L: Log + Drop, K: Page> {
    log: L,
    is_open: bool,
    of: PhantomData<K>,
    ghost room: { is_open ≡ true → IsTrue (L.Log.is_clean log)
        → 4096 ≤ length (L.Log.text log) },
    ghost shown: { is_open ≡ true → IsTrue (L.Log.is_clean log)
        → take 4096 (L.Log.text log) ≡ K.page },
    ghost rests: { is_open ≡ true → IsTrue (L.Log.is_clean log)
        → Only (L.Log.text log) (L.Log.may_leave log) },
    ghost paged: { IsTrue (L.Log.is_clean log) → (file : List ℕ) → L.Log.may_leave log file
        → take 4096 file ≡ K.page },
}

// Whether a file is so long that it has a page.
fn has_room<L: Log>(log: &L) -> bool
    ensures { result ≡ true → IsTrue (L.is_clean log.now) → 4096 ≤ length (L.text log.now) }
{
    match log.size() {
        Ok(size) => PAGE <= size,
        Err(_) => false,
    }
}

impl<L: Log + Drop, K: Page> Carded<L, K> {
    ghost use Rattle.std.specs.Prelude.{◌≡◌, true, List, ℕ, take, drop, IsTrue};
    ghost use Rattle.journal.specs.Crashes.{Only};
    ghost use Rattle.journal.specs.Growth.{Behind};

    /// The text of a file with this page, all of which is on the disk. Where the file is shorter than
    /// a page, each call is refused.
    pub fn new(log: L) -> Carded<L, K>
        requires rests { IsTrue (L.Log.is_clean log)
            → Only (L.Log.text log) (L.Log.may_leave log) }
        requires page { IsTrue (L.Log.is_clean log) → take 4096 (L.Log.text log) ≡ K.page }
        ensures same { result.log ≡ log }
        ensures rests { L.Log.rests log → Only (drop 4096 (L.Log.text result.log))
            (Behind 4096 (L.Log.may_leave result.log)) }
    {
        let is_open = has_room(&log);
        Carded {
            log,
            is_open,
            of: PhantomData,
        }
    }

    /// Whether all of it is known to be on the disk: no write of it failed.
    pub fn is_at_rest(&self) -> bool
        ensures { result ≡ true → IsTrue (L.Log.is_clean self.now.log)
            → Only (L.Log.text self.now.log) (L.Log.may_leave self.now.log) }
    {
        self.is_open
    }

    /// The file with its page.
    pub fn into_log(self) -> L
        ensures same { result ≡ self.log }
        ensures page { IsTrue (L.Log.is_clean result) → (file : List ℕ) → L.Log.may_leave result file
            → take 4096 file ≡ K.page }
    {
        self.log
    }
}

// A place behind the page.
fn place_of(at: usize) -> Result<usize, JournalError>
    ensures ok { IfOk result (λ place. place ≡ 4096 + at) }
    ensures failed { IfErr result (λ error. error ≡ JournalError.DiskFailed) }
{
    match PAGE.checked_add(at) {
        Some(place) => Ok(place),
        None => Err(JournalError::DiskFailed),
    }
}

// Whether a file goes on that can't grow.
fn goes_on(error: JournalError) -> bool
    ensures { result ≡ true → error ≢ JournalError.DiskFailed }
{
    match error {
        JournalError::DiskFailed => false,
        _ => true,
    }
}

impl<L: Log + Drop, K: Page> Log for Carded<L, K> {
    ghost use Rattle.std.specs.Prelude.{drop};
    ghost use Rattle.journal.specs.Crashes.{Only};
    ghost use Rattle.journal.specs.Growth.{Behind};

    ghost text = { λ f. drop 4096 (L.Log.text f.log) };

    ghost may_leave = { λ f. Behind 4096 (L.Log.may_leave f.log) };

    ghost rests = { λ f. Only (drop 4096 (L.Log.text f.log))
        (Behind 4096 (L.Log.may_leave f.log)) };

    ghost is_clean = { λ f. L.Log.is_clean f.log };

    ghost rested = { λ f c only left. only c left };

    fn size(&self) -> Result<usize, JournalError> {
        let size = self.log.size()?;
        Ok(size.saturating_sub(PAGE))
    }

    fn read(&mut self, at: usize, count: usize, block: &mut Vec<u8>) -> Result<(), JournalError> {
        let place = place_of(at)?;
        self.log.read(place, count, block)?;
        Ok(())
    }

    fn put(&mut self, at: usize, bytes: &[u8]) -> Result<(), JournalError> {
        if !self.is_open {
            return Err(JournalError::DiskFailed);
        }
        let place = place_of(at)?;
        self.is_open = false;
        self.log.put(place, bytes)?;
        self.is_open = true;
        Ok(())
    }

    fn grow(&mut self) -> Result<(), JournalError> {
        if !self.is_open {
            return Err(JournalError::DiskFailed);
        }
        match self.log.grow() {
            Ok(()) => {}
            Err(error) => {
                self.is_open = goes_on(error);
                return Err(error);
            }
        }
        Ok(())
    }
}
