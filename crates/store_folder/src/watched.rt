//! A file of which it is known that it was read well before.
ghost use Rattle.std.specs.Prelude.{Bool, true, IsTrue};

use journal::{JournalError, Log};
use std::marker::{Brand, PhantomData};

/// What was read of a file before it was handed on. Only proofs know it.
pub trait Past {
    /// No read had answered what isn't there.
    ghost clean: { Bool };
}

impl Past for Brand {
    ghost clean = { true };
}

/// A file that is handed on. Whatever is asked of it: if no read has answered what isn't there,
/// none had before.
#[derive(Drop)]
pub struct Watched<L: Log + Drop, K: Past> {
    log: L,
    of: PhantomData<K>,
    ghost past: { IsTrue (L.Log.is_clean log) → IsTrue K.clean },
}

impl<L: Log + Drop, K: Past> Watched<L, K> {
    ghost use Rattle.std.specs.Prelude.{◌≡◌, IsTrue};

    /// A file that is handed on.
    pub fn new(log: L) -> Watched<L, K>
        requires past { IsTrue (L.Log.is_clean log) → IsTrue K.clean }
        ensures same { result.log ≡ log }
    {
        Watched {
            log,
            of: PhantomData,
        }
    }

    /// The file.
    pub fn into_log(self) -> L
        ensures same { result ≡ self.log }
        ensures past { IsTrue (L.Log.is_clean result) → IsTrue K.clean }
    {
        self.log
    }
}

impl<L: Log + Drop, K: Past> Log for Watched<L, K> {
    ghost text = { λ f. L.Log.text f.log };

    ghost may_leave = { λ f. L.Log.may_leave f.log };

    ghost rests = { λ f. L.Log.rests f.log };

    ghost is_clean = { λ f. L.Log.is_clean f.log };

    ghost rested = { λ f c rests left. L.Log.rested f.log c rests left };

    fn size(&self) -> Result<usize, JournalError> {
        // For the prover: it reads the clauses of a result that was opened.
        let size = self.log.size()?;
        Ok(size)
    }

    fn read(&mut self, at: usize, count: usize, block: &mut Vec<u8>) -> Result<(), JournalError> {
        self.log.read(at, count, block)?;
        Ok(())
    }

    fn put(&mut self, at: usize, bytes: &[u8]) -> Result<(), JournalError> {
        self.log.put(at, bytes)?;
        Ok(())
    }

    fn grow(&mut self) -> Result<(), JournalError> {
        self.log.grow()?;
        Ok(())
    }
}
