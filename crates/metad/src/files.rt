//! The two files of a store: the journal of the one that counts, and the other.
ghost use Rattle.std.specs.Prelude.{◌≡◌};

use crate::names::{Names, OwnNames};
use crate::starting::progress::Progress;
use crate::telling_file::TellingFile;
use journal::{Active, Journal, JournalFile, Log, Note, Paged};
use line_loop::JournalLog;
use sqlite_disk::Disk;

/// The disk of the file that doesn't count.
#[derive(Drop)]
pub enum Spare<D: Disk + Drop> {
    /// The first file, whose head says that the second one counts.
    First(D),
    /// The second file.
    Second(D),
}

impl<D: Disk + Drop> Spare<D> {
    /// Whether it is the second file.
    pub fn is_second(&self) -> bool {
        match self {
            Spare::First(_) => false,
            Spare::Second(_) => true,
        }
    }
}

/// A file that counts.
pub type CountingFile<D> = JournalFile<D, Active>;

/// Its text, behind its page.
pub type Text<D> = Paged<CountingFile<D>>;

/// The journal of the file that counts.
pub type Counting<D> = Journal<TellingFile<Text<D>>>;

/// The same as the log of a run.
pub type CountingLog<D> = JournalLog<TellingFile<Text<D>>>;

/// The journal of the file that counts, and the other file.
#[derive(Drop)]
pub struct Files<'a, D: Disk + Drop, E: Log + Drop> {
    pub rt: &'a HostRuntime,
    pub names: Names<'a>,
    /// What is known of the file that counts: its store's identity, its generation.
    pub card: Note,
    pub log: JournalLog<TellingFile<Paged<E>>>,
    pub spare: Spare<D>,
}

/// The log of a run that stops nowhere, of a journal with this first sum.
pub fn log_of<E: Log + Drop>(first: [u8; 64], journal: Journal<E>) -> JournalLog<E>
    ensures { result.journal ≡ journal }
{
    JournalLog {
        journal,
        first,
        due_at: usize::MAX,
    }
}

/// A file that counts, and that tells when it can't grow, and how far its start is.
pub fn telling<D: Disk + Drop>(
    rt: &HostRuntime,
    names: OwnNames,
    is_second: bool,
    progress: Progress,
    log: Text<D>,
) -> TellingFile<Text<D>>
    ensures { result.log ≡ log }
{
    TellingFile {
        rt: *rt,
        names,
        is_second,
        log,
        is_told: false,
        progress,
    }
}
