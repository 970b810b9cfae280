//! Makes a store without a line.
ghost use Rattle.std.specs.Prelude.{IfOk};

use crate::ending::{not_fit, not_opened, not_read, not_started};
use crate::heads::{
    Head, NoHeads, Unfit, card_beside, make_ready, open_head, put_card, put_witness, take_unmade,
    unknown,
};
use crate::names::{Names, make_private};
use crate::starting::beginning::{Cause, Wanted, look_for_lines};
use crate::starting::selecting::{Selection, select_file};
use crate::telling::{tell, tell_missing, tell_taken};
use journal::{Active, JournalFile, Log, Note};
use meta_types::Fault;
use sqlite_disk::{Disk, Files};
use sqlite_std_file::Start;
use std::process::ExitCode;

// Whether a file of a store may stay: it has no line.
fn keep<D: Disk + Drop>(
    rt: &HostRuntime,
    names: Names<'_>,
    head: Head<JournalFile<D, Active>>,
) -> Result<D, ExitCode>
    requires { ⟦<JournalFile<D, Active> as Log>⟧.rests head.log }
{
    let alloc = rt.alloc();
    let ready = match make_ready(alloc, rt, head, unknown()) {
        Ok(ready) => ready,
        Err(NoHeads::Journal(error)) => return Err(not_read(rt, names.first, error)),
        Err(NoHeads::Unfit(unfit)) => return Err(not_fit(rt, names, false, unfit)),
    };
    let mut text = ready.text;
    match look_for_lines(alloc, &ready.first, Wanted::NoLines, &mut text) {
        Ok(()) => Ok(text.into_log().into_disk()),
        Err(Cause::Start(error)) => {
            Err(not_started(rt, names.first, &ready.first, &mut text, error))
        }
        Err(Cause::Empty | Cause::Taken) => Err(tell_taken(rt, names.folder)),
    }
}

// Puts a card into a first file that has none, and a witness into the second one.
fn put_notes<D: Disk + Drop>(
    rt: &HostRuntime,
    names: Names<'_>,
    card: Note,
    first: JournalFile<D, Active>,
    second: D,
) -> Result<Files<D>, ExitCode> {
    let alloc = rt.alloc();
    let mut first = first;
    match put_card(alloc, &mut first, card) {
        Ok(()) => {}
        Err(error) => return Err(not_read(rt, names.first, error)),
    }
    let (second, put) = put_witness::<D, Active>(alloc, second, card);
    match put {
        Ok(()) => Ok(Files {
            log: second,
            db: first.into_disk(),
        }),
        Err(error) => Err(not_read(rt, names.second, error)),
    }
}

/// A first file with a head, which is made where it has none.
pub fn make_head<D: Disk + Drop>(
    rt: &HostRuntime,
    names: Names<'_>,
    disk: D,
) -> Result<Head<JournalFile<D, Active>>, ExitCode>
    ensures { IfOk result (λ head. ⟦<JournalFile<D, Active> as Log>⟧.rests head.log) }
{
    let log = match JournalFile::<D, Active>::open(rt.alloc(), disk) {
        Ok(log) => log,
        Err(not) => return Err(not_read(rt, names.first, not.error)),
    };
    match open_head(rt.alloc(), log.into_disk()) {
        Ok(head) => Ok(head),
        Err(error) => Err(not_read(rt, names.first, error)),
    }
}

// Makes a store of two files, or leaves one that has no line.
fn make_first<D: Disk + Drop>(
    rt: &HostRuntime,
    names: Names<'_>,
    first: D,
    second: D,
) -> Result<Files<D>, ExitCode> {
    let head = make_head(rt, names, first)?;
    if !head.has_page || head.notes.card.is_some() {
        let first = keep(rt, names, head)?;
        return Ok(Files {
            log: second,
            db: first,
        });
    }
    let witness = head.notes.witness;
    let unmade = match take_unmade(rt.alloc(), head) {
        Ok(Some(log)) => log,
        Ok(None) => return Err(not_fit(rt, names, false, Unfit::NoCard)),
        Err(error) => return Err(not_read(rt, names.first, error)),
    };
    let Ok(card) = card_beside(rt, witness) else {
        return Err(tell(rt, Fault::ReadFailed));
    };
    put_notes(rt, names, card, unmade, second)
}

/// Makes a store of two files that were just opened, where they have none. One without a line, as a
/// crash may leave it, stays.
pub fn make_store<D: Disk + Drop>(
    rt: &HostRuntime,
    names: Names<'_>,
    files: Files<D>,
) -> Result<Files<D>, ExitCode> {
    let Files {
        log: mut second,
        db: mut first,
    } = files;
    match select_file(rt.alloc(), &mut first, &mut second) {
        Ok(Selection::Store { is_second: false } | Selection::Nothing) => {
            make_first(rt, names, first, second)
        }
        Ok(Selection::Store { is_second: true }) => Err(tell_taken(rt, names.folder)),
        Ok(Selection::Missing { is_second }) => Err(tell_missing(rt, names.of(is_second))),
        Err(error) => Err(not_read(rt, names.first, error)),
    }
}

/// Makes a store without a line in a folder that has none. Where one without a line is there, as a
/// crash may leave it, it stays.
pub fn make<S: Start>(rt: &HostRuntime, names: Names<'_>, start_of: S) -> ExitCode {
    make_private(rt, names.first);
    match sqlite_std_file::open(rt, names.first, start_of) {
        Ok(files) => match make_store(rt, names, files) {
            Ok(_) => ExitCode::SUCCESS,
            Err(status) => status,
        },
        Err(error) => not_opened(rt, names, error),
    }
}
