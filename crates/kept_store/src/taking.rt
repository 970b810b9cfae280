//! Writes a store into another file, as a journal that makes it again.
ghost use Rattle.std.specs.Prelude.{◌≡◌, [], List, ℕ, take, IsTrue, IfOk, IfErr, OnOk};
ghost use Rattle.meta_types.specs.Rows.{empty_store};
ghost use Rattle.journal.specs.Groups.{HasGroups};
ghost use Rattle.kept_store.specs.Replays.{store_after, requests_in};
ghost use Rattle.kept_store.specs.Checkpoints.{IsBlank, Drafts, Makes};

use crate::draft::Draft;
use crate::error::replay_error;
use crate::replaying::replay;
use crate::{CheckpointError, NotTaken};
use checkpoint::{is_same, write_checkpoint};
use journal::{Journal, Log};
use meta_types::Workers;
use scripts::{Fresh, LineStore};
use std::alloc::Global;
use std::mem::drop;
use std::sync::Wait;
use std::sync::ledger::{Blank, Ledger};
use std::thread::Threads;

// Writes the lines of a store into a blank file.
fn write<L: Ledger, E: Log + Drop>(
    alloc: Global,
    first: &[u8; 64],
    store: &LineStore<L>,
    log: E,
) -> Result<Journal<E>, NotTaken<E>>
    requires blank { IsTrue (E.is_clean log) → IsBlank (E.text log) (E.may_leave log) }
    ensures ok { IfOk result (λ journal. IsTrue (E.is_clean journal.log)
        → Drafts first.now (E.text journal.log) (E.may_leave journal.log) journal.last
        journal.end []) }
    ensures empty { IfOk result (λ journal. journal.pending.items ≡ []) }
{
    let mut draft = Draft::new(alloc, first, log);
    match write_checkpoint(alloc, store.state(), &mut draft) {
        Ok(()) => {}
        Err(_) => return Err(draft.give_up()),
    }
    draft.finish(first)
}

// Whether two stores are the same.
fn are_same<L: Ledger, N: Ledger>(
    alloc: Global,
    one: &LineStore<L>,
    other: &LineStore<N>,
) -> Result<(), CheckpointError>
    ensures ok { OnOk result (one.now ≡ other.now) }
    ensures differs { IfErr result
        (λ error. error ≡ CheckpointError.Differs → one.now ≡ other.now → ⊥) }
{
    let Ok(is_same) = is_same(alloc, one.state(), other.state()) else {
        return Err(CheckpointError::OutOfMemory);
    };
    if is_same {
        return Ok(());
    }
    Err(CheckpointError::Differs)
}

// Does the lines of a journal again.
fn replay_journal<N: Ledger, E: Log + Drop, T: Threads + Wait + Sync>(
    store: &mut LineStore<N>,
    rt: &T,
    alloc: Global,
    journal: &mut Journal<E>,
) -> Result<(), CheckpointError>
    ensures ok { OnOk result (IsTrue (E.is_clean journal.new.log) → store.new
        ≡ store_after store.old (requests_in (take journal.old.end (E.text journal.old.log)))) }
    ensures clean { IsTrue (E.is_clean journal.new.log) → IsTrue (E.is_clean journal.old.log) }
    ensures text { E.text journal.new.log ≡ E.text journal.old.log }
    ensures crash { (c : List ℕ) → E.may_leave journal.new.log c → E.may_leave journal.old.log c }
    ensures same { (journal.new.last ≡ journal.old.last) × (journal.new.end ≡ journal.old.end)
        × (journal.new.pending.items ≡ journal.old.pending.items) }
{
    let end = journal.end;
    match replay(store, rt, alloc, &mut journal.log, end) {
        Ok(_) => Ok(()),
        Err(error) => Err(replay_error(error)),
    }
}

// The store that the lines of a journal make from nothing.
fn made_again<N: Ledger, E: Log + Drop, T: Threads + Wait + Sync>(
    rt: &T,
    alloc: Global,
    fresh: Fresh,
    journal: &mut Journal<E>,
) -> Result<LineStore<N>, CheckpointError>
    requires name { fresh.blank.name ≡ N.name }
    requires parts { (fresh.blank.parts ≡ N.parts) × (fresh.blank.parts ≡ 65536) }
    ensures ok { IfOk result (λ store. IsTrue (E.is_clean journal.new.log) → store
        ≡ store_after empty_store (requests_in (take journal.old.end (E.text journal.old.log)))) }
    ensures clean { IsTrue (E.is_clean journal.new.log) → IsTrue (E.is_clean journal.old.log) }
    ensures text { E.text journal.new.log ≡ E.text journal.old.log }
    ensures crash { (c : List ℕ) → E.may_leave journal.new.log c → E.may_leave journal.old.log c }
    ensures same { (journal.new.last ≡ journal.old.last) × (journal.new.end ≡ journal.old.end)
        × (journal.new.pending.items ≡ journal.old.pending.items) }
{
    let Ok(mut store) = LineStore::<N>::open(alloc, fresh, Workers::ONE) else {
        return Err(CheckpointError::OutOfMemory);
    };
    if let Err(error) = replay_journal(&mut store, rt, alloc, journal) {
        // For the prover: an exit that drops the store in place takes minutes.
        drop(store);
        return Err(error);
    }
    Ok(store)
}

/// Does the lines of a journal again in an empty store, which has to become this one.
pub(crate) fn compare<L: Ledger, N: Ledger, E: Log + Drop, T: Threads + Wait + Sync>(
    rt: &T,
    alloc: Global,
    blank: Blank,
    store: &LineStore<L>,
    journal: &mut Journal<E>,
) -> Result<(), CheckpointError>
    requires name { blank.name ≡ N.name }
    requires parts { (blank.parts ≡ N.parts) × (blank.parts ≡ 65536) }
    ensures ok { OnOk result (IsTrue (E.is_clean journal.new.log)
        → (first : List ℕ) (groups : List (List (List ℕ)))
        → HasGroups (E.text journal.old.log)
        (E.may_leave journal.old.log) journal.old.last journal.old.end first groups
        → Makes first (E.text journal.new.log) (E.may_leave journal.new.log) journal.new.last
        journal.new.end store.now) }
    ensures waits { journal.new.pending.items ≡ journal.old.pending.items }
    ensures clean { IsTrue (E.is_clean journal.new.log) → IsTrue (E.is_clean journal.old.log) }
{
    let fresh = Fresh {
        blank,
        seed: store.seed,
    };
    let other = made_again::<N, E, T>(rt, alloc, fresh, journal)?;
    if let Err(error) = are_same(alloc, store, &other) {
        // For the prover: an exit that drops the store in place takes minutes.
        drop(other);
        return Err(error);
    }
    // For the prover: an exit that drops the store in place takes minutes.
    drop(other);
    Ok(())
}

/// Takes a checkpoint of a store: writes its lines into a blank file behind a first sum, in groups
/// of at most 1 MiB, does them again from there into an empty store, with one worker, and compares
/// both. The journal is one to which a run may add. The blank has 65,536 parts.
pub fn take_checkpoint<L: Ledger, N: Ledger, E: Log + Drop, T: Threads + Wait + Sync>(
    rt: &T,
    alloc: Global,
    blank: Blank,
    first: &[u8; 64],
    store: &LineStore<L>,
    log: E,
) -> Result<Journal<E>, NotTaken<E>>
    requires name { blank.name ≡ N.name }
    requires parts { (blank.parts ≡ N.parts) × (blank.parts ≡ 65536) }
    requires blank { IsTrue (E.is_clean log) → IsBlank (E.text log) (E.may_leave log) }
    ensures ok { IfOk result (λ journal. IsTrue (E.is_clean journal.log)
        → Makes first.now (E.text journal.log) (E.may_leave journal.log) journal.last
        journal.end store.now) }
    ensures empty { IfOk result (λ journal. journal.pending.items ≡ []) }
{
    let mut journal = write(alloc, first, store, log)?;
    match compare::<L, N, E, T>(rt, alloc, blank, store, &mut journal) {
        Ok(()) => {}
        Err(error) => {
            return Err(NotTaken {
                error,
                log: journal.log,
            });
        }
    }
    Ok(journal)
}
