//! Opens a store from its journal.
ghost use Rattle.std.specs.Prelude.{◌≡◌, ℕ, List, length, take, true, false, Err, IsTrue, IfOk, OnOk, IsErrOf};
ghost use Rattle.meta_types.specs.Rows.{empty_store};
ghost use Rattle.journal.specs.Text.{journal_text, AreGroups};
ghost use Rattle.journal.specs.Reading.{found};
ghost use Rattle.journal.specs.Groups.{HasGroups};
ghost use Rattle.line_loop.specs.JournalLines.{lines_of};
ghost use Rattle.kept_store.specs.Replays.{store_after};
ghost use Rattle.kept_store.specs.Starts.{Starts};

use crate::StartError;
use crate::error::start_error;
use crate::replaying::replay;
use journal::{Log, Sound, check, recover};
use meta_types::Workers;
use scripts::{Fresh, LineStore};
use std::alloc::Global;
use std::mem::drop;
use std::sync::Wait;
use std::sync::ledger::Ledger;
use std::thread::Threads;

/// A store as its journal tells it, how far the journal goes, and how many lines it has.
#[derive(Drop)]
pub struct Opened<L: Ledger> {
    pub store: LineStore<L>,
    pub sound: Sound,
    pub lines: u64,
}

// A store, and how many lines it was made of.
#[derive(Drop)]
struct Replayed<L: Ledger> {
    store: LineStore<L>,
    lines: u64,
}

// How far the file has whole groups. It is left as it is.
fn sound_part<D: Log>(alloc: Global, first: &[u8; 64], log: &mut D) -> Result<usize, StartError>
    ensures sound { IfOk result (λ end. IsTrue (D.is_clean log.new)
        → AreGroups (found first.now (D.text log.old)).groups
        × (take end (D.text log.old)
        ≡ journal_text first.now (found first.now (D.text log.old)).groups)) }
    ensures clean { IsTrue (D.is_clean log.new) → IsTrue (D.is_clean log.old) }
    ensures rests { D.rests log.old → D.rests log.new }
    ensures same { D.text log.new ≡ D.text log.old }
    ensures crash { (c : List ℕ) → D.may_leave log.new c → D.may_leave log.old c }
{
    match check(alloc, first, log) {
        Ok(extent) => Ok(extent.sound.end),
        Err(error) => Err(start_error(error)),
    }
}

// The store after the lines of the file, which is left as it is.
fn read_store<L: Ledger, D: Log, T: Threads + Wait + Sync>(
    rt: &T,
    alloc: Global,
    fresh: Fresh,
    first: &[u8; 64],
    log: &mut D,
) -> Result<Replayed<L>, StartError>
    requires name { fresh.blank.name ≡ L.name }
    requires parts { (fresh.blank.parts ≡ L.parts) × (fresh.blank.parts ≡ 65536) }
    ensures ok { IfOk result (λ replayed. IsTrue (D.is_clean log.new)
        → replayed.store ≡ store_after empty_store
        (lines_of (found first.now (D.text log.old)).groups)) }
    ensures lines { IfOk result (λ replayed. IsTrue (D.is_clean log.new)
        → replayed.lines ≡ length (lines_of (found first.now (D.text log.old)).groups)) }
    ensures clean { IsTrue (D.is_clean log.new) → IsTrue (D.is_clean log.old) }
    ensures rests { D.rests log.old → D.rests log.new }
    ensures same { D.text log.new ≡ D.text log.old }
    ensures crash { (c : List ℕ) → D.may_leave log.new c → D.may_leave log.old c }
{
    let end = sound_part(alloc, first, log)?;
    let Ok(mut store) = LineStore::<L>::open(alloc, fresh, Workers::ONE) else {
        return Err(StartError::OutOfMemory);
    };
    let lines = match replay(&mut store, rt, alloc, log, end) {
        Ok(lines) => lines,
        Err(error) => {
            // For the prover: an exit that drops the store in place takes minutes.
            drop(store);
            return Err(error);
        }
    };
    Ok(Replayed { store, lines })
}

// Blanks what was never committed, and answers how far the groups go.
fn end_of_groups<D: Log>(alloc: Global, first: &[u8; 64], log: &mut D) -> Result<Sound, StartError>
    requires { D.rests log.old }
    ensures sound { OnOk result
        (IsTrue (D.is_clean log.new) → (found first.now (D.text log.old)).is_damaged ≡ false) }
    ensures groups { IfOk result (λ sound. IsTrue (D.is_clean log.new)
        → HasGroups (D.text log.new) (D.may_leave log.new) sound.last sound.end first.now
        (found first.now (D.text log.old)).groups) }
    ensures willing { IsErrOf result StartError.Refused → ⊥ }
    ensures clean { IsTrue (D.is_clean log.new) → IsTrue (D.is_clean log.old) }
    ensures crash { IsTrue (D.is_clean log.new) → (c : List ℕ) → D.may_leave log.new c
        → found first.now c ≡ found first.now (D.text log.old) }
{
    match recover(alloc, first, log) {
        Ok(sound) => Ok(sound),
        Err(error) => Err(start_error(error)),
    }
}

/// Opens a store: reads the journal's file to its end, does its lines again with one worker, and
/// only then blanks what was never committed. So a start that is refused memory for the store
/// leaves the file as it is, and so does one that finds damage or a line that is refused. The blank
/// has 65,536 parts. Collections have `workers` from then on.
pub fn open<L: Ledger, D: Log, T: Threads + Wait + Sync>(
    rt: &T,
    alloc: Global,
    fresh: Fresh,
    first: &[u8; 64],
    log: &mut D,
    workers: Workers,
) -> Result<Opened<L>, StartError>
    requires name { fresh.blank.name ≡ L.name }
    requires parts { (fresh.blank.parts ≡ L.parts) × (fresh.blank.parts ≡ 65536) }

    // After a restart, what is read is what is on the disk.
    requires rests { D.rests log.old }
    ensures ok { IfOk result (λ opened. IsTrue (D.is_clean log.new)
        → Starts first.now (D.text log.old) (D.is_clean log.new) (D.text log.new)
        (D.may_leave log.new) opened.sound.last opened.sound.end opened.store) }
    ensures lines { IfOk result (λ opened. IsTrue (D.is_clean log.new)
        → opened.lines ≡ length (lines_of (found first.now (D.text log.old)).groups)) }

    // A start that ends at a line of another metad changes nothing.
    ensures refused { IsErrOf result StartError.Refused → D.text log.new ≡ D.text log.old }
    ensures clean { IsTrue (D.is_clean log.new) → IsTrue (D.is_clean log.old) }

    // A crash at any moment of a start leaves a file that is read as this one.
    ensures crash { IsTrue (D.is_clean log.new) → (c : List ℕ) → D.may_leave log.new c
        → found first.now c ≡ found first.now (D.text log.old) }
{
    let replayed = read_store::<L, D, T>(rt, alloc, fresh, first, log)?;
    let sound = match end_of_groups(alloc, first, log) {
        Ok(sound) => sound,
        Err(error) => {
            // For the prover: an exit that drops the store in place takes minutes.
            drop(replayed);
            return Err(error);
        }
    };
    let lines = replayed.lines;
    let mut store = replayed.store;
    store.set_workers(workers);
    Ok(Opened {
        store,
        sound,
        lines,
    })
}
