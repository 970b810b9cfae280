//! Recovers the text of a file that counts, behind its head and its page.
ghost use Rattle.std.specs.Prelude.{◌≡◌, ◌≤◌, false, List, ℕ, take, drop, IsTrue, IfOk, IfErr, OnOk};
ghost use Rattle.journal.specs.Crashes.{Only};
ghost use Rattle.journal.specs.Growth.{Behind};
ghost use Rattle.journal.specs.Reading.{found};
ghost use Rattle.journal.specs.Groups.{HasGroups};
ghost use Rattle.journal.specs.Head.{believed, Texts, IsHeaded};
ghost use Rattle.journal.specs.Notes.{first_sum, Reads};
ghost use Rattle.store_folder.specs.Folders.{FindsOf};
ghost use Rattle.store_folder.specs.Openings.{IsPassing, AreKept, HasCard, OpensUnder, groups_under, LeavesText};

use crate::carded::{Carded, Page};
use crate::opening::error::{OpenError, text_error};
use crate::opening::fitting::{check_text, fitting_card};
use crate::opening::headed::{Head, HeadedFile};
use journal::{Log, Note, Notes, Sound, first_sum, read_page, recover};
use sqlite_disk::Disk;
use std::alloc::Global;
use std::marker::Brand;

// The card of a file, and the witness beside it.
#[derive(Clone, Copy, Drop)]
struct OwnNotes {
    card: Note,
    witness: Option<Note>,
}

// Looks at the page of a file that counts: its notes, where the other file's belong to them.
fn find_card<L: Log>(alloc: Global, other: Notes, log: &mut L) -> Result<OwnNotes, OpenError>
    ensures card { IfOk result (λ own. IsTrue (L.is_clean log.new)
        → HasCard (L.text log.old) other own.witness own.card) }
    ensures refuses { IfErr result (λ error. IsTrue (L.is_clean log.new)
        → (standby : List ℕ) (lines : List (List ℕ)) → Reads 0 standby other.card
        → Reads 512 standby other.witness → FindsOf (L.text log.old) standby lines
        → IsPassing error) }
    ensures clean { IsTrue (L.is_clean log.new) → IsTrue (L.is_clean log.old) }
    ensures rests { L.rests log.old → L.rests log.new }
    ensures same { L.text log.new ≡ L.text log.old }
    ensures crash { (c : List ℕ) → L.may_leave log.new c → L.may_leave log.old c }
{
    let own = match read_page(alloc, log) {
        Ok(own) => own,
        Err(error) => return Err(text_error(error)),
    };
    let card = match fitting_card(own, other) {
        Ok(card) => card,
        Err(error) => return Err(error),
    };
    Ok(OwnNotes {
        card,
        witness: own.witness,
    })
}

// Recovers a file under its card, which lacks nothing, or what may be missing.
fn recover_text<L: Log>(
    alloc: Global,
    takes_less: bool,
    card: Note,
    own: Option<Note>,
    other: Option<Note>,
    log: &mut L,
) -> Result<Sound, OpenError>
    requires { L.rests log.old }
    ensures sound { OnOk result (IsTrue (L.is_clean log.new)
        → (found (first_sum card) (L.text log.old)).is_damaged ≡ false) }
    ensures kept { OnOk result (IsTrue (L.is_clean log.new) → takes_less ≡ false
        → AreKept card own other (found (first_sum card) (L.text log.old)).groups) }
    ensures groups { IfOk result (λ end. IsTrue (L.is_clean log.new)
        → HasGroups (L.text log.new) (L.may_leave log.new) end.last end.end (first_sum card)
        (found (first_sum card) (L.text log.old)).groups) }
    ensures refuses { IfErr result (λ error. IsTrue (L.is_clean log.new)
        → (found (first_sum card) (L.text log.old)).is_damaged ≡ false
        → AreKept card own other (found (first_sum card) (L.text log.old)).groups
        → IsPassing error) }
    ensures clean { IsTrue (L.is_clean log.new) → IsTrue (L.is_clean log.old) }
    ensures crash { IsTrue (L.is_clean log.new) → (c : List ℕ) → L.may_leave log.new c
        → found (first_sum card) c ≡ found (first_sum card) (L.text log.old) }
{
    match check_text(alloc, takes_less, card, own, other, log) {
        Ok(()) => {}
        Err(error) => return Err(error),
    }
    let first = first_sum(card);
    let sound = match recover(alloc, &first, log) {
        Ok(sound) => sound,
        Err(error) => return Err(text_error(error)),
    };
    Ok(sound)
}

/// A file that was recovered, its card, and how far its groups go.
#[derive(Drop)]
pub struct Recovered<D: Disk + Drop> {
    pub disk: D,
    pub card: Note,
    pub sound: Sound,
}

/// A file that wasn't recovered, and why.
#[derive(Drop)]
pub struct Unrecovered<D: Disk + Drop> {
    pub disk: D,
    pub error: OpenError,
}

// The disk of a file that was recovered.
fn disk_of<K: Head + Page, D: Disk + Drop>(text: Carded<HeadedFile<D, K>, K>) -> D
    ensures same { result ≡ text.log.disk }
    ensures fronts { IsTrue (D.is_clean result) → (file : List ℕ) → D.may_leave result file
        → (take 4096 file ≡ K.head) × (take 4096 (believed file) ≡ K.page) }
{
    let file = text.into_log();
    file.into_disk()
}

// Recovers a file with this head and this page, whose other file has these notes.
fn recover_headed<K: Head + Page, D: Disk + Drop>(
    alloc: Global,
    takes_less: bool,
    other: Notes,
    steps: usize,
    disk: D,
) -> Result<Recovered<D>, Unrecovered<D>>
    requires headed { IsTrue (D.is_clean disk) → IsHeaded (D.seen disk) steps }
    requires bound { steps ≤ 2037 }
    requires only { Only (D.seen disk) (D.may_leave disk) }
    requires head { take 4096 (D.seen disk) ≡ K.head }
    requires page { take 4096 (believed (D.seen disk)) ≡ K.page }
    ensures card { IfOk result (λ now. IsTrue (D.is_clean now.disk)
        → OpensUnder takes_less (D.seen disk) other now.card) }
    ensures groups { IfOk result (λ now. IsTrue (D.is_clean now.disk)
        → HasGroups (drop 4096 (believed (D.seen now.disk)))
        (Behind 4096 (Texts (D.may_leave now.disk))) now.sound.last now.sound.end
        (first_sum now.card) (groups_under now.card (D.seen disk))) }
    ensures left { IfOk result (λ now. IsTrue (D.is_clean now.disk) → IsTrue (D.is_clean disk)
        × ((c : List ℕ) → D.may_leave now.disk c → LeavesText (D.seen disk) c)) }
    ensures unread { IfErr result (λ not. IsTrue (D.is_clean not.disk) → IsTrue (D.is_clean disk)
        × ((c : List ℕ) → D.may_leave not.disk c → LeavesText (D.seen disk) c)) }
    ensures refuses { IfErr result (λ not. IsTrue (D.is_clean not.disk)
        → (standby : List ℕ) (lines : List (List ℕ)) → Reads 0 standby other.card
        → Reads 512 standby other.witness → FindsOf (believed (D.seen disk)) standby lines
        → IsPassing not.error) }
{
    let mut file = HeadedFile::<D, K>::new(disk, steps);
    let own = match find_card(alloc, other, &mut file) {
        Ok(own) => own,
        Err(error) => {
            let unread = file.into_disk();
            return Err(Unrecovered {
                disk: unread,
                error,
            });
        }
    };
    let card = own.card;
    let mut text = Carded::<HeadedFile<D, K>, K>::new(file);
    let witness = own.witness;
    let sound = match recover_text(alloc, takes_less, card, witness, other.witness, &mut text) {
        Ok(sound) => sound,
        Err(error) => {
            let unsound = disk_of(text);
            return Err(Unrecovered {
                disk: unsound,
                error,
            });
        }
    };
    let recovered = disk_of(text);
    Ok(Recovered {
        disk: recovered,
        card,
        sound,
    })
}

/// Recovers a file that counts, all of which is on the disk, and whose other file has these notes.
pub fn recover_file<D: Disk + Drop>(
    alloc: Global,
    takes_less: bool,
    other: Notes,
    steps: usize,
    disk: D,
) -> Result<Recovered<D>, Unrecovered<D>>
    requires headed { IsTrue (D.is_clean disk) → IsHeaded (D.seen disk) steps }
    requires bound { steps ≤ 2037 }
    requires only { Only (D.seen disk) (D.may_leave disk) }
    ensures card { IfOk result (λ now. IsTrue (D.is_clean now.disk)
        → OpensUnder takes_less (D.seen disk) other now.card) }
    ensures groups { IfOk result (λ now. IsTrue (D.is_clean now.disk)
        → HasGroups (drop 4096 (believed (D.seen now.disk)))
        (Behind 4096 (Texts (D.may_leave now.disk))) now.sound.last now.sound.end
        (first_sum now.card) (groups_under now.card (D.seen disk))) }
    ensures left { IfOk result (λ now. IsTrue (D.is_clean now.disk) → IsTrue (D.is_clean disk)
        × ((c : List ℕ) → D.may_leave now.disk c → LeavesText (D.seen disk) c)) }
    ensures unread { IfErr result (λ not. IsTrue (D.is_clean not.disk) → IsTrue (D.is_clean disk)
        × ((c : List ℕ) → D.may_leave not.disk c → LeavesText (D.seen disk) c)) }
    ensures refuses { IfErr result (λ not. IsTrue (D.is_clean not.disk)
        → (standby : List ℕ) (lines : List (List ℕ)) → Reads 0 standby other.card
        → Reads 512 standby other.witness → FindsOf (believed (D.seen disk)) standby lines
        → IsPassing not.error) }
{
    match recover_headed::<Brand, D>(alloc, takes_less, other, steps, disk) {
        Ok(now) => Ok(now),
        Err(not) => Err(not),
    }
}
