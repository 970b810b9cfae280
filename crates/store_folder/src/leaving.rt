//! Leaves a witness of the file that counts in the other one.
ghost use Rattle.std.specs.Prelude.{◌≡◌, ◌<◌, ◌^◌, [], List, ℕ, true, IsTrue, IfOk, IfErr};
ghost use Rattle.sqlite_disk.specs.Disk.{Follows};
ghost use Rattle.journal.specs.Head.{believed};
ghost use Rattle.journal.specs.Notes.{StandsAt};
ghost use Rattle.journal.specs.Selector.{SameSelector};
ghost use Rattle.store_folder.specs.Spares.{witness_of};

use crate::counting::Counting;
use crate::running::{Folder, Lines};
use crate::spare::Spare;
use journal::{Note, Selector};
use sqlite_disk::Disk;
use std::alloc::Global;

/// Opens the file of a folder that doesn't count. Whatever a crash leaves at any moment, a start
/// finds the same lines, if no read of that file answered what isn't there.
pub fn open_spare<E: Counting + Drop, D: Disk + Drop, C: Selector>(
    alloc: Global,
    folder: Folder<E, D>,
) -> Result<Folder<E, Spare<D, C>>, Folder<E, D>>
    ensures opened { IfOk result (λ next. IsTrue (⟦<Spare<D, C> as Disk>⟧.is_clean next.spare)
        → (kept : List (List ℕ)) → ⟦<Folder<E, D> as Lines>⟧.holds folder kept []
        → ⟦<Folder<E, Spare<D, C>> as Lines>⟧.holds next kept []) }
    ensures refused { IfErr result (λ next. IsTrue (D.Disk.is_clean next.spare)
        → (kept : List (List ℕ)) → ⟦<Folder<E, D> as Lines>⟧.holds folder kept []
        → ⟦<Folder<E, D> as Lines>⟧.holds next kept []) }
    ensures clean { IfOk result (λ next. IsTrue (⟦<Spare<D, C> as Disk>⟧.is_clean next.spare)
        → IsTrue (D.Disk.is_clean folder.spare)) }
    ensures still { IfErr result (λ next. IsTrue (D.Disk.is_clean next.spare)
        → IsTrue (D.Disk.is_clean folder.spare)) }
    ensures file { IfOk result (λ next. next.file ≡ folder.file) }
    ensures same { IfErr result (λ next. next.file ≡ folder.file) }
    ensures follows { IfOk result (λ next. IsTrue (⟦<Spare<D, C> as Disk>⟧.is_clean next.spare)
        → Follows SameSelector (D.Disk.may_leave folder.spare)
        (⟦<Spare<D, C> as Disk>⟧.may_leave next.spare)) }
    ensures note { IfOk result (λ next. witness_of next.card next.end next.last
        ≡ witness_of folder.card folder.end folder.last) }
    ensures noted { IfErr result (λ next. witness_of next.card next.end next.last
        ≡ witness_of folder.card folder.end folder.last) }
{
    let Folder {
        file,
        card,
        first,
        last,
        end,
        is_second,
        spare,
    } = folder;
    let spare = match Spare::<D, C>::open(alloc, spare) {
        Ok(spare) => spare,
        Err(spare) => {
            return Err(Folder {
                file,
                card,
                first,
                last,
                end,
                is_second,
                spare,
            });
        }
    };
    Ok(Folder {
        file,
        card,
        first,
        last,
        end,
        is_second,
        spare,
    })
}

/// A folder, and whether the file that doesn't count has a witness of the other one now.
#[derive(Drop)]
pub struct Witnessed<E: Counting + Drop, D: Disk + Drop> {
    pub folder: Folder<E, D>,
    pub is_left: bool,
}

/// What is known of a file with this card, where its groups end, and of their last sum.
pub(crate) fn witness_of(card: Note, end: usize, last: [u8; 64]) -> Note
    ensures is { result ≡ witness_of card end last }
    ensures fits { end < 2 ^ 64 }
{
    let identity = card.identity;
    Note {
        identity,
        generation: card.generation,
        end,
        sum: last,
    }
}

/// Puts a witness of the file that counts into the other one. Whatever a crash leaves at any
/// moment, and whether it is put or not, a start finds the same lines.
pub fn leave_witness<E: Counting + Drop, D: Disk + Drop, C: Selector>(
    alloc: Global,
    folder: Folder<E, Spare<D, C>>,
) -> Witnessed<E, Spare<D, C>>
    ensures holds { IsTrue (⟦<Spare<D, C> as Disk>⟧.is_clean folder.spare)
        → (kept : List (List ℕ)) → ⟦<Folder<E, Spare<D, C>> as Lines>⟧.holds folder kept []
        → ⟦<Folder<E, Spare<D, C>> as Lines>⟧.holds result.folder kept [] }

    // Whatever a crash leaves then, the witness stands there.
    ensures left { result.is_left ≡ true → IsTrue (⟦<Spare<D, C> as Disk>⟧.is_clean folder.spare)
        → (c : List ℕ) → ⟦<Spare<D, C> as Disk>⟧.may_leave result.folder.spare c
        → StandsAt 512 (believed c) (witness_of folder.card folder.end folder.last) }
    ensures calm { ⟦<Spare<D, C> as Disk>⟧.is_clean result.folder.spare
        ≡ ⟦<Spare<D, C> as Disk>⟧.is_clean folder.spare }
    ensures file { result.folder.file ≡ folder.file }
    ensures note { witness_of result.folder.card result.folder.end result.folder.last
        ≡ witness_of folder.card folder.end folder.last }
{
    let Folder {
        file,
        card,
        first,
        last,
        end,
        is_second,
        spare,
    } = folder;
    let mut spare = spare;
    let note = witness_of(card, end, last);
    match spare.witness(alloc, note) {
        Ok(()) => {}
        Err(_) => {
            return Witnessed {
                folder: Folder {
                    file,
                    card,
                    first,
                    last,
                    end,
                    is_second,
                    spare,
                },
                is_left: false,
            };
        }
    }
    Witnessed {
        folder: Folder {
            file,
            card,
            first,
            last,
            end,
            is_second,
            spare,
        },
        is_left: true,
    }
}
