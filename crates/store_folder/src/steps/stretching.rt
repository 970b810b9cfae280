//! Makes the file of a folder longer that doesn't count.
ghost use Rattle.std.specs.Prelude.{◌≡◌, IsTrue};
ghost use Rattle.store_folder.specs.Steps.{Keeps};

use crate::counting::Counting;
use crate::leaving::open_spare;
use crate::running::{Folder, Lines};
use crate::spare::Spare;
use crate::steps::closing::close_spare;
use journal::{Active, JournalError, Selector, Standby};
use sqlite_disk::Disk;
use std::alloc::Global;

/// A folder whose file that doesn't count was to be made longer, and how many bytes that one has: 0
/// where it isn't known, or it is too short.
#[derive(Drop)]
pub struct Stretched<E: Counting + Drop, D: Disk + Drop> {
    pub folder: Folder<E, D>,
    pub size: usize,
    pub is_short: bool,
}

// Makes the open file longer that doesn't count.
fn stretch_spare<E: Counting + Drop, D: Disk + Drop, C: Selector>(
    folder: Folder<E, Spare<D, C>>,
    bytes: usize,
) -> Stretched<E, Spare<D, C>>
    ensures holds { IsTrue (D.Disk.is_clean folder.spare.file.disk)
        → Keeps (⟦<Folder<E, Spare<D, C>> as Lines>⟧.holds folder)
        (⟦<Folder<E, Spare<D, C>> as Lines>⟧.holds result.folder) }
    ensures calm { D.Disk.is_clean result.folder.spare.file.disk
        ≡ D.Disk.is_clean folder.spare.file.disk }
    ensures file { result.folder.file ≡ folder.file }
{
    let Folder {
        file,
        card,
        first,
        last,
        end,
        is_second,
        spare,
    } = folder;
    let mut spare = spare;
    let (size, is_short) = match spare.lengthen(bytes) {
        Ok(size) => (size, false),
        Err(error) => (0, error == JournalError::CannotGrow),
    };
    Stretched {
        folder: Folder {
            file,
            card,
            first,
            last,
            end,
            is_second,
            spare,
        },
        size,
        is_short,
    }
}

// Makes the file longer that doesn't count, and has this selector.
fn stretch_as<E: Counting + Drop, D: Disk + Drop, C: Selector>(
    alloc: Global,
    folder: Folder<E, D>,
    bytes: usize,
) -> Stretched<E, D>
    ensures holds { IsTrue (D.Disk.is_clean result.folder.spare)
        → Keeps (⟦<Folder<E, D> as Lines>⟧.holds folder)
        (⟦<Folder<E, D> as Lines>⟧.holds result.folder) }
    ensures clean { IsTrue (D.Disk.is_clean result.folder.spare)
        → IsTrue (D.Disk.is_clean folder.spare) }
    ensures file { result.folder.file ≡ folder.file }
{
    let opened = match open_spare::<E, D, C>(alloc, folder) {
        Ok(opened) => opened,
        Err(back) => {
            return Stretched {
                folder: back,
                size: 0,
                is_short: false,
            };
        }
    };
    let stretched = stretch_spare(opened, bytes);
    let closed = close_spare(stretched.folder);
    Stretched {
        folder: closed,
        size: stretched.size,
        is_short: stretched.is_short,
    }
}

/// Makes the file longer that doesn't count. Whatever a crash leaves at any moment, a start finds
/// the same lines, if no read of that file answered what isn't there.
pub fn stretch<E: Counting + Drop, D: Disk + Drop>(
    alloc: Global,
    folder: Folder<E, D>,
    bytes: usize,
) -> Stretched<E, D>
    ensures holds { IsTrue (D.Disk.is_clean result.folder.spare)
        → Keeps (⟦<Folder<E, D> as Lines>⟧.holds folder)
        (⟦<Folder<E, D> as Lines>⟧.holds result.folder) }
    ensures clean { IsTrue (D.Disk.is_clean result.folder.spare)
        → IsTrue (D.Disk.is_clean folder.spare) }
    ensures file { result.folder.file ≡ folder.file }
{
    let is_second = folder.is_second;
    if is_second {
        return stretch_as::<E, D, Standby>(alloc, folder, bytes);
    }
    stretch_as::<E, D, Active>(alloc, folder, bytes)
}
