//! Whether the file that counts has a head and a page.
ghost use Rattle.std.specs.Prelude.{◌≡◌, List, ℕ, IsTrue, IfErr, OnOk};
ghost use Rattle.store_folder.specs.Openings.{IsPassing, IsPaged};

use crate::opening::error::{OpenError, head_error};
use journal::{has_head, reads_page};
use sqlite_disk::Disk;
use std::alloc::Global;

/// Looks whether a file has a head that can be read, and a page. It isn't changed.
pub fn check_head<D: Disk>(alloc: Global, disk: &mut D) -> Result<(), OpenError>
    ensures paged { OnOk result (IsTrue (D.is_clean disk.new) → IsPaged (D.seen disk.old)) }
    ensures refuses { IfErr result
        (λ error. IsTrue (D.is_clean disk.new) → IsPaged (D.seen disk.old) → IsPassing error) }
    ensures clean { IsTrue (D.is_clean disk.new) → IsTrue (D.is_clean disk.old) }
    ensures seen { D.seen disk.new ≡ D.seen disk.old }
    ensures crash { (c : List ℕ) → D.may_leave disk.new c → D.may_leave disk.old c }
{
    let is_headed = match has_head(alloc, disk) {
        Ok(is_headed) => is_headed,
        Err(error) => return Err(head_error(error)),
    };
    if !is_headed {
        return Err(OpenError::DiskFailed);
    }
    let Ok(is_paged) = reads_page(disk) else {
        return Err(OpenError::DiskFailed);
    };
    if !is_paged {
        return Err(OpenError::OldFormat);
    }
    Ok(())
}
