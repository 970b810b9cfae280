//! The format of a file, as the digit in its first line says.
ghost use Rattle.std.specs.Prelude.{◌≡◌, ◌≤◌, [], ◌∷◌, ℕ, List, length, take, true, IsTrue, IfOk, IfErr, OnOk};
ghost use Rattle.sqlite_disk.specs.Disk.{Follows};
ghost use Rattle.journal.specs.Crashes.{Only, written};
ghost use Rattle.journal.specs.Head.{has_page};
ghost use Rattle.journal.specs.Selector.{FormatLeft};

use crate::JournalError;
use crate::journal_file::head::has_page;
use crate::journal_file::steps::put;
use sqlite_disk::Disk;

// The first line of a file that has a head.
fn read_line<D: Disk>(disk: &mut D) -> Result<[u8; 17], JournalError>
    ensures bytes { IfOk result
        (λ line. IsTrue (D.is_clean disk.new) → line ≡ take 17 (D.seen disk.old)) }
    ensures failed { IfErr result (λ error. error ≡ JournalError.DiskFailed) }
    ensures usable { IsTrue (D.is_usable disk.old) → IsTrue (D.is_usable disk.new) }
    ensures clean { IsTrue (D.is_clean disk.new) → IsTrue (D.is_clean disk.old) }
    ensures seen { D.seen disk.new ≡ D.seen disk.old }
    ensures crash { (c : List ℕ) → D.may_leave disk.new c → D.may_leave disk.old c }
{
    if !disk.may_be_used() {
        return Err(JournalError::DiskFailed);
    }
    let mut line = [0u8; 17];
    match disk.read_at(0, &mut line) {
        Ok(()) => Ok(line),
        Err(_) => Err(JournalError::DiskFailed),
    }
}

/// Whether a file that has a head has a page of notes before its text: one of format 2 has.
pub fn reads_page<D: Disk>(disk: &mut D) -> Result<bool, JournalError>
    ensures page { IfOk result
        (λ has. IsTrue (D.is_clean disk.new) → has ≡ has_page (D.seen disk.old)) }
    ensures failed { IfErr result (λ error. error ≡ JournalError.DiskFailed) }
    ensures usable { IsTrue (D.is_usable disk.old) → IsTrue (D.is_usable disk.new) }
    ensures clean { IsTrue (D.is_clean disk.new) → IsTrue (D.is_clean disk.old) }
    ensures seen { D.seen disk.new ≡ D.seen disk.old }
    ensures crash { (c : List ℕ) → D.may_leave disk.new c → D.may_leave disk.old c }
{
    let line = read_line(disk)?;
    Ok(has_page(line.as_slice()))
}

/// Makes a file of format 1 that has a head one of format 2. What is believed of it is the same,
/// but begins with a page then. So it has to be a file that doesn't count. A crash leaves the file
/// as it was, or so.
pub fn put_format<D: Disk>(disk: &mut D) -> Result<(), JournalError>
    ensures ok { OnOk result (17 ≤ length (D.seen disk.old)
        → D.seen disk.new ≡ written 15 (50 ∷ []) (D.seen disk.old)) }
    ensures durable { OnOk result (Only (D.seen disk.new) (D.may_leave disk.new)) }
    ensures calm { D.is_clean disk.new ≡ D.is_clean disk.old }
    ensures failed { IfErr result (λ error. error ≡ JournalError.DiskFailed) }
    ensures crash { Follows FormatLeft (D.may_leave disk.old) (D.may_leave disk.new) }
{
    if !disk.may_be_used() {
        return Err(JournalError::DiskFailed);
    }
    if !disk.mixes() {
        return Err(JournalError::DiskFailed);
    }
    put(disk, 15, b"2")?;
    Ok(())
}
