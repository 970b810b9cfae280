//! The line that a reader is in: its head, and its sum.
ghost use Rattle.std.specs.Prelude.{◌≡◌, ◌+◌, ◌-◌, ◌++◌, [], List, ℕ, length, take, if◌then◌else◌, IfSome, OnOk, IsErrOf, false};
ghost use Rattle.sha2.specs.Hashers.{Holds256};
ghost use Rattle.journal.specs.Text.{is_commit};

use crate::JournalError;
use crate::lines::is_commit;
use crate::sum::add_to;
use sha2::Sha256;

/// The head of a line, of this length, tells whether it is a commit line, and which.
const HEAD: usize = 83;

/// Where bytes at a place end.
pub fn end_of(at: usize, bytes: &[u8]) -> Option<usize>
    ensures { IfSome result (λ end. end ≡ at + length bytes.now) }
{
    at.checked_add(bytes.len())
}

// What is still wanted of a line's head.
fn head_of(bytes: &[u8], room: usize) -> &[u8]
    ensures { result.now ≡ take room bytes.now }
{
    &bytes[..bytes.len().min(room)]
}

/// Goes on with the head of a line.
pub fn add_head(head: &mut Vec<u8>, bytes: &[u8]) -> Result<(), JournalError>
    ensures ok { OnOk result
        (head.new.items ≡ head.old.items ++ take (83 - length head.old.items) bytes.now) }
    ensures blind { IsErrOf result JournalError.Damaged → ⊥ }
{
    let room = HEAD.saturating_sub(head.len());
    head.extend_from_slice(head_of(bytes, room))?;
    Ok(())
}

/// Sums a part of a line that may stand in a group.
pub fn sum_part(hasher: &mut Sha256, head: &[u8], is_torn: bool, bytes: &[u8])
    ensures { is_torn ≡ false → (m : List ℕ) → Holds256 hasher.old m
        → Holds256 hasher.new (m ++ (if is_commit head.now then [] else bytes.now)) }
{
    if !is_torn && !is_commit(head) {
        add_to(hasher, bytes);
    }
}
