//! Lists of sessions, emptied.
ghost use Rattle.std.specs.Prelude.{◌≡◌, ◌+◌, ◌-◌, ◌≤◌, map, length};
ghost use Rattle.store_front.specs.Finish.{fresh, told_to};

use crate::session::Session;
use std::alloc::Global;
use std::sync::ledger::{Book, Ledger};

// Empties a session's list, and takes its entries out of the book.
fn clear<L: Ledger>(alloc: Global, book: &mut Book<L>, session: &mut Session<L>)
    ensures session { session.new ≡ fresh session.old }
    ensures total { book.new.total + length session.old.list ≡ book.old.total }
{
    let Session { list, share, .. } = session;
    book.sub(share, list.len() as u64);
    *list = Vec::new(alloc);
}

// The same of all sessions.
pub(crate) fn clear_all<L: Ledger>(alloc: Global, book: &mut Book<L>, sessions: &mut [Session<L>])
    ensures sessions { sessions.new ≡ map fresh sessions.old }
    ensures total { book.new.total + told_to sessions.old ≡ book.old.total }
{
    for i in 0..sessions.len() {
        let session = &mut sessions[i];
        clear(alloc, book, session);
    }
}
