//! What the heads of a store's two files say, before one of them is served.

mod fitting;
mod looking;
mod opening;
mod putting;

pub use fitting::{Loss, Ready, loss_of, make_ready, open_ready, unfit_by};
use journal::JournalError;
pub use looking::{Other, look, unknown};
pub use opening::{Head, open_head, read_head, take_unmade};
pub use putting::{card_beside, new_card, put_card, put_witness};

/// Why two files aren't served.
#[derive(Clone, Copy, PartialEq, Eq)]
pub enum Unfit {
    /// They are of two stores.
    OtherStore,
    /// They are of two moments of a store.
    OtherMoment,
    /// A later file counted already than the one that counts now.
    Stale,
    /// The file that counts has fewer lines than it had.
    Less,
    /// The file that counts lacks a part of its checkpoint.
    Part,
    /// The making of the store was cut short: its first file has no card.
    NoStore,
    /// The card of the file that counts can't be read.
    NoCard,
}

/// Why a file's head gives no start.
#[derive(Clone, Copy)]
pub enum NoHeads {
    Journal(JournalError),
    Unfit(Unfit),
}

impl From<JournalError> for NoHeads {
    fn from(error: JournalError) -> NoHeads {
        NoHeads::Journal(error)
    }
}
