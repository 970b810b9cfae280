//! The steps between two runs over a folder.

mod closing;
mod drafting;
mod lengthening;
mod renewing;
mod stretching;
mod turns;
mod witnessing;

pub use lengthening::{Lengthened, keep_length};
pub use renewing::{Tried, renew};
pub use witnessing::witness_folder;
