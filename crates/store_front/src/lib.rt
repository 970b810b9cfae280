//! A store behind one lock, its sessions, and a history or none.
#![tactic(auto)]

mod calls;
mod check;
mod event;
mod history;
mod history_mode;
mod locked;
mod session;
mod store;

pub use calls::explain::Explained;
pub use calls::impact::Foreseen;
pub use calls::plan_copy::PlannedCopy;
pub use event::entry::{Entry, SessionEntry};
pub use event::event::{Answer, Event};
pub use event::kept_report::KeptReport;
pub use history::base::{Base, History};
pub use history_mode::{HistoryMode, WithHistory, WithoutHistory};
pub use locked::{Locked, MemLocked, SESSIONS};
pub use session::Session;
pub use store::{Store, finish};
