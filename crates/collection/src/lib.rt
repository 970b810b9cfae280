//! One collection, whole: check, plan, sweeps and report.
#![tactic(auto)]

mod arrived;
mod collect_store;
mod crew;
mod dry;
mod history_mode;
mod impacts;
pub mod laws;
mod leaving;
mod planning;
mod removal;
mod reporting;
mod reports;
mod row_name;
mod spare;

pub use collect_store::collect;
pub use crew::CollectionCrew;
pub use dry::{dry_report, dry_run};
pub use history_mode::{HistoryMode, WithHistory, WithoutHistory};
pub use impacts::{impact, impact_of_lists};
pub use planning::plan_store;
pub use removal::remove_collect;
pub use reports::{Copies, Reports};
