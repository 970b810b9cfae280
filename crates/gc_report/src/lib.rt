//! A collection's report, what would go without a row, and their JSON.
#![tactic(auto)]

mod copies;
mod difference;
mod impact;
mod objects;
mod report;
mod rows;
mod same;
mod writing;

pub use impact::{Impact, ImpactRows};
pub use objects::Objects;
pub use report::Report;
pub use rows::{Kept, Removed};
pub use writing::{WriteJson, write_list, write_member};
