//! The plan of a collection, from its marks, and the sweep of the rows.
#![tactic(auto)]

mod blobs;
mod counts;
mod depths;
pub mod laws;
mod leases;
mod masks;
mod names;
mod objects;
mod owners;
mod parallel;
mod pass;
mod places;
mod planning;
mod prefix_order;
mod sorting;

pub use depths::BackSnap;
pub use masks::{Masks, masks_of};
pub use objects::BackRows;
pub use parallel::Team;
pub use pass::sweep;
pub use planning::{Plan, plan_of};
