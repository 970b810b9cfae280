//! Leases by namespace and id, and what each holds.
#![tactic(auto)]

mod edits;
mod ids;
mod lease;
mod leases;

pub use lease::Lease;
pub use leases::Leases;
