//! Removal of backend objects, shard by shard, by several threads.
#![tactic(auto)]

mod backends;
mod blobs;
mod gate;
mod ingests;
mod number_set;
mod outcomes;
mod parts;
mod rows;
mod shard;
mod shard_outcome;
mod shard_plans;
mod shard_swept;
mod shard_task;
mod tasks;

pub use backends::{sweep_by, sweep_plain, sweep_shards};
pub use gate::{OpenSweepGate, SweepCrew, SweepGate};
pub use outcomes::{Outcome, Outcomes};
pub use rows::{rows_lent, rows_listed};
pub use shard::sweep_shard;
pub use shard_swept::ShardSwept;
