//! A store's things as numbered nodes, and the graph of their references.
#![tactic(auto)]

mod book;
mod build_graph;
mod edges;
mod ends;
mod ignored;
pub mod laws;
mod node;
mod nodes;
mod numbers;
mod parallel;
mod refs;
mod roots;
mod rows;
mod texts;

pub use book::NodeBook;
pub use build_graph::{Starts, build, find_starts};
pub use ends::{image_stays, lease_stays};
pub use ignored::Ignored;
pub use node::Node;
pub use parallel::thread_count;
pub use roots::lease_mode;
pub use rows::{ListedRows, RowPlaces, StoreRows};
