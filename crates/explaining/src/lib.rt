//! What keeps a row: of all shortest paths of references the first.
#![tactic(auto)]

mod answer;
mod asked;
mod explain_rows;
mod firsts;
mod holders;
pub mod laws;
mod nearest;
mod order;
mod path_search;
mod reasons;
mod roots;
mod telling;
mod thing_row;
mod things;

pub use answer::explain;
