//! Whether a store keeps its history: a word that its collections take too.
pub use collection::{HistoryMode, WithHistory, WithoutHistory};
