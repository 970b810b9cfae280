//! The two kinds of stores: one that keeps its history, and one that keeps none.
ghost use Rattle.std.specs.Prelude.{Bool, true, false};

/// Whether a store keeps its history.
pub trait HistoryMode {
    ghost KEPT: { Bool };

    const KEPT: bool;
}

/// It keeps the store at the opening, and each event since with its answer.
pub struct WithHistory;

impl HistoryMode for WithHistory {
    ghost KEPT = { true };

    const KEPT: bool = true;
}

/// It keeps nothing but the store, and an event takes no memory for an entry.
pub struct WithoutHistory;

impl HistoryMode for WithoutHistory {
    ghost KEPT = { false };

    const KEPT: bool = false;
}
