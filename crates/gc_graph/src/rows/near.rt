//! The places that look-ups try first.

/// Where look-ups try first: content and snapshots behind the one that was found last, a parent
/// before its snapshot. What is found there is compared, so no answer depends on these places.
#[derive(Clone, Copy)]
pub(crate) struct Near {
    pub(crate) content: usize,
    pub(crate) snapshot: usize,
    /// The place of the snapshot that is read next.
    pub(crate) row: usize,
}

impl Near {
    /// The first places.
    pub(crate) fn first() -> Near {
        Near {
            content: 0,
            snapshot: 0,
            row: 0,
        }
    }
}
