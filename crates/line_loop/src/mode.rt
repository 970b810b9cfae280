//! Which lines a run may do, by the room that its log has.

/// Which lines a run may do. The log chooses it for each block, by the room that it has.
#[derive(Clone, Copy, Debug, PartialEq, Eq)]
pub enum Mode {
    /// Each line is answered.
    AllLines,
    /// Lines that add are refused for want of room, and so is a line of more than 8,192 bytes: what
    /// room is left is for removals and collections.
    NoAdditions,
    /// Lines that never change the service are answered, and all others are refused: the log has no
    /// room left.
    ReadOnly,
}
