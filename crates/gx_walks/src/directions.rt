// The two directions.

/// From which end a path is walked.
#[derive(Clone, Copy, Debug, PartialEq, Eq)]
pub enum Direction {
    /// from its first file
    Forward,
    /// from its last file
    Backward,
}
