//! What a Clear found.

/// What a Clear of one topic found below a spot.
#[derive(Clone, Copy, Debug, PartialEq, Eq)]
pub enum Cleared {
    /// No message of this topic.
    Missing,
    /// A message of this topic, and others, which are left.
    Left,
    /// The only message there. It is left for the caller to remove the spot.
    Last,
}
