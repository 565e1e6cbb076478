//! What a tree counts of its messages.

/// How many topics hold a message, and how many bytes they count.
#[derive(Clone, Copy)]
pub(crate) struct Totals {
    pub(crate) count: u32,
    pub(crate) bytes: u64,
}
