//! The limit that the form of a number sets.

/// The greatest variable byte integer (1.5.5), and so the greatest Remaining Length, in bytes (2.1.4), and the greatest
/// Subscription Identifier (3.8.2.1.2).
pub const MAX_REMAINING_LENGTH: u32 = 268_435_455;

const _: () = prove!(MAX_REMAINING_LENGTH == 268_435_455);
