//! The limits of texts, topic names and topic filters.

/// The greatest size of a text in bytes: the length before it has two bytes (1.5.4).
pub const MAX_TEXT_SIZE: usize = 65_535;

const _: () = prove!(MAX_TEXT_SIZE == 65_535);

/// The greatest number of levels of a topic name and of a topic filter (this server's choice; 4.7.1.1 has none).
pub const MAX_LEVELS: usize = 128;

const _: () = prove!(MAX_LEVELS == 128);
