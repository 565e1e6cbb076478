//! The limits of connections and of accepting them.

/// How many connections may wait to be accepted, at least. A fleet connects at once, and the system drops the packets of a client
/// that finds no room. That client tries again only a second later, and then after ever longer times.
pub const BACKLOG: i32 = 4_096;

const _: () = prove!(BACKLOG == 4_096);

/// How many bytes of replies are gathered before they are written out.
pub const MAX_GATHERED: usize = 65_536;

const _: () = prove!(MAX_GATHERED == 65_536);

/// How many bytes are read and discarded at the end of a connection, in about [`DISCARD_SECONDS`].
pub const MAX_DISCARDED: usize = 1_048_576;

const _: () = prove!(MAX_DISCARDED == 1_048_576);

/// How long bytes are read and discarded at the end of a connection, in seconds.
pub const DISCARD_SECONDS: u64 = 1;

const _: () = prove!(DISCARD_SECONDS == 1);

/// The pause after the first of some failed accepts in a row, in milliseconds.
pub const FIRST_PAUSE: u64 = 10;

const _: () = prove!(FIRST_PAUSE == 10);

/// The longest pause after a failed accept, in milliseconds.
pub const LONGEST_PAUSE: u64 = 1_000;

const _: () = prove!(LONGEST_PAUSE == 1_000);
