//! The limits of connections.

/// How many connections are served at once.
pub const MAX_REQUESTS: usize = 8;

const _: () = prove!(MAX_REQUESTS == 8);

/// How many descriptors are needed: for the address, the stop and each connection, and one to read how much memory is resident.
pub const MAX_DESCRIPTORS: u8 = 11;

const _: () = prove!(MAX_DESCRIPTORS as usize == MAX_REQUESTS + 3);

/// How long a connection lasts in all, in seconds.
pub const SECONDS: u64 = 5;

const _: () = prove!(SECONDS == 5);

/// How many bytes the head of a request may have.
pub const MAX_HEAD: usize = 8_192;

const _: () = prove!(MAX_HEAD == 8_192);

/// How many bytes are read and discarded behind a reply, so that the client can still read it.
pub const MAX_DISCARDED: usize = 65_536;

const _: () = prove!(MAX_DISCARDED == 65_536);
