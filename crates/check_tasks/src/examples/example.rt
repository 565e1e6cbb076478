//! An example.

use rs_server::Served;
use rs_store::TopicLimit;

/// One connection: what the client sends, and what it has to be answered.
#[derive(Drop)]
pub struct Connection {
    /// The moments of its packets, in seconds. The last one is repeated; with none given, each is 0.
    pub moments: Vec<u64>,
    pub sent: Vec<u8>,
    pub replies: Vec<u8>,
    pub ended: Served,
}

/// What a store holds.
#[derive(Clone, Copy, PartialEq, Eq)]
pub struct Stored {
    pub version: u64,
    pub topics: u32,
}

/// Connections, one after the other, over one store that is empty at first.
#[derive(Drop)]
pub struct Example {
    /// The number of its first line in the file, counted from 1.
    pub line: u64,
    pub limit: TopicLimit,
    pub connections: Vec<Connection>,
    /// What the store has to hold after the last connection, if the example says so.
    pub stored: Option<Stored>,
}

/// A connection that sends more bytes than this is long.
const LONG: usize = 1000;

impl Example {
    /// The number of bytes that the longest connection sends.
    pub fn longest(&self) -> usize {
        let mut longest = 0usize;
        for connection in &self.connections {
            longest = longest.max(connection.sent.len());
        }
        longest
    }

    /// Whether a connection is so long that serving it at each cut would take too long.
    pub fn is_long(&self) -> bool {
        self.longest() > LONG
    }
}
