//! What a running server counts, and the text that Prometheus reads of it.
//!
//! [`Metrics`] is shared by an `Arc`. Whoever serves a line counts by a [`Meter`], whose methods each add to a number of the line's shard; the
//! writer of the store sets by a [`WriterMeter`] what only it knows, and whoever keeps a journal by a [`JournalMeter`]. They count for nobody
//! if there are no metrics. Nobody waits for anybody, and after [`Metrics::new`] only [`write_text`] allocates.
//!
//! [`Metrics::snapshot`] sums all shards up, and [`write_text`] writes a [`Snapshot`] in Prometheus' text format 0.0.4: the contract says exactly
//! which text that is, for any table of families. That of a server is [`FAMILIES`]. [`resident_pages`] reads what the system tells of the memory
//! of a process.
//!
//! Other threads change a number at any time, so no contract says what is counted: tests do.
#![tactic(auto)]

mod counter;
mod families;
mod memory;
mod meter;
mod metrics;
mod snapshot;
mod text;

pub use counter::{COUNTERS, Counter, End, FilterOutcome, Outcome, Qos};
pub use families::{FAMILIES, Family, Kind, Row};
pub use memory::{PAGE_SIZE, resident_pages};
pub use meter::{Change, JournalMeter, Meter, WriterMeter, share};
pub use metrics::{Metrics, SHARDS};
pub use snapshot::{JournalNumbers, JournalPart, Limits, Snapshot, Source};
pub use text::write_text;
