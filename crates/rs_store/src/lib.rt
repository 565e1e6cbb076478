//! The store of retained messages (3.3.1.3): what it holds after a list of entries, which entry may come next, and how a SUBSCRIBE is
//! answered.
//!
//! A [`Catalogue`] keeps the content of a list of entries: the message of each topic, the last serial of each place and of the writer,
//! and the number of entries. [`add`] appends one entry or says why not. If a Set is one topic too many, it first appends a Sweep, by
//! which expired messages free their topics. A [`Calm`] says from which moment on it has to look for them. A [`CalmCatalogue`] is a
//! catalogue with its calm moment. A catalogue is its messages and a [`Ledger`], which counts the entries. Its [`Messages`] alone give the
//! answers, so a reader takes them without the ledger.
#![tactic(auto)]

mod answer;
mod calm;
mod calm_catalogue;
mod catalogue;
mod content;
mod expiry;
mod fault;
mod law;
mod ledger;
mod limit;
mod messages;
mod size;

pub use answer::{Answer, Stop};
pub use calm::Calm;
pub use calm_catalogue::CalmCatalogue;
pub use catalogue::{Catalogue, add, judge};
pub use content::Content;
pub use expiry::{earliest_end, is_expired};
pub use fault::Refusal;
pub use law::{content_law, sweep_law};
pub use ledger::Ledger;
pub use limit::{MAX_TOPICS, TOPIC_BYTES, TopicLimit};
pub use messages::Messages;
pub use size::bytes_of;
