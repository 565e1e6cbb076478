//! Topic names and topic filters of MQTT 5.0 (OASIS, sections 1.5.4 and 4.7): the lowest layer of the broker.
//!
//! A [`Text`] is UTF-8 without U+0000. A [`TopicName`] names one topic, a [`TopicFilter`] selects topics by wildcards. Their
//! sizes are limited by [`MAX_TEXT_SIZE`] and [`MAX_LEVELS`]. Each type has two constructors: `read` copies bytes, and
//! `Text::from_bytes`, or `try_from` of a text, copies none. Those of names and filters answer the first [`TopicFault`] that the
//! bytes have. Only `read` takes memory: `copy` shares the bytes, and is refused only if the count of their owners is full.
//!
//! Contracts promise that these constructors accept exactly the texts, names and filters of the standard and give back the same
//! bytes; that `matches` answers the match relation of 4.7.1 and 4.7.2; that names are ordered level by level, each level by its
//! bytes; that `==` and the hash go by the bytes; and that `levels` gives the texts between the slashes. docs/TOPICS.md has the
//! rules in words.
#![tactic(auto)]

mod filter;
mod law;
mod level;
mod limits;
mod matching;
mod name;
mod order;
mod text;

pub use filter::TopicFilter;
pub use law::{level_law, match_law, order_law, reading_law};
pub use level::{Levels, is_level, level_at};
pub use limits::{MAX_LEVELS, MAX_TEXT_SIZE};
pub use matching::{begins_with_dollar, is_all_below, is_plus, levels_fit};
pub use name::TopicName;
pub use order::compare_rests;
pub use text::{Text, TopicFault};
