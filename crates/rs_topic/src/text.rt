//! Texts, and the faults of texts, topic names and topic filters.

ghost use Rattle.std.specs.Prelude.{◌≡◌, ◌<◌, ◌^◌, length, Some, None, if◌then◌else◌, ◌==◌, IfOk, MatchResult};
ghost use Rattle.std.specs.Str.{is_utf8};
ghost use Rattle.rs_topic.specs.Texts.{IsText, reads_as_text};
ghost use Rattle.rs_topic.specs.Topics.{is_plain, first_fault, text_faults, read_text, code_of};
ghost use Rattle.rs_topic.specs.Meanings.{IsReadAs, Reads};
ghost use Rattle.rs_topic.specs.declared.text.TopicFault.TheVariants.{NoMemory};

use crate::limits::{MAX_LEVELS, MAX_TEXT_SIZE};
use bytes::Bytes;
use std::alloc::{AllocError, Global};
use std::marker::Model;
use thiserror::Error;

/// Why bytes are not a text, a topic name or a topic filter.
#[derive(Clone, Copy, Debug, PartialEq, Eq, Error)]
pub enum TopicFault {
    /// 1: a name or a filter has no byte (4.7.3).
    #[error("a topic is empty: give at least one character")]
    Empty,
    /// 2: there are more than [`MAX_TEXT_SIZE`](crate::MAX_TEXT_SIZE) bytes (1.5.4).
    #[error("a text has more than {} bytes: shorten it", MAX_TEXT_SIZE)]
    TooLong,
    /// 3: the bytes are not UTF-8 (1.5.4).
    #[error("a text is not UTF-8: encode it as UTF-8")]
    NotUtf8,
    /// 4: the text contains U+0000 (1.5.4).
    #[error("a text contains the character U+0000: leave it out")]
    HasNul,
    /// 5: a topic name contains `+` or `#` (4.7.1).
    #[error("a topic name contains the wildcard `+` or `#`: publish to one topic at a time")]
    HasWildcard,
    /// 6: in a topic filter a level contains `+` or `#` and more, or `#` is not the last level (4.7.1.2, 4.7.1.3).
    #[error("a wildcard is misplaced: `+` has to fill a level of a topic filter, and `#` its last level")]
    BadWildcard,
    /// 7: there are more than [`MAX_LEVELS`](crate::MAX_LEVELS) levels (this server's choice).
    #[error("a topic has more than {} levels: use fewer slashes", MAX_LEVELS)]
    TooManyLevels,
    /// 8: a topic filter begins with `$share/`: shared subscriptions (4.8.2) are not supported.
    #[error("shared subscriptions are not supported: leave out `$share/` and the share name")]
    Shared,
    /// 9: out of memory for a copy of the bytes.
    #[error("there is no memory for a copy of the text: try again later")]
    NoMemory,
}

impl TopicFault {
    /// The number of the fault, 1 to 9.
    pub fn code(&self) -> u8
        ensures { result ≡ code_of self.now }
    {
        match self {
            TopicFault::Empty => 1,
            TopicFault::TooLong => 2,
            TopicFault::NotUtf8 => 3,
            TopicFault::HasNul => 4,
            TopicFault::HasWildcard => 5,
            TopicFault::BadWildcard => 6,
            TopicFault::TooManyLevels => 7,
            TopicFault::Shared => 8,
            TopicFault::NoMemory => 9,
        }
    }
}

fn is_utf8_text(bytes: &[u8]) -> bool
    ensures { result ≡ is_utf8 bytes.now }
{
    simdutf8::is_utf8(bytes)
}

/// Why these bytes are not a text (1.5.4).
pub(crate) fn text_fault(bytes: &[u8]) -> Option<TopicFault>
    ensures { result ≡ first_fault text_faults bytes.now }
{
    if bytes.len() > MAX_TEXT_SIZE {
        return Some(TopicFault::TooLong);
    }
    if !is_utf8_text(bytes) {
        return Some(TopicFault::NotUtf8);
    }
    if bytes.contains(&0) {
        return Some(TopicFault::HasNul);
    }
    None
}

/// UTF-8 without U+0000, of at most [`MAX_TEXT_SIZE`] bytes (1.5.4). Texts are compared byte by byte.
#[derive(Debug, Drop, PartialEq, Eq)]
pub struct Text {
    bytes: Bytes,
}

impl Model for Text {
    ghost use Rattle.std.specs.Prelude.{List, ℕ};
    ghost use Rattle.rs_topic.specs.Texts.{IsText};

    ghost Value = { List ℕ };

    ghost view = { λ t. t.bytes };

    ghost invariant = { λ t. IsText t.bytes };

    ghost inverse = { λ v. record { bytes = v } };
}

impl Text {
    /// The text of these bytes, which are not copied, and which the caller keeps to [`MAX_TEXT_SIZE`](crate::MAX_TEXT_SIZE). None if
    /// they are not UTF-8, or contain U+0000. It takes no memory.
    #[tactic(auto, using(crate::proofs::TextLemmas::is_text_when_read))]
    pub fn from_bytes(bytes: Bytes) -> Option<Text>
        requires { length bytes < 2 ^ 16 }
        ensures { result ≡ (if reads_as_text bytes then Some bytes else None) }
    {
        if is_utf8_text(bytes.as_slice()) && !bytes.as_slice().contains(&0) {
            Some(Text { bytes })
        } else {
            None
        }
    }

    /// The text of a copy of these bytes. The error is the first of `TooLong`, `NotUtf8`, `HasNul`, `NoMemory`; only the copy
    /// takes memory.
    #[tactic(auto, using(crate::proofs::Readings::text_copied_for, crate::proofs::Readings::text_read_is))]
    pub fn read(alloc: Global, bytes: &[u8]) -> Result<Text, TopicFault>
        ensures exact { IsReadAs (read_text bytes.now) result }
        ensures meaning { Reads IsText text_faults bytes.now result }
    {
        match text_fault(bytes) {
            Some(fault) => Err(fault),
            None => Text::copied(alloc, bytes),
        }
    }

    // The bytes are a text already.
    pub(crate) fn copied(alloc: Global, bytes: &[u8]) -> Result<Text, TopicFault>
        requires { IsText bytes.now }
        ensures { MatchResult result (λ t. t ≡ bytes.now) (λ fault. fault ≡ NoMemory) }
    {
        match Bytes::copy_from_slice(alloc, bytes) {
            Ok(bytes) => Ok(Text { bytes }),
            Err(_) => Err(TopicFault::NoMemory),
        }
    }

    /// An equal text, which shares the bytes. The error says that the count of their owners is full.
    pub fn copy(&self) -> Result<Text, AllocError>
        ensures { IfOk result (λ t. t ≡ self.now) }
    {
        Ok(Text {
            bytes: self.bytes.clone()?,
        })
    }

    /// Whether it is empty.
    pub fn is_empty(&self) -> bool
        ensures { result ≡ (length self.now == 0) }
    {
        self.bytes.is_empty()
    }

    /// Whether it contains neither `+` nor `#` (4.7.1).
    pub fn is_plain(&self) -> bool
        ensures { result ≡ is_plain self.now }
    {
        let bytes = self.bytes.as_slice();
        !(bytes.contains(&b'+') || bytes.contains(&b'#'))
    }

    /// The bytes.
    pub fn as_bytes(&self) -> &[u8]
        ensures bytes { result.now ≡ self.now }
        ensures short { length result.now < 2 ^ 16 }
        ensures valid { IsText self.now }
    {
        self.bytes.as_slice()
    }
}
