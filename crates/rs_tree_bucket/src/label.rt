//! A level of topics, as the children of a branch are named by it.

ghost use Rattle.std.specs.Prelude.{◌≡◌, [], IfOk, IfSome};
ghost use Rattle.rs_tree_bucket.specs.Labels.{IsKeyIfAny};

use crate::key::{Key, SHORT, pad};
use rs_message::Found;
use std::alloc::{AllocError, Global};
use std::marker::Model;
use std::sync::Arc;

#[derive(Drop)]
enum LabelText {
    /// So many of these bytes. Behind them are zeros.
    Short([u8; SHORT], u8),
    /// So many bytes of a message's topic, from this one on.
    Part(u16, u32, Found),
    /// More bytes, which are shared.
    Long(Arc<Vec<u8>>),
}

/// A level. Contracts see its bytes.
#[derive(Drop)]
pub struct Label {
    text: LabelText,
}

impl Model for Label {
    ghost use Rattle.std.specs.Prelude.{List, ℕ};

    ghost Value = { List ℕ };

    ghost use Rattle.rs_tree_bucket.specs.Labels.{IsText, text_of};

    ghost view = { λ l. text_of l.text };

    ghost invariant = { λ l. IsText l.text };
}

/// A level of more bytes as a part of a topic, if it stands there at this byte.
fn part_of(level: &[u8], found: &Found, at: usize) -> Result<Option<Label>, AllocError>
    ensures { IfOk result (λ o. IfSome o (λ l. l ≡ level.now)) }
{
    let topic = found.topic().as_bytes();
    let (Ok(length), Ok(from)) = (u16::try_from(level.len()), u32::try_from(at)) else {
        return Ok(None);
    };
    if at > topic.len() {
        return Ok(None);
    }
    let (_, rest) = topic.split_at(at);
    if level.len() > rest.len() {
        return Ok(None);
    }
    let (own, _) = rest.split_at(level.len());
    if own != level {
        return Ok(None);
    }
    Ok(Some(Label {
        text: LabelText::Part(length, from, found.copy()?),
    }))
}

impl Label {
    /// The level of one message alone, which stands at a byte of its topic. If it is long, it is a part of that topic, and keeps the
    /// message in memory: so whoever takes the message away from below the level also renews the label.
    pub fn from_topic(
        alloc: Global,
        level: &[u8],
        found: &Found,
        at: usize,
    ) -> Result<Label, AllocError>
        ensures { IfOk result (λ l. l ≡ level.now) }
    {
        if level.len() > SHORT {
            if let Some(label) = part_of(level, found, at)? {
                return Ok(label);
            }
        }
        Label::new(alloc, level)
    }

    /// A label of these bytes.
    pub fn new(alloc: Global, level: &[u8]) -> Result<Label, AllocError>
        ensures { IfOk result (λ l. l ≡ level.now) }
    {
        if level.len() <= SHORT {
            return Ok(Label {
                text: LabelText::Short(pad(level), level.len() as u8),
            });
        }
        let bytes = Vec::from_slice(alloc, level)?;
        Ok(Label {
            text: LabelText::Long(Arc::new(alloc, bytes)?),
        })
    }

    /// The empty level, which is before each other one.
    pub fn empty() -> Label
        ensures { result ≡ [] }
    {
        Label {
            text: LabelText::Short([0; SHORT], 0),
        }
    }

    /// The bytes of the level.
    pub fn as_slice(&self) -> &[u8]
        ensures { result.now ≡ self.now }
    {
        match &self.text {
            LabelText::Short(bytes, length) => {
                let (level, _) = bytes.as_slice().split_at(*length as usize);
                level
            }
            LabelText::Part(length, from, found) => {
                let (_, rest) = found.topic().as_bytes().split_at(*from as usize);
                let (level, _) = rest.split_at(*length as usize);
                level
            }
            LabelText::Long(bytes) => bytes.as_slice(),
        }
    }

    /// Its bytes stand in the label itself, which keeps nothing else in memory.
    pub fn is_short(&self) -> bool {
        match &self.text {
            LabelText::Short(_, _) => true,
            _ => false,
        }
    }

    /// A short level as numbers.
    pub(crate) fn key(&self) -> Option<Key>
        ensures { IsKeyIfAny self.now result }
    {
        match &self.text {
            LabelText::Short(bytes, length) => Some(Key::new(bytes, *length)),
            _ => None,
        }
    }

    /// The same level. The error says that the count of owners is full.
    pub fn copy(&self) -> Result<Label, AllocError>
        ensures { IfOk result (λ l. l ≡ self.now) }
    {
        match &self.text {
            LabelText::Short(bytes, length) => Ok(Label {
                text: LabelText::Short(*bytes, *length),
            }),
            LabelText::Part(length, from, found) => Ok(Label {
                text: LabelText::Part(*length, *from, found.copy()?),
            }),
            LabelText::Long(bytes) => Ok(Label {
                text: LabelText::Long(Arc::try_clone(bytes)?),
            }),
        }
    }

    /// The same level, which keeps no message in memory.
    pub fn copy_detached(&self, alloc: Global) -> Result<Label, AllocError>
        ensures { IfOk result (λ l. l ≡ self.now) }
    {
        match &self.text {
            LabelText::Part(_, _, _) => Label::new(alloc, self.as_slice()),
            _ => self.copy(),
        }
    }
}
