//! A topic and its retained message, which all that hold them share.

ghost use Rattle.std.specs.Prelude.{◌≡◌, IfOk};

use crate::message::Message;
use rs_topic::TopicName;
use std::alloc::{AllocError, Global};
use std::marker::Model;
use std::sync::Arc;

#[derive(Debug, Drop)]
struct Block {
    topic: TopicName,
    message: Message,
}

// With its count of owners it takes at most 120 bytes, which is what glibc allocates and frees fastest.
const _: () = prove!(size_of::<Block>() <= 112);

/// A topic and its retained message (3.3.1.3), in one block of memory that all copies share.
#[derive(Debug, Drop)]
pub struct Found {
    block: Arc<Block>,
}

impl Model for Found {
    ghost use Rattle.rs_message.specs.Values.{FoundValue};

    ghost Value = { FoundValue };

    ghost view = { λ f. record { topic = f.block.value.topic; message = f.block.value.message } };
}

impl Found {
    /// The topic and the message in a block of their own; none of their bytes is copied. The error says that memory for the block
    /// was refused.
    pub fn new(alloc: Global, topic: TopicName, message: Message) -> Result<Found, AllocError>
        ensures { IfOk result (λ f. f ≡ record { topic = topic; message = message }) }
    {
        Ok(Found {
            block: Arc::new(alloc, Block { topic, message })?,
        })
    }

    /// The topic.
    pub fn topic(&self) -> &TopicName
        ensures { result.now ≡ self.now.topic }
    {
        &self.block.topic
    }

    /// Its retained message.
    pub fn message(&self) -> &Message
        ensures { result.now ≡ self.now.message }
    {
        &self.block.message
    }

    /// One more owner of the same block. It takes no memory. The error says that the count of owners is full.
    pub fn copy(&self) -> Result<Found, AllocError>
        ensures { IfOk result (λ f. f ≡ self.now) }
    {
        Ok(Found {
            block: Arc::try_clone(&self.block)?,
        })
    }
}

impl PartialEq for Found {
    ghost use Rattle.std.specs.Cmp.{partial_equiv_from_equiv};
    ghost use Rattle.rs_message.specs.Equality.{found_eq, found_eq_equiv};

    ghost eq = { found_eq };

    ghost laws = { partial_equiv_from_equiv found_eq_equiv };

    fn eq(&self, other: &Found) -> bool {
        self.topic().as_bytes() == other.topic().as_bytes() && *self.message() == *other.message()
    }
}

impl Eq for Found {
    ghost use Rattle.rs_message.specs.Equality.{found_eq_equiv};

    ghost laws = { found_eq_equiv };
}
