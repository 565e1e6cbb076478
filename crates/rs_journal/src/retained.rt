//! What is retained after operations.

ghost use Rattle.std.specs.Prelude.{◌≡◌, [], IfOk, OnOk, OnErr};
ghost use Rattle.std.specs.BTreeMap.{insert_entry};
ghost use Rattle.std.specs.List.{filter};
ghost use Rattle.rs_topic.specs.Order.{topic_cmp};
ghost use Rattle.rs_store.specs.Contents.{after, stays};

use crate::sink::OperationSink;
use rs_message::{Found, Message, Operation};
use rs_store::is_expired;
use rs_topic::TopicName;
use std::alloc::{AllocError, Global};
use std::collections::BTreeMap;

/// The messages that are retained after the operations that it has taken, one for each topic. It holds no message that a later one
/// replaced, so reading a journal into it takes little more memory than they do.
#[derive(Drop)]
pub struct Retained {
    pub(crate) messages: BTreeMap<TopicName, Message>,
}

/// Removes the messages that are expired.
fn sweep(messages: &mut BTreeMap<TopicName, Message>, moment: u64)
    ensures { messages.new.entries ≡ filter (stays moment) messages.old.entries }
{
    messages.retain(|_, message| !is_expired(message, moment));
}

/// Sets the message of a topic. If memory is refused, nothing changes.
fn set(
    messages: &mut BTreeMap<TopicName, Message>,
    topic: TopicName,
    message: Message,
) -> Result<(), AllocError>
    ensures done { OnOk result (messages.new.entries ≡ insert_entry topic_cmp messages.old.entries topic message) }
    ensures refused { OnErr result (messages.new.entries ≡ messages.old.entries) }
{
    match messages.insert(topic, message) {
        Ok(_) => Ok(()),
        Err(_) => Err(AllocError),
    }
}

/// Sets or clears one topic, or removes what is expired. If memory is refused, nothing changes.
fn change(
    messages: &mut BTreeMap<TopicName, Message>,
    operation: Operation,
) -> Result<(), AllocError>
    ensures done { OnOk result (messages.new.entries ≡ after messages.old.entries operation) }
    ensures refused { OnErr result (messages.new.entries ≡ messages.old.entries) }
{
    match operation {
        Operation::Set(found) => set(messages, found.topic().copy()?, found.message().copy()?),
        Operation::Clear(topic) => {
            messages.remove(&topic);
            Ok(())
        }
        Operation::Sweep(moment) => {
            sweep(messages, moment);
            Ok(())
        }
    }
}

impl Retained {
    ghost use Rattle.rs_journal.specs.Retaining.{Retains, founds_of, sets_of, topic_count};

    /// What is retained after no operation.
    pub fn new(alloc: Global) -> Retained
        ensures { Retains result [] }
    {
        Retained {
            messages: BTreeMap::new(alloc),
        }
    }

    /// Its messages with their topics, in the order of replay: as a list with which a store is opened.
    pub fn list(&self, alloc: Global) -> Result<Vec<Found>, AllocError>
        ensures list { IfOk result (λ list. list.items ≡ founds_of self.now) }
        ensures leave { OnOk result (Retains self.now (sets_of self.now)) }
    {
        let mut list = Vec::new(alloc);
        for (topic, message) in &self.messages {
            let found = Found::new(alloc, topic.copy()?, message.copy()?)?;
            match list.push(found) {
                Ok(()) => {}
                Err(_) => return Err(AllocError),
            }
        }
        Ok(list)
    }

    /// How many topics hold a message.
    pub fn len(&self) -> usize
        ensures { result ≡ topic_count self.now }
    {
        self.messages.len()
    }
}

impl OperationSink for Retained {
    ghost use Rattle.rs_journal.specs.Retaining.{Retains};

    ghost has_taken = { Retains };

    fn take(&mut self, operation: Operation) -> Result<(), AllocError> {
        change(&mut self.messages, operation)
    }
}
