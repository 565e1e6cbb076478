//! A catalogue in an ordered map.

ghost use Rattle.std.specs.Prelude.{◌≡◌, ◌-◌, ◌^◌, ◌<◌, ◌≤◌, ◌++◌, nat_le, length, map, IfErr, IfOk, OnOk, OnErr};
ghost use Rattle.std.specs.Option.{option_copied, option_map};
ghost use Rattle.std.specs.BTreeMap.{insert_entry, is_at};
ghost use Rattle.std.specs.List.{filter as filter_list};
ghost use Rattle.std.specs.List.Sorted.{IsStrictlySortedBy};
ghost use Rattle.std.specs.Map.{keys_of, lookup, remove_entry};
ghost use Rattle.rs_topic.specs.Matching.{matches};
ghost use Rattle.rs_topic.specs.Order.{topic_cmp};
ghost use Rattle.rs_store.specs.Bytes.{bytes_if_any, retained_bytes};
ghost use Rattle.rs_store.specs.Contents.{after, found_of, if_fits, is_answered, is_gone, stays};
ghost use Rattle.rs_store.specs.Expiring.{first_end};
ghost use Rattle.rs_store.specs.Room.{IsStop};
ghost use Rattle.rs_store.specs.declared.limit.TheConstants.{MAX_TOPICS};

use rs_message::{Entry, Found, Message, Operation};
use rs_store::{
    Answer, Catalogue, Ledger, Messages, Refusal, Stop, TopicLimit, bytes_of, earliest_end,
    is_expired,
};
use rs_topic::{TopicFilter, TopicName};
use std::alloc::{AllocError, Global};
use std::collections::BTreeMap;

/// The messages of a [`MapCatalogue`], in the order of replay.
#[derive(Drop)]
pub struct MapMessages {
    alloc: Global,
    retained: BTreeMap<TopicName, Message>,
}

/// The messages in a map, in the order of replay. It is the plain catalogue: tests compare others with it.
///
/// With n topics, `accepts` and `apply` look up one topic in about log n comparisons, each along the levels of two topics (at
/// most [`MAX_LEVELS`](rs_topic::MAX_LEVELS)). `answer` matches every topic. `copy` and `messages` take about n log n comparisons.
/// `version`, `last_serial`, `count` and `bytes` take constant time.
#[derive(Drop)]
pub struct MapCatalogue {
    messages: MapMessages,
    bytes: u64,
    ledger: Ledger,
    ghost fits: { length messages.retained.entries ≤ ledger.limit },
    ghost weighed: { retained_bytes messages.retained.entries ≡ bytes },
}

/// How many bytes the messages count.
fn bytes_of_all(retained: &BTreeMap<TopicName, Message>) -> u64
    requires { retained_bytes retained.now.entries < 2 ^ 64 }
    ensures { result ≡ retained_bytes retained.now.entries }
{
    let mut bytes = 0;
    for (topic, message) in retained {
        bytes += bytes_of(topic, message);
    }
    bytes
}

/// How many bytes the message of a topic counts, 0 if there is none.
fn bytes_if_any(topic: &TopicName, message: Option<&Message>) -> u64
    ensures { result ≡ bytes_if_any topic.now (option_copied message.entry) }
{
    match message {
        Some(message) => bytes_of(topic, message),
        None => 0,
    }
}

/// Removes the messages that are expired.
fn sweep(retained: &mut BTreeMap<TopicName, Message>, moment: u64)
    ensures { retained.new.entries ≡ filter_list (stays moment) retained.old.entries }
{
    retained.retain(|_, message| !is_expired(message, moment));
}

/// Sets the message of a topic, and returns the one that it replaces. If memory is refused, nothing changes.
fn set(
    retained: &mut BTreeMap<TopicName, Message>,
    topic: TopicName,
    message: Message,
) -> Result<Option<Message>, AllocError>
    ensures done { OnOk result (retained.new.entries ≡ insert_entry topic_cmp retained.old.entries topic message) }
    ensures replaced { IfOk result (λ old. old ≡ lookup (is_at (topic_cmp topic)) retained.old.entries) }
    ensures refused { OnErr result (retained.new.entries ≡ retained.old.entries) }
    ensures sorted { IsStrictlySortedBy topic_cmp (keys_of retained.old.entries) }
{
    match retained.insert(topic, message) {
        Ok(old) => Ok(old),
        Err(_) => Err(AllocError),
    }
}

/// Sets one topic, and returns how many bytes the messages count then. If memory is refused, nothing changes.
fn set_one(
    retained: &mut BTreeMap<TopicName, Message>,
    bytes: u64,
    found: &Found,
) -> Result<u64, AllocError>
    requires { retained_bytes retained.old.entries ≡ bytes }
    ensures done { OnOk result (retained.new.entries ≡ insert_entry topic_cmp retained.old.entries found.now.topic found.now.message) }
    ensures weighed { IfOk result (λ n. n ≡ retained_bytes retained.new.entries) }
    ensures refused { OnErr result (retained.new.entries ≡ retained.old.entries) }
{
    let (topic, message) = (found.topic(), found.message());
    // Never: all messages together count less than 2 to the power of 46 bytes.
    let Some(both) = bytes.checked_add(bytes_of(topic, message)) else {
        return Err(AllocError);
    };
    let old = set(retained, topic.copy()?, message.copy()?)?;
    Ok(both - bytes_if_any(topic, old.as_ref()))
}

/// Clears one topic, and returns how many bytes the messages count then.
fn clear_one(retained: &mut BTreeMap<TopicName, Message>, bytes: u64, topic: &TopicName) -> u64
    requires { retained_bytes retained.old.entries ≡ bytes }
    ensures done { retained.new.entries ≡ remove_entry (is_at (topic_cmp topic.now)) retained.old.entries }
    ensures weighed { result ≡ retained_bytes retained.new.entries }
{
    let old = retained.remove(topic);
    bytes - bytes_if_any(topic, old.as_ref())
}

/// Sets or clears one topic, or removes what is expired, and returns how many bytes the messages count then. If memory is refused,
/// nothing changes.
fn change(
    retained: &mut BTreeMap<TopicName, Message>,
    bytes: u64,
    operation: Operation,
) -> Result<u64, AllocError>
    requires { retained_bytes retained.old.entries ≡ bytes }
    ensures done { OnOk result (retained.new.entries ≡ after retained.old.entries operation) }
    ensures weighed { IfOk result (λ n. n ≡ retained_bytes retained.new.entries) }
    ensures refused { OnErr result (retained.new.entries ≡ retained.old.entries) }
{
    match operation {
        Operation::Set(found) => set_one(retained, bytes, &found),
        Operation::Clear(topic) => Ok(clear_one(retained, bytes, &topic)),
        Operation::Sweep(moment) => {
            sweep(retained, moment);
            Ok(bytes_of_all(retained))
        }
    }
}

/// At most `limit` topics hold a message after the operation.
#[tactic(auto, using(rs_store::proofs::Maps::space_if_few, rs_store::proofs::Maps::space_if_there, rs_store::proofs::Maps::no_space, rs_store::proofs::Maps::space_after_clear, rs_store::proofs::Maps::space_after_sweep))]
fn has_space(
    retained: &BTreeMap<TopicName, Message>,
    limit: TopicLimit,
    operation: &Operation,
) -> bool
    requires { length retained.now.entries ≤ limit }
    ensures { result ≡ nat_le (length (after retained.now.entries operation.now)) limit }
{
    match operation {
        Operation::Set(found) => {
            retained.len() < limit.get() as usize || retained.contains_key(found.topic())
        }
        Operation::Clear(_) => true,
        Operation::Sweep(_) => true,
    }
}

/// How many of the messages are expired.
fn count_expired(retained: &BTreeMap<TopicName, Message>, now: u64) -> u32
    requires { length retained.now.entries ≤ MAX_TOPICS }
    ensures { result ≡ length (filter_list (is_gone now) retained.now.entries) }
{
    let mut count = 0;
    for (_, message) in retained {
        if is_expired(message, now) {
            count += 1;
        }
    }
    count
}

/// The first moment at which a message is expired, or the greatest number if there is none.
fn earliest_of(retained: &BTreeMap<TopicName, Message>) -> u64
    ensures { result ≡ first_end (2 ^ 64 - 1) retained.now.entries }
{
    let mut least = u64::MAX;
    for (_, message) in retained {
        least = earliest_end(least, message);
    }
    least
}

fn does_match(filter: &TopicFilter, topic: &TopicName) -> bool
    ensures { result ≡ matches filter.now topic.now }
{
    filter.matches(topic)
}

/// Appends the messages that answer the filter, each in a block of its own, which shares the bytes.
fn answer_all(
    alloc: Global,
    retained: &BTreeMap<TopicName, Message>,
    filter: &TopicFilter,
    now: u64,
    answer: &mut Answer,
) -> Result<(), Stop>
    ensures done { OnOk result (answer.new.found.items
        ≡ answer.old.found.items ++ map found_of (filter_list (is_answered filter.now now) retained.now.entries)) }
    ensures stop { IfErr result (λ stop.
        IsStop stop answer.old.room (answer.old.found.items ++ map found_of
        (filter_list (is_answered filter.now now) retained.now.entries))) }
    ensures room { answer.new.room ≡ answer.old.room }
{
    for (topic, message) in retained {
        if does_match(filter, topic) && !is_expired(message, now) {
            let found = Found::new(alloc, topic.copy()?, message.copy()?)?;
            answer.push(&found)?;
        }
    }
    Ok(())
}

/// Copies of the messages that answer the filter, if they are at most `room`.
fn answers(
    alloc: Global,
    retained: &BTreeMap<TopicName, Message>,
    filter: &TopicFilter,
    now: u64,
    room: usize,
) -> Result<Option<Vec<Found>>, AllocError>
    ensures { IfOk result (λ answer.
        option_map (λ found. found.items) answer
        ≡ if_fits room (map found_of (filter_list (is_answered filter.now now) retained.now.entries))) }
{
    let mut answer = Answer::new(alloc, room);
    match answer_all(alloc, retained, filter, now, &mut answer) {
        Ok(()) => Ok(Some(answer.into_found())),
        Err(Stop::NoRoom) => Ok(None),
        Err(Stop::NoMemory) => Err(AllocError),
    }
}

/// An equal map, which shares the bytes.
fn copy_of(
    alloc: Global,
    retained: &BTreeMap<TopicName, Message>,
) -> Result<BTreeMap<TopicName, Message>, AllocError>
    ensures { IfOk result (λ copy. copy.entries ≡ retained.now.entries) }
{
    let mut copy = BTreeMap::new(alloc);
    for (topic, message) in retained {
        drop(set(&mut copy, topic.copy()?, message.copy()?)?);
    }
    Ok(copy)
}

impl MapMessages {
    /// Equal messages, which share the bytes.
    fn copy(&self) -> Result<MapMessages, AllocError>
        ensures { IfOk result (λ copy. copy.retained.entries ≡ self.now.retained.entries) }
    {
        Ok(MapMessages {
            alloc: self.alloc,
            retained: copy_of(self.alloc, &self.retained)?,
        })
    }
}

impl Messages for MapMessages {
    ghost retained = { λ m. m.retained.entries };

    fn answer_within(
        &self,
        filter: &TopicFilter,
        now: u64,
        room: usize,
    ) -> Result<Option<Vec<Found>>, AllocError> {
        answers(self.alloc, &self.retained, filter, now, room)
    }
}

impl Catalogue for MapCatalogue {
    ghost use Rattle.kit_test.specs.Maps.{content_of_map};

    type Messages = MapMessages;

    ghost content = { content_of_map };

    fn new(alloc: Global, limit: TopicLimit) -> Result<MapCatalogue, AllocError> {
        Ok(MapCatalogue {
            messages: MapMessages {
                alloc,
                retained: BTreeMap::new(alloc),
            },
            bytes: 0,
            ledger: Ledger::new(alloc, limit)?,
        })
    }

    fn accepts(&self, entry: &Entry) -> Result<(), Refusal> {
        if !self.ledger.is_new(entry.origin) {
            return Err(Refusal::Stale);
        }
        if !self.ledger.has_number() {
            return Err(Refusal::Full);
        }
        if !has_space(
            &self.messages.retained,
            self.ledger.limit(),
            &entry.operation,
        ) {
            return Err(Refusal::Full);
        }
        Ok(())
    }

    fn apply(&mut self, entry: Entry) -> Result<(), AllocError> {
        let origin = entry.origin;
        let bytes = change(&mut self.messages.retained, self.bytes, entry.operation)?;
        self.bytes = bytes;
        self.ledger.count(origin);
        Ok(())
    }

    fn messages(&self) -> Result<MapMessages, AllocError> {
        self.messages.copy()
    }

    fn answer_within(
        &self,
        filter: &TopicFilter,
        now: u64,
        room: usize,
    ) -> Result<Option<Vec<Found>>, AllocError> {
        self.messages.answer_within(filter, now, room)
    }

    fn version(&self) -> u64 {
        self.ledger.version()
    }

    fn last_serial(&self, place: u16) -> u64 {
        self.ledger.last_serial(place)
    }

    fn count(&self) -> u32 {
        // For the proof: this call says that the limit is in its range.
        let _limit = self.ledger.limit().get();
        self.messages.retained.len() as u32
    }

    fn bytes(&self) -> u64 {
        self.bytes
    }

    fn bytes_at(&self, topic: &TopicName) -> u64 {
        bytes_if_any(topic, self.messages.retained.get(topic))
    }

    fn expired_count(&self, now: u64) -> u32 {
        // For the proof: this call says that the limit is in its range.
        let _limit = self.ledger.limit().get();
        count_expired(&self.messages.retained, now)
    }

    fn earliest(&self) -> u64 {
        earliest_of(&self.messages.retained)
    }

    fn copy(&self) -> Result<MapCatalogue, AllocError> {
        Ok(MapCatalogue {
            messages: self.messages.copy()?,
            bytes: self.bytes,
            ledger: self.ledger.copy()?,
        })
    }
}
