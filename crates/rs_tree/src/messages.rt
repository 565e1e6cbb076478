//! The messages of a catalogue in a tree of levels.

ghost use Rattle.std.specs.Prelude.{◌≡◌, ◌-◌, ◌^◌, ◌<◌, ◌≤◌, [], nat_le, length, map, IfOk, OnOk, OnErr};
ghost use Rattle.std.specs.List.{filter as filter_list};
ghost use Rattle.std.specs.List.Sorted.{IsStrictlySortedBy};
ghost use Rattle.std.specs.BTreeMap.{insert_entry, is_at};
ghost use Rattle.std.specs.Option.{option_copied, option_map};
ghost use Rattle.std.specs.Map.{keys_of, remove_entry};
ghost use Rattle.rs_topic.specs.Order.{topic_cmp};
ghost use Rattle.rs_store.specs.Bytes.{bytes_at, retained_bytes};
ghost use Rattle.rs_store.specs.Contents.{after, found_of, if_fits, is_answered, is_gone, stays};
ghost use Rattle.rs_store.specs.Expiring.{first_end};
ghost use Rattle.rs_tree_bucket.specs.Weights.{bytes_if_found};
ghost use Rattle.rs_tree_branch.specs.Spots.{pairs};
ghost use Rattle.rs_store.specs.declared.limit.TheConstants.{MAX_TOPICS};
ghost use Rattle.rs_tree.specs.Trees.{ArePlaced, AreTotals, IsTree};

use crate::root::Root;
use crate::totals::Totals;
use rs_message::{Found, Operation};
use rs_store::{Answer, Messages, Stop, TopicLimit, bytes_of};
use rs_topic::{TopicFilter, TopicName};
use rs_tree_branch::{IndexPath, Remains};
use std::alloc::{AllocError, Global};
use std::marker::Model;

/// The messages of a [`TreeCatalogue`](crate::TreeCatalogue). Contracts see the topics and messages, in the order of replay.
///
/// A reader that has them as the catalogue gave them ([`Catalogue::messages`](rs_store::Catalogue::messages)) owns the nodes together
/// with it. They never change then: the catalogue puts copies in the place of the nodes that it would change.
#[derive(Drop)]
pub struct TreeMessages {
    alloc: Global,
    root: Root,
    totals: Totals,
}

impl Model for TreeMessages {
    ghost use Rattle.std.specs.Prelude.{List, ℕ};
    ghost use Rattle.rs_message.specs.Values.{MessageValue};
    ghost use Rattle.rs_tree.specs.Trees.{IsTree};
    ghost use Rattle.rs_tree_branch.specs.Spots.{pairs};

    ghost Value = { List (List ℕ × MessageValue) };

    ghost view = { λ m. pairs m.root };

    ghost invariant = { λ m. IsTree m.root m.totals };
}

/// How many bytes a message counts, 0 if there is none.
fn bytes_if_found(found: Option<&Found>) -> u64
    ensures { result ≡ bytes_if_found (option_copied found.entry) }
{
    match found {
        Some(found) => bytes_of(found.topic(), found.message()),
        None => 0,
    }
}

/// Sets one topic and returns the totals then. If memory is refused, nothing changes.
fn set_one(
    root: &mut Root,
    alloc: Global,
    totals: Totals,
    found: Found,
    path: &mut IndexPath,
) -> Result<Totals, AllocError>
    requires placed { ArePlaced root.old }
    requires sorted { IsStrictlySortedBy topic_cmp (keys_of (pairs root.old)) }
    requires totals { AreTotals (pairs root.old) totals }
    requires small { totals.count ≤ MAX_TOPICS }
    ensures done { OnOk result (pairs root.new ≡ insert_entry topic_cmp (pairs root.old) found.topic found.message) }
    ensures totals { IfOk result (AreTotals (insert_entry topic_cmp (pairs root.old) found.topic found.message)) }
    ensures placed { ArePlaced root.new }
    ensures refused { OnErr result (root.new ≡ root.old) }
{
    let size = bytes_of(found.topic(), found.message());
    // Never: all messages together count less than 2 to the power of 46 bytes.
    let Some(both) = totals.bytes.checked_add(size) else {
        return Err(AllocError);
    };
    let old = root.set(alloc, found, path)?;
    let gone = bytes_if_found(old.as_ref());
    let bytes = both - gone;
    if old.is_some() {
        return Ok(Totals {
            count: totals.count,
            bytes,
        });
    }
    Ok(Totals {
        count: totals.count + 1,
        bytes,
    })
}

/// Clears one topic and returns the totals then. If memory is refused, nothing changes.
fn clear_one(
    root: &mut Root,
    alloc: Global,
    totals: Totals,
    topic: &TopicName,
) -> Result<Totals, AllocError>
    requires placed { ArePlaced root.old }
    requires totals { AreTotals (pairs root.old) totals }
    ensures done { OnOk result (pairs root.new ≡ remove_entry (is_at (topic_cmp topic.now)) (pairs root.old)) }
    ensures totals { IfOk result (AreTotals (remove_entry (is_at (topic_cmp topic.now)) (pairs root.old))) }
    ensures placed { ArePlaced root.new }
    ensures refused { OnErr result (root.new ≡ root.old) }
{
    let name = topic.as_bytes();
    let gone = bytes_if_found(root.find(name));
    let bytes = totals.bytes - gone;
    let was = root.clear(alloc, name)?;
    if was {
        Ok(Totals {
            count: totals.count - 1,
            bytes,
        })
    } else {
        Ok(Totals {
            count: totals.count,
            bytes,
        })
    }
}

/// How many of the messages are expired.
fn count_expired(root: &Root, now: u64) -> u32
    requires { length (pairs root.now) ≤ MAX_TOPICS }
    ensures { result ≡ length (filter_list (is_gone now) (pairs root.now)) }
{
    let mut count = 0;
    root.count_expired(now, &mut count);
    count
}

/// The first moment at which a message is expired, or the greatest number if there is none.
fn earliest_of(root: &Root) -> u64
    ensures { result ≡ first_end (2 ^ 64 - 1) (pairs root.now) }
{
    root.earliest(u64::MAX)
}

/// Removes the messages that are expired and returns the totals then, which it counts anew. If memory is refused, nothing changes.
fn sweep(
    root: &mut Root,
    remains: &mut Remains,
    alloc: Global,
    moment: u64,
) -> Result<Totals, AllocError>
    requires placed { ArePlaced root.old }
    requires small { length (pairs root.old) ≤ MAX_TOPICS }
    requires light { retained_bytes (pairs root.old) < 2 ^ 64 }
    ensures done { OnOk result (pairs root.new ≡ filter_list (stays moment) (pairs root.old)) }
    ensures totals { IfOk result (AreTotals (filter_list (stays moment) (pairs root.old))) }
    ensures placed { ArePlaced root.new }
    ensures refused { OnErr result (root.new ≡ root.old) }
{
    root.sweep(alloc, moment, remains)?;
    let mut bytes = 0;
    root.add_bytes(&mut bytes);
    Ok(Totals {
        count: root.len() as u32,
        bytes,
    })
}

/// Sets or clears one topic, or removes what is expired, and returns the totals then. If memory is refused, nothing changes.
fn change(
    root: &mut Root,
    remains: &mut Remains,
    alloc: Global,
    totals: Totals,
    operation: Operation,
    path: &mut IndexPath,
) -> Result<Totals, AllocError>
    requires placed { ArePlaced root.old }
    requires sorted { IsStrictlySortedBy topic_cmp (keys_of (pairs root.old)) }
    requires totals { AreTotals (pairs root.old) totals }
    requires small { totals.count ≤ MAX_TOPICS }
    ensures done { OnOk result (pairs root.new ≡ after (pairs root.old) operation) }
    ensures totals { IfOk result (AreTotals (after (pairs root.old) operation)) }
    ensures placed { ArePlaced root.new }
    ensures refused { OnErr result (root.new ≡ root.old) }
{
    match operation {
        Operation::Set(found) => set_one(root, alloc, totals, found, path),
        Operation::Clear(topic) => clear_one(root, alloc, totals, &topic),
        Operation::Sweep(moment) => sweep(root, remains, alloc, moment),
    }
}

/// At most `limit` topics hold a message after the operation.
fn has_space(root: &Root, totals: Totals, limit: TopicLimit, operation: &Operation) -> bool
    requires tree { IsTree root.now totals }
    requires few { totals.count ≤ limit }
    ensures { result ≡ nat_le (length (after (pairs root.now) operation.now)) limit }
{
    match operation {
        Operation::Set(found) => {
            if totals.count < limit.get() {
                return true;
            }
            root.find(found.topic().as_bytes()).is_some()
        }
        Operation::Clear(_) => true,
        Operation::Sweep(_) => true,
    }
}

/// Copies of the messages that answer the filter, if they are at most `room`.
fn answers(
    alloc: Global,
    root: &Root,
    filter: &TopicFilter,
    now: u64,
    room: usize,
) -> Result<Option<Vec<Found>>, AllocError>
    requires { ArePlaced root.now }
    ensures { IfOk result (λ answer.
        option_map (λ found. found.items) answer
        ≡ if_fits room (map found_of (filter_list (is_answered filter.now now) (pairs root.now)))) }
{
    let mut answer = Answer::new(alloc, room);
    match root.answer(filter.as_bytes(), now, &mut answer) {
        Ok(()) => Ok(Some(answer.into_found())),
        Err(Stop::NoRoom) => Ok(None),
        Err(Stop::NoMemory) => Err(AllocError),
    }
}

impl TreeMessages {
    /// No messages.
    pub(crate) fn new(alloc: Global) -> Result<TreeMessages, AllocError>
        ensures { IfOk result (λ m. m ≡ []) }
    {
        Ok(TreeMessages {
            alloc,
            root: Root::new(alloc)?,
            totals: Totals { count: 0, bytes: 0 },
        })
    }

    /// The same messages, by one more owner of the root. The error says that the count of owners is full.
    pub(crate) fn copy(&self) -> Result<TreeMessages, AllocError>
        ensures { IfOk result (λ m. m ≡ self.now) }
    {
        Ok(TreeMessages {
            alloc: self.alloc,
            root: self.root.copy()?,
            totals: self.totals,
        })
    }

    /// The number of messages.
    pub(crate) fn len(&self) -> u32
        ensures { result ≡ length self.now }
    {
        self.totals.count
    }

    /// How many bytes the messages count.
    pub(crate) fn bytes(&self) -> u64
        ensures { result ≡ retained_bytes self.now }
    {
        self.totals.bytes
    }

    /// How many of them are those of this topic: 0 if it holds no message.
    pub(crate) fn bytes_at(&self, topic: &TopicName) -> u64
        ensures { result ≡ bytes_at topic.now self.now }
    {
        bytes_if_found(self.root.find(topic.as_bytes()))
    }

    /// At most `limit` topics hold a message after the operation.
    pub(crate) fn has_space(&self, limit: TopicLimit, operation: &Operation) -> bool
        requires { length self.now ≤ limit }
        ensures { result ≡ nat_le (length (after self.now operation.now)) limit }
    {
        has_space(&self.root, self.totals, limit, operation)
    }

    /// Sets or clears one topic, or removes what is expired, which becomes what remains. If memory is refused, nothing changes.
    pub(crate) fn change(
        &mut self,
        remains: &mut Remains,
        operation: Operation,
        path: &mut IndexPath,
    ) -> Result<(), AllocError>
        requires { length self.old ≤ MAX_TOPICS }
        ensures done { OnOk result (self.new ≡ after self.old operation) }
        ensures refused { OnErr result (self.new ≡ self.old) }
    {
        let totals = change(
            &mut self.root,
            remains,
            self.alloc,
            self.totals,
            operation,
            path,
        )?;
        self.totals = totals;
        Ok(())
    }

    /// How many of the messages are expired.
    pub(crate) fn expired_count(&self, now: u64) -> u32
        requires { length self.now ≤ MAX_TOPICS }
        ensures { result ≡ length (filter_list (is_gone now) self.now) }
    {
        count_expired(&self.root, now)
    }

    /// The first moment at which a message is expired, or the greatest number if there is none.
    pub(crate) fn earliest(&self) -> u64
        ensures { result ≡ first_end (2 ^ 64 - 1) self.now }
    {
        earliest_of(&self.root)
    }

    /// The number of branches, the root among them.
    pub(crate) fn branches(&self) -> u32 {
        self.root.branches()
    }
}

impl Messages for TreeMessages {
    ghost retained = { λ m. m };

    fn answer_within(
        &self,
        filter: &TopicFilter,
        now: u64,
        room: usize,
    ) -> Result<Option<Vec<Found>>, AllocError> {
        answers(self.alloc, &self.root, filter, now, room)
    }
}
