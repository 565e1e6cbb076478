//! The interface of a catalogue.

ghost use Rattle.std.specs.Prelude.{◌≡◌, ◌⊎◌, ◌-◌, ◌^◌, ◌<◌, ◌≤◌, false, List, length, slice_index, MatchOption, MatchResult, OnOk, OnErr, IfNone, IfOk, IfErr, IfSome};
ghost use Rattle.std.specs.Option.{option_map};
ghost use Rattle.rs_message.specs.declared.entry.Entry.{Entry};
ghost use Rattle.rs_store.specs.declared.content.Content.{Content};
ghost use Rattle.rs_store.specs.Bytes.{bytes_at, retained_bytes};
ghost use Rattle.rs_store.specs.Contents.{Accepts, IsAdded, IsNotNext, NeedsSweep, NotAddedBy, RefusedBy, answer_in, answer_within, empty, expired_in, followed, next_sweep, serial_count, swept};
ghost use Rattle.rs_store.specs.Expiring.{NoneExpiredBefore};
ghost use Rattle.rs_message.specs.Messages.{is_sweep};
ghost use Rattle.rs_store.specs.History.{IsLegal, MayNotCome, NeedsSweepAfter, Stands, extended, sweep_after};
ghost use Rattle.rs_store.specs.Adding.{Adds, NotAdds};
ghost use Rattle.rs_store.specs.declared.fault.Refusal.TheVariants.{Full};

use crate::calm::Calm;
use crate::fault::Refusal;
use crate::limit::TopicLimit;
use crate::messages::Messages;
use rs_message::{Entry, Found, Operation, Origin};
use rs_topic::{TopicFilter, TopicName};
use std::alloc::{AllocError, Global};

/// The retained messages after a list of entries. Contracts see a catalogue as its [`Content`](crate::Content): two catalogues of
/// one list have the same. [`content_law`](crate::content_law) says how a content follows from the list.
pub trait Catalogue {
    /// What it answers from.
    type Messages: Messages + Drop;

    ghost content: { Self → Content };

    /// An empty catalogue: version 0, no topic, and 0 as the last serial of each place and of the writer. An error if memory is refused.
    fn new(alloc: Global, limit: TopicLimit) -> Result<Self, AllocError>
        ensures { IfOk result (λ c. content c ≡ empty limit) };

    /// Whether the entry may come next. `Stale` if its serial does not exceed the last one of its place, else `Full` if the
    /// version is `u64::MAX` or more topics than the limit would hold a message. Allocates nothing.
    fn accepts(&self, entry: &Entry) -> Result<(), Refusal>
        ensures { MatchResult result (λ _. Accepts (content self.now) entry.now) (λ r. RefusedBy (content self.now) entry.now r) };

    /// Appends an entry that is accepted. If memory is refused, nothing changes.
    fn apply(&mut self, entry: Entry) -> Result<(), AllocError>
        requires { Accepts (content self.old) entry }
        ensures done { OnOk result (content self.new ≡ followed (content self.old) entry) }
        ensures refused { OnErr result (content self.new ≡ content self.old) };

    /// Its messages, without the serials, the limit and the version. They stay as they are when the catalogue changes. They share the
    /// bytes of topics, texts and payloads. An error if memory is refused.
    fn messages(&self) -> Result<Self::Messages, AllocError>
        ensures { IfOk result (λ m. Self.Messages.retained m ≡ (content self.now).retained) };

    /// Copies of the messages that the filter matches and that are not expired, in the order of replay (section 3.8.4).
    /// `now` is in seconds. Copies share the bytes of topics, texts and payloads. An error if memory is refused.
    fn answer(&self, filter: &TopicFilter, now: u64) -> Result<Vec<Found>, AllocError>
        ensures { IfOk result (λ found. found.items ≡ answer_in filter.now now (content self.now)) }
    {
        match self.answer_within(filter, now, usize::MAX) {
            Ok(Some(found)) => Ok(found),
            // Never: no list has more items than that.
            Ok(None) => Err(AllocError),
            Err(error) => Err(error),
        }
    }

    /// The same answer if it has at most `room` messages, else `None`. Gives up at the first message beyond the room. An error if
    /// memory is refused.
    fn answer_within(
        &self,
        filter: &TopicFilter,
        now: u64,
        room: usize,
    ) -> Result<Option<Vec<Found>>, AllocError>
        ensures { IfOk result (λ answer. option_map (λ found. found.items) answer ≡ answer_within room filter.now now (content self.now)) };

    /// The number of entries.
    fn version(&self) -> u64
        ensures { result ≡ (content self.now).version };

    /// The last serial of a place, or of the writer (place 0), or 0 if it has none.
    fn last_serial(&self, place: u16) -> u64
        ensures value { result ≡ slice_index (content self.now).serials place }
        ensures wide { length (content self.now).serials ≡ serial_count };

    /// The number of topics that hold a message, at most the limit.
    fn count(&self) -> u32
        ensures value { result ≡ length (content self.now).retained }
        ensures few { result ≤ (content self.now).limit };

    /// How many bytes the retained messages count, each as [`bytes_of`](crate::bytes_of) says.
    fn bytes(&self) -> u64
        ensures { result ≡ retained_bytes (content self.now).retained };

    /// How many of them are those of this topic: 0 if it holds no message.
    fn bytes_at(&self, topic: &TopicName) -> u64
        ensures { result ≡ bytes_at topic.now (content self.now).retained };

    /// The number of topics whose message is expired at a moment, in seconds.
    fn expired_count(&self, now: u64) -> u32
        ensures { result ≡ expired_in now (content self.now) };

    /// The first moment at which a message is expired, in seconds, or the greatest number if there is none.
    fn earliest(&self) -> u64
        ensures calm { NoneExpiredBefore result (content self.now) }
        ensures first { result < 2 ^ 64 - 1 → 0 < expired_in result (content self.now) };

    /// A catalogue of the same content. It shares the bytes of topics, texts and payloads, which are counted references. An error if
    /// memory is refused.
    fn copy(&self) -> Result<Self, AllocError>
        ensures { IfOk result (λ c. content c ≡ content self.now) };
}

/// The Sweep after which a Set that is one topic too many finds space, or `None`.
fn sweep_for<C: Catalogue>(catalogue: &C, calm: &mut Calm, entry: &Entry) -> Option<Entry>
    requires full { RefusedBy (C.content catalogue.now) entry.now Full }
    requires calm { NoneExpiredBefore calm.old (C.content catalogue.now) }
    ensures some { IfSome result (λ sweep. (s : NeedsSweep (C.content catalogue.now) entry.now)
        × (sweep ≡ next_sweep s.message.received (C.content catalogue.now))) }
    ensures none { IfNone result (¬ NeedsSweep (C.content catalogue.now) entry.now) }
    ensures calm { NoneExpiredBefore calm.new (C.content catalogue.now) }
{
    let Operation::Set(found) = &entry.operation else {
        return None;
    };
    let moment = found.message().received();
    // For the proof: this call says that no more topics than the limit hold a message.
    let _count = catalogue.count();
    if catalogue.version() >= u64::MAX - 1 {
        return None;
    }
    let last = catalogue.last_serial(0);
    if last == u64::MAX {
        return None;
    }
    let serial = last + 1;
    if entry.origin.place() == 0 && entry.origin.serial() <= serial {
        return None;
    }
    if !calm.has_expired(catalogue, moment) {
        return None;
    }
    let origin = Origin::of_writer(serial)?;
    Some(Entry {
        origin,
        operation: Operation::Sweep(moment),
    })
}

/// Whether an entry may come next: `Ok(None)` if it may, and `Ok` with a Sweep if it may come after this Sweep and not without it.
/// That is so for a Set that is one topic too many, if a Sweep of the moment at which its message came leaves space for it. Else it is
/// refused as by [`Catalogue::accepts`]. Allocates nothing.
///
/// No message is looked at before the calm moment. It is found anew if a Set that is one topic too many finds nothing expired.
pub fn judge<C: Catalogue>(
    catalogue: &C,
    calm: &mut Calm,
    entry: &Entry,
) -> Result<Option<Entry>, Refusal>
    requires calm { NoneExpiredBefore calm.old (C.content catalogue.now) }
    ensures next { IfOk result (λ before. MatchOption before (Accepts (C.content catalogue.now) entry.now)
        (λ sweep. (s : NeedsSweep (C.content catalogue.now) entry.now)
        × (sweep ≡ next_sweep s.message.received (C.content catalogue.now)))) }
    ensures refused { IfErr result (λ r. IsNotNext (C.content catalogue.now) entry.now r) }
    ensures stands { (history : List Entry) → Stands (C.content catalogue.now) history → MatchResult result
        (λ before. MatchOption before (IsLegal (C.content catalogue.now).limit (extended history entry.now))
        (λ sweep. (s : NeedsSweepAfter (C.content catalogue.now).limit history entry.now)
        × (sweep ≡ sweep_after s.message.received history)))
        (λ r. MayNotCome (C.content catalogue.now).limit history entry.now r) }
    ensures calm { NoneExpiredBefore calm.new (C.content catalogue.now) }
{
    // For the proof: these calls say which places and serials an origin may have.
    let (_place, _serial) = (entry.origin.place(), entry.origin.serial());
    match catalogue.accepts(entry) {
        Ok(()) => Ok(None),
        Err(Refusal::Full) => match sweep_for(catalogue, calm, entry) {
            Some(sweep) => Ok(Some(sweep)),
            None => Err(Refusal::Full),
        },
        Err(Refusal::Stale) => Err(Refusal::Stale),
        Err(Refusal::NoMemory) => Err(Refusal::NoMemory),
    }
}

/// Appends an entry, and lowers the calm moment if it has to be. If memory is refused, nothing changes.
fn append<C: Catalogue>(catalogue: &mut C, calm: &mut Calm, entry: Entry) -> Result<(), AllocError>
    requires accepts { Accepts (C.content catalogue.old) entry }
    requires calm { NoneExpiredBefore calm.old (C.content catalogue.old) }
    ensures done { OnOk result (C.content catalogue.new ≡ followed (C.content catalogue.old) entry) }
    ensures refused { OnErr result (C.content catalogue.new ≡ C.content catalogue.old) }
    ensures calm { NoneExpiredBefore calm.new (C.content catalogue.new) }
{
    let after = calm.with_entry(&entry);
    catalogue.apply(entry)?;
    *calm = after;
    Ok(())
}

/// Appends the Sweep that comes before an entry, if there is one.
fn make_space<C: Catalogue>(
    catalogue: &mut C,
    calm: &mut Calm,
    entry: &Entry,
) -> Result<(), Refusal>
    requires { NoneExpiredBefore calm.old (C.content catalogue.old) }
    ensures done { OnOk result ((Accepts (C.content catalogue.old) entry.now × (C.content catalogue.new ≡ C.content catalogue.old))
        ⊎ ((s : NeedsSweep (C.content catalogue.old) entry.now)
        × (C.content catalogue.new ≡ swept s.message.received (C.content catalogue.old)))) }
    ensures refused { IfErr result (λ r. NotAddedBy (C.content catalogue.old) entry.now r (C.content catalogue.new)) }
    ensures calm { NoneExpiredBefore calm.new (C.content catalogue.new) }
{
    match judge(catalogue, calm, entry) {
        Ok(None) => Ok(()),
        Ok(Some(sweep)) => match append(catalogue, calm, sweep) {
            Ok(()) => Ok(()),
            Err(AllocError) => Err(Refusal::NoMemory),
        },
        Err(refusal) => Err(refusal),
    }
}

/// Appends an entry that is no Sweep. Rejects it as `Stale` or `Full`, as [`judge`] does and without an allocation, else as
/// `NoMemory` if memory is refused. If it may come only after a Sweep, the Sweep is appended first. A rejected entry changes
/// nothing, but that this Sweep may stay if memory is refused. `calm` is of the catalogue before and after.
pub fn add<C: Catalogue>(catalogue: &mut C, calm: &mut Calm, entry: Entry) -> Result<(), Refusal>
    requires no_sweep { is_sweep entry.operation ≡ false }
    requires calm { NoneExpiredBefore calm.old (C.content catalogue.old) }
    ensures done { OnOk result (IsAdded (C.content catalogue.old) entry (C.content catalogue.new)) }
    ensures refused { IfErr result (λ r. NotAddedBy (C.content catalogue.old) entry r (C.content catalogue.new)) }
    ensures stands { (history : List Entry) → Stands (C.content catalogue.old) history → MatchResult result
        (λ _. Adds (C.content catalogue.old).limit history entry (Stands (C.content catalogue.new)))
        (λ r. NotAdds (C.content catalogue.old).limit history entry r (Stands (C.content catalogue.new))) }
    ensures calm { NoneExpiredBefore calm.new (C.content catalogue.new) }
{
    // For the proof: these calls say which places and serials an origin may have.
    let (_place, _serial) = (entry.origin.place(), entry.origin.serial());
    // Not `?`, whose conversion of the fault would have to be proved, too.
    if let Err(refusal) = make_space(catalogue, calm, &entry) {
        return Err(refusal);
    }
    match append(catalogue, calm, entry) {
        Ok(()) => Ok(()),
        Err(_) => Err(Refusal::NoMemory),
    }
}
