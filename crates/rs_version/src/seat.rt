//! Seats, which read the published copy.

ghost use Rattle.std.specs.Prelude.{◌≡◌, ◌⊎◌, length, IfOk, IfSome, OnErr, OnOk};
ghost use Rattle.std.specs.Option.{option_map};
ghost use mathlib.Core.List.{IsPrefix};
ghost use Rattle.left_right.specs.Sides.{view};
ghost use Rattle.rs_store.specs.History.{IsAnswer, IsAnswerWithin, IsLegal};
ghost use Rattle.rs_version.specs.Catalogues.{content_of};
ghost use Rattle.rs_version.specs.VersionRule.{Names, IsSound};

use crate::catalogue_copy::CatalogueCopy;
use crate::copies::CopyReader;
use crate::history::StoreName;
use crate::named::NamedList;
use crate::receipt::Told;
use crate::rule::Sees;
use crate::version::Version;
use core::mem::replace_with;
use rs_message::Found;
use rs_store::Catalogue;
use rs_topic::TopicFilter;
use std::alloc::AllocError;
use std::marker::Model;

/// An answer, and the version that it is of.
#[derive(Debug, Drop)]
pub struct Snapshot {
    /// The number of entries of the list that was read.
    pub version: u64,
    /// The messages that match and have not expired, in the order of replay.
    pub found: Vec<Found>,
}

/// A reader of the store. Contracts see it as its known list: the longest list that it read or learned.
///
/// It reads the published copy without waiting, whatever the writer does. It never reads less than it knows.
#[derive(Drop)]
pub struct Seat<N: StoreName> {
    reader: CopyReader,
    known: NamedList<N>,
}

impl<N: StoreName> Model for Seat<N> {
    ghost use Rattle.std.specs.Prelude.{List};
    ghost use Rattle.left_right.specs.Sides.{view as known_by};
    ghost use Rattle.rs_message.specs.declared.entry.Entry.{Entry};
    ghost use Rattle.rs_version.specs.VersionRule.{Names};

    ghost Value = { List Entry };

    ghost view = { λ s. s.known };

    ghost invariant = { λ s. Names N.history N.limit (known_by s.reader.place) };
}

/// The version that the published copy is of, with one more owner of its messages. An error if its list is shorter than the known
/// one.
fn take_from<N: StoreName>(
    published: &CatalogueCopy,
    known: &NamedList<N>,
) -> Result<Version<N>, AllocError>
    requires sound { IsSound published.now }
    requires history { published.now.prefix.history ≡ N.history }
    requires limit { (content_of published.now.catalogue).limit ≡ N.limit }
    ensures later { IfOk result (λ v. IsPrefix known.now v) }
    ensures legal { IfOk result (λ v. IsLegal N.limit v) }
{
    let list: NamedList<N> = NamedList::new(published.prefix.again());
    if !list.reaches(known) {
        // Never: a publish is no shorter than what was published before. The rule of the published copy says so of what was read, and
        // not of what was learned from a token.
        return Err(AllocError);
    }
    Ok(Version::new(list, published.catalogue.messages()?))
}

/// The reader enters the published copy, takes its version, and leaves. It is inside for as long as a count takes, so a publish does
/// not wait for a walk.
fn take_by<N: StoreName>(
    reader: CopyReader,
    known: &NamedList<N>,
) -> (CopyReader, Result<Version<N>, AllocError>)
    requires { Names N.history N.limit (view reader.place) }
    ensures reader { Names N.history N.limit (view result.0.place) }
    ensures later { IfOk result.1 (λ v. IsPrefix known.now v) }
    ensures legal { IfOk result.1 (λ v. IsLegal N.limit v) }
{
    match reader.enter_as::<Sees>() {
        Ok(reading) => {
            let taken = take_from(reading.get(), known);
            (reading.leave(), taken)
        }
        Err(reader) => (reader, Err(AllocError)),
    }
}

/// What the version answers, with its number of entries.
fn take_snapshot<N: StoreName>(
    version: &Version<N>,
    filter: &TopicFilter,
    now: u64,
) -> Result<Snapshot, AllocError>
    ensures version { IfOk result (λ s. s.version ≡ length version.now) }
    ensures found { IfOk result (λ s. IsAnswer version.now filter.now now s.found.items) }
{
    let found = version.answer(filter, now)?;
    Ok(Snapshot {
        version: version.len(),
        found,
    })
}

/// The same if there are at most `room` messages, else no snapshot.
fn take_snapshot_within<N: StoreName>(
    version: &Version<N>,
    filter: &TopicFilter,
    now: u64,
    room: usize,
) -> Result<Option<Snapshot>, AllocError>
    ensures version { IfOk result (λ answer. IfSome answer (λ s. s.version ≡ length version.now)) }
    ensures found { IfOk result (λ answer. IsAnswerWithin room version.now filter.now now (option_map (λ s. s.found.items) answer)) }
{
    match version.answer_within(filter, now, room)? {
        Some(found) => Ok(Some(Snapshot {
            version: version.len(),
            found,
        })),
        None => Ok(None),
    }
}

impl<N: StoreName> Seat<N> {
    /// A seat whose reader knows something of this store.
    pub(crate) fn new(reader: CopyReader, known: NamedList<N>) -> Seat<N>
        requires { Names N.history N.limit (view reader.place) }
        ensures { result ≡ known }
    {
        Seat { reader, known }
    }

    /// The number of entries of the known list.
    pub fn version(&self) -> u64
        ensures version { result ≡ length self.now }
        ensures legal { IsLegal N.limit self.now }
    {
        self.known.version()
    }

    /// A token of the known list. It takes no memory.
    pub fn told(&self) -> Told<N>
        ensures told { result ≡ self.now }
        ensures legal { IsLegal N.limit self.now }
    {
        // For the proof: this call says that the known list is legal.
        let _version = self.version();
        Told {
            list: self.known.again(),
        }
    }

    /// Makes the known list the longer of itself and the token's list. It takes no memory and waits for nobody.
    pub fn learn(&mut self, told: Told<N>)
        ensures one { (self.new ≡ self.old) ⊎ (self.new ≡ told) }
        ensures own { IsPrefix self.old self.new }
        ensures told { IsPrefix told self.new }
        ensures legal { IsLegal N.limit self.new }
    {
        let Told { list } = told;
        if !self.known.reaches(&list) {
            self.known = list;
        }
    }

    /// Takes the version out of the published copy.
    fn take(&mut self) -> Result<Version<N>, AllocError>
        ensures same { self.new ≡ self.old }
        ensures later { IfOk result (λ v. IsPrefix self.old v) }
        ensures legal { IfOk result (λ v. IsLegal N.limit v) }
    {
        replace_with(
            &mut self.reader,
            &self.known,
            |reader: CopyReader, known: &NamedList<N>| -> (
                CopyReader,
                Result<Version<N>, AllocError>,
            )
                requires { Names N.history N.limit (view reader.place) }
                ensures reader { Names N.history N.limit (view result.0.place) }
                ensures later { IfOk result.1 (λ v. IsPrefix known.now v) }
                ensures legal { IfOk result.1 (λ v. IsLegal N.limit v) }
            { take_by(reader, known) },
        )
    }

    /// Makes the known list that of the version.
    fn know(&mut self, version: &Version<N>)
        ensures { self.new ≡ version.now }
    {
        self.known = version.list.again();
    }

    /// The version that is published now. The seat knows its list from then on. It waits for nobody, and no answer is made yet, so
    /// whoever shares the seat has it only for as long as a count takes.
    ///
    /// # Errors
    ///
    /// [`AllocError`] if memory is refused, or the writer has ended. The known list is as before.
    pub fn read(&mut self) -> Result<Version<N>, AllocError>
        ensures later { IsPrefix self.old self.new }
        ensures refused { OnErr result (self.new ≡ self.old) }
        ensures version { IfOk result (λ v. v ≡ self.new) }
        ensures legal { OnOk result (IsLegal N.limit self.new) }
    {
        let version = self.take()?;
        self.know(&version);
        Ok(version)
    }

    /// Takes the messages out of the published copy, and answers from them: copies of the messages that the filter matches and that
    /// have not expired at `now`, in seconds, in the order of replay (3.8.4). It waits for nobody.
    ///
    /// # Errors
    ///
    /// [`AllocError`] if memory is refused, or the writer has ended. The known list is as before.
    pub fn answer(&mut self, filter: &TopicFilter, now: u64) -> Result<Snapshot, AllocError>
        ensures later { IsPrefix self.old self.new }
        ensures refused { OnErr result (self.new ≡ self.old) }
        ensures version { IfOk result (λ s. s.version ≡ length self.new) }
        ensures legal { OnOk result (IsLegal N.limit self.new) }
        ensures found { IfOk result (λ s. IsAnswer self.new filter.now now s.found.items) }
    {
        let version = self.take()?;
        let snapshot = take_snapshot(&version, filter, now)?;
        self.know(&version);
        Ok(snapshot)
    }

    /// The same answer if it has at most `room` messages, else `None`. It gives up at the first message beyond the room.
    ///
    /// # Errors
    ///
    /// As [`Seat::answer`].
    pub fn answer_within(
        &mut self,
        filter: &TopicFilter,
        now: u64,
        room: usize,
    ) -> Result<Option<Snapshot>, AllocError>
        ensures later { IsPrefix self.old self.new }
        ensures refused { OnErr result (self.new ≡ self.old) }
        ensures version { IfOk result (λ answer. IfSome answer (λ s. s.version ≡ length self.new)) }
        ensures legal { OnOk result (IsLegal N.limit self.new) }
        ensures found { IfOk result (λ answer. IsAnswerWithin room self.new filter.now now (option_map (λ s. s.found.items) answer)) }
    {
        let version = self.take()?;
        let answer = take_snapshot_within(&version, filter, now, room)?;
        self.know(&version);
        Ok(answer)
    }
}
