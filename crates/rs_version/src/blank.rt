//! A store before it has a name.

ghost use Rattle.std.specs.Prelude.{◌≡◌, ◌<◌, ◌≤◌, [], drop, length, Some, None, All, IfErr, IfOk, vec_len};
ghost use Rattle.left_right.specs.Sides.{view};
ghost use Rattle.rs_store.specs.Contents.{empty};
ghost use Rattle.rs_store.specs.History.{Stands};
ghost use Rattle.rs_version.specs.Catalogues.{content_of};
ghost use Rattle.rs_version.specs.First.{first_of};
ghost use Rattle.rs_version.specs.VersionRule.{Names, known, state};
ghost use Rattle.rs_version.specs.Writer.{shows};
ghost use Rattle.rs_version.specs.declared.fault.OpenFault.TheVariants.{TooManyTopics};

use crate::catalogue::StoreCatalogue;
use crate::catalogue_copy::CatalogueCopy;
use crate::copies::{CopyWriter, inform, publish_once};
use crate::fault::OpenFault;
use crate::given::{put_first, teach};
use crate::history::StoreName;
use crate::named::{NamedList, NewHistory, WholeHistory};
use crate::seat::Seat;
use crate::writer::VersionWriter;
use left_right::writer::Writer;
use rs_message::{Found, PlaceCount};
use rs_store::{Catalogue, TopicLimit};
use std::alloc::{AllocError, Global};
use std::marker::Model;
use std::sync::Wait;

/// A store without entries, before it has a name. Contracts see it as its history, its limit and the number of its places.
#[derive(Drop)]
pub struct Blank {
    alloc: Global,
    new_history: NewHistory,
    limit: TopicLimit,
    places: PlaceCount,
    first: StoreCatalogue,
    second: StoreCatalogue,
    memory: u64,
}

impl Model for Blank {
    ghost use Rattle.std.specs.Prelude.{◌≡◌};
    ghost use Rattle.rs_store.specs.Contents.{empty};
    ghost use Rattle.rs_version.specs.Catalogues.{content_of};
    ghost use Rattle.rs_version.specs.Values.{BlankValue};

    ghost Value = { BlankValue };

    ghost view = { λ b. record { history = b.new_history.prefix.history; limit = b.limit; places = b.places } };

    ghost invariant = { λ b. (content_of b.first ≡ empty b.limit) × (content_of b.second ≡ empty b.limit) };
}

/// What writes the two copies. It knows nothing of them yet.
fn copy_writer(
    alloc: Global,
    first: CatalogueCopy,
    second: CatalogueCopy,
    places: u8,
) -> Result<CopyWriter, AllocError>
    requires places { 0 < places }
    requires alike { state second ≡ state first }
    requires sound { Stands (content_of first.catalogue) first.prefix.log }
    ensures { IfOk result (λ w. (w.desk.shown.value ≡ first) × (drop w.behind w.log.items ≡ [])) }
{
    Writer::new(alloc, first, second, places as usize)
}

/// The same, once it knows the published copy.
fn learn_published<R: Wait>(rt: &R, writer: CopyWriter) -> Result<CopyWriter, AllocError>
    requires { drop writer.behind writer.log.items ≡ [] }
    ensures { IfOk result (λ w. (state w.desk.shown.value ≡ state writer.desk.shown.value)
        × (view w.desk.place ≡ Some (known w.desk.shown.value)) × (drop w.behind w.log.items ≡ [])) }
{
    match publish_once(rt, writer) {
        (writer, Ok(())) => Ok(writer),
        (writer, Err(_)) => {
            drop(writer.take(rt));
            Err(AllocError)
        }
    }
}

/// A seat that knows what the writer knows.
fn seat<N: StoreName>(writer: &mut CopyWriter, list: &NamedList<N>) -> Result<Seat<N>, AllocError>
    requires { Names N.history N.limit (view writer.old.desk.place) }
    ensures seat { IfOk result (λ s. s ≡ list.now) }
    ensures kept { (view writer.new.desk.place ≡ view writer.old.desk.place) × (writer.new.desk.shown ≡ writer.old.desk.shown)
        × (writer.new.log ≡ writer.old.log) × (writer.new.behind ≡ writer.old.behind) }
{
    let mut reader = writer.factory().reader()?;
    inform(writer, &mut reader);
    Ok(Seat::new(reader, list.again()))
}

/// A seat for each place.
fn seats<N: StoreName>(
    alloc: Global,
    writer: &mut CopyWriter,
    list: &NamedList<N>,
    places: u8,
) -> Result<Vec<Seat<N>>, AllocError>
    requires { Names N.history N.limit (view writer.old.desk.place) }
    ensures seats { IfOk result (λ v. (vec_len v ≡ places) × All (λ s. s ≡ list.now) v.items) }
    ensures kept { (writer.new.desk.shown ≡ writer.old.desk.shown) × (writer.new.log ≡ writer.old.log)
        × (writer.new.behind ≡ writer.old.behind) }
{
    let mut all = Vec::new(alloc);
    for _place in 0..places {
        all.push(seat(writer, list)?).map_err(|_| AllocError)?;
    }
    Ok(all)
}

impl Blank {
    /// A store of at most `limit` topics, for so many places.
    ///
    /// # Errors
    ///
    /// [`AllocError`] if memory is refused.
    pub fn new(alloc: Global, limit: TopicLimit, places: PlaceCount) -> Result<Blank, AllocError>
        ensures { IfOk result (λ b. (b.limit ≡ limit) × (b.places ≡ places)) }
    {
        let first = StoreCatalogue::new(alloc, limit)?;
        let second = first.copy()?;
        // Never: no right to add was made before.
        let new_history = NewHistory::new().ok_or(AllocError)?;
        Ok(Blank {
            alloc,
            new_history,
            limit,
            places,
            first,
            second,
            memory: u64::MAX,
        })
    }

    /// The same store, whose retained messages may count so many bytes (see [`rs_store::bytes_of`]). The writer refuses a Set after
    /// which they would count more, as if memory were refused, even if a Sweep would make space: a Sweep comes only if too many topics
    /// would hold a message, and frees then what has expired. Without this call they may count any number.
    pub fn with_memory(mut self, bytes: u64) -> Blank
        ensures { result ≡ self }
    {
        self.memory = bytes;
        self
    }

    /// The writer of the store, and a seat for each place, under a name that names this store.
    ///
    /// It publishes the empty copy once, so that the rule of the published copy names this history. No reader is there yet that
    /// it would wait for.
    ///
    /// # Errors
    ///
    /// [`AllocError`] if memory is refused, or the copies give no further reader.
    pub fn open<N: StoreName, R: Wait + Drop>(
        self,
        rt: R,
    ) -> Result<(VersionWriter<N, R>, Vec<Seat<N>>), AllocError>
        requires { (self.history ≡ N.history) × (self.limit ≡ N.limit) }
        ensures writer { IfOk result (λ r. r.0 ≡ shows []) }
        ensures seats { IfOk result (λ r. (vec_len r.1 ≡ self.places) × All (λ s. s ≡ []) r.1.items) }
    {
        let Blank {
            alloc,
            new_history,
            limit: _,
            places,
            first,
            second,
            memory,
        } = self;
        let NewHistory {
            word,
            right,
            prefix,
        } = new_history;
        let places = places.get();
        let first = CatalogueCopy {
            catalogue: first,
            prefix: prefix.again(),
        };
        let second = CatalogueCopy {
            catalogue: second,
            prefix: prefix.again(),
        };
        let writer = copy_writer(alloc, first, second, places)?;
        let mut writer = learn_published(&rt, writer)?;
        let list: NamedList<N> = NamedList::new(prefix);
        match seats(alloc, &mut writer, &list, places) {
            Ok(seats) => Ok((
                VersionWriter::new(
                    rt,
                    alloc,
                    writer,
                    WholeHistory::new(list, word, right),
                    memory,
                ),
                seats,
            )),
            Err(_) => {
                drop(writer.take(&rt));
                Err(AllocError)
            }
        }
    }

    /// The same of a store that begins with these messages, one for each topic. Before anything else the writer puts a Set of each, as it
    /// is and in this order, with an origin of its own place and serials from 1 on, and each seat learns it.
    ///
    /// # Errors
    ///
    /// - [`TooManyTopics`](OpenFault::TooManyTopics): more messages are given than topics may hold one.
    /// - [`NoMemory`](OpenFault::NoMemory): memory is refused, the copies give no further reader, or the messages count more bytes than
    ///   they may (see [`Blank::with_memory`]).
    pub fn open_with<N: StoreName, R: Wait + Drop>(
        self,
        rt: R,
        given: Vec<Found>,
    ) -> Result<(VersionWriter<N, R>, Vec<Seat<N>>), OpenFault>
        requires { (self.history ≡ N.history) × (self.limit ≡ N.limit) }
        ensures writer { IfOk result (λ r. r.0 ≡ shows (first_of given.items)) }
        ensures seats { IfOk result (λ r. (vec_len r.1 ≡ self.places) × All (λ s. s ≡ first_of given.items) r.1.items) }
        ensures many { IfErr result (λ fault. fault ≡ TooManyTopics → self.limit < length given.items) }
    {
        if given.len() > self.limit.get() as usize {
            return Err(OpenFault::TooManyTopics);
        }
        let Ok((mut writer, mut seats)) = self.open::<N, R>(rt) else {
            return Err(OpenFault::NoMemory);
        };
        match put_first(&mut writer, given) {
            Ok(()) => {}
            Err(_) => return Err(OpenFault::NoMemory),
        }
        teach(seats.as_mut_slice(), &writer.tell());
        Ok((writer, seats))
    }
}
