//! What a store of versions shows after memory was refused to `put`, `retry` or `answer`.

ghost use Rattle.std.specs.Prelude.{◌≡◌, ◌<◌, ◌^◌, false, IfOk};
ghost use Rattle.rs_message.specs.Messages.{is_sweep};

use crate::view::{View, view_of};
use kit_test::{Change, Failure, Naming, check, entry};
use rs_message::{Entry, Origin, PlaceCount};
use rs_store::TopicLimit;
use rs_topic::TopicFilter;
use rs_version::{Blank, PutFault, Receipt, Seat, StoreName, VersionWriter};
use std::alloc::Global;
use std::marker::Brand;
use std::sync::Wait;

/// How many topics may hold a message: so many that the catalogues have to grow more than once.
const TOPICS: u32 = 16;

/// How many rounds are made, of one or two new topics each. From some round on each topic needs a Sweep, which takes the oldest one.
const ROUNDS: u32 = 24;

/// How often a put is tried: memory is refused to three allocations in a row at most.
const TRIES: u32 = 4;

/// What became of a `put` or a `retry`.
#[derive(Clone, Copy)]
enum Done {
    /// There is a receipt of this number for the entry of this origin.
    Published(u64, Origin),
    /// The entry is held.
    Held,
    /// Memory was refused for it.
    Refused,
    Stale,
    Other,
}

/// A store that is written and read.
trait Store {
    ghost use Rattle.std.specs.Prelude.{◌≡◌, false};
    ghost use Rattle.rs_message.specs.Messages.{is_sweep};

    fn put(&mut self, entry: Entry) -> Done
        requires { is_sweep entry.operation ≡ false };

    fn retry(&mut self) -> Done;

    /// What a seat finds in it.
    fn view(&mut self) -> Option<View>;

    /// The number of the published entries.
    fn version(&self) -> u64;

    /// The origin of the held entry.
    fn held(&self) -> Option<Origin>;
}

#[derive(Drop)]
struct Open<N: StoreName, R: Wait + Drop> {
    writer: VersionWriter<N, R>,
    seat: Seat<N>,
    all: TopicFilter,
}

fn published<N: StoreName>(receipt: Receipt<N>) -> Done {
    Done::Published(receipt.number(), receipt.entry().origin)
}

impl<N: StoreName, R: Wait + Drop> Store for Open<N, R> {
    fn put(&mut self, entry: Entry) -> Done {
        match self.writer.put(entry) {
            Ok(receipt) => published(receipt),
            Err(PutFault::Held) => Done::Held,
            Err(PutFault::NoMemory) => Done::Refused,
            Err(PutFault::Stale) => Done::Stale,
            Err(PutFault::Full) => Done::Other,
        }
    }

    fn retry(&mut self) -> Done {
        match self.writer.retry() {
            Ok(Some(receipt)) => published(receipt),
            Ok(None) => Done::Other,
            Err(_) => Done::Refused,
        }
    }

    fn view(&mut self) -> Option<View> {
        view_of(&mut self.seat, &self.all)
    }

    fn version(&self) -> u64 {
        self.writer.tell().version()
    }

    fn held(&self) -> Option<Origin> {
        self.writer.held()
    }
}

/// How many Sets and Sweeps are kept, of which each Set has a topic of its own, and how often memory was refused: to a `put` that keeps
/// nothing, to one that keeps its Sweep alone, to one whose entry is held, to one whose entry is held behind its Sweep, to a `retry`, to
/// an `answer`.
#[derive(Clone, Copy)]
struct Book {
    sets: u64,
    sweeps: u64,
    put: u64,
    sweep: u64,
    held: u64,
    behind: u64,
    retry: u64,
    answer: u64,
}

/// One more.
fn more(count: u64) -> u64 {
    count.saturating_add(1)
}

impl Book {
    fn kept(&self) -> u64 {
        self.sets.saturating_add(self.sweeps)
    }

    /// How many Sweeps there have to be before one more Set.
    fn sweeps_wanted(&self) -> u64 {
        let sets = self.sets.saturating_add(1);
        sets.saturating_sub(u64::from(TOPICS))
    }

    /// Whether a seat reads all that is published, which is all that is kept but a held entry: each Sweep has taken one topic.
    fn is_read(&self, held: Option<Origin>, view: View) -> bool {
        let (sets, sweeps) = match held {
            None => (self.sets, self.sweeps),
            Some(origin) if origin.place() == 0 => (self.sets, self.sweeps.saturating_sub(1)),
            Some(_) => (self.sets.saturating_sub(1), self.sweeps),
        };
        view.version == sets.saturating_add(sweeps) && view.found == sets.saturating_sub(sweeps)
    }

    /// Takes note of a Set that is kept, and of the Sweep before it.
    fn keep(&mut self) {
        self.sweeps = self.sweeps_wanted();
        self.sets = self.sets.saturating_add(1);
    }

    /// Takes note of a Set that is held.
    fn hold(&mut self) {
        let sweeps = self.sweeps;
        self.keep();
        if self.sweeps == sweeps {
            self.held = more(self.held);
        } else {
            self.behind = more(self.behind);
        }
    }

    /// Takes note of a `put` that did not keep its Set. So many entries are kept now. If the Sweep before the Set is not among them, what
    /// is held must be as before; else nothing or that Sweep. Returns whether it is, or none if what is held may not be.
    fn refuse(&mut self, kept: u64, is_before: bool, is_sweep: bool) -> Option<bool> {
        if kept == self.kept() {
            self.put = more(self.put);
            return if is_before { Some(false) } else { None };
        }
        self.sweep = more(self.sweep);
        self.sweeps = more(self.sweeps);
        if is_sweep && kept == self.kept() && self.sweeps == self.sweeps_wanted() {
            Some(true)
        } else {
            None
        }
    }
}

/// The Set of this serial. When as many more came as there may be topics, its message is expired.
fn set(alloc: Global, serial: u64) -> Result<Entry, Failure>
    ensures { IfOk result (λ e. is_sweep e.operation ≡ false) }
{
    let change = Change::Set(serial, Some(TOPICS));
    entry(alloc, Naming::Houses, serial, serial, change)
}

/// The seat reads all that is published. If memory is refused, it is asked again.
fn read<S: Store>(store: &mut S, book: &mut Book) -> Result<(), Failure> {
    let view = match store.view() {
        Some(view) => Some(view),
        None => {
            book.answer = more(book.answer);
            store.view()
        }
    };
    match view {
        Some(view) => check(book.is_read(store.held(), view)),
        None => Err(Failure::NoMemory),
    }
}

fn read_if<S: Store>(is_due: bool, store: &mut S, book: &mut Book) -> Result<(), Failure> {
    if !is_due {
        return Ok(());
    }
    read(store, book)
}

/// This entry is held, and all else that is kept is published.
fn is_held<S: Store>(store: &S, book: &Book, origin: Origin) -> Result<(), Failure> {
    let version = store.version().saturating_add(1);
    check(store.held() == Some(origin) && version == book.kept())
}

/// The receipt is for this entry, the last one that is kept.
fn is_last(book: &Book, done: Done, origin: Origin) -> Result<(), Failure> {
    match done {
        Done::Published(number, of) => check(number == book.kept() && of == origin),
        Done::Refused => Err(Failure::NoMemory),
        _ => Err(Failure::Wrong),
    }
}

/// Publishes the held entry. If memory is refused, it must be held as before, and have its receipt then.
fn retry<S: Store>(store: &mut S, book: &mut Book, origin: Origin) -> Result<(), Failure> {
    is_held(store, book, origin)?;
    let mut done = store.retry();
    if let Done::Refused = done {
        book.retry = more(book.retry);
        is_held(store, book, origin)?;
        done = store.retry();
    }
    is_last(book, done, origin)
}

/// A `put` kept its Sweep alone, which is published or held; a held one is published by `retry` now and then, else by the next `put`.
fn swept<S: Store>(store: &mut S, book: &mut Book) -> Result<(), Failure> {
    match store.held() {
        None => Ok(()),
        Some(sweep) => {
            if book.sweeps % 2 == 0 {
                return retry(store, book, sweep);
            }
            read(store, book)
        }
    }
}

/// A `put` did not keep its entry, beside one that was held before or none. It may have kept the Sweep before it.
fn refused<S: Store>(
    store: &mut S,
    book: &mut Book,
    before: Option<Origin>,
) -> Result<(), Failure> {
    let held = store.held();
    let kept = store.version().saturating_add(u64::from(held.is_some()));
    let is_before = held.is_none() || held == before;
    let is_sweep = held.is_none() || held == Origin::of_writer(more(book.sweeps));
    match book.refuse(kept, is_before, is_sweep) {
        None => Err(Failure::Wrong),
        Some(false) => Ok(()),
        Some(true) => swept(store, book),
    }
}

/// Puts the entry once. Returns whether it is published if it is kept.
fn put_once<S: Store>(store: &mut S, book: &mut Book, entry: Entry) -> Result<Option<bool>, Failure>
    requires { is_sweep entry.operation ≡ false }
{
    let origin = entry.origin;
    let before = store.held();
    match store.put(entry) {
        Done::Held => {
            book.hold();
            is_held(store, book, origin)?;
            Ok(Some(false))
        }
        Done::Refused => {
            refused(store, book, before)?;
            Ok(None)
        }
        done => {
            book.keep();
            is_last(book, done, origin)?;
            Ok(Some(true))
        }
    }
}

/// Puts the Set of this serial, again if memory is refused and it is not kept. Returns whether it is published; if not, it is held.
fn put<S: Store>(store: &mut S, book: &mut Book, set: &Entry) -> Result<bool, Failure>
    requires { is_sweep set.now.operation ≡ false }
{
    for _ in 0..TRIES {
        if let Some(is_published) = put_once(store, book, set.copy()?)? {
            return Ok(is_published);
        }
    }
    Err(Failure::Wrong)
}

/// The Set of this serial is stale.
fn is_stale<S: Store>(alloc: Global, store: &mut S, serial: u64) -> Result<(), Failure> {
    match store.put(set(alloc, serial)?) {
        Done::Stale => Ok(()),
        _ => Err(Failure::Wrong),
    }
}

/// Puts the entry, and publishes it by `retry` if it is held.
fn publish<S: Store>(store: &mut S, book: &mut Book, entry: &Entry) -> Result<(), Failure>
    requires { is_sweep entry.now.operation ≡ false }
{
    if put(store, book, entry)? {
        return Ok(());
    }
    retry(store, book, entry.origin)
}

/// Puts a new topic. If it is held it is published by `retry`, or by a `put` of another one, before or after a seat has read.
fn round<S: Store>(
    alloc: Global,
    store: &mut S,
    book: &mut Book,
    round: u32,
) -> Result<(), Failure> {
    let serial = book.sets.saturating_add(1);
    // They are made before: between two puts, only what the calls themselves need takes memory.
    let entry = set(alloc, serial)?;
    let next = set(alloc, serial.saturating_add(1))?;
    if round % 3 == 0 {
        return publish(store, book, &entry);
    }
    if put(store, book, &entry)? {
        return Ok(());
    }
    read_if(round % 3 == 1, store, book)?;
    publish(store, book, &next)?;
    is_stale(alloc, store, serial)
}

/// Makes the rounds, and returns what was refused.
fn rounds<S: Store>(alloc: Global, store: &mut S) -> Result<Book, Failure> {
    let mut book = Book {
        sets: 0,
        sweeps: 0,
        put: 0,
        sweep: 0,
        held: 0,
        behind: 0,
        retry: 0,
        answer: 0,
    };
    for at in 0..ROUNDS {
        round(alloc, store, &mut book, at)?;
        read(store, &mut book)?;
    }
    Ok(book)
}

/// Makes them in a new store.
fn tried<N: StoreName, R: Wait>(
    rt: &R,
    alloc: Global,
    blank: Blank,
    all: TopicFilter,
) -> Result<Book, Failure>
    requires { (blank.history ≡ N.history) × (blank.limit ≡ N.limit) }
{
    let (writer, mut seats) = blank.open::<N, &R>(rt)?;
    let Some(seat) = seats.pop() else {
        return Err(Failure::Wrong);
    };
    rounds(alloc, &mut Open { writer, seat, all })
}

/// Puts new topics and reads them, and returns how often memory was refused to a `put` that keeps nothing, to one that keeps its Sweep
/// alone, to one whose entry is held, to one whose entry is held behind its Sweep, to a `retry` and to an `answer`.
pub fn work<H: Wait>(rt: &H, alloc: Global) -> Result<Vec<u64>, Failure> {
    let limit = TopicLimit::new(TOPICS).ok_or(Failure::Wrong)?;
    let all = TopicFilter::read(alloc, b"#")?;
    let places = PlaceCount::new(1).ok_or(Failure::Wrong)?;
    let book = tried::<Brand, H>(rt, alloc, Blank::new(alloc, limit, places)?, all)?;
    Ok(vec![in alloc;
        book.put,
        book.sweep,
        book.held,
        book.behind,
        book.retry,
        book.answer,
    ]?)
}
