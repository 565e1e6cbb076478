//! The run of a store whose writer keeps what it publishes.

ghost use Rattle.std.specs.Prelude.{◌≡◌, IfOk, [], All, length, map};
ghost use Rattle.rs_journal.specs.Journals.{may_leave};
ghost use Rattle.rs_journal_writer.specs.State.{Stores};
ghost use Rattle.rs_places.specs.Kept.{IsKeptRun};
ghost use Rattle.rs_version.specs.First.{AreOwn, first_of};
ghost use Rattle.rs_version.specs.Writer.{kept_of, shows};

use crate::store::{StoreEnd, run_writer_of};
use rs_intake::{BlankQueue, MAX_TOGETHER};
use rs_intake_line::LineName;
use rs_journal::{Journal, Switch};
use rs_journal_writer::{CommitWatch, KeptWriter, MAX_HELD};
use rs_message::Found;
use rs_places_pool::{Runner, Watch};
use rs_places_steps::{FreeTurn, StoreFault, Turn};
use rs_store::TopicLimit;
use rs_version::{Blank, Seat, StoreName};
use sqlite_disk::Disk;
use std::alloc::Global;
use std::marker::Brand;
use std::sync::Wait;
use std::thread::Threads;

// The writer can be made ready for all the changes of a step.
const _: () = prove!(MAX_TOGETHER <= MAX_HELD);

/// What a run of a store that is kept leaves.
#[derive(Drop)]
pub struct KeptEnd<T, D: Disk> {
    /// What each run leaves.
    pub end: StoreEnd<T>,
    /// The journal, as the writer left it.
    pub journal: Journal<D>,
}

/// Runs a store as [`run_store`](crate::run_store) does, but its writer commits each entry to this journal before it publishes it. Give the
/// messages that are retained after the operations of the journal, one for each topic, as [`load`](rs_journal_writer::load) finds them: the
/// store begins with these. `limit` is that of the store. `switch` and `watch` are those of [`KeptWriter::new`].
///
/// The contract (`IsKeptRun`) says of the run what that of `run_store` says, except that the writer may hold more than one entry at its end.
/// Of the journal it says what a crash leaves: operations after which just that is retained which is retained after all that was published,
/// and perhaps after some of what the writer held. The invariant of [`KeptWriter`] says so at each moment of the run, too.
///
/// # Errors
///
/// As `run_store`. The journal is closed then.
pub fn run_kept_store<
    D: Disk + Drop + Send + 'static,
    C: CommitWatch + Send + 'static,
    T: Turn + Send + Drop + 'static,
    H: Threads + Wait + Copy + Send + Sync + 'static,
    W: Watch<T::In> + Send + Sync + Drop + 'static,
>(
    rt: H,
    alloc: Global,
    blank: Blank,
    limit: TopicLimit,
    journal: Journal<D>,
    given: Vec<Found>,
    switch: Option<Switch>,
    watch: C,
    queue: BlankQueue,
    turns: Vec<FreeTurn<T>>,
    runner: Runner<W>,
) -> Result<KeptEnd<T, D>, StoreFault>
where
    T::In: Send + 'static,
    T::Out: Send + 'static,
    T::Time: Send + 'static,
    requires limit { limit ≡ blank.limit }
    requires places { queue.places ≡ length turns.items }
    requires stored { Stores journal (first_of given.items) }
    ensures { IfOk result (λ kept. IsKeptRun blank.limit queue.places (first_of given.items) (map T.connections turns.items)
        (map T.connections kept.end.turns.items) (may_leave kept.journal) kept.end.version kept.end.changes kept.end.cause) }
{
    run_kept_named::<Brand, D, C, T, H, W>(
        rt, alloc, blank, limit, journal, given, switch, watch, queue, turns, runner,
    )
}

/// The writer of a store that begins with what this journal keeps, and its seats.
fn open_kept<N: StoreName, D: Disk + Drop, C: CommitWatch, H: Wait + Copy>(
    rt: H,
    alloc: Global,
    blank: Blank,
    limit: TopicLimit,
    journal: Journal<D>,
    given: Vec<Found>,
    switch: Option<Switch>,
    watch: C,
) -> Result<(KeptWriter<N, H, D, C>, Vec<Seat<N>>), StoreFault>
    requires store { (blank.history ≡ N.history) × (blank.limit ≡ N.limit) }
    requires limit { limit ≡ N.limit }
    requires stored { Stores journal (first_of given.items) }
    ensures written { IfOk result (λ r. r.0.written ≡ shows (first_of given.items)) }
    ensures ready { IfOk result (λ r. r.0.ready ≡ []) }
    ensures seats { IfOk result (λ r. All (λ seat. seat ≡ first_of given.items) r.1.items) }
{
    let (writer, seats) = blank.open_with::<N, H>(rt, given)?;
    let writer = KeptWriter::new(alloc, writer, journal, limit, switch, watch);
    Ok((writer, seats))
}

/// The run of a store whose writer this is, and whose seats know what it keeps.
fn run_kept<
    N: LineName + Send + Sync + 'static,
    D: Disk + Drop + Send + 'static,
    C: CommitWatch + Send + 'static,
    T: Turn + Send + Drop + 'static,
    H: Threads + Wait + Copy + Send + Sync + 'static,
    W: Watch<T::In> + Send + Sync + Drop + 'static,
>(
    rt: H,
    alloc: Global,
    writer: KeptWriter<N, H, D, C>,
    seats: Vec<Seat<N>>,
    queue: BlankQueue,
    turns: Vec<FreeTurn<T>>,
    runner: Runner<W>,
) -> Result<KeptEnd<T, D>, StoreFault>
where
    T::In: Send + 'static,
    T::Out: Send + 'static,
    T::Time: Send + 'static,
    requires own { AreOwn (kept_of writer.written) }
    requires ready { writer.ready ≡ [] }
    requires seats { All (λ seat. seat ≡ kept_of writer.written) seats.items }
    requires queue { (queue.name ≡ N.queue) × (queue.places ≡ N.places) }
    requires turns { queue.places ≡ length turns.items }
    ensures { IfOk result (λ kept. IsKeptRun N.limit N.places (kept_of writer.written) (map T.connections turns.items)
        (map T.connections kept.end.turns.items) (may_leave kept.journal) kept.end.version kept.end.changes kept.end.cause) }
{
    match run_writer_of(rt, alloc, writer, seats, queue, turns, runner) {
        Ok((end, writer)) => Ok(KeptEnd {
            end,
            journal: writer.into_journal(),
        }),
        Err(fault) => Err(fault),
    }
}

fn run_kept_named<
    N: LineName + Send + Sync + 'static,
    D: Disk + Drop + Send + 'static,
    C: CommitWatch + Send + 'static,
    T: Turn + Send + Drop + 'static,
    H: Threads + Wait + Copy + Send + Sync + 'static,
    W: Watch<T::In> + Send + Sync + Drop + 'static,
>(
    rt: H,
    alloc: Global,
    blank: Blank,
    limit: TopicLimit,
    journal: Journal<D>,
    given: Vec<Found>,
    switch: Option<Switch>,
    watch: C,
    queue: BlankQueue,
    turns: Vec<FreeTurn<T>>,
    runner: Runner<W>,
) -> Result<KeptEnd<T, D>, StoreFault>
where
    T::In: Send + 'static,
    T::Out: Send + 'static,
    T::Time: Send + 'static,
    requires store { (blank.history ≡ N.history) × (blank.limit ≡ N.limit) }
    requires queue { (queue.name ≡ N.queue) × (queue.places ≡ N.places) }
    requires limit { limit ≡ blank.limit }
    requires turns { queue.places ≡ length turns.items }
    requires stored { Stores journal (first_of given.items) }
    ensures { IfOk result (λ kept. IsKeptRun blank.limit queue.places (first_of given.items) (map T.connections turns.items)
        (map T.connections kept.end.turns.items) (may_leave kept.journal) kept.end.version kept.end.changes kept.end.cause) }
{
    match open_kept::<N, D, C, H>(rt, alloc, blank, limit, journal, given, switch, watch) {
        Ok((writer, seats)) => run_kept::<N, D, C, T, H, W>(
            rt, alloc, writer, seats, queue, turns, runner,
        ),
        Err(fault) => Err(fault),
    }
}
