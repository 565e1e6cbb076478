//! A run over turns whose connections are known.

ghost use Rattle.std.specs.Prelude.{◌≡◌, All, IfOk, is_some, length, map, true};
ghost use Rattle.rs_server.specs.Counts.{failures_of, inner_of};
ghost use Rattle.rs_places_steps.specs.Ended.{ending_of};
ghost use Rattle.rs_places_steps.specs.Turns.{TakesBack};
ghost use Rattle.tests_places.specs.Answered.{AreAnswered};

use kit_places::{NONE, PUBLISHES, SUBSCRIBES};
use kit_test::{CONNACK, CONNECT, REPLAYED, SUBSCRIBED, blank_store, concat, is_concat};
use rs_intake::{BlankQueue, blank_queue};
use rs_message::{Found, LineCount, PlaceCount};
use rs_places::{StoreEnd, run_store};
use rs_places_pool::{NoWatch, Runner};
use rs_places_steps::{Connection, EndedConnection, FreeTurn, StoreFault, Turn};
use rs_server::{Clock, Moments, Refusals, ServeFault, Served};
use rs_version::{Blank, StoreName, Told};
use std::alloc::{AllocError, Global};
use std::collections::VecDeque;
use std::io::{Read, Write};
use std::snapshot::Snapshot;
use std::sync::Wait;
use std::test::Fail;
use std::thread::Threads;

/// A connection in memory.
type Played = Connection<VecDeque<u8>, Vec<u8>, Moments>;

/// How a connection ended, how often its reader and its writer failed, and what it was refused.
#[derive(Drop)]
struct Outcome {
    connection: Played,
    read_failures: u64,
    write_failures: u64,
    served: Result<Served, ServeFault>,
    refusals: Refusals,
}

/// Gives these connections, in their order, and keeps them once they have ended.
#[derive(Drop)]
struct Listed {
    waiting: VecDeque<Played>,
    /// For proofs: the one that is out, as it was given.
    out: Snapshot<Option<Played>>,
    /// None once one could not be kept.
    ended: Option<Vec<Outcome>>,
}

impl Turn for Listed {
    ghost use Rattle.std.specs.Prelude.{map, Some};
    ghost use Rattle.std.specs.Option.{option_map};
    ghost use Rattle.rs_server.specs.Moments.{told_by};

    type In = VecDeque<u8>;

    type Out = Vec<u8>;

    type Time = Moments;

    ghost connections = { λ turn. record {
      waiting = Some (map (λ c. record { unread = Some c.input.items; written = Some c.output.items; moments = Some (told_by c.clock) })
          turn.waiting.items);
      out = Some (option_map (λ c. record { unread = Some c.input.items; written = Some c.output.items; moments = Some (told_by c.clock) })
          turn.out.value);
      ended = option_map (λ all. map (λ o.
          record {
            streams = record {
              unread = Some o.connection.input.items;
              written = Some o.connection.output.items;
              moments = Some (told_by o.connection.clock);
            };
            read_failures = o.read_failures;
            write_failures = o.write_failures;
            result = o.served;
          }) all.items) turn.ended;
    } };

    fn next(&mut self) -> Option<Played> {
        let next = self.waiting.pop_front();
        self.out = Snapshot::of(&next);
        next
    }

    fn end<N: StoreName>(
        &mut self,
        ended: EndedConnection<VecDeque<u8>, Vec<u8>, Moments>,
        _told: &Told<N>,
    )
        ensures { TakesBack (⟦<Listed as Turn>⟧.connections self.old)
            (ending_of (⟦<VecDeque<u8> as Read>⟧.remaining (inner_of ended.connection.input)) (⟦<Vec<u8> as Write>⟧.contents (inner_of ended.connection.output))
            (⟦<Moments as Clock>⟧.moments ended.connection.clock) (failures_of ended.connection.input) (failures_of ended.connection.output) ended.served)
            (⟦<Listed as Turn>⟧.connections self.new) }
    {
        let EndedConnection {
            connection,
            served,
            tally,
            ..
        } = ended;
        let Connection {
            input,
            output,
            clock,
        } = connection;
        let (read_failures, write_failures) = (input.failures(), output.failures());
        let connection = Connection {
            input: input.into_inner(),
            output: output.into_inner(),
            clock,
        };
        let outcome = Outcome {
            connection,
            read_failures,
            write_failures,
            served,
            refusals: tally.refusals,
        };
        self.out = Snapshot::of(&None);
        let Some(mut ended) = self.ended.take() else {
            return;
        };
        if ended.push(outcome).is_ok() {
            self.ended = Some(ended);
        }
    }
}

/// Runs a store that begins with this over turns whose connections are known. The contract of the run says what each client read: each connection that
/// waited was answered, in its order, by the replies of a session to its own bytes, at its own times, and each list that its filters
/// were answered from is a prefix of one legal history.
fn answered<T: Turn + Send + Drop + 'static, H: Threads + Wait + Copy + Send + Sync + 'static>(
    rt: H,
    alloc: Global,
    blank: Blank,
    given: Vec<Found>,
    queue: BlankQueue,
    turns: Vec<FreeTurn<T>>,
) -> Result<StoreEnd<T>, StoreFault>
where
    T::In: Send + 'static,
    T::Out: Send + 'static,
    T::Time: Send + 'static,
    requires turns { queue.places ≡ length turns.items }
    requires known { All (λ turn. is_some (T.connections turn).waiting ≡ true) turns.items }
    ensures { IfOk result (λ end. AreAnswered blank.limit (map T.connections turns.items) (map T.connections end.turns.items) end.version) }
{
    run_store(
        rt,
        alloc,
        blank,
        given,
        queue,
        turns,
        Runner::<NoWatch>::OneEach,
    )
}

/// A connection of a client that sends this, at 0.
fn played(alloc: Global, input: &[u8]) -> Result<Played, AllocError> {
    let mut bytes = Vec::new(alloc);
    bytes.extend_from_slice(input)?;
    Ok(Connection {
        input: VecDeque::from_vec(bytes),
        output: Vec::new(alloc),
        clock: Moments::new(0, Vec::new(alloc)),
    })
}

/// A place with these connections.
fn place_of(alloc: Global, waiting: Vec<Played>) -> FreeTurn<Listed> {
    FreeTurn::new(Listed {
        waiting: VecDeque::from_vec(waiting),
        out: Snapshot::of(&None),
        ended: Some(Vec::new(alloc)),
    })
}

/// Whether the client ended each connection, and was written this behind its CONNACK.
fn is_written(turn: &Listed, wanted: &[&[u8]]) -> bool {
    let Some(ended) = &turn.ended else {
        return false;
    };
    let mut at = 0usize;
    for outcome in ended {
        let Some(behind) = wanted.get(at) else {
            return false;
        };
        if !is_concat(&outcome.connection.output, &[CONNACK, *behind]) || !is_closed(outcome) {
            return false;
        }
        at = at.saturating_add(1);
    }
    at == wanted.len()
}

/// Whether the client closed the connection, and no call failed.
fn is_closed(outcome: &Outcome) -> bool {
    outcome.served == Ok(Served::ClientClosed)
        && outcome.read_failures == 0
        && outcome.write_failures == 0
}

/// A place that publishes and then reads it back, and one whose client reads what it can.
fn known_turns(alloc: Global) -> Result<Vec<FreeTurn<Listed>>, AllocError>
    ensures { IfOk result (λ turns. length turns.items ≡ 2) }
{
    let publishes = played(alloc, PUBLISHES)?;
    let reads = played(alloc, SUBSCRIBES)?;
    let first = place_of(alloc, vec![in alloc; publishes, reads]?);
    let reads_too = played(alloc, SUBSCRIBES)?;
    let second = place_of(alloc, vec![in alloc; reads_too]?);
    let mut turns = Vec::new(alloc);
    turns.push(first)?;
    turns.push(second)?;
    Ok(turns)
}

/// Two places, three connections.
#[test]
fn connections_in_memory_are_answered(rt: HostRuntime) -> Result<(), Fail> {
    let alloc = rt.alloc();
    let turns = known_turns(alloc)?;
    let places = PlaceCount::new(2).ok_or("two places")?;
    let blank = blank_store(alloc, 10, places)?;
    let queue = blank_queue(alloc, LineCount::of_places(places))?;
    let end = answered(rt, alloc, blank, Vec::new(alloc), queue, turns)?;
    assert!(rt; end.threads == 2);
    assert!(rt; (end.changes, end.version) == (Some(1), 1));
    let turns = end.turns;
    let first = match turns.get(0) {
        Some(turn) => is_written(turn, &[NONE, REPLAYED]),
        None => false,
    };
    assert!(rt; first);
    let second = match turns.get(1) {
        Some(turn) => is_written(turn, &[SUBSCRIBED]) || is_written(turn, &[REPLAYED]),
        None => false,
    };
    assert!(rt; second);
    Ok(())
}

/// PUBLISH with RETAIN 1 at QoS 0 to `a/b`, `a/c` and `a/d`, at QoS 1 to `a/e`, and at QoS 0 again to `a/b`; DISCONNECT.
const FILLS: &[u8] = b"\x31\x07\x00\x03a/b\x00x\x31\x07\x00\x03a/c\x00x\x31\x07\x00\x03a/d\x00x\
\x33\x09\x00\x03a/e\x00\x01\x00x\x31\x07\x00\x03a/b\x00x\xE0\x00";

/// A place whose first client sends this, and whose next one reads.
fn filling_turn(alloc: Global) -> Result<Vec<FreeTurn<Listed>>, AllocError>
    ensures { IfOk result (λ turns. length turns.items ≡ 1) }
{
    let sent = concat(alloc, &[CONNECT, FILLS])?;
    let fills = played(alloc, sent.as_slice())?;
    let reads = played(alloc, SUBSCRIBES)?;
    let place = place_of(alloc, vec![in alloc; fills, reads]?);
    let mut turns = Vec::new(alloc);
    turns.push(place)?;
    Ok(turns)
}

/// Whether each connection was refused so many changes because the store was full, and nothing else.
fn is_refused(turn: &Listed, wanted: &[u64]) -> bool {
    let Some(ended) = &turn.ended else {
        return false;
    };
    let mut at = 0usize;
    for outcome in ended {
        let Some(full) = wanted.get(at) else {
            return false;
        };
        let refusals = Refusals {
            full: *full,
            ..Refusals::new()
        };
        if outcome.refusals != refusals {
            return false;
        }
        at = at.saturating_add(1);
    }
    at == wanted.len()
}

/// In a store of one topic, a turn is told how many changes each of its connections was refused.
#[test]
fn a_turn_is_told_what_was_refused(rt: HostRuntime) -> Result<(), Fail> {
    let alloc = rt.alloc();
    let turns = filling_turn(alloc)?;
    let places = PlaceCount::new(1).ok_or("a place")?;
    let blank = blank_store(alloc, 1, places)?;
    let queue = blank_queue(alloc, LineCount::of_places(places))?;
    let end = answered(rt, alloc, blank, Vec::new(alloc), queue, turns)?;
    assert!(rt; (end.changes, end.version) == (Some(5), 2));
    let told = match end.turns.get(0) {
        Some(turn) => is_refused(turn, &[3, 0]),
        None => false,
    };
    assert!(rt; told);
    Ok(())
}
