//! What the clients and the writer know together, once all have ended.

ghost use Rattle.std.specs.Prelude.{◌≡◌, ◌≤◌, All, MatchOption, [], length, map, vec_capacity};
ghost use mathlib.Core.List.{IsPrefix};
ghost use Rattle.rs_store.specs.History.{IsLegal};
ghost use Rattle.rs_intake.specs.Causes.{HaveEnded};
ghost use Rattle.rs_intake.specs.Settling.{AreTaken, AreTakenInOrder, EachOnce};
ghost use Rattle.rs_places.specs.Store.{IsSettled, IsUnsettled};
ghost use Rattle.rs_version.specs.Writer.{kept_of};

use crate::store::StoreEnd;
use rs_intake::{Ended, settle};
use rs_intake_line::{LineEnd, LineName};
use rs_places_steps::PlaceEnd;
use rs_version::StoreWriter;

/// Says that what the gate of each place knew last is a prefix of the list that the writer keeps.
fn cover_all<N: LineName, T: Drop, S: StoreWriter<N>>(
    ends: &Vec<PlaceEnd<N, LineEnd<N>, T>>,
    writer: &mut S,
)
    ensures known { All (λ end. IsPrefix end.told (kept_of (S.written writer.old))) ends.now.items }
    ensures legal { IsLegal N.limit (kept_of (S.written writer.old)) }
    ensures same { (S.written writer.new ≡ S.written writer.old) × (S.ready writer.new ≡ S.ready writer.old) }
{
    // For the proof: this call says that the kept list is legal, also if there are no ends.
    let told = writer.tell();
    writer.note_covered(&told);
    for end in ends.iter() {
        writer.note_covered(&end.told);
    }
}

/// The lines of the places, and their turns, in their order. `lines` and `turns` are empty and have the capacity for all, so this takes no
/// memory.
fn part_ends<N: LineName, T: Drop>(
    ends: Vec<PlaceEnd<N, LineEnd<N>, T>>,
    lines: Vec<LineEnd<N>>,
    turns: Vec<T>,
) -> (Vec<LineEnd<N>>, Vec<T>)
    requires empty { (lines.items ≡ []) × (turns.items ≡ []) }
    requires capacity { (length ends.items ≤ vec_capacity lines) × (length ends.items ≤ vec_capacity turns) }
    ensures lines { result.0.items ≡ map (λ end. end.line) ends.items }
    ensures turns { result.1.items ≡ map (λ end. end.turn) ends.items }
{
    let mut lines = lines;
    let mut turns = turns;
    for end in ends {
        let PlaceEnd {
            line,
            told: _told,
            turn,
        } = end;
        lines.push_reserved(line);
        turns.push_reserved(turn);
    }
    (lines, turns)
}

/// Settles a run once its writer and all its places have ended, for which there were so many threads, and gives what it leaves, and the
/// writer. Each place has the end of its line. `lines` and `turns` are empty and have the capacity for all, so this takes no memory.
pub(crate) fn settle_run<N: LineName, T: Drop, S: StoreWriter<N>>(
    ends: Vec<PlaceEnd<N, LineEnd<N>, T>>,
    threads: usize,
    ended: Ended<N, S>,
    lines: Vec<LineEnd<N>>,
    turns: Vec<T>,
) -> (StoreEnd<T>, S)
    requires empty { (lines.items ≡ []) × (turns.items ≡ []) }
    requires capacity { (length ends.items ≤ vec_capacity lines) × (length ends.items ≤ vec_capacity turns) }
    requires once { EachOnce N.places (map (λ end. end.line) ends.items) }
    ensures writer { (S.written result.1 ≡ S.written ended.writer) × (S.ready result.1 ≡ S.ready ended.writer) }
    ensures turns { result.0.turns.items ≡ map (λ end. end.turn) ends.items }
    ensures version { result.0.version ≡ length (S.written ended.writer).published }
    ensures legal { IsLegal N.limit (kept_of (S.written ended.writer)) }
    ensures known { All (λ end. IsPrefix end.told (kept_of (S.written ended.writer))) ends.items }
    ensures order { AreTakenInOrder ended.received.entries (map (λ end. end.line) ends.items) }
    ensures ended { HaveEnded N.places ended.received.ends → AreTaken ended.received.entries (map (λ end. end.line) ends.items) }
    ensures cause { result.0.cause ≡ ended.cause }
    ensures settled { MatchOption result.0.changes (IsUnsettled ended.received.entries (map (λ end. end.line) ends.items))
        (IsSettled N.places ended.received.entries (map (λ end. end.line) ends.items)) }
{
    let version = ended.writer.tell().version();
    let mut ended = ended;
    cover_all(&ends, &mut ended.writer);
    let (lines, turns) = part_ends(ends, lines, turns);
    let changes = match settle(lines, &mut ended) {
        Ok(changes) => Some(changes),
        Err(_) => None,
    };
    let Ended { writer, cause, .. } = ended;
    let end = StoreEnd {
        turns,
        threads,
        version,
        changes,
        cause,
    };
    (end, writer)
}
