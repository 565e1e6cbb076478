//! What is decoded before it is handled.

ghost use Rattle.std.specs.Prelude.{◌≡◌, ◌≤◌, ◌⊎◌, [], ◌∷◌, ◌++◌, true, false, List, Ok, Some, OnErr, OnOk, IfOk, IfErr, length, drop, max};
ghost use Rattle.std.specs.List.{All};
ghost use Rattle.rs_message.specs.declared.entry.Entry.{Entry};
ghost use Rattle.rs_message.specs.declared.entry.Operation.{Operation};
ghost use Rattle.rs_message.specs.Messages.{is_sweep};
ghost use Rattle.rs_packet.specs.Grammar.{HasPrefix};
ghost use Rattle.rs_packet.specs.PacketReading.{Gives, answer};
ghost use Rattle.rs_packet.specs.Prefixes.{IsMore};
ghost use Rattle.rs_session.specs.Pending.{AreChanges, HasChange};
ghost use Rattle.rs_session.specs.Gate.{Grows};
ghost use Rattle.rs_session.specs.Points.{Given, given_at};
ghost use Rattle.rs_session.specs.State.{state_of, due_of, gate_of};
ghost use Rattle.rs_server.specs.Clock.{TellsInOrder};
ghost use Rattle.rs_server.specs.Conversation.{AllButLastHaveChanges, Plans, PlansNext, TakesInput};

use crate::clock::Clock;
use crate::writing::ServeFault;
use bytes::{Bytes, BytesMut};
use rs_message::Operation;
use rs_packet::{Decoded, PacketFault, decode, needed_len};
use rs_session::{Gate, Incoming, Input, Session};
use std::alloc::Global;
use std::collections::VecDeque;

/// Plans what comes next, unless the gate takes no more changes yet. Nothing is read.
///
/// The first is the first whole input of what is buffered. While the last one is a publication that may be announced, in an open session,
/// the next one follows: first a batch, half of what its gate takes at once, whose changes are announced if there are `least` of them. A
/// gate that runs ahead takes the changes of a further batch behind these. Then come inputs up to as many as the gate takes, which are
/// decoded while the writer works on the others. They are announced once the gate takes more.
pub(crate) fn plan<G: Gate, C: Clock>(
    alloc: Global,
    session: &mut Session<G>,
    buffered: &mut BytesMut,
    planned: &mut VecDeque<Incoming>,
    clock: &mut C,
    least: usize,
) -> Result<(), ServeFault>
    ensures plans { Plans planned.old.items planned.new.items buffered.old.items buffered.new.items (C.moments clock.old)
        (C.moments clock.new) }
    ensures more { OnOk result (planned.new.items ≡ [] → IsMore buffered.new.items) }
    ensures few { length planned.old.items ≤ G.most → length planned.new.items ≤ max G.most 1 }
    ensures only_last { AllButLastHaveChanges planned.old.items → AllButLastHaveChanges planned.new.items }
    ensures none { OnErr result (planned.new.items ≡ planned.old.items) }
    ensures fault { IfErr result (λ fault. fault ≡ ServeFault.NoMemory) }
    ensures state { state_of session.new ≡ state_of session.old }
    ensures due { due_of session.new ≡ due_of session.old }
    ensures list { (seen : List Entry) → G.stands (gate_of session.old) seen → G.stands (gate_of session.new) seen }
    ensures mark { G.mark (gate_of session.new) ≡ G.mark (gate_of session.old) }
    ensures pending { AreChanges planned.old.items (G.pending (gate_of session.old))
        → AreChanges planned.new.items (G.pending (gate_of session.new)) }
{
    let most = session.most_expected();
    if !planned.is_empty() && !takes_more(session, most, planned, buffered) {
        return Ok(());
    }
    plan_first(alloc, buffered, planned, clock, most >= least)?;
    plan_batch(alloc, session, buffered, planned, clock, most, least);
    // Behind the first batch, if the gate runs ahead.
    plan_batch(alloc, session, buffered, planned, clock, most, least);
    look_ahead(alloc, buffered, planned, clock, most);
    Ok(())
}

/// Whether the gate, which takes `most` changes at once, is to be told of more now: it has none; or no more than a batch, it runs ahead, and
/// there may be more of what is planned or buffered.
fn takes_more<G: Gate>(
    session: &Session<G>,
    most: usize,
    planned: &VecDeque<Incoming>,
    buffered: &BytesMut,
) -> bool {
    let pending = session.pending_count();
    if pending == 0 {
        return true;
    }
    let has_more = planned.len() > pending || !buffered.is_empty();
    has_more && pending <= batch(most) && session.runs_ahead()
}

/// Plans the next batch and announces its changes, behind those that are pending. If none are, there have to be `least` of them. Nothing
/// is done if the gate, which takes `most` changes at once, takes no more now.
fn plan_batch<G: Gate, C: Clock>(
    alloc: Global,
    session: &mut Session<G>,
    buffered: &mut BytesMut,
    planned: &mut VecDeque<Incoming>,
    clock: &mut C,
    most: usize,
    least: usize,
)
    ensures plans { Plans planned.old.items planned.new.items buffered.old.items buffered.new.items (C.moments clock.old)
        (C.moments clock.new) }
    ensures few { length planned.new.items ≤ max (length planned.old.items) most }
    ensures only_last { AllButLastHaveChanges planned.old.items → AllButLastHaveChanges planned.new.items }
    ensures state { state_of session.new ≡ state_of session.old }
    ensures due { due_of session.new ≡ due_of session.old }
    ensures list { (seen : List Entry) → G.stands (gate_of session.old) seen → G.stands (gate_of session.new) seen }
    ensures mark { G.mark (gate_of session.new) ≡ G.mark (gate_of session.old) }
    ensures pending { AreChanges planned.old.items (G.pending (gate_of session.old))
        → AreChanges planned.new.items (G.pending (gate_of session.new)) }
{
    if !takes_more(session, most, planned, buffered) {
        return;
    }
    let through = session.pending_count().saturating_add(batch(most));
    look_ahead(alloc, buffered, planned, clock, through.min(most));
    announce(alloc, session, planned, least);
}

/// How many inputs are planned before their changes are announced, for a gate that takes `most` changes at once: half of them, but two if
/// it takes two or three.
fn batch(most: usize) -> usize
    ensures { result ≤ most }
{
    (most / 2).max(2).min(most)
}

/// Plans the next input, if nothing is planned and it is whole, with its change, if that is wanted and may be announced.
fn plan_first<C: Clock>(
    alloc: Global,
    buffered: &mut BytesMut,
    planned: &mut VecDeque<Incoming>,
    clock: &mut C,
    announces: bool,
) -> Result<(), ServeFault>
    ensures plans { Plans planned.old.items planned.new.items buffered.old.items buffered.new.items (C.moments clock.old)
        (C.moments clock.new) }
    ensures more { OnOk result (planned.new.items ≡ [] → IsMore buffered.new.items) }
    ensures few { length planned.new.items ≤ max (length planned.old.items) 1 }
    ensures only_last { AllButLastHaveChanges planned.old.items → AllButLastHaveChanges planned.new.items }
    ensures none { OnErr result (planned.new.items ≡ planned.old.items) }
    ensures fault { IfErr result (λ fault. fault ≡ ServeFault.NoMemory) }
{
    if !planned.is_empty() {
        return Ok(());
    }
    match plan_next(alloc, buffered, planned, clock, announces) {
        Ok(_goes_on) => Ok(()),
        Err(fault) => Err(fault),
    }
}

/// Plans the next input, if it is whole, with its change, if that is wanted and may be announced. Whether it has one.
fn plan_next<C: Clock>(
    alloc: Global,
    buffered: &mut BytesMut,
    planned: &mut VecDeque<Incoming>,
    clock: &mut C,
    announces: bool,
) -> Result<bool, ServeFault>
    ensures plans { PlansNext planned.old.items planned.new.items buffered.old.items buffered.new.items (C.moments clock.old)
        (C.moments clock.new) }
    ensures more { OnOk result (planned.new.items ≡ [] → IsMore buffered.new.items) }
    ensures change { result ≡ Ok true → (given : Given) × (planned.new.items ≡ planned.old.items ++ given ∷ []) × HasChange given }
    ensures none { OnErr result (planned.new.items ≡ planned.old.items) }
    ensures fault { IfErr result (λ fault. fault ≡ ServeFault.NoMemory) }
{
    if planned.reserve(1).is_err() {
        return Err(ServeFault::NoMemory);
    }
    let Some(input) = next_input(alloc, buffered) else {
        return Ok(false);
    };
    let now = clock.now();
    let incoming = incoming_of(alloc, input, now, announces);
    let goes_on = incoming.has_change();
    planned.push_back_reserved(incoming);
    Ok(goes_on)
}

/// An input at its time, with its change, if that is wanted and may be announced.
fn incoming_of(alloc: Global, input: Input, now: u64, announces: bool) -> Incoming
    ensures { result ≡ given_at input now }
{
    if announces {
        return Incoming::with_change(alloc, input, now);
    }
    Incoming::new(input, now)
}

/// Plans whole inputs behind what is planned, up to `most` in all, and to the first that may not be announced. If memory is refused it
/// stops.
fn look_ahead<C: Clock>(
    alloc: Global,
    buffered: &mut BytesMut,
    planned: &mut VecDeque<Incoming>,
    clock: &mut C,
    most: usize,
)
    ensures plans { Plans planned.old.items planned.new.items buffered.old.items buffered.new.items (C.moments clock.old)
        (C.moments clock.new) }
    ensures few { length planned.new.items ≤ max (length planned.old.items) most }
    ensures only_last { AllButLastHaveChanges planned.old.items → AllButLastHaveChanges planned.new.items }
{
    if !may_go_on(planned) {
        return;
    }
    'next: for count in planned.len()..most {
        let Ok(true) = plan_next(alloc, buffered, planned, clock, true) else {
            return;
        };
    }
}

/// Whether the last input that is planned may be announced.
fn may_go_on(planned: &VecDeque<Incoming>) -> bool
    ensures { result ≡ true → AllButLastHaveChanges planned.now.items → All HasChange planned.now.items }
{
    if planned.is_empty() {
        return false;
    }
    let last = &planned[planned.len() - 1];
    last.has_change()
}

/// Announces the changes of what is planned behind those that are pending. If none are pending, there have to be `least` of them.
fn announce<G: Gate>(
    alloc: Global,
    session: &mut Session<G>,
    planned: &VecDeque<Incoming>,
    least: usize,
)
    ensures state { state_of session.new ≡ state_of session.old }
    ensures due { due_of session.new ≡ due_of session.old }
    ensures list { Grows (G.stands (gate_of session.old)) (G.stands (gate_of session.new)) (λ seen list. list ≡ seen) }
    ensures mark { G.mark (gate_of session.new) ≡ G.mark (gate_of session.old) }
    ensures pending { AreChanges planned.now.items (G.pending (gate_of session.old))
        → AreChanges planned.now.items (G.pending (gate_of session.new)) }
{
    let pending = session.pending_count();
    let least = if pending == 0 { least } else { 1 };
    if planned.len() < pending.saturating_add(least) {
        return;
    }
    let changes = changes_of(alloc, planned, pending);
    if changes.len() < least {
        return;
    }
    session.expect(changes);
}

/// Copies of the changes of what is planned behind the first `from`, up to one that has none. If memory is refused there are fewer.
fn changes_of(alloc: Global, planned: &VecDeque<Incoming>, from: usize) -> Vec<Operation>
    ensures changes { AreChanges (drop from planned.now.items) result.items }
    ensures none_sweeps { All (λ operation. is_sweep operation ≡ false) result.items }
{
    let Ok(mut changes) = Vec::with_capacity(alloc, planned.len().saturating_sub(from)) else {
        return Vec::new(alloc);
    };
    'made: for i in from..planned.len() {
        let next = &planned[i];
        let Some(change) = next.copy_change() else {
            return changes;
        };
        changes.push_reserved(change);
    }
    changes
}

/// Removes the first input from what is buffered. None if less than a packet is.
fn next_input(alloc: Global, buffered: &mut BytesMut) -> Option<Input>
    ensures { TakesInput buffered.old.items result buffered.new.items }
{
    let size = needed_len(buffered.as_slice());
    if buffered.len() < size {
        return None;
    }
    match decode_copy(alloc, &buffered.as_slice()[..size]) {
        Ok(Decoded::Whole(packet, used)) => {
            buffered.advance(used);
            Some(Input::Whole(packet))
        }
        Ok(Decoded::More) => None,
        Err(fault) => Some(Input::Broken(fault)),
    }
}

/// Decodes the packet from bytes of its own, so that a kept message holds no more than its packet.
fn decode_copy(alloc: Global, packet: &[u8]) -> Result<Decoded, PacketFault>
    ensures found { IfOk result (λ d. HasPrefix packet.now d) }
    ensures exact { Gives (λ d. d) result (answer packet.now) }
{
    let bytes = Bytes::copy_from_slice(alloc, packet)?;
    decode(alloc, &bytes)
}
