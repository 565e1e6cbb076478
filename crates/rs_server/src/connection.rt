//! One connection: packets are read, and the session's replies are written.

ghost use Rattle.std.specs.Prelude.{◌<◌, ◌-◌, ◌^◌, List};
ghost use Rattle.rs_message.specs.declared.entry.Entry.{Entry};
ghost use Rattle.rs_server.specs.Clock.{TellsInOrder};
ghost use Rattle.rs_server.specs.Counts.{inner_of, failures_of};
ghost use Rattle.rs_server.specs.Conversation.{Causes, IsConnection, assigned_of, gate_view, start};

use crate::clock::Clock;
use crate::counted::Counted;
use crate::serving::Serving;
use crate::writing::ServeFault;
use rs_session::Gate;
use std::alloc::Global;
use std::io::{Read, Write};
use std::sync::Wait;

/// Which connection of the server this is.
#[derive(Clone, Copy, Debug, PartialEq, Eq)]
pub struct ConnectionId {
    /// The place that serves it: 1 to [`MAX_LINES`](rs_message::MAX_LINES) if its gate makes entries. [`serve`] does not check it.
    pub place: u16,
    /// Its number among the connections of its place, from 1.
    pub number: u64,
}

/// How a connection ended.
#[derive(Clone, Copy, Debug, PartialEq, Eq)]
pub enum Served {
    /// The client sent DISCONNECT after an accepted CONNECT.
    ClientClosed,
    /// The input ended between two packets.
    EndOfInput,
    /// The input ended inside a packet.
    CutInput,
    /// A DISCONNECT or a CONNACK with this Reason Code was due. It was sent unless it exceeds the client's
    /// Maximum Packet Size (3.1.2.11.4).
    ServerClosed(u8),
    /// The server ended the connection without such a reply.
    Dropped,
}

/// Serves one connection: reads packets and writes the session's replies, each of which is flushed, until
/// the session or the input ends.
///
/// A client that gives no identifier is assigned one that names the place and the number of `id`
/// (3.2.2.3.7). The clock is asked once for each packet, and once for a fault. The gate is returned in
/// every case, and how many inputs were handled: packets, and a fault in place of one.
///
/// Packets that are whole in its buffer are decoded before they are handled, up to as many as the gate takes at once
/// ([`Gate::most_expected`]), as long as they are publications whose changes may be announced. The gate is told to expect half of these
/// ([`Gate::expect`]) before the other half is decoded. It is told of the others once the first are handled, or, if it runs ahead
/// ([`Gate::runs_ahead`]), as soon as they are decoded. All are handled one by one. It never reads to do so. Of this the contract says only
/// how many inputs may be decoded and not handled. If the session ends before such a packet is handled, its time was asked all the same.
/// For a gate that takes none, each packet is handled before the next one is decoded.
///
/// # Errors
///
/// [`ServeFault`], if the reader fails, if the writer fails or takes nothing, or if memory is refused. No
/// packet is handled after one whose replies were written only in part. Both counts of failures must be
/// below [`u64::MAX`].
pub fn serve<H: Wait, R: Read, W: Write, G: Gate, C: Clock>(
    rt: &H,
    alloc: Global,
    reader: &mut Counted<R>,
    writer: &mut Counted<W>,
    gate: G,
    id: ConnectionId,
    clock: &mut C,
) -> (Result<Served, ServeFault>, G, u64)
    requires reader_can_rise { failures_of reader.old < 2 ^ 64 - 1 }
    requires writer_can_rise { failures_of writer.old < 2 ^ 64 - 1 }

    // What was written are the replies of a session to the packets that the bytes read encode.
    ensures conversation { (seen : List Entry) → G.stands gate seen
        → IsConnection (start (assigned_of id.place id.number) seen (G.mark gate)) (G.pending gate) G.most
        (gate_view G.stands G.mark G.pending result.1)
        (record {
          unread = R.remaining (inner_of reader.old);
          rest = R.remaining (inner_of reader.new);
          written = W.contents (inner_of writer.old);
          more = W.contents (inner_of writer.new);
          told = TellsInOrder (C.moments clock.old) (C.moments clock.new);
        }) result.0 }

    // A fault names what failed.
    ensures cause { Causes result.0 (failures_of reader.old) (failures_of reader.new)
        (failures_of writer.old) (failures_of writer.new) }
{
    let mut serving = match Serving::new(alloc, gate, id) {
        Ok(serving) => serving,
        Err(gate) => return (Err(ServeFault::NoMemory), gate, 0),
    };
    'serving: for _ in rt.forever() {
        if let Some(end) = serving.go_on(rt, alloc, reader, writer, clock) {
            let (gate, handled) = serving.into_parts();
            return (end, gate, handled);
        }
    }
    unreachable!()
}
