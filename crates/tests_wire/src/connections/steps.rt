//! The ways to serve a connection: at once, or by reads that are each handled by a call of its own.

ghost use Rattle.std.specs.Prelude.{◌<◌, ◌-◌, ◌^◌};
ghost use Rattle.rs_server.specs.Counts.{failures_of};

use rs_server::{Clock, ConnectionId, Counted, ServeFault, Served, Serving, serve};
use rs_session::Gate;
use std::alloc::Global;
use std::io::{Read, Write};
use std::sync::Wait;

#[derive(Clone, Copy, Debug)]
pub(super) enum Way {
    /// By [`serve`].
    AtOnce,
    /// By [`Serving::read`] and [`Serving::handle`].
    InSteps,
}

pub(super) const WAYS: &[Way] = &[Way::AtOnce, Way::InSteps];

/// What a connection comes to if it is served this way: how it ended, the gate, and how many inputs were handled.
pub(super) fn serve_by<H: Wait, R: Read, W: Write, G: Gate, C: Clock>(
    rt: &H,
    alloc: Global,
    reader: &mut Counted<R>,
    writer: &mut Counted<W>,
    gate: G,
    id: ConnectionId,
    clock: &mut C,
    way: Way,
) -> (Result<Served, ServeFault>, G, u64)
    requires reader_can_rise { failures_of reader.old < 2 ^ 64 - 1 }
    requires writer_can_rise { failures_of writer.old < 2 ^ 64 - 1 }
{
    match way {
        Way::AtOnce => serve(rt, alloc, reader, writer, gate, id, clock),
        Way::InSteps => serve_in_steps(rt, alloc, reader, writer, gate, id, clock),
    }
}

fn serve_in_steps<H: Wait, R: Read, W: Write, G: Gate, C: Clock>(
    rt: &H,
    alloc: Global,
    reader: &mut Counted<R>,
    writer: &mut Counted<W>,
    gate: G,
    id: ConnectionId,
    clock: &mut C,
) -> (Result<Served, ServeFault>, G, u64)
    requires reader_can_rise { failures_of reader.old < 2 ^ 64 - 1 }
    requires writer_can_rise { failures_of writer.old < 2 ^ 64 - 1 }
{
    let mut serving = match Serving::new(alloc, gate, id) {
        Ok(serving) => serving,
        Err(gate) => return (Err(ServeFault::NoMemory), gate, 0),
    };
    'steps: for _ in rt.forever() {
        if let Some(end) = serving.read(alloc, reader, clock) {
            let (gate, handled) = serving.into_parts();
            return (end, gate, handled);
        }
        if let Some(end) = serving.handle(rt, alloc, writer, clock) {
            let (gate, handled) = serving.into_parts();
            return (end, gate, handled);
        }
    }
    unreachable!()
}
