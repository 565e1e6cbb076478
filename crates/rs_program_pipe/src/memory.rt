//! One connection over bytes in memory.

ghost use Rattle.std.specs.Prelude.{◌≡◌, IfOk};
ghost use Rattle.rs_program_pipe.specs.Memory.{IsServed};

use crate::own_store::OwnGate;
use rs_server::{ConnectionId, Counted, Moments, ServeFault, Served, serve};
use std::alloc::Global;
use std::sync::Wait;

/// Serves one connection over bytes in memory: how it ends, and the replies. It is connection 1 at place 1,
/// over an [`OwnGate`] to an empty store. Every time is `now`, in seconds.
///
/// # Errors
///
/// Only if memory is refused: [`ServeFault::Write`] if the output cannot grow, and
/// otherwise [`ServeFault::NoMemory`]. The contract does not say so, since that of [`serve`] lets every reader
/// and writer fail.
pub fn serve_bytes<H: Wait>(
    rt: &H,
    alloc: Global,
    input: &[u8],
    now: u64,
) -> Result<(Served, Vec<u8>), ServeFault>
    ensures { IfOk result (λ r. IsServed input.now now r.0 r.1.items) }
{
    let Ok(gate) = OwnGate::new(alloc) else {
        return Err(ServeFault::NoMemory);
    };
    let mut reader = Counted::new(input);
    let mut writer = Counted::new(Vec::new(alloc));
    let mut clock = Moments::new(now, Vec::new(alloc));
    let id = ConnectionId {
        place: 1,
        number: 1,
    };
    match serve(rt, alloc, &mut reader, &mut writer, gate, id, &mut clock).0 {
        Ok(served) => Ok((served, writer.into_inner())),
        Err(fault) => Err(fault),
    }
}
