//! The turns of all clients.

ghost use Rattle.std.specs.Prelude.{◌≡◌, IfOk, length};

use crate::full_log::FullLog;
use crate::turn::{ClientWord, ListenTurn};
use log::Log;
use rs_message::LineCount;
use rs_metrics::{Meter, Metrics};
use rs_places_steps::FreeTurn;
use rs_tcp_sockets::Listener;
use std::alloc::{AllocError, Global};
use std::sync::Arc;
use std::time::Clock;

/// A turn for each client, the first of line 1, and so on. They share the listener and what the log is told of the store. The log calls a
/// client by this word, and the metrics count for its line.
pub(crate) fn turns<H: Clock + Log + Copy + Send>(
    rt: H,
    alloc: Global,
    listener: Arc<Listener>,
    full: FullLog,
    lines: LineCount,
    word: ClientWord,
    metrics: &Option<Arc<Metrics>>,
) -> Result<Vec<FreeTurn<ListenTurn<H>>>, AllocError>
    ensures { IfOk result (λ turns. length turns.items ≡ lines) }
{
    let full = Arc::new(alloc, full).map_err(|_| AllocError)?;
    let count = lines.get();
    let mut turns = Vec::new(alloc);
    for before in 0..count {
        let listener = Arc::try_clone(&listener)?;
        let full = Arc::try_clone(&full)?;
        let meter = Meter::new(metrics, before + 1)?;
        let turn = ListenTurn::new(rt, alloc, listener, full, word, meter, before + 1);
        turns.push(FreeTurn::new(turn))?;
    }
    Ok(turns)
}
