//! Serves an example, cut in every way.

use crate::examples::example::{Connection, Example, Stored};
use crate::examples::pieces::Pieces;
use crate::examples::problem::{Part, Problem};
use crate::examples::replies::Replies;
use kit_test::MapCatalogue;
use rs_server::{ConnectionId, Counted, Moments, ServeFault, Served, serve};
use rs_session::LocalGate;
use rs_store::Catalogue;
use std::alloc::Global;
use std::sync::Wait;

type Store = LocalGate<MapCatalogue>;

/// The moments of a connection: the first one, and those after it.
fn clock(alloc: Global, moments: &[u64]) -> Result<Moments, Problem> {
    match moments {
        [first, rest @ ..] => Ok(Moments::new(*first, rest.to_vec(alloc)?)),
        [] => Ok(Moments::new(0, Vec::new(alloc))),
    }
}

/// What of the connection is not as the example says.
fn difference(
    connection: &Connection,
    written: &Replies,
    served: Result<Served, ServeFault>,
) -> Option<Part> {
    if written.bytes() != connection.replies.as_slice() {
        return Some(Part::Replies);
    }
    if !written.each_is_flushed() {
        return Some(Part::Flushes);
    }
    match served {
        Ok(ended) if ended == connection.ended => None,
        _ => Some(Part::End),
    }
}

/// Serves one connection over the store, which is given back with what differs from the example.
fn serve_one<H: Wait>(
    rt: &H,
    alloc: Global,
    store: Store,
    connection: &Connection,
    cut: usize,
) -> Result<(Option<Part>, Store), Problem> {
    let id = ConnectionId {
        place: 1,
        number: 1,
    };
    let mut clock = clock(alloc, connection.moments.as_slice())?;
    let mut reader = Counted::new(Pieces::new(connection.sent.as_slice(), cut));
    let mut writer = Counted::new(Replies::new(alloc));
    let (served, store, _handled) = serve(
        rt,
        alloc,
        &mut reader,
        &mut writer,
        store,
        id,
        &mut clock,
    );
    Ok((difference(connection, &writer.into_inner(), served), store))
}

fn is_stored(store: &Store, wanted: Option<Stored>) -> bool {
    let catalogue = store.catalogue();
    let stored = Stored {
        version: catalogue.version(),
        topics: catalogue.count(),
    };
    wanted.is_none_or(|wanted| wanted == stored)
}

/// Serves the connections of the example over a new store, and returns what differs.
fn serve_all<H: Wait>(
    rt: &H,
    alloc: Global,
    example: &Example,
    cut: usize,
) -> Result<Option<Part>, Problem> {
    let mut store = Store::new(alloc, example.limit)?;
    for connection in &example.connections {
        let (part, after) = serve_one(rt, alloc, store, connection, cut)?;
        if part.is_some() {
            return Ok(part);
        }
        store = after;
    }
    Ok((!is_stored(&store, example.stored)).then_some(Part::Store))
}

fn check_cut<H: Wait>(rt: &H, alloc: Global, example: &Example, cut: usize) -> Result<(), Problem> {
    match serve_all(rt, alloc, example, cut)? {
        None => Ok(()),
        Some(part) => Err(Problem::Differs {
            line: example.line,
            cut,
            part,
        }),
    }
}

/// Serves the example byte by byte and in one piece, and, if it is not long, cut in two at each byte.
pub fn check<H: Wait>(rt: &H, alloc: Global, example: &Example) -> Result<(), Problem> {
    check_cut(rt, alloc, example, 0)?;
    check_cut(rt, alloc, example, usize::MAX)?;
    if !example.is_long() {
        for cut in 1..example.longest() {
            check_cut(rt, alloc, example, cut)?;
        }
    }
    Ok(())
}
