//! A client, which is served in steps.

ghost use Rattle.std.specs.Prelude.{◌≡◌};
ghost use Rattle.rs_places_steps.specs.Stages.{begun_of};

use crate::end_cell::ClientEnd;
use crate::gates::LineGate;
use crate::stages::{FreeClient, Stage};
use crate::turn::Turn;
use rs_places_pool::{Client, Watch};
use std::alloc::Global;
use std::sync::Wait;

/// A client on its way, and where its end goes.
#[derive(Drop)]
pub(crate) struct Task<T: Turn + Drop, G: LineGate + Drop> {
    pub(crate) stage: Stage<T, G>,
    pub(crate) end: ClientEnd<T, G>,
    ghost own: { begun_of stage ≡ end.begun },
}

impl<T: Turn + Drop, G: LineGate + Drop> Task<T, G> {
    /// A client that was not served yet, and where its end goes.
    pub(crate) fn new(client: FreeClient<T, G>, end: ClientEnd<T, G>) -> Task<T, G>
        requires turn { client.turn.value ≡ end.begun.turn.value }
        requires gate { client.gate.value ≡ end.begun.gate.value }
    {
        let stage = Stage::Free(client);
        Task { stage, end }
    }
}

impl<T: Turn + Drop, G: LineGate + Drop, H: Wait> Client<H> for Task<T, G>
where
    T::In: Send,
{
    ghost use Rattle.rs_places_steps.specs.Stages.{was_read};

    ghost is_read = { λ task. was_read task.stage };

    type In = T::In;

    fn read(self, alloc: Global) -> Task<T, G> {
        let Task { stage, end } = self;
        match stage {
            Stage::Served(client) => {
                let stage = client.read(alloc);
                Task { stage, end }
            }
            stage => Task { stage, end },
        }
    }

    fn has_changes(&self) -> bool {
        match &self.stage {
            Stage::Read(client) => client.has_pending(),
            _ => false,
        }
    }

    fn step(self, rt: &H, alloc: Global) -> Option<Task<T, G>> {
        let Task { stage, end } = self;
        let stage = match stage {
            Stage::Free(client) => client.next(alloc),
            Stage::Served(client) => client.read(alloc),
            Stage::Read(client) => client.handle(rt, alloc),
            Stage::Ended(client) => Stage::Free(client.give_back()),
            Stage::Done(client) => {
                end.put(client);
                return None;
            }
        };
        Some(Task { stage, end })
    }

    fn write_out<W: Watch<T::In>>(self, watch: &W) -> (Task<T, G>, bool) {
        let Task { stage, end } = self;
        match stage {
            Stage::Served(client) => {
                let (client, is_written) = client.write_out(watch);
                let stage = Stage::Served(client);
                (Task { stage, end }, is_written)
            }
            stage => (Task { stage, end }, true),
        }
    }

    fn begin_watch<W: Watch<T::In>>(&self, watch: &W, lane: usize, number: usize) -> bool {
        match &self.stage {
            Stage::Free(_) => watch.watch_free(number),
            Stage::Served(client) => watch.watch(lane, number, client.input()),
            _ => false,
        }
    }
}
