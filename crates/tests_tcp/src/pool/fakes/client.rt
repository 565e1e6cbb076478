//! Clients that are read and handled so often, and some of which are held up.

ghost use Rattle.std.specs.Prelude.{◌≡◌};

use super::scene::Scene;
use rs_places_pool::{Client, Watch};
use std::alloc::Global;
use std::collections::VecDeque;
use std::sync::atomic::Ordering;
use std::sync::{Arc, Wait};
use std::thread::yield_now;

/// Where a client is held up.
#[derive(Clone, Copy, Debug, PartialEq, Eq)]
pub(crate) enum Held {
    /// Nowhere.
    Never,
    /// When it is read.
    InRead,
    /// When what was read is handled.
    InHandle,
    /// When what waits for it is written out.
    InWrite,
}

/// Whether what was read of a client has changes.
#[derive(Clone, Copy, Debug, PartialEq, Eq)]
pub(crate) enum Changes {
    Never,
    Always,
    EveryOther,
}

/// What a client does.
#[derive(Clone, Copy)]
pub(crate) struct Plan {
    /// How often it is read and handled until it is done.
    pub(crate) rounds: u32,
    pub(crate) changes: Changes,
    /// Where it is held up in its first round, if it is.
    pub(crate) held: Held,
}

/// Where a client is.
#[derive(Clone, Copy, Debug, PartialEq, Eq)]
enum Stage {
    /// It has no connection.
    Free,
    /// It is served one.
    Served,
    /// It does nothing more.
    Left,
}

/// A client whose connection always has something to read.
#[derive(Drop)]
pub(crate) struct FakeClient<H> {
    rt: H,
    scene: Arc<Scene>,
    plan: Plan,
    stage: Stage,
    is_read: bool,
    // How often it was handled.
    rounds: u32,
    // Whether it was held up before.
    was_held: bool,
    input: VecDeque<u8>,
}

impl<H: Wait + Copy> FakeClient<H> {
    /// Without a connection yet.
    pub(crate) fn new(rt: H, alloc: Global, scene: Arc<Scene>, plan: Plan) -> FakeClient<H> {
        FakeClient {
            rt,
            scene,
            plan,
            stage: Stage::Free,
            is_read: false,
            rounds: 0,
            was_held: false,
            input: VecDeque::new(alloc),
        }
    }

    /// Waits for the door, if this is where the client is held up.
    fn pass(&mut self, held: Held)
        ensures { self.new.is_read ≡ self.old.is_read }
    {
        if self.plan.held == held && !self.was_held {
            self.was_held = true;
            self.scene.hold(&self.rt);
        }
    }

    /// Handles what was read. Until all that are to be held up are, this does not count.
    fn handle(&mut self) {
        self.pass(Held::InHandle);
        if !self.was_held && !self.scene.are_held() {
            yield_now();
            return;
        }
        self.rounds = self.rounds.saturating_add(1);
        self.scene.handled.fetch_add(1, Ordering::SeqCst);
        if self.rounds >= self.plan.rounds {
            self.stage = Stage::Left;
        }
    }
}

impl<H: Wait + Copy> Client<H> for FakeClient<H> {
    ghost is_read = { λ client. client.is_read };

    type In = VecDeque<u8>;

    fn read(self, _alloc: Global) -> FakeClient<H> {
        let mut client = self;
        if client.stage == Stage::Served && !client.is_read {
            client.pass(Held::InRead);
            client.is_read = true;
        }
        client
    }

    fn has_changes(&self) -> bool {
        let has_changes = match self.plan.changes {
            Changes::Never => false,
            Changes::Always => true,
            Changes::EveryOther => self.rounds % 2 == 0,
        };
        self.is_read && has_changes
    }

    fn step(self, rt: &H, alloc: Global) -> Option<FakeClient<H>> {
        let mut client = self;
        if client.is_read {
            client.handle();
            client.is_read = false;
            return Some(client);
        }
        match client.stage {
            Stage::Free => client.stage = Stage::Served,
            Stage::Served => return Some(client.read(alloc)),
            Stage::Left => {
                client.scene.note_done(rt, client.was_held);
                return None;
            }
        }
        Some(client)
    }

    fn write_out<W: Watch<VecDeque<u8>>>(self, watch: &W) -> (FakeClient<H>, bool) {
        let mut client = self;
        if client.stage != Stage::Served || client.is_read {
            return (client, true);
        }
        client.pass(Held::InWrite);
        let FakeClient {
            rt,
            scene,
            plan,
            stage,
            is_read,
            rounds,
            was_held,
            input,
        } = client;
        let (input, is_written) = watch.write_out(input);
        let client = FakeClient {
            rt,
            scene,
            plan,
            stage,
            is_read,
            rounds,
            was_held,
            input,
        };
        (client, is_written)
    }

    fn begin_watch<W: Watch<VecDeque<u8>>>(&self, watch: &W, lane: usize, number: usize) -> bool {
        if self.is_read {
            return false;
        }
        match self.stage {
            Stage::Free => watch.watch_free(number),
            Stage::Served => watch.watch(lane, number, &self.input),
            Stage::Left => false,
        }
    }
}
