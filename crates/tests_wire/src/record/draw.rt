//! Operations drawn by a fixed generator.

ghost use Rattle.std.specs.Prelude.{◌<◌};

use crate::record::samples::{Plain, clear, set};
use rs_message::{Operation, Qos};
use std::alloc::Global;

/// A linear congruential generator.
#[derive(Drop)]
pub struct Draw {
    pub state: u64,
}

impl Draw {
    fn next(&mut self) -> u64 {
        let state = self
            .state
            .wrapping_mul(6364136223846793005)
            .wrapping_add(1442695040888963407);
        self.state = state;
        state
    }

    /// A number below the bound.
    fn below(&mut self, bound: u64) -> u64
        requires { 0 < bound }
        ensures { result < bound }
    {
        (self.next() >> 33) % bound
    }

    /// So many of the 64 bytes from `@` on, fewer than the bound.
    fn bytes(&mut self, alloc: Global, least: u64, bound: u64) -> Option<Vec<u8>>
        requires { 0 < bound }
    {
        let mut bytes = Vec::new(alloc);
        let len = least.max(self.below(bound));
        for _i in 0..len {
            let byte = 64 + self.below(64) as u8;
            bytes.push(byte).ok()?;
        }
        Some(bytes)
    }

    fn qos(&mut self) -> Qos {
        match self.below(3) {
            0 => Qos::AtMostOnce,
            1 => Qos::AtLeastOnce,
            _ => Qos::ExactlyOnce,
        }
    }

    /// Whether something is there: as often as not.
    fn is_there(&mut self) -> bool {
        self.below(2) == 0
    }

    fn set(&mut self, alloc: Global, topic: &[u8]) -> Option<Operation> {
        let payload = self.bytes(alloc, 1, 300)?;
        let name = self.bytes(alloc, 0, 20)?;
        let value = self.bytes(alloc, 0, 40)?;
        let pair = [(name.as_slice(), value.as_slice())];
        let count = self.below(2) as usize;
        let plain = Plain {
            payload: payload.as_slice(),
            qos: self.qos(),
            received: self.next(),
            expiry: self.is_there().then_some(self.below(1 << 31) as u32),
            format: self.is_there().then_some(self.below(256) as u8),
            content_type: self.is_there().then_some(name.as_slice()),
            response_topic: self.is_there().then_some(value.as_slice()),
            correlation: self.is_there().then_some(payload.as_slice()),
            user: &pair[..count],
        };
        set(alloc, topic, &plain)
    }

    /// `None` if memory is refused.
    pub fn operation(&mut self, alloc: Global) -> Option<Operation> {
        let kind = self.below(5);
        if kind == 0 {
            return Some(Operation::Sweep(self.next()));
        }
        let topic = self.bytes(alloc, 1, 60)?;
        if kind == 1 {
            return clear(alloc, topic.as_slice());
        }
        self.set(alloc, topic.as_slice())
    }
}
