//! Clients that do nothing but count, a watch that tells of them as it likes, and runs of these.

mod client;
mod running;
mod scene;
mod watch;

pub(crate) use client::{Changes, FakeClient, Held, Plan};
pub(crate) use running::{Crowd, Ran, run, wanted};
pub(crate) use scene::Scene;
pub(crate) use watch::{FakeWatch, Manner};
