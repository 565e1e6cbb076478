//! Rounds of a window: a message is given, acknowledged, and queued again behind the others.

use kit_test::{Failure, messages};
use rs_packet::{PacketId, Qos};
use rs_topic::TopicName;
use rs_window::{Outgoing, Window};
use std::alloc::Global;

/// Acknowledges a PUBLISH as its quality asks.
fn acknowledge(window: &mut Window, qos: Qos, id: PacketId) -> Result<(), Failure> {
    match qos {
        Qos::AtMostOnce => {}
        Qos::AtLeastOnce => {
            window.on_puback(id, 0)?;
        }
        Qos::ExactlyOnce => {
            window.on_pubrec(id, 0)?;
            window.on_pubcomp(id, 0)?;
        }
    }
    Ok(())
}

/// Gives one message, acknowledges it and queues it again.
fn round(alloc: Global, window: &mut Window) -> Result<(), Failure> {
    let publish = window.next(0).ok_or(Failure::Wrong)?;
    let id = publish.id.ok_or(Failure::Wrong)?;
    acknowledge(window, publish.qos, id)?;
    let Outgoing { found, .. } = publish;
    let mut again = Vec::with_capacity(alloc, 1)?;
    again.push(found)?;
    window.queue(again, Qos::ExactlyOnce, None)?;
    Ok(())
}

/// Makes so many rounds in a window in which so many messages wait, 1 to 100,000, and returns their number. It is timed from outside.
pub fn work(alloc: Global, count: u32, rounds: u32) -> Result<Vec<u64>, Failure> {
    if count == 0 || count > 100_000 {
        return Err(Failure::Words);
    }
    let topic = TopicName::read(alloc, b"a/b")?;
    let qualities = [Qos::AtLeastOnce, Qos::ExactlyOnce];
    let messages = messages(alloc, &topic, count, qualities)?;
    let mut window = Window::new(alloc, 65535, u32::MAX)?;
    window.queue(messages, Qos::ExactlyOnce, None)?;
    for _ in 0..rounds {
        round(alloc, &mut window)?;
    }
    Ok(vec![in alloc; u64::from(rounds)]?)
}
