//! What a window gives after memory was refused to `queue`.

use kit_test::{Failure, check, messages};
use rs_packet::Qos;
use rs_topic::TopicName;
use rs_window::{Window, WindowFault};
use std::alloc::Global;

/// How many messages are queued behind one that waits, each time: so many that the queue has to grow.
const LENGTHS: [u32; 3] = [9, 40, 200];

/// How many may be unacknowledged: all of them.
const QUOTA: u16 = 1000;

/// The next message that the window gives is of this topic, or there is none.
fn gives(window: &mut Window, topic: Option<&TopicName>) -> bool {
    match (window.next(0), topic) {
        (Some(publish), Some(topic)) => publish.found.topic() == topic,
        (None, None) => true,
        _ => false,
    }
}

/// Queues so many messages of this topic and this QoS, and returns whether memory was refused for them.
fn is_refused(
    alloc: Global,
    window: &mut Window,
    topic: &TopicName,
    count: u32,
    qos: Qos,
) -> Result<bool, Failure> {
    let messages = messages(alloc, topic, count, [qos; 2])?;
    match window.queue(messages, qos, None) {
        Ok(()) => Ok(false),
        Err(WindowFault::NoMemory) => Ok(true),
        Err(_) => Err(Failure::Wrong),
    }
}

/// In a window in which nothing waits, queues so many messages of QoS 1 behind one of QoS 0, and returns whether memory was refused for
/// them: for the queue, or for the slots of their identifiers. Then the one is given and nothing else, and the same messages must be taken.
fn queue_later(
    alloc: Global,
    window: &mut Window,
    waiting: &TopicName,
    later: &TopicName,
    count: u32,
) -> Result<bool, Failure> {
    if is_refused(alloc, window, waiting, 1, Qos::AtMostOnce)? {
        return Err(Failure::NoMemory);
    }
    let refused = is_refused(alloc, window, later, count, Qos::AtLeastOnce)?;
    check(gives(window, Some(waiting)))?;
    if refused {
        check(gives(window, None))?;
        check(!is_refused(alloc, window, later, count, Qos::AtLeastOnce)?)?;
    }
    for _ in 0..count {
        check(gives(window, Some(later)))?;
    }
    check(gives(window, None))?;
    Ok(refused)
}

/// Queues messages behind one that waits, more each time. Returns how often memory was refused for them.
pub fn work(alloc: Global) -> Result<Vec<u64>, Failure> {
    let mut refused = vec![in alloc; 0u64]?;
    let waiting = TopicName::read(alloc, b"a")?;
    let later = TopicName::read(alloc, b"b")?;
    let mut window = Window::idle(alloc, QUOTA, u32::MAX);
    for count in LENGTHS {
        if queue_later(alloc, &mut window, &waiting, &later, count)? {
            refused[0] = refused[0].saturating_add(1);
        }
    }
    Ok(refused)
}
