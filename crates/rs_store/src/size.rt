//! How many bytes a retained message counts.

ghost use Rattle.std.specs.Prelude.{◌≡◌, ◌<◌, ◌^◌};
ghost use Rattle.rs_store.specs.Bytes.{bytes_of};

use crate::limit::TOPIC_BYTES;
use rs_message::Message;
use rs_packet_field::{properties_len, varint_len};
use rs_topic::TopicName;

/// How many bytes a topic and its message count: [`TOPIC_BYTES`], the name of the topic, and the payload and the properties as a PUBLISH
/// has them (3.3.2.3). It looks at each User Property once, and takes no memory.
#[tactic(auto, using(crate::proofs::Bytes::bytes_parts, crate::proofs::Bytes::section_small))]
pub fn bytes_of(topic: &TopicName, message: &Message) -> u64
    ensures value { result ≡ bytes_of (topic.now, message.now) }
    ensures small { result < 2 ^ 19 }
{
    let payload = message.payload().len();
    let section = properties_len(message.expiry(), None, message.properties());
    let digits = varint_len(section);
    let len = topic.as_bytes().len() + payload + digits + section;
    TOPIC_BYTES + len as u64
}
