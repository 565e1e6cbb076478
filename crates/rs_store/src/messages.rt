//! What a catalogue answers from.

ghost use Rattle.std.specs.Prelude.{◌≡◌, ℕ, List, IfOk};
ghost use Rattle.std.specs.Option.{option_map};
ghost use Rattle.rs_message.specs.Values.{MessageValue};
ghost use Rattle.rs_store.specs.Contents.{answer_of, if_fits};

use rs_message::Found;
use rs_topic::TopicFilter;
use std::alloc::AllocError;

/// The retained messages of a catalogue, without the [`Ledger`](crate::Ledger): all that an answer needs. Contracts see the list of
/// the topics and messages, in the order of replay. They stay as they are, whatever the catalogue does.
pub trait Messages {
    ghost retained: { Self → List (List ℕ × MessageValue) };

    /// Copies of the messages that the filter matches and that are not expired, in the order of replay (section 3.8.4).
    /// `now` is in seconds. Copies share the bytes of topics, texts and payloads. An error if memory is refused.
    fn answer(&self, filter: &TopicFilter, now: u64) -> Result<Vec<Found>, AllocError>
        ensures { IfOk result (λ found. found.items ≡ answer_of filter.now now (retained self.now)) }
    {
        match self.answer_within(filter, now, usize::MAX) {
            Ok(Some(found)) => Ok(found),
            // Never: no list has more items than that.
            Ok(None) => Err(AllocError),
            Err(error) => Err(error),
        }
    }

    /// The same answer if it has at most `room` messages, else `None`. Gives up at the first message beyond the room. An error if
    /// memory is refused.
    fn answer_within(
        &self,
        filter: &TopicFilter,
        now: u64,
        room: usize,
    ) -> Result<Option<Vec<Found>>, AllocError>
        ensures { IfOk result (λ answer.
            option_map (λ found. found.items) answer ≡ if_fits room (answer_of filter.now now (retained self.now))) };
}
