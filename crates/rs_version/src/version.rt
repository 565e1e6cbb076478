//! A version that was taken out of the published copy.

ghost use Rattle.std.specs.Prelude.{◌≡◌, length, IfOk};
ghost use Rattle.std.specs.Option.{option_map};
ghost use Rattle.rs_store.specs.History.{AreRetained, IsAnswer, IsAnswerWithin, IsLegal};
ghost use Rattle.rs_version.specs.Catalogues.{retained_in};

use crate::catalogue::StoreMessages;
use crate::history::StoreName;
use crate::named::NamedList;
use crate::receipt::Told;
use rs_message::Found;
use rs_store::Messages;
use rs_topic::TopicFilter;
use std::alloc::AllocError;
use std::marker::Model;

/// A version that a seat read ([`Seat::read`](crate::Seat::read)), which stays as it is. Contracts see it as its list.
///
/// It owns the messages of that list together with others, so answers from it need no seat, and no publish waits for them.
#[derive(Drop)]
pub struct Version<N: StoreName> {
    pub(crate) list: NamedList<N>,
    messages: StoreMessages,
}

impl<N: StoreName> Model for Version<N> {
    ghost use Rattle.std.specs.Prelude.{List};
    ghost use Rattle.rs_message.specs.declared.entry.Entry.{Entry};
    ghost use Rattle.rs_store.specs.History.{AreRetained};
    ghost use Rattle.rs_version.specs.Catalogues.{retained_in};

    ghost Value = { List Entry };

    ghost view = { λ v. v.list };

    ghost invariant = { λ v. AreRetained v.list (retained_in v.messages) };
}

impl<N: StoreName> Version<N> {
    /// The version of this list, which retains the messages.
    pub(crate) fn new(list: NamedList<N>, messages: StoreMessages) -> Version<N>
        requires { AreRetained list (retained_in messages) }
        ensures { result ≡ list }
    {
        Version { list, messages }
    }

    /// The number of entries of its list.
    pub(crate) fn len(&self) -> u64
        ensures { result ≡ length self.now }
    {
        self.list.version()
    }

    /// A token of its list. It takes no memory.
    pub fn told(&self) -> Told<N>
        ensures told { result ≡ self.now }
        ensures legal { IsLegal N.limit self.now }
    {
        // For the proof: this call says that the list is legal.
        let _version = self.list.version();
        Told {
            list: self.list.again(),
        }
    }

    /// What its list answers: copies of the messages that the filter matches and that have not expired at `now`, in seconds, in the
    /// order of replay (3.8.4).
    ///
    /// # Errors
    ///
    /// [`AllocError`] if memory is refused.
    pub fn answer(&self, filter: &TopicFilter, now: u64) -> Result<Vec<Found>, AllocError>
        ensures { IfOk result (λ found. IsAnswer self.now filter.now now found.items) }
    {
        self.messages.answer(filter, now)
    }

    /// The same answer if it has at most `room` messages, else `None`. It gives up at the first message beyond the room.
    ///
    /// # Errors
    ///
    /// As [`Version::answer`].
    pub fn answer_within(
        &self,
        filter: &TopicFilter,
        now: u64,
        room: usize,
    ) -> Result<Option<Vec<Found>>, AllocError>
        ensures { IfOk result (λ answer. IsAnswerWithin room self.now filter.now now (option_map (λ found. found.items) answer)) }
    {
        self.messages.answer_within(filter, now, room)
    }
}
