//! What is counted.

ghost use Rattle.std.specs.Prelude.{◌≡◌, ◌<◌};
ghost use Rattle.rs_metrics.specs.Counters.{index_of, end_index, outcome_index, filter_index, qos_level};
ghost use Rattle.rs_metrics.specs.declared.counter.TheConstants.{COUNTERS, ENDS, FILTERS, OUTCOMES, QOS_LEVELS};

/// How a connection ended.
#[derive(Clone, Copy)]
pub enum End {
    /// The client sent DISCONNECT.
    ClientDisconnected,
    /// The input ended between two packets.
    EndOfInput,
    /// The input ended inside a packet.
    CutInput,
    /// The server sent a Reason Code, and closed.
    ClosedWithCode,
    /// The server closed without a reply.
    ClosedSilently,
    /// The read failed, or no byte came for too long.
    ReadFailed,
    /// The write failed, or no byte was taken for too long.
    WriteFailed,
    /// Memory was refused.
    OutOfMemory,
}

/// How many [`End`]s there are. They are the first of the [`Counter`]s.
pub(crate) const ENDS: usize = 8;

impl End {
    fn index(self) -> usize
        ensures value { result ≡ end_index self }
        ensures small { result < ENDS }
    {
        match self {
            End::ClientDisconnected => 0,
            End::EndOfInput => 1,
            End::CutInput => 2,
            End::ClosedWithCode => 3,
            End::ClosedSilently => 4,
            End::ReadFailed => 5,
            End::WriteFailed => 6,
            End::OutOfMemory => 7,
        }
    }
}

/// What became of a change.
#[derive(Clone, Copy)]
pub enum Outcome {
    /// It was made.
    Stored,
    /// It was refused, because there was no space for a new topic.
    StoreFull,
    /// It was refused, because memory was refused.
    OutOfMemory,
    /// It is not known whether it was made, or the store took no more.
    NotKnown,
}

const OUTCOMES: usize = 4;

impl Outcome {
    fn index(self) -> usize
        ensures value { result ≡ outcome_index self }
        ensures small { result < OUTCOMES }
    {
        match self {
            Outcome::Stored => 0,
            Outcome::StoreFull => 1,
            Outcome::OutOfMemory => 2,
            Outcome::NotKnown => 3,
        }
    }
}

/// What became of a filter.
#[derive(Clone, Copy)]
pub enum FilterOutcome {
    /// The store answered it.
    Answered,
    /// Memory was refused for its answer.
    OutOfMemory,
    /// Its answer has more messages than may wait.
    TooManyMessages,
}

const FILTERS: usize = 3;

impl FilterOutcome {
    fn index(self) -> usize
        ensures value { result ≡ filter_index self }
        ensures small { result < FILTERS }
    {
        match self {
            FilterOutcome::Answered => 0,
            FilterOutcome::OutOfMemory => 1,
            FilterOutcome::TooManyMessages => 2,
        }
    }
}

/// The quality of service of a message (4.3).
#[derive(Clone, Copy)]
pub enum Qos {
    /// QoS 0.
    AtMostOnce,
    /// QoS 1.
    AtLeastOnce,
    /// QoS 2.
    ExactlyOnce,
}

const QOS_LEVELS: usize = 3;

impl Qos {
    fn level(self) -> usize
        ensures value { result ≡ qos_level self }
        ensures small { result < QOS_LEVELS }
    {
        match self {
            Qos::AtMostOnce => 0,
            Qos::AtLeastOnce => 1,
            Qos::ExactlyOnce => 2,
        }
    }
}

/// One of the numbers that only grow.
#[derive(Clone, Copy)]
pub enum Counter {
    /// Connections that began.
    Opened,
    /// Connections that ended so.
    Ended(End),
    /// Packets that were received.
    PacketsIn,
    /// Packets that were written.
    PacketsOut,
    /// Bytes that were read.
    BytesIn,
    /// Bytes that were written.
    BytesOut,
    /// Messages for a topic of this quality of service, and what became of them.
    Set(Qos, Outcome),
    /// Messages without a payload, which clear a topic, and what became of them.
    Clear(Outcome),
    /// Filters, and what became of them.
    Filter(FilterOutcome),
    /// Messages in the answers to filters.
    Replayed,
    /// Changes that were sent to the writer.
    Sent,
}

/// How many [`Counter`]s there are.
pub const COUNTERS: usize = 34;

const _: () = prove!(COUNTERS == 34);

// The index of the first of each group. The ends of connections stand first, and their beginnings behind them: a shard is read in this
// order, so that no end is read whose beginning is not.
const FIRST_SET: usize = 8;

const FIRST_CLEAR: usize = 20;

const FIRST_FILTER: usize = 24;

const _: () = prove!(FIRST_SET == ENDS);

const _: () = prove!(FIRST_CLEAR == FIRST_SET + QOS_LEVELS * OUTCOMES);

const _: () = prove!(FIRST_FILTER == FIRST_CLEAR + OUTCOMES);

impl Counter {
    /// Its place among the numbers of a shard. No two have the same.
    pub fn index(self) -> usize
        ensures value { result ≡ index_of self }
        ensures small { result < COUNTERS }
    {
        match self {
            Counter::Ended(end) => end.index(),
            Counter::Set(qos, outcome) => FIRST_SET + qos.level() * OUTCOMES + outcome.index(),
            Counter::Clear(outcome) => FIRST_CLEAR + outcome.index(),
            Counter::Filter(outcome) => FIRST_FILTER + outcome.index(),
            Counter::PacketsIn => 27,
            Counter::BytesIn => 28,
            Counter::BytesOut => 29,
            Counter::Replayed => 30,
            Counter::Sent => 31,
            Counter::PacketsOut => 32,
            Counter::Opened => 33,
        }
    }
}
