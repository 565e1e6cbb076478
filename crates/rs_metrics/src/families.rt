//! The rows of the text.

use crate::counter::{Counter, End, FilterOutcome, Outcome, Qos};
use crate::snapshot::{JournalPart, Source};

/// The type of a family.
#[derive(Clone, Copy)]
pub enum Kind {
    /// It only grows.
    Counter,
    /// It grows and falls.
    Gauge,
    /// It only grows, is counted in microseconds and told in seconds.
    Seconds,
}

impl Kind {
    ghost use Rattle.std.specs.Prelude.{◌≡◌};
    ghost use Rattle.rs_metrics.specs.Texts.{kind_text, power_text};

    /// Its word in the text.
    pub fn word(self) -> &'static str
        ensures { result.now ≡ kind_text self }
    {
        match self {
            Kind::Counter | Kind::Seconds => "counter",
            Kind::Gauge => "gauge",
        }
    }

    /// What stands behind its numbers in the text: the power of ten by which they are multiplied, if not by one.
    pub fn power(self) -> &'static str
        ensures { result.now ≡ power_text self }
    {
        match self {
            Kind::Counter | Kind::Gauge => "",
            Kind::Seconds => "e-6",
        }
    }
}

/// One number of a family.
#[derive(Clone, Copy)]
pub struct Row {
    /// Its labels in braces, or nothing. Their values are fixed words, which need no escapes.
    pub labels: &'static str,
    /// Where its number comes from.
    pub source: Source,
}

/// Numbers of one name.
#[derive(Clone, Copy)]
pub struct Family {
    /// The name.
    pub name: &'static str,
    /// What its numbers say, in one line.
    pub help: &'static str,
    /// Its type.
    pub kind: Kind,
    /// Its numbers.
    pub rows: &'static [Row],
}

/// All families, in the order of the text.
pub const FAMILIES: &[Family] = &[
    Family {
        name: "rstored_start_time_seconds",
        help: "When the server started, in seconds since 1970.",
        kind: Kind::Gauge,
        rows: &[Row {
            labels: "",
            source: Source::Started,
        }],
    },
    Family {
        name: "rstored_resident_memory_bytes",
        help: "Resident memory of the process.",
        kind: Kind::Gauge,
        rows: &[Row {
            labels: "",
            source: Source::Resident,
        }],
    },
    Family {
        name: "rstored_writer_running",
        help: "1 while the writer of the store takes changes, otherwise 0.",
        kind: Kind::Gauge,
        rows: &[Row {
            labels: "",
            source: Source::Taking,
        }],
    },
    Family {
        name: "rstored_clients",
        help: "Connected clients.",
        kind: Kind::Gauge,
        rows: &[Row {
            labels: "",
            source: Source::Clients,
        }],
    },
    Family {
        name: "rstored_clients_limit",
        help: "Clients that may be connected at once.",
        kind: Kind::Gauge,
        rows: &[Row {
            labels: "",
            source: Source::ClientLimit,
        }],
    },
    Family {
        name: "rstored_connections_opened_total",
        help: "Connections that were accepted.",
        kind: Kind::Counter,
        rows: &[Row {
            labels: "",
            source: Source::Counter(Counter::Opened),
        }],
    },
    Family {
        name: "rstored_connections_ended_total",
        help: "Connections that ended, by reason.",
        kind: Kind::Counter,
        rows: &[
            Row {
                labels: "{reason=\"client_disconnected\"}",
                source: Source::Counter(Counter::Ended(End::ClientDisconnected)),
            },
            Row {
                labels: "{reason=\"end_of_input\"}",
                source: Source::Counter(Counter::Ended(End::EndOfInput)),
            },
            Row {
                labels: "{reason=\"input_cut\"}",
                source: Source::Counter(Counter::Ended(End::CutInput)),
            },
            Row {
                labels: "{reason=\"closed_with_code\"}",
                source: Source::Counter(Counter::Ended(End::ClosedWithCode)),
            },
            Row {
                labels: "{reason=\"closed_without_reply\"}",
                source: Source::Counter(Counter::Ended(End::ClosedSilently)),
            },
            Row {
                labels: "{reason=\"read_failed_or_idle\"}",
                source: Source::Counter(Counter::Ended(End::ReadFailed)),
            },
            Row {
                labels: "{reason=\"write_failed_or_idle\"}",
                source: Source::Counter(Counter::Ended(End::WriteFailed)),
            },
            Row {
                labels: "{reason=\"no_memory\"}",
                source: Source::Counter(Counter::Ended(End::OutOfMemory)),
            },
        ],
    },
    Family {
        name: "rstored_packets_received_total",
        help: "Packets that were received, malformed ones too.",
        kind: Kind::Counter,
        rows: &[Row {
            labels: "",
            source: Source::Counter(Counter::PacketsIn),
        }],
    },
    Family {
        name: "rstored_packets_sent_total",
        help: "Packets that were written for clients.",
        kind: Kind::Counter,
        rows: &[Row {
            labels: "",
            source: Source::Counter(Counter::PacketsOut),
        }],
    },
    Family {
        name: "rstored_received_bytes_total",
        help: "Bytes that were read from the sockets of clients.",
        kind: Kind::Counter,
        rows: &[Row {
            labels: "",
            source: Source::Counter(Counter::BytesIn),
        }],
    },
    Family {
        name: "rstored_sent_bytes_total",
        help: "Bytes that were written to the sockets of clients.",
        kind: Kind::Counter,
        rows: &[Row {
            labels: "",
            source: Source::Counter(Counter::BytesOut),
        }],
    },
    Family {
        name: "rstored_publications_total",
        help: "Retained messages with a payload, by QoS and outcome.",
        kind: Kind::Counter,
        rows: &[
            Row {
                labels: "{qos=\"0\",outcome=\"stored\"}",
                source: Source::Counter(Counter::Set(Qos::AtMostOnce, Outcome::Stored)),
            },
            Row {
                labels: "{qos=\"0\",outcome=\"store_full\"}",
                source: Source::Counter(Counter::Set(Qos::AtMostOnce, Outcome::StoreFull)),
            },
            Row {
                labels: "{qos=\"0\",outcome=\"no_memory\"}",
                source: Source::Counter(Counter::Set(Qos::AtMostOnce, Outcome::OutOfMemory)),
            },
            Row {
                labels: "{qos=\"0\",outcome=\"not_known\"}",
                source: Source::Counter(Counter::Set(Qos::AtMostOnce, Outcome::NotKnown)),
            },
            Row {
                labels: "{qos=\"1\",outcome=\"stored\"}",
                source: Source::Counter(Counter::Set(Qos::AtLeastOnce, Outcome::Stored)),
            },
            Row {
                labels: "{qos=\"1\",outcome=\"store_full\"}",
                source: Source::Counter(Counter::Set(Qos::AtLeastOnce, Outcome::StoreFull)),
            },
            Row {
                labels: "{qos=\"1\",outcome=\"no_memory\"}",
                source: Source::Counter(Counter::Set(Qos::AtLeastOnce, Outcome::OutOfMemory)),
            },
            Row {
                labels: "{qos=\"1\",outcome=\"not_known\"}",
                source: Source::Counter(Counter::Set(Qos::AtLeastOnce, Outcome::NotKnown)),
            },
            Row {
                labels: "{qos=\"2\",outcome=\"stored\"}",
                source: Source::Counter(Counter::Set(Qos::ExactlyOnce, Outcome::Stored)),
            },
            Row {
                labels: "{qos=\"2\",outcome=\"store_full\"}",
                source: Source::Counter(Counter::Set(Qos::ExactlyOnce, Outcome::StoreFull)),
            },
            Row {
                labels: "{qos=\"2\",outcome=\"no_memory\"}",
                source: Source::Counter(Counter::Set(Qos::ExactlyOnce, Outcome::OutOfMemory)),
            },
            Row {
                labels: "{qos=\"2\",outcome=\"not_known\"}",
                source: Source::Counter(Counter::Set(Qos::ExactlyOnce, Outcome::NotKnown)),
            },
        ],
    },
    Family {
        name: "rstored_clears_total",
        help: "Retained messages without a payload, which clear a topic, by outcome.",
        kind: Kind::Counter,
        rows: &[
            Row {
                labels: "{outcome=\"stored\"}",
                source: Source::Counter(Counter::Clear(Outcome::Stored)),
            },
            Row {
                labels: "{outcome=\"store_full\"}",
                source: Source::Counter(Counter::Clear(Outcome::StoreFull)),
            },
            Row {
                labels: "{outcome=\"no_memory\"}",
                source: Source::Counter(Counter::Clear(Outcome::OutOfMemory)),
            },
            Row {
                labels: "{outcome=\"not_known\"}",
                source: Source::Counter(Counter::Clear(Outcome::NotKnown)),
            },
        ],
    },
    Family {
        name: "rstored_filters_total",
        help: "Filters of subscriptions that the store was asked for, by outcome.",
        kind: Kind::Counter,
        rows: &[
            Row {
                labels: "{outcome=\"answered\"}",
                source: Source::Counter(Counter::Filter(FilterOutcome::Answered)),
            },
            Row {
                labels: "{outcome=\"no_memory\"}",
                source: Source::Counter(Counter::Filter(FilterOutcome::OutOfMemory)),
            },
            Row {
                labels: "{outcome=\"too_many_messages\"}",
                source: Source::Counter(Counter::Filter(FilterOutcome::TooManyMessages)),
            },
        ],
    },
    Family {
        name: "rstored_messages_replayed_total",
        help: "Retained messages in the answers to filters.",
        kind: Kind::Counter,
        rows: &[Row {
            labels: "",
            source: Source::Counter(Counter::Replayed),
        }],
    },
    Family {
        name: "rstored_topics",
        help: "Topics that hold a message.",
        kind: Kind::Gauge,
        rows: &[Row {
            labels: "",
            source: Source::Topics,
        }],
    },
    Family {
        name: "rstored_topics_limit",
        help: "Topics that may hold a message.",
        kind: Kind::Gauge,
        rows: &[Row {
            labels: "",
            source: Source::TopicLimit,
        }],
    },
    Family {
        name: "rstored_retained_bytes",
        help: "Bytes that retained messages count, as --memory counts them.",
        kind: Kind::Gauge,
        rows: &[Row {
            labels: "",
            source: Source::Bytes,
        }],
    },
    Family {
        name: "rstored_retained_bytes_limit",
        help: "Bytes that retained messages may count. Missing without --memory.",
        kind: Kind::Gauge,
        rows: &[Row {
            labels: "",
            source: Source::ByteLimit,
        }],
    },
    Family {
        name: "rstored_history_entries_total",
        help: "Entries of the history that were published: changes, and sweeps of expired messages.",
        kind: Kind::Counter,
        rows: &[Row {
            labels: "",
            source: Source::Version,
        }],
    },
    Family {
        name: "rstored_changes_sent_total",
        help: "Changes that were sent to the writer of the store.",
        kind: Kind::Counter,
        rows: &[Row {
            labels: "",
            source: Source::Counter(Counter::Sent),
        }],
    },
    Family {
        name: "rstored_changes_waiting",
        help: "Changes that were sent to the writer and that it has not taken.",
        kind: Kind::Gauge,
        rows: &[Row {
            labels: "",
            source: Source::Waiting,
        }],
    },
    Family {
        name: "rstored_journal_commits_total",
        help: "Commits to the journal that succeeded. Missing without --keep, as all below.",
        kind: Kind::Counter,
        rows: &[Row {
            labels: "",
            source: Source::Journal(JournalPart::Commits),
        }],
    },
    Family {
        name: "rstored_journal_commit_seconds_total",
        help: "Seconds that commits to the journal took, failed ones too.",
        kind: Kind::Seconds,
        rows: &[Row {
            labels: "",
            source: Source::Journal(JournalPart::Micros),
        }],
    },
    Family {
        name: "rstored_journal_bytes_written_total",
        help: "Bytes of the pages that commits wrote to the journal.",
        kind: Kind::Counter,
        rows: &[Row {
            labels: "",
            source: Source::Journal(JournalPart::Written),
        }],
    },
    Family {
        name: "rstored_journal_bytes",
        help: "Bytes of the pages that the journal has.",
        kind: Kind::Gauge,
        rows: &[Row {
            labels: "",
            source: Source::Journal(JournalPart::Size),
        }],
    },
    Family {
        name: "rstored_journal_refusing",
        help: "1 while the journal refuses changes, otherwise 0.",
        kind: Kind::Gauge,
        rows: &[Row {
            labels: "",
            source: Source::Journal(JournalPart::Refusing),
        }],
    },
];
