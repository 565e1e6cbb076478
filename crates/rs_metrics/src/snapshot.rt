//! The numbers at one moment.

ghost use Rattle.std.specs.Prelude.{◌≡◌};
ghost use Rattle.rs_metrics.specs.Snapshots.{clients_of, count_of, flag_of, journal_number, number_of, part_of};

use crate::counter::{COUNTERS, Counter, ENDS};

/// The limits of a server.
#[derive(Clone, Copy)]
pub struct Limits {
    /// How many clients are served at once.
    pub clients: u64,
    /// How many topics may hold a message.
    pub topics: u64,
    /// How many bytes retained messages may take, if that is limited.
    pub bytes: Option<u64>,
}

/// What a journal did and is. Bytes are those of its pages.
#[derive(Clone, Copy)]
pub struct JournalNumbers {
    /// How many commits succeeded.
    pub commits: u64,
    /// How many microseconds all commits took.
    pub micros: u64,
    /// How many bytes they wrote.
    pub written: u64,
    /// How many bytes it has.
    pub size: u64,
    /// Whether it refuses changes.
    pub is_refusing: bool,
}

/// One of the [`JournalNumbers`].
#[derive(Clone, Copy)]
pub enum JournalPart {
    /// Commits that succeeded.
    Commits,
    /// Microseconds of commits.
    Micros,
    /// Bytes that they wrote.
    Written,
    /// Bytes that the journal has.
    Size,
    /// 1 if it refuses changes, otherwise 0.
    Refusing,
}

impl JournalNumbers {
    /// The number of this part.
    fn part(&self, part: JournalPart) -> u64
        ensures { result ≡ part_of self.now part }
    {
        match part {
            JournalPart::Commits => self.commits,
            JournalPart::Micros => self.micros,
            JournalPart::Written => self.written,
            JournalPart::Size => self.size,
            JournalPart::Refusing => flag(self.is_refusing),
        }
    }
}

/// The numbers of a server at one moment.
#[derive(Clone, Copy)]
pub struct Snapshot {
    /// Each [`Counter`], by its index.
    pub counts: [u64; COUNTERS],
    /// The server's limits.
    pub limits: Limits,
    /// When the server started, in whole seconds since 1970.
    pub started: u64,
    /// How many topics hold a message.
    pub topics: u64,
    /// How many bytes the retained messages take.
    pub bytes: u64,
    /// How many entries the history has.
    pub version: u64,
    /// How many changes the writer took.
    pub taken: u64,
    /// Whether the writer takes changes.
    pub is_taking: bool,
    /// The memory of the process, in bytes, if the system tells it.
    pub resident: Option<u64>,
    /// Those of the journal, if there is one.
    pub journal: Option<JournalNumbers>,
}

/// Where a number of the text comes from.
#[derive(Clone, Copy)]
pub enum Source {
    /// A counter.
    Counter(Counter),
    /// Connections that began and did not end.
    Clients,
    /// How many of them there may be.
    ClientLimit,
    /// Topics that hold a message.
    Topics,
    /// How many of them there may be.
    TopicLimit,
    /// The bytes of retained messages.
    Bytes,
    /// How many of them there may be. There is no number if that is not limited.
    ByteLimit,
    /// Entries of the history.
    Version,
    /// Changes that were sent to the writer, and that it did not take yet.
    Waiting,
    /// 1 if the writer takes changes, otherwise 0.
    Taking,
    /// The memory of the process, in bytes. There is no number if the system does not tell it.
    Resident,
    /// When the server started, in whole seconds since 1970.
    Started,
    /// The journal. There is no number if there is none.
    Journal(JournalPart),
}

impl Snapshot {
    /// The number of a counter.
    pub fn count(&self, counter: Counter) -> u64
        ensures { result ≡ count_of self.now counter }
    {
        self.counts[counter.index()]
    }

    /// How many connections began and did not end.
    pub fn clients(&self) -> u64
        ensures { result ≡ clients_of self.now }
    {
        let opened = self.count(Counter::Opened);
        self.counts[..ENDS]
            .iter()
            .fold(opened, |clients, ended| clients.saturating_sub(*ended))
    }

    /// The number that comes from there, if there is one.
    pub fn number(&self, source: Source) -> Option<u64>
        ensures { result ≡ number_of self.now source }
    {
        match source {
            Source::Counter(counter) => Some(self.count(counter)),
            Source::Clients => Some(self.clients()),
            Source::ClientLimit => Some(self.limits.clients),
            Source::Topics => Some(self.topics),
            Source::TopicLimit => Some(self.limits.topics),
            Source::Bytes => Some(self.bytes),
            Source::ByteLimit => self.limits.bytes,
            Source::Version => Some(self.version),
            Source::Waiting => Some(self.count(Counter::Sent).saturating_sub(self.taken)),
            Source::Taking => Some(flag(self.is_taking)),
            Source::Resident => self.resident,
            Source::Started => Some(self.started),
            Source::Journal(part) => self.journal_number(part),
        }
    }

    fn journal_number(&self, part: JournalPart) -> Option<u64>
        ensures { result ≡ journal_number self.now.journal part }
    {
        match &self.journal {
            Some(journal) => Some(journal.part(part)),
            None => None,
        }
    }
}

fn flag(is_set: bool) -> u64
    ensures { result ≡ flag_of is_set }
{
    if is_set { 1 } else { 0 }
}
