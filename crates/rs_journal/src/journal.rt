//! Operations in two files.

ghost use Rattle.std.specs.Prelude.{◌≡◌, ◌⊎◌, ◌++◌, ◌∷◌, [], ◌↔◌, ◌<◌, ◌≤◌, ℕ, List, All, IsTrue, IfOk, IfErr, OnOk, OnErr};
ghost use Rattle.sqlite_wal.specs.Files.{seen_image};
ghost use Rattle.sqlite_wal.specs.Reads.{AreClean};
ghost use Rattle.sqlite_wal.specs.Recovery.{Image, AddsNothing};
ghost use Rattle.rs_message.specs.declared.entry.Operation.{Operation as Kept};
ghost use Rattle.rs_journal_record.specs.Records.{IsOperation};
ghost use Rattle.rs_journal.specs.Images.{AreKept, outcomes_of};
ghost use Rattle.rs_journal.specs.OpenFaults.{AreSpared};
ghost use Rattle.rs_journal.specs.Opening.{Explains, IsRefusal, IsWrong};
ghost use Rattle.rs_journal.specs.Pages.{page_size};
ghost use Rattle.rs_journal.specs.Retaining.{Retains, sets_of};
ghost use Rattle.rs_journal.specs.Writing.{IsRefused};

use crate::disk::JournalDisk;
use crate::fault::{ReadFault, WriteFault};
use crate::pages::{NotOpened, PageStream};
use crate::reading::{drop_front, read_frames};
use crate::retained::Retained;
use crate::sink::OperationSink;
use rs_journal_record::put_record;
use rs_message::{Found, Operation};
use sqlite_disk::{Disk, Files};
use sqlite_pager::Error;
use std::alloc::Global;

/// Operations that are kept in two files. What is pushed is seen at once, and stands from the commit on.
#[derive(Drop)]
pub struct Journal<D: Disk> {
    pub(crate) stream: PageStream<D>,
    /// Where a record is formed.
    pub(crate) record: Vec<u8>,
    pub(crate) alloc: Global,
}

impl<D: JournalDisk> Journal<D> {
    ghost use Rattle.rs_journal.specs.Journals.{may_leave, IsClean, IsOpen, IsUnmade, StandsFor, EachStandsForOne, Rests};

    /// Opens the journal of these files and hands on the operations that they stand for, a page's worth at a time. The seed is any number
    /// that no earlier opening of these files had.
    ///
    /// A crash on the way leaves what they stood for. Files in which anything was made stand for it still, whatever comes of this. If it
    /// fails, the files come back, and the sink may have some of the operations. Files of another program or another version, and a log
    /// whose file of pages is empty, are as they were then, byte for byte. So is what stands in the place of a log and is none, over a disk
    /// on which its name would stay, as over real files, synced or not; over another it is taken for a log that a crash has torn.
    pub fn open<S: OperationSink>(
        alloc: Global,
        files: Files<D>,
        seed: u64,
        sink: &mut S,
    ) -> Result<Journal<D>, NotOpened<D, ReadFault>>
        requires log_usable { IsTrue (D.Disk.is_usable files.log) }
        requires db_usable { IsTrue (D.Disk.is_usable files.db) }
        ensures found { IfOk result (λ it. (operations : List Kept) × ((before : List Kept) → S.has_taken sink.old before → S.has_taken sink.new (before ++ operations)) × All IsOperation operations
            × (IsClean it → StandsFor (seen_image D.Disk files.log files.db) operations) × Rests it operations) }
        ensures open { IfOk result IsOpen }
        ensures refused { IfErr result (λ e. IsRefusal e.fault → AreClean D.Disk e.files.log e.files.db
            → (operations : List Kept) → All IsOperation operations → ¬ StandsFor (seen_image D.Disk files.log files.db) operations) }
        ensures named { IfErr result (λ e. AreClean D.Disk e.files.log e.files.db → Explains e.fault (seen_image D.Disk files.log files.db)) }
        ensures opens_none { IfOk result (λ it. IsClean it → ¬ AreSpared (D.JournalDisk.names_stay files.log) (seen_image D.Disk files.log files.db)) }
        ensures spares { IfErr result (λ e. AreClean D.Disk e.files.log e.files.db → AreSpared (D.JournalDisk.names_stay files.log) (seen_image D.Disk files.log files.db)
            → AreKept (seen_image D.Disk files.log files.db) (outcomes_of D.Disk files.log files.db) (seen_image D.Disk e.files.log e.files.db) (outcomes_of D.Disk e.files.log e.files.db)) }
        ensures untouched { IfOk result (λ it. ¬ IsUnmade (seen_image D.Disk files.log files.db) → AddsNothing page_size (outcomes_of D.Disk files.log files.db) (may_leave it)) }
        ensures left_alone { IfErr result (λ e. ¬ IsUnmade (seen_image D.Disk files.log files.db) → AddsNothing page_size (outcomes_of D.Disk files.log files.db) (outcomes_of D.Disk e.files.log e.files.db)) }
        ensures crash { IfOk result (λ it. (lists : List (List Kept)) → EachStandsForOne (outcomes_of D.Disk files.log files.db) lists → EachStandsForOne (may_leave it) lists) }
        ensures leaves { IfErr result (λ e. (lists : List (List Kept)) → EachStandsForOne (outcomes_of D.Disk files.log files.db) lists → EachStandsForOne (outcomes_of D.Disk e.files.log e.files.db) lists) }
    {
        let stream = match PageStream::open(alloc, files, seed) {
            Ok(stream) => stream,
            Err(refused) => {
                return Err(NotOpened {
                    fault: ReadFault::Open(refused.fault),
                    files: refused.files,
                });
            }
        };
        let mut journal = Journal {
            stream,
            record: Vec::new(alloc),
            alloc,
        };
        match journal.read_stream(sink) {
            Ok(()) => Ok(journal),
            Err(fault) => Err(NotOpened {
                fault,
                files: journal.close(),
            }),
        }
    }
}

impl<D: Disk> Journal<D> {
    ghost use Rattle.rs_journal.specs.Journals.{may_leave, page_count, log_len, HasSpilled, IsClean, IsOpen, files_of, HasFailed, Keeps, AddsNoOutcome, Holds, Rests, StaysClosed};
    ghost use Rattle.rs_journal.specs.Streams.{Rests as RestsStream, Stands as StandsStream};
    ghost use Rattle.rs_journal.specs.Frames.{frames};

    /// Whether nothing has failed since its opening that asks for a new one.
    pub fn is_open(&self) -> bool
        ensures { IsTrue result ↔ IsOpen self.now }
    {
        self.stream.is_open()
    }

    /// How many pages of 1,024 bytes its operations take. If they are many more than what is retained takes,
    /// [`shorten`](Journal::shorten) it.
    pub fn page_count(&self) -> u32
        ensures { result ≡ page_count self.now }
    {
        self.stream.page_count()
    }

    /// Whether the log has grown so long that a [`checkpoint`](Journal::checkpoint) is due. True after an opening, since the log may be
    /// long from before.
    pub fn is_log_long(&self) -> bool {
        self.stream.is_log_long()
    }

    /// Gives the files back. What is not committed is lost.
    pub fn close(self) -> Files<D>
        ensures { files_of self ≡ (result.log, result.db) }
    {
        let Journal {
            stream,
            record: _,
            alloc: _,
        } = self;
        stream.close()
    }

    /// Hands on the operations that stand, once more. What was pushed since the last commit is forgotten. A closed journal refuses it.
    pub fn read_again<S: OperationSink>(&mut self, sink: &mut S) -> Result<(), ReadFault>
        ensures open { OnOk result (IsOpen self.old) }
        ensures closed { ¬ IsOpen self.old → StaysClosed self.old self.new }
        ensures read { OnOk result ((operations : List Kept) × ((before : List Kept) → S.has_taken sink.old before → S.has_taken sink.new (before ++ operations))
            × ((standing seen : List Kept) → Holds self.old standing seen → All IsOperation standing → IsClean self.new → operations ≡ standing)) }
        ensures refused { IfErr result (λ e. IsRefusal e → IsClean self.new → (standing seen : List Kept) → Holds self.old standing seen → ¬ All IsOperation standing) }
        ensures named { IfErr result (λ e. IsClean self.new → (standing seen : List Kept) → Holds self.old standing seen → IsWrong e (frames standing)) }
        ensures rests { (standing seen : List Kept) → Holds self.old standing seen → Rests self.new standing }
        ensures crash { AddsNoOutcome self.old self.new }
    {
        self.stream.rollback();
        if !self.stream.is_open() {
            return Err(ReadFault::Disk(Error::Closed));
        }
        match self.read_stream(sink) {
            Ok(()) => Ok(()),
            Err(fault) => Err(fault),
        }
    }

    /// Hands on the operations whose frames the stream is.
    fn read_stream<S: OperationSink>(&mut self, sink: &mut S) -> Result<(), ReadFault>
        ensures read { OnOk result ((operations : List Kept) × ((before : List Kept) → S.has_taken sink.old before → S.has_taken sink.new (before ++ operations)) × All IsOperation operations
            × ((standing : List ℕ) → RestsStream self.old.stream standing → IsOpen self.old → IsClean self.new → standing ≡ frames operations)) }
        ensures rests { (standing : List ℕ) → RestsStream self.old.stream standing → RestsStream self.new.stream standing }
        ensures open { IsOpen self.old → IsOpen self.new }
        ensures clean { IsClean self.new → IsClean self.old }
        ensures refused { IfErr result (λ e. (standing : List ℕ) → RestsStream self.old.stream standing → IsOpen self.old → IsClean self.new → IsWrong e standing) }
        ensures crash { AddsNoOutcome self.old self.new }
    {
        let mut bytes = Vec::new(self.alloc);
        for index in 0..self.stream.page_count() {
            self.stream.read_part(index, &mut bytes)?;
            let whole = read_frames(self.alloc, &bytes, sink)?;
            drop_front(&mut bytes, whole)?;
        }
        if !bytes.is_empty() {
            return Err(ReadFault::Damaged);
        }
        Ok(())
    }

    /// Begins anew: what is pushed from here on is all that is seen, and stands from the commit on. What was pushed since the last commit
    /// is forgotten.
    pub fn begin_anew(&mut self) -> Result<(), WriteFault>
        ensures open { OnOk result (IsOpen self.old) }
        ensures closed { ¬ IsOpen self.old → StaysClosed self.old self.new }
        ensures begun { OnOk result ((standing seen : List Kept) → Holds self.old standing seen → Holds self.new standing []) }
        ensures kind { IfErr result IsRefused }
        ensures refused { OnErr result ((standing seen : List Kept) → Holds self.old standing seen → Rests self.new standing) }
        ensures crash { AddsNoOutcome self.old self.new }
    {
        match self.stream.begin_anew() {
            Ok(()) => Ok(()),
            Err(error) => Err(WriteFault::Refused(error)),
        }
    }

    /// Pushes the frame of an operation. At an error some of it may be pushed.
    fn push_frame(&mut self, operation: &Operation) -> Result<(), Error>
        ensures open { OnOk result (IsOpen self.old) }
        ensures closed { ¬ IsOpen self.old → StaysClosed self.old self.new }
        ensures fits { OnOk result (IsOperation operation.now) }
        ensures pushed { OnOk result ((standing seen : List Kept) → Holds self.old standing seen → Holds self.new standing (seen ++ operation.now ∷ [])) }
        ensures stands { (standing seen : List Kept) → Holds self.old standing seen → StandsStream self.new.stream (frames standing) }
        ensures crash { AddsNoOutcome self.old self.new }
    {
        self.record.clear();
        put_record(&mut self.record, operation)?;
        let len = self.record.len() as u32;
        self.stream.push(&len.to_be_bytes())?;
        self.stream.push(&self.record)?;
        Ok(())
    }

    /// Pushes an operation behind what is seen. At an error what was pushed since the last commit is forgotten.
    pub fn push(&mut self, operation: &Operation) -> Result<(), WriteFault>
        ensures open { OnOk result (IsOpen self.old) }
        ensures closed { ¬ IsOpen self.old → StaysClosed self.old self.new }
        ensures fits { OnOk result (IsOperation operation.now) }
        ensures pushed { OnOk result ((standing seen : List Kept) → Holds self.old standing seen → Holds self.new standing (seen ++ operation.now ∷ [])) }
        ensures kind { IfErr result IsRefused }
        ensures refused { OnErr result ((standing seen : List Kept) → Holds self.old standing seen → Rests self.new standing) }
        ensures crash { AddsNoOutcome self.old self.new }
    {
        match self.push_frame(operation) {
            Ok(()) => Ok(()),
            Err(error) => {
                self.stream.rollback();
                Err(WriteFault::Refused(error))
            }
        }
    }

    /// Makes what is seen what stands. `Refused`: what was pushed is forgotten, no crash brings it back, and a journal that was open still
    /// is. `Doubtful`: a call of the files failed, a crash leaves the one or the other, and the journal, which was open, is closed: from
    /// then on each call but `close` refuses, and does not touch the files.
    pub fn commit(&mut self) -> Result<(), WriteFault>
        ensures open { OnOk result (IsOpen self.old) }
        ensures closed { ¬ IsOpen self.old → StaysClosed self.old self.new }
        ensures answer { ¬ IsOpen self.old → result ≡ Err (WriteFault.Refused Error.Closed) }
        ensures done { OnOk result ((standing seen : List Kept) → Holds self.old standing seen → Rests self.new seen) }
        ensures pages { OnOk result (page_count self.old ≤ page_count self.new) }
        ensures still { OnOk result (IsOpen self.new) }
        ensures doubtful { IfErr result (λ e. ¬ IsRefused e → IsOpen self.old × ¬ IsOpen self.new) }
        ensures left_open { IfErr result (λ e. IsRefused e → IsOpen self.old → IsOpen self.new) }
        ensures closes { IsOpen self.old → ¬ IsOpen self.new → HasFailed self.old self.new }
        ensures refused { IfErr result (λ e. IsRefused e → (standing seen : List Kept) → Holds self.old standing seen → Rests self.new standing) }
        ensures crash { (standing seen : List Kept) → Holds self.old standing seen → (left : Image) → may_leave self.new left → Keeps left standing ⊎ Keeps left seen }
    {
        if !self.stream.is_open() {
            self.stream.rollback();
            return Err(WriteFault::Refused(Error::Closed));
        }
        match self.stream.commit() {
            Ok(()) => Ok(()),
            Err(error) => {
                if self.stream.is_open() {
                    Err(WriteFault::Refused(error))
                } else {
                    Err(WriteFault::Doubtful(error))
                }
            }
        }
    }

    /// Commits as [`commit`](Journal::commit) does, and writes a page even if nothing was pushed. So over a disk that syncs now and then it
    /// syncs all that was committed before, which a [`checkpoint`](Journal::checkpoint) needs.
    pub fn sync(&mut self) -> Result<(), WriteFault>
        ensures open { OnOk result (IsOpen self.old) }
        ensures closed { ¬ IsOpen self.old → StaysClosed self.old self.new }
        ensures done { OnOk result ((standing seen : List Kept) → Holds self.old standing seen → Rests self.new seen) }
        ensures writes { OnOk result (page_count self.old < page_count self.new) }
        ensures still { OnOk result (IsOpen self.new) }
        ensures doubtful { IfErr result (λ e. ¬ IsRefused e → IsOpen self.old × ¬ IsOpen self.new) }
        ensures refused { IfErr result (λ e. IsRefused e → (standing seen : List Kept) → Holds self.old standing seen → Rests self.new standing) }
        ensures crash { (standing seen : List Kept) → Holds self.old standing seen → (left : Image) → may_leave self.new left → Keeps left standing ⊎ Keeps left seen }
    {
        if let Err(error) = self.stream.push_page() {
            return Err(WriteFault::Refused(error));
        }
        match self.commit() {
            Ok(()) => Ok(()),
            Err(fault) => Err(fault),
        }
    }

    /// Pushes a Set of each of these messages. At an error some of them are pushed.
    fn push_sets(&mut self, retained: &Retained) -> Result<(), Error>
        ensures pushed { OnOk result ((standing seen : List Kept) → Holds self.old standing seen → Holds self.new standing (seen ++ sets_of retained.now)) }
        ensures leave { OnOk result (Retains retained.now (sets_of retained.now)) }
        ensures stands { (standing seen : List Kept) → Holds self.old standing seen → StandsStream self.new.stream (frames standing) }
        ensures crash { AddsNoOutcome self.old self.new }
    {
        for (topic, message) in &retained.messages {
            let found = Found::new(self.alloc, topic.copy()?, message.copy()?)?;
            self.push_frame(&Operation::Set(found))?;
        }
        Ok(())
    }

    /// Makes a long journal short: in one commit, a Set of each of these messages takes the place of all operations. What was pushed
    /// since the last commit is forgotten. If the messages are those that are retained, which [`read_again`](Journal::read_again) finds,
    /// then whatever comes of this, a crash leaves operations after which just these are retained. The errors are those of a commit.
    pub fn shorten(&mut self, retained: &Retained) -> Result<(), WriteFault>
        ensures open { OnOk result (IsOpen self.old) }
        ensures closed { ¬ IsOpen self.old → StaysClosed self.old self.new }
        ensures done { OnOk result ((standing seen : List Kept) → Holds self.old standing seen → Rests self.new (sets_of retained.now)) }
        ensures doubtful { IfErr result (λ e. ¬ IsRefused e → IsOpen self.old × ¬ IsOpen self.new) }
        ensures refused { IfErr result (λ e. IsRefused e → (standing seen : List Kept) → Holds self.old standing seen → Rests self.new standing) }
        ensures crash { (standing seen : List Kept) → Holds self.old standing seen → (left : Image) → may_leave self.new left → Keeps left standing ⊎ Keeps left (sets_of retained.now) }
        ensures same { (standing seen : List Kept) → Holds self.old standing seen → Retains retained.now standing
            → (left : Image) → may_leave self.new left → (operations : List Kept) × Keeps left operations × Retains retained.now operations }
    {
        if let Err(fault) = self.begin_anew() {
            return Err(fault);
        }
        if let Err(error) = self.push_sets(retained) {
            self.stream.rollback();
            return Err(WriteFault::Refused(error));
        }
        match self.commit() {
            Ok(()) => Ok(()),
            Err(fault) => Err(fault),
        }
    }

    /// Copies what is committed from the log into the file of pages, and empties the log. No commit does so by itself, so call this while
    /// nothing waits and [`is_log_long`](Journal::is_log_long). What was pushed since the last commit stays; if some of it is in the log
    /// already, nothing is copied, and the log stays long. A closed journal refuses it. Over a disk that does not sync at each commit, turn
    /// syncs on and call [`sync`](Journal::sync) first.
    pub fn checkpoint(&mut self) -> Result<(), Error>
        ensures open { OnOk result (IsOpen self.old) }
        ensures closed { ¬ IsOpen self.old → StaysClosed self.old self.new }
        ensures copied { OnOk result (¬ HasSpilled self.old → log_len self.new ≡ 0) }
        ensures holds { (standing seen : List Kept) → Holds self.old standing seen → Holds self.new standing seen }
        ensures rests { (standing : List Kept) → Rests self.old standing → Rests self.new standing }
        ensures crash { AddsNoOutcome self.old self.new }
    {
        self.stream.checkpoint()
    }
}
