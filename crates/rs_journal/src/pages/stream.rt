//! A stream of bytes in the pages of two files.

ghost use Rattle.std.specs.Prelude.{◌≡◌, ◌≢◌, ◌+◌, ◌<◌, ◌≤◌, ◌++◌, take, ◌⊎◌, ◌↔◌, ℕ, List, [], length, Err, false, IsTrue, IfOk, IfErr, OnOk, OnErr};
ghost use Rattle.sqlite_wal.specs.Recovery.{Image};
ghost use Rattle.sqlite_wal.specs.State.{Keeps};
ghost use Rattle.sqlite_pager.specs.Pager.{state, visible, page_count as pages_of};
ghost use Rattle.rs_journal.specs.Pages.{page_size, part_size, PutsPage};

use crate::pages::extent::Extent;
use crate::pages::form::{PART_SIZE, form_head, form_page, read_page};
use sqlite_disk::{Disk, Files};
use sqlite_pager::{Error, Pager};

/// So many pages in the log are a reason to copy them: they take some ten milliseconds.
pub(crate) const LONG_LOG: u32 = 4000;

/// A stream of bytes in two files. What is pushed is seen at once, and stands from the commit on.
#[derive(Drop)]
pub struct PageStream<D: Disk> {
    pub(crate) pager: Pager<D>,
    /// The pages of the stream that stands.
    pub(crate) standing: Extent,
    /// The pages of the stream that is seen, but for its tail.
    pub(crate) seen: Extent,
    /// What was pushed and is in no page yet.
    pub(crate) tail: Vec<u8>,
    /// Where a page is formed.
    pub(crate) page: Vec<u8>,
    /// How many pages went to the log since it was copied, or `LONG_LOG` while that is not known.
    pub(crate) logged: u32,
    ghost sized: { (state pager).page_size ≡ page_size },
    ghost short: { length tail.items ≤ part_size },
}

/// Puts a page, or adds it behind the last one. Nothing is committed.
fn put_page<D: Disk>(pager: &mut Pager<D>, at: u32, page: &[u8]) -> Result<(), Error>
    requires { length page.now ≡ (state pager.old).page_size }
    ensures put { OnOk result (IsTrue (state pager.new).is_open → at ≤ pages_of pager.old + 1 → PutsPage (visible pager.old) at page.now (visible pager.new)) }
    ensures open { OnOk result (IsTrue (state pager.new).is_ready) }
    ensures keeps { Keeps (state pager.old) (state pager.new) }
{
    if at <= pager.page_count() {
        pager.write(at, page)
    } else {
        match pager.append(page) {
            Ok(_) => Ok(()),
            Err(error) => Err(error),
        }
    }
}

impl<D: Disk> PageStream<D> {
    ghost use Rattle.rs_journal.specs.Images.{Keeps as HasImage};
    ghost use Rattle.rs_journal.specs.Streams.{files_of, may_leave, image, page_count, IsClean, IsOpen, IsSound, AddsNoOutcome, GoesOn, HasFailed, HasSpilled, fault_count, log_len, part_at, SameParts, Stands, Holds, Rests, StaysClosed};

    /// Gives the files back. What is not committed is lost.
    pub fn close(self) -> Files<D>
        ensures { files_of self ≡ (result.log, result.db) }
    {
        let PageStream {
            pager,
            standing: _,
            seen: _,
            tail: _,
            page: _,
            logged: _,
        } = self;
        pager.close()
    }

    /// Whether nothing has failed since its opening that asks for a new one.
    pub fn is_open(&self) -> bool
        ensures { IsTrue result ↔ IsOpen self.now }
    {
        self.pager.is_open()
    }

    /// How many pages the stream takes.
    pub fn page_count(&self) -> u32
        ensures { result ≡ page_count self.now }
    {
        self.seen.count
    }

    /// Whether the log has grown so long that a [`checkpoint`](PageStream::checkpoint) is due. True after an opening, since the log may
    /// be long from before.
    pub fn is_log_long(&self) -> bool {
        self.logged >= LONG_LOG
    }

    /// How many pages are in the log behind a checkpoint, as far as is known. If pages were put since the last commit, they go there behind
    /// it, or are there already, so that nothing was copied.
    fn left_in_log(&self) -> u32 {
        if self.seen.first == self.standing.first && self.seen.count == self.standing.count {
            0
        } else {
            self.logged
        }
    }

    /// Forgets what was pushed since the last commit.
    pub fn rollback(&mut self)
        ensures rests { (standing : List ℕ) → Stands self.old standing → Rests self.new standing }
        ensures open { IsOpen self.new ↔ IsOpen self.old }
        ensures faults { fault_count self.new ≡ fault_count self.old }
        ensures closed { ¬ IsOpen self.old → StaysClosed self.old self.new }
        ensures crash { AddsNoOutcome self.old self.new }
    {
        self.pager.rollback();
        self.seen = self.standing;
        self.tail.clear();
    }

    /// Puts what was pushed and is in no page yet into the next page.
    fn put_tail(&mut self) -> Result<(), Error>
        ensures put { OnOk result ((standing seen : List ℕ) → Holds self.old standing seen → Holds self.new standing seen) }
        ensures empty { OnOk result (self.new.tail.items ≡ []) }
        ensures more { OnOk result (page_count self.new ≡ page_count self.old + 1) }
        ensures goes_on { GoesOn self.old self.new }
    {
        let (Some(at), Some(number)) = (self.seen.next_page(), self.seen.next_number()) else {
            return Err(Error::Full);
        };
        form_page(&mut self.page, number, &self.tail)?;
        put_page(&mut self.pager, at, &self.page)?;
        self.logged = self.logged.saturating_add(1);
        self.seen.count += 1;
        self.tail.clear();
        Ok(())
    }

    /// Puts the tail into a page if it fills one.
    fn make_room(&mut self) -> Result<(), Error>
        ensures holds { OnOk result ((standing seen : List ℕ) → Holds self.old standing seen → Holds self.new standing seen) }
        ensures room { OnOk result (length self.new.tail.items < part_size) }
        ensures goes_on { GoesOn self.old self.new }
    {
        if self.tail.len() < PART_SIZE {
            return Ok(());
        }
        self.put_tail()
    }

    /// Pushes as many of these bytes as the page behind has room for, one at least, and answers how many.
    fn push_part(&mut self, bytes: &[u8]) -> Result<usize, Error>
        requires { 0 < length bytes.now }
        ensures some { IfOk result (λ n. (0 < n) × (n ≤ length bytes.now)) }
        ensures pushed { IfOk result (λ n. (standing seen : List ℕ) → Holds self.old standing seen → Holds self.new standing (seen ++ take n bytes.now)) }
        ensures goes_on { GoesOn self.old self.new }
    {
        self.make_room()?;
        let n = (PART_SIZE - self.tail.len()).min(bytes.len());
        self.tail.extend_from_slice(&bytes[..n])?;
        Ok(n)
    }

    /// Fails if it is closed.
    fn check_open(&self) -> Result<(), Error>
        ensures { OnOk result (IsOpen self.now) }
    {
        if self.is_open() {
            Ok(())
        } else {
            Err(Error::Closed)
        }
    }

    /// Pushes these bytes. At an error some of them are pushed.
    fn push_all(&mut self, bytes: &[u8]) -> Result<(), Error>
        ensures open { OnOk result (IsOpen self.old) }
        ensures closed { ¬ IsOpen self.old → StaysClosed self.old self.new }
        ensures pushed { OnOk result ((standing seen : List ℕ) → Holds self.old standing seen → Holds self.new standing (seen ++ bytes.now)) }
        ensures goes_on { GoesOn self.old self.new }
    {
        self.check_open()?;
        let mut from = 0;
        while from < bytes.len() {
            let pushed = self.push_part(&bytes[from..])?;
            from += pushed;
        }
        Ok(())
    }

    /// Adds these bytes to what is seen. At an error what was pushed since the last commit is forgotten. A closed stream refuses them.
    pub fn push(&mut self, bytes: &[u8]) -> Result<(), Error>
        ensures open { OnOk result (IsOpen self.old) }
        ensures closed { ¬ IsOpen self.old → StaysClosed self.old self.new }
        ensures pushed { OnOk result ((standing seen : List ℕ) → Holds self.old standing seen → Holds self.new standing (seen ++ bytes.now)) }
        ensures refused { OnErr result ((standing seen : List ℕ) → Holds self.old standing seen → Rests self.new standing) }
        ensures crash { AddsNoOutcome self.old self.new }
    {
        match self.push_all(bytes) {
            Ok(()) => Ok(()),
            Err(error) => {
                self.rollback();
                Err(error)
            }
        }
    }

    /// Puts a page 1 that begins a stream of no page.
    fn put_head(&mut self) -> Result<(), Error>
        ensures begun { OnOk result ((standing : List ℕ) → Rests self.old standing → Holds self.new standing []) }
        ensures open { OnOk result (IsOpen self.old) }
        ensures closed { ¬ IsOpen self.old → StaysClosed self.old self.new }
        ensures goes_on { GoesOn self.old self.new }
    {
        self.check_open()?;
        let Some(first) = self.standing.next_number() else {
            return Err(Error::Full);
        };
        form_head(&mut self.page, first)?;
        put_page(&mut self.pager, 1, &self.page)?;
        self.seen = Extent { first, count: 0 };
        Ok(())
    }

    /// Begins the stream anew: what is pushed from here on is all that is seen, and stands from the commit on. What was pushed since the
    /// last commit is forgotten. A closed stream refuses it.
    pub fn begin_anew(&mut self) -> Result<(), Error>
        ensures open { OnOk result (IsOpen self.old) }
        ensures closed { ¬ IsOpen self.old → StaysClosed self.old self.new }
        ensures begun { OnOk result ((standing seen : List ℕ) → Holds self.old standing seen → Holds self.new standing []) }
        ensures refused { OnErr result ((standing seen : List ℕ) → Holds self.old standing seen → Rests self.new standing) }
        ensures crash { AddsNoOutcome self.old self.new }
    {
        self.rollback();
        match self.put_head() {
            Ok(()) => Ok(()),
            Err(error) => {
                self.rollback();
                Err(error)
            }
        }
    }

    /// Puts the tail into a page if there is one.
    fn flush(&mut self) -> Result<(), Error>
        ensures holds { OnOk result ((standing seen : List ℕ) → Holds self.old standing seen → Holds self.new standing seen) }
        ensures empty { OnOk result (self.new.tail.items ≡ []) }
        ensures pages { OnOk result (page_count self.old ≤ page_count self.new) }
        ensures goes_on { GoesOn self.old self.new }
    {
        if self.tail.is_empty() {
            return Ok(());
        }
        self.put_tail()
    }

    /// Puts the tail and commits. At an error the transaction goes on.
    fn commit_all(&mut self) -> Result<(), Error>
        ensures open { OnOk result (IsOpen self.old) }
        ensures closed { ¬ IsOpen self.old → StaysClosed self.old self.new }
        ensures still { OnOk result (IsOpen self.new) }
        ensures closes { IsOpen self.old → ¬ IsOpen self.new → HasFailed self.old self.new }
        ensures done { OnOk result ((standing seen : List ℕ) → Holds self.old standing seen → Rests self.new seen) }
        ensures pages { OnOk result (page_count self.old ≤ page_count self.new) }
        ensures stands { OnErr result (IsOpen self.new → (standing seen : List ℕ) → Holds self.old standing seen → Stands self.new standing) }
        ensures crash { (standing seen : List ℕ) → Holds self.old standing seen → (left : Image) → may_leave self.new left → HasImage left standing ⊎ HasImage left seen }
    {
        self.check_open()?;
        if let Err(error) = self.flush() {
            return Err(error);
        }
        if let Err(error) = self.pager.commit() {
            return Err(error);
        }
        self.standing = self.seen;
        Ok(())
    }

    /// Makes what is seen the stream that stands. At an error that leaves it open, what was pushed is forgotten, and no crash brings it
    /// back. At one that closes it, a crash leaves the one or the other. A closed stream refuses it, and does not touch the files.
    pub fn commit(&mut self) -> Result<(), Error>
        ensures open { OnOk result (IsOpen self.old) }
        ensures closed { ¬ IsOpen self.old → StaysClosed self.old self.new }
        ensures still { OnOk result (IsOpen self.new) }
        ensures closes { IsOpen self.old → ¬ IsOpen self.new → HasFailed self.old self.new }
        ensures done { OnOk result ((standing seen : List ℕ) → Holds self.old standing seen → Rests self.new seen) }
        ensures pages { OnOk result (page_count self.old ≤ page_count self.new) }
        ensures refused { OnErr result (IsOpen self.new → (standing seen : List ℕ) → Holds self.old standing seen → Rests self.new standing) }
        ensures crash { (standing seen : List ℕ) → Holds self.old standing seen → (left : Image) → may_leave self.new left → HasImage left standing ⊎ HasImage left seen }
    {
        match self.commit_all() {
            Ok(()) => Ok(()),
            Err(error) => {
                self.rollback();
                Err(error)
            }
        }
    }

    /// Puts what was pushed into pages, and a page more, which may be empty.
    fn put_last(&mut self) -> Result<(), Error>
        ensures open { OnOk result (IsOpen self.old) }
        ensures closed { ¬ IsOpen self.old → StaysClosed self.old self.new }
        ensures holds { OnOk result ((standing seen : List ℕ) → Holds self.old standing seen → Holds self.new standing seen) }
        ensures empty { OnOk result (self.new.tail.items ≡ []) }
        ensures more { OnOk result (page_count self.new ≡ page_count self.old + 1) }
        ensures goes_on { GoesOn self.old self.new }
    {
        self.check_open()?;
        self.put_tail()
    }

    /// Puts what was pushed into pages, and a page more, which may be empty, so that the next commit writes. At an error what was pushed
    /// since the last commit is forgotten. A closed stream refuses it.
    pub fn push_page(&mut self) -> Result<(), Error>
        ensures open { OnOk result (IsOpen self.old) }
        ensures closed { ¬ IsOpen self.old → StaysClosed self.old self.new }
        ensures holds { OnOk result ((standing seen : List ℕ) → Holds self.old standing seen → Holds self.new standing seen) }
        ensures more { OnOk result (page_count self.old < page_count self.new) }
        ensures refused { OnErr result ((standing seen : List ℕ) → Holds self.old standing seen → Rests self.new standing) }
        ensures crash { AddsNoOutcome self.old self.new }
    {
        match self.put_last() {
            Ok(()) => Ok(()),
            Err(error) => {
                self.rollback();
                Err(error)
            }
        }
    }

    /// Copies what is committed from the log into the file of pages, and empties the log. No commit does so by itself, so call this while
    /// nothing waits and [`is_log_long`](PageStream::is_log_long). What was pushed since the last commit stays; if some of it is in the log
    /// already, nothing is copied. A closed stream refuses it.
    pub fn checkpoint(&mut self) -> Result<(), Error>
        ensures open { OnOk result (IsOpen self.old) }
        ensures closed { ¬ IsOpen self.old → StaysClosed self.old self.new }
        ensures copied { OnOk result (¬ HasSpilled self.old → log_len self.new ≡ 0) }
        ensures holds { (standing seen : List ℕ) → Holds self.old standing seen → Holds self.new standing seen }
        ensures rests { (standing : List ℕ) → Rests self.old standing → Rests self.new standing }
        ensures crash { AddsNoOutcome self.old self.new }
    {
        self.check_open()?;
        match self.pager.checkpoint() {
            Ok(()) => {
                self.logged = self.left_in_log();
                Ok(())
            }
            Err(error) => Err(error),
        }
    }

    /// Appends to `out` what a page of the stream has of it.
    pub fn read_part(&mut self, index: u32, out: &mut Vec<u8>) -> Result<(), Error>
        ensures read { OnOk result (IsClean self.new → out.new.items ≡ out.old.items ++ part_at self.old index) }
        ensures rests { (standing : List ℕ) → Rests self.old standing → Rests self.new standing }
        ensures same { SameParts self.old self.new }
        ensures crash { AddsNoOutcome self.old self.new }
    {
        let Some(at) = index.checked_add(2) else {
            return Err(Error::NoSuchPage);
        };
        self.pager.load(at)?;
        let (_, part) = read_page(self.pager.loaded());
        out.extend_from_slice(part)?;
        Ok(())
    }
}
