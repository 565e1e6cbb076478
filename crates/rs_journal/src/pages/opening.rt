//! What two files stand for, found as they are opened.

ghost use Rattle.std.specs.Prelude.{◌≡◌, ◌≢◌, ◌⊎◌, ◌+◌, ◌-◌, ◌^◌, ◌<◌, ◌≤◌, ℕ, List, length, Some, None, Ok, Err, true, false, IsTrue, IfSome, IfOk, IfErr, OnOk, OnErr};
ghost use Rattle.sqlite_wal.specs.Reads.{OnlyReadsBoth};
ghost use Rattle.sqlite_wal.specs.Files.{seen_image};
ghost use Rattle.sqlite_wal.specs.Reads.{AreClean};
ghost use Rattle.sqlite_wal.specs.Recovery.{AddsNothing, IsBlank, IsUnreadable, only_page};
ghost use Rattle.sqlite_wal.specs.State.{Keeps};
ghost use Rattle.sqlite_pager.specs.Pager.{files as pager_files, state, visible, image as pages_image, AreUsable as AreUsablePages, IsClean as IsCleanPages};
ghost use Rattle.rs_journal.specs.Pages.{page_size, head_form, joined, AreNumbered, HasStream};
ghost use Rattle.rs_journal.specs.Images.{AreKept, EachStandsForOne, IsUnmade, StandsFor, outcomes_of};
ghost use Rattle.rs_journal.specs.OpenFaults.{AreSpared, AreWrong, Explains, IsHindrance, IsRefusal};
ghost use Rattle.rs_journal.specs.declared.pages.fault.OpenFault.TheVariants.{NoMemory};

use crate::disk::JournalDisk;
use crate::pages::checking::check_files;
use crate::pages::extent::Extent;
use crate::pages::fault::{NotOpened, OpenFault, fault_from};
use crate::pages::form::{PAGE_SIZE, form_head, read_head, read_page};
use crate::pages::stream::{LONG_LOG, PageStream};
use sqlite_disk::{Disk, Files};
use sqlite_pager::{Error, Options, PageSize, Pager};
use std::alloc::Global;

/// Makes page 1 where nothing has been made yet. Answers whether it did: else something is there.
fn make_pages<D: Disk>(pager: &mut Pager<D>, first: &[u8]) -> Result<bool, Error>
    requires usable { AreUsablePages pager.old }
    requires sized { (state pager.old).page_size ≡ page_size }
    requires head { first.now ≡ head_form 1 }
    ensures made { result ≡ Ok true → IsTrue (state pager.new).is_ready }
    ensures clean { result ≡ Ok true → IsTrue (state pager.new).is_clean → IsCleanPages pager.new }
    ensures blank { result ≡ Ok true → IsTrue (state pager.new).is_clean → IsBlank (head_form 1) (pages_image pager.old) × ((state pager.new).committed ≡ only_page (head_form 1)) }
    ensures there { result ≡ Ok false → OnlyReadsBoth D.Disk (pager_files pager.old) (pager_files pager.new) }
    ensures begun { result ≡ Ok false → IsTrue (state pager.new).is_clean → ¬ IsBlank (head_form 1) (pages_image pager.old) }
    ensures kind { result ≢ Err Error.Corrupt }
    ensures honest { IsTrue (state pager.new).is_clean → IsTrue (state pager.old).is_clean }
    ensures size { (state pager.new).page_size ≡ (state pager.old).page_size }
    ensures untouched { ¬ IsUnmade (pages_image pager.old) → AddsNothing page_size (state pager.old).may_leave (state pager.new).may_leave }
    ensures kept { ¬ IsUnmade (pages_image pager.old) → IsTrue (state pager.new).is_clean → AreKept (pages_image pager.old) (state pager.old).may_leave (pages_image pager.new) (state pager.new).may_leave }
    ensures crash { (streams : List (List ℕ)) → EachStandsForOne (state pager.old).may_leave streams → EachStandsForOne (state pager.new).may_leave streams }
{
    match pager.create(first) {
        Ok(()) => Ok(true),
        Err(Error::Exists) => Ok(false),
        Err(error) => Err(error),
    }
}

/// How many pages have rising numbers, with one page more: one more if it is the next one, and as many if it is left over from an earlier
/// stream. `None` if it is neither.
fn count_with(count: u32, index: u32, number: u64, first: u64) -> Option<u32>
    requires behind { count ≤ index }
    requires few { index < 2 ^ 32 - 1 }
    ensures next { IfSome result (λ n. ((n ≡ count + 1) × (count ≡ index) × (number ≡ first + count)) ⊎ ((n ≡ count) × (number < first))) }
    ensures neither { result ≡ None → (first ≤ number) × (count ≡ index → number ≡ first + count → ⊥) }
{
    if number < first {
        Some(count)
    } else if count == index && number - first == u64::from(count) {
        Some(count + 1)
    } else {
        None
    }
}

/// How many pages behind page 1 are numbered from the first one on, or `None` if one behind them has no lower number.
fn count_pages<D: Disk>(pager: &mut Pager<D>, first: u64) -> Result<Option<u32>, Error>
    requires { (state pager.old).page_size ≡ page_size }
    ensures counted { (count : ℕ) → result ≡ Ok (Some count) → IsTrue (state pager.new).is_clean → IsCleanPages pager.old → AreNumbered (visible pager.old) first count }
    ensures damaged { result ≡ Ok None → IsTrue (state pager.new).is_clean → (count : ℕ) → ¬ AreNumbered (visible pager.old) first count }
    ensures keeps { Keeps (state pager.old) (state pager.new) }
    ensures open { (state pager.new).is_ready ≡ (state pager.old).is_ready }
    ensures pages { visible pager.new ≡ visible pager.old }
{
    let mut count = 0;
    for at in 1..pager.page_count() {
        if let Err(error) = pager.load(at + 1) {
            return Err(error);
        }
        let (number, _) = read_page(pager.loaded());
        let Some(next) = count_with(count, at - 1, number, first) else {
            return Ok(None);
        };
        count = next;
    }
    Ok(Some(count))
}

/// Which pages have the stream.
fn find_extent<D: Disk>(pager: &mut Pager<D>) -> Result<Extent, OpenFault>
    requires { (state pager.old).page_size ≡ page_size }
    ensures found { IfOk result (λ e. IsTrue (state pager.new).is_clean → IsCleanPages pager.old → HasStream (visible pager.old) e.first e.count (joined (visible pager.old) e.count)) }
    ensures refused { IfErr result (λ e. IsRefusal e → IsTrue (state pager.new).is_clean → (page : List ℕ) × (visible pager.old 1 ≡ Some page) × AreWrong e (visible pager.old) page) }
    ensures kind { IfErr result (λ e. IsRefusal e ⊎ IsHindrance e) }
    ensures keeps { Keeps (state pager.old) (state pager.new) }
    ensures open { (state pager.new).is_ready ≡ (state pager.old).is_ready }
    ensures pages { visible pager.new ≡ visible pager.old }
{
    if let Err(error) = pager.load(1) {
        return Err(OpenFault::Disk(error));
    }
    match read_head(pager.loaded()) {
        Err(fault) => Err(fault),
        Ok(first) => match count_pages(pager, first) {
            Ok(Some(count)) => Ok(Extent { first, count }),
            Ok(None) => Err(OpenFault::Damaged),
            Err(error) => Err(OpenFault::Disk(error)),
        },
    }
}

/// Finds the pages that the files stand for, and which of them have the stream.
fn recover_extent<D: Disk>(pager: &mut Pager<D>) -> Result<Extent, OpenFault>
    requires usable { AreUsablePages pager.old }
    requires sized { (state pager.old).page_size ≡ page_size }
    requires begun { IsTrue (state pager.old).is_clean → ¬ IsBlank (head_form 1) (pages_image pager.old) }
    ensures ready { IfOk result (λ _. IsTrue (state pager.new).is_ready) }
    ensures clean { IfOk result (λ _. IsTrue (state pager.new).is_clean → IsCleanPages pager.new) }
    ensures found { IfOk result (λ e. IsTrue (state pager.new).is_clean → StandsFor (pages_image pager.old) (joined (visible pager.new) e.count) × HasStream (visible pager.new) e.first e.count (joined (visible pager.new) e.count)) }
    ensures refused { IfErr result (λ e. IsRefusal e → IsTrue (state pager.new).is_clean → (stream : List ℕ) → ¬ StandsFor (pages_image pager.old) stream) }
    ensures named { IfErr result (λ e. IsTrue (state pager.new).is_clean → Explains e (pages_image pager.old)) }
    ensures untouched { AddsNothing page_size (state pager.old).may_leave (state pager.new).may_leave }
    ensures kept { IsUnreadable page_size (pages_image pager.old) → IsTrue (state pager.new).is_clean → AreKept (pages_image pager.old) (state pager.old).may_leave (pages_image pager.new) (state pager.new).may_leave }
    ensures honest { IsTrue (state pager.new).is_clean → IsTrue (state pager.old).is_clean }
    ensures size { (state pager.new).page_size ≡ (state pager.old).page_size }
    ensures crash { (streams : List (List ℕ)) → EachStandsForOne (state pager.old).may_leave streams → EachStandsForOne (state pager.new).may_leave streams }
{
    if let Err(error) = pager.recover() {
        return Err(fault_from(error));
    }
    match find_extent(pager) {
        Ok(extent) => Ok(extent),
        Err(fault) => Err(fault),
    }
}

/// Makes the pages or finds them, and tells which of them have the stream.
fn open_extent<D: Disk>(pager: &mut Pager<D>, first: &[u8]) -> Result<Extent, OpenFault>
    requires usable { AreUsablePages pager.old }
    requires sized { (state pager.old).page_size ≡ page_size }
    requires head { first.now ≡ head_form 1 }
    ensures ready { IfOk result (λ _. IsTrue (state pager.new).is_ready) }
    ensures clean { IfOk result (λ _. IsTrue (state pager.new).is_clean → IsCleanPages pager.new) }
    ensures found { IfOk result (λ e. IsTrue (state pager.new).is_clean → StandsFor (pages_image pager.old) (joined (visible pager.new) e.count) × HasStream (visible pager.new) e.first e.count (joined (visible pager.new) e.count)) }
    ensures refused { IfErr result (λ e. IsRefusal e → IsTrue (state pager.new).is_clean → (stream : List ℕ) → ¬ StandsFor (pages_image pager.old) stream) }
    ensures named { IfErr result (λ e. IsTrue (state pager.new).is_clean → Explains e (pages_image pager.old)) }
    ensures untouched { ¬ IsUnmade (pages_image pager.old) → AddsNothing page_size (state pager.old).may_leave (state pager.new).may_leave }
    ensures kept { ¬ IsUnmade (pages_image pager.old) → IsUnreadable page_size (pages_image pager.old) → IsTrue (state pager.new).is_clean
        → AreKept (pages_image pager.old) (state pager.old).may_leave (pages_image pager.new) (state pager.new).may_leave }
    ensures honest { IsTrue (state pager.new).is_clean → IsTrue (state pager.old).is_clean }
    ensures size { (state pager.new).page_size ≡ (state pager.old).page_size }
    ensures crash { (streams : List (List ℕ)) → EachStandsForOne (state pager.old).may_leave streams → EachStandsForOne (state pager.new).may_leave streams }
{
    match make_pages(pager, first) {
        Ok(true) => Ok(Extent { first: 1, count: 0 }),
        Ok(false) => match recover_extent(pager) {
            Ok(extent) => Ok(extent),
            Err(fault) => Err(fault),
        },
        Err(error) => Err(fault_from(error)),
    }
}

/// A pager over these files that has read nothing yet.
fn new_pager<D: Disk>(
    alloc: Global,
    files: Files<D>,
    seed: u64,
) -> Result<Pager<D>, NotOpened<D, OpenFault>>
    ensures over { IfOk result (λ it. pager_files it ≡ (files.log, files.db)) }
    ensures sized { IfOk result (λ it. (state it).page_size ≡ page_size) }
    ensures back { IfErr result (λ e. (e.files.log ≡ files.log) × (e.files.db ≡ files.db) × (e.fault ≡ NoMemory)) }
{
    // No commit copies the log by itself: whoever lets the files be synced only now and then has to choose the moment.
    let options = Options {
        cache_pages: 16,
        spill_pages: 1000,
        checkpoint_frames: usize::MAX,
        seed,
    };
    let size = PageSize::new(PAGE_SIZE).unwrap();
    match Pager::new(alloc, files, size, options) {
        Ok(pager) => Ok(pager),
        // Refused: the pager takes memory for its cache, and refuses for nothing else.
        Err(failed) => Err(NotOpened {
            fault: OpenFault::NoMemory,
            files: failed.value,
        }),
    }
}

/// Makes the pages in these files, or finds them, and which of them have the stream.
fn open_pages<D: JournalDisk>(
    alloc: Global,
    mut files: Files<D>,
    seed: u64,
    first: &[u8],
) -> Result<(Pager<D>, Extent), NotOpened<D, OpenFault>>
    requires log_usable { IsTrue (D.Disk.is_usable files.log) }
    requires db_usable { IsTrue (D.Disk.is_usable files.db) }
    requires head { first.now ≡ head_form 1 }
    ensures sized { IfOk result (λ it. (state it.0).page_size ≡ page_size) }
    ensures ready { IfOk result (λ it. IsTrue (state it.0).is_ready) }
    ensures clean { IfOk result (λ it. IsTrue (state it.0).is_clean → IsCleanPages it.0) }
    ensures found { IfOk result (λ it. IsTrue (state it.0).is_clean → StandsFor (seen_image D.Disk files.log files.db) (joined (visible it.0) it.1.count) × HasStream (visible it.0) it.1.first it.1.count (joined (visible it.0) it.1.count)) }
    ensures refused { IfErr result (λ e. IsRefusal e.fault → AreClean D.Disk e.files.log e.files.db → (stream : List ℕ) → ¬ StandsFor (seen_image D.Disk files.log files.db) stream) }
    ensures named { IfErr result (λ e. AreClean D.Disk e.files.log e.files.db → Explains e.fault (seen_image D.Disk files.log files.db)) }
    ensures opens_none { IfOk result (λ it. IsTrue (state it.0).is_clean → ¬ AreSpared (D.JournalDisk.names_stay files.log) (seen_image D.Disk files.log files.db)) }
    ensures spares { IfErr result (λ e. AreClean D.Disk e.files.log e.files.db → AreSpared (D.JournalDisk.names_stay files.log) (seen_image D.Disk files.log files.db)
        → AreKept (seen_image D.Disk files.log files.db) (outcomes_of D.Disk files.log files.db) (seen_image D.Disk e.files.log e.files.db) (outcomes_of D.Disk e.files.log e.files.db)) }
    ensures untouched { IfOk result (λ it. ¬ IsUnmade (seen_image D.Disk files.log files.db) → AddsNothing page_size (outcomes_of D.Disk files.log files.db) (state it.0).may_leave) }
    ensures left_alone { IfErr result (λ e. ¬ IsUnmade (seen_image D.Disk files.log files.db) → AddsNothing page_size (outcomes_of D.Disk files.log files.db) (outcomes_of D.Disk e.files.log e.files.db)) }
    ensures crash { IfOk result (λ it. (streams : List (List ℕ)) → EachStandsForOne (outcomes_of D.Disk files.log files.db) streams → EachStandsForOne (state it.0).may_leave streams) }
    ensures leaves { IfErr result (λ e. (streams : List (List ℕ)) → EachStandsForOne (outcomes_of D.Disk files.log files.db) streams → EachStandsForOne (outcomes_of D.Disk e.files.log e.files.db) streams) }
{
    if let Err(fault) = check_files(alloc, &mut files, first) {
        return Err(NotOpened { fault, files });
    }
    let mut pager = match new_pager(alloc, files, seed) {
        Ok(pager) => pager,
        Err(refused) => return Err(refused),
    };
    match open_extent(&mut pager, first) {
        Ok(extent) => Ok((pager, extent)),
        Err(fault) => Err(NotOpened {
            fault,
            files: pager.close(),
        }),
    }
}

impl<D: JournalDisk> PageStream<D> {
    ghost use Rattle.rs_journal.specs.Streams.{may_leave, IsClean, IsOpen, Rests};

    /// Opens the stream of these files. A crash on the way leaves what they stood for. Files in which anything was made stand for it still,
    /// whatever comes of this. If it fails, the files come back.
    pub fn open(
        alloc: Global,
        files: Files<D>,
        seed: u64,
    ) -> Result<PageStream<D>, NotOpened<D, OpenFault>>
        requires log_usable { IsTrue (D.Disk.is_usable files.log) }
        requires db_usable { IsTrue (D.Disk.is_usable files.db) }
        ensures found { IfOk result (λ it. (stream : List ℕ) × (IsClean it → StandsFor (seen_image D.Disk files.log files.db) stream) × Rests it stream) }
        ensures open { IfOk result IsOpen }
        ensures refused { IfErr result (λ e. IsRefusal e.fault → AreClean D.Disk e.files.log e.files.db → (stream : List ℕ) → ¬ StandsFor (seen_image D.Disk files.log files.db) stream) }
        ensures named { IfErr result (λ e. AreClean D.Disk e.files.log e.files.db → Explains e.fault (seen_image D.Disk files.log files.db)) }
        ensures opens_none { IfOk result (λ it. IsClean it → ¬ AreSpared (D.JournalDisk.names_stay files.log) (seen_image D.Disk files.log files.db)) }
        ensures spares { IfErr result (λ e. AreClean D.Disk e.files.log e.files.db → AreSpared (D.JournalDisk.names_stay files.log) (seen_image D.Disk files.log files.db)
            → AreKept (seen_image D.Disk files.log files.db) (outcomes_of D.Disk files.log files.db) (seen_image D.Disk e.files.log e.files.db) (outcomes_of D.Disk e.files.log e.files.db)) }
        ensures untouched { IfOk result (λ it. ¬ IsUnmade (seen_image D.Disk files.log files.db) → AddsNothing page_size (outcomes_of D.Disk files.log files.db) (may_leave it)) }
        ensures left_alone { IfErr result (λ e. ¬ IsUnmade (seen_image D.Disk files.log files.db) → AddsNothing page_size (outcomes_of D.Disk files.log files.db) (outcomes_of D.Disk e.files.log e.files.db)) }
        ensures crash { IfOk result (λ it. (streams : List (List ℕ)) → EachStandsForOne (outcomes_of D.Disk files.log files.db) streams → EachStandsForOne (may_leave it) streams) }
        ensures leaves { IfErr result (λ e. (streams : List (List ℕ)) → EachStandsForOne (outcomes_of D.Disk files.log files.db) streams → EachStandsForOne (outcomes_of D.Disk e.files.log e.files.db) streams) }
    {
        let mut page = Vec::new(alloc);
        if let Err(_) = form_head(&mut page, 1) {
            // Refused: there is no memory for the page.
            return Err(NotOpened {
                fault: OpenFault::NoMemory,
                files,
            });
        }
        match open_pages(alloc, files, seed, &page) {
            Ok((pager, extent)) => Ok(PageStream {
                pager,
                standing: extent,
                seen: extent,
                tail: Vec::new(alloc),
                page,
                logged: LONG_LOG,
            }),
            Err(refused) => Err(refused),
        }
    }
}
