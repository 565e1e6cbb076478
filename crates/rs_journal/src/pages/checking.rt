//! What is looked at before anything is written, so that files that are refused then stay as they are.

ghost use Rattle.std.specs.Prelude.{◌≡◌, ◌≢◌, ◌⊎◌, ◌+◌, ◌<◌, ◌≤◌, ◌↔◌, ℕ, List, length, slice_index, Some, IsTrue, IfSome, IfOk, IfErr, OnOk, MatchOption};
ghost use Rattle.sqlite_wal.specs.Files.{seen_image};
ghost use Rattle.sqlite_wal.specs.Format.{part};
ghost use Rattle.sqlite_wal.specs.Index.{IsLatest};
ghost use Rattle.sqlite_wal.specs.Reads.{AreClean, IsClean, OnlyReads};
ghost use Rattle.sqlite_wal.specs.Recovery.{AreFramesOf, Pages, Recovers, Replays, IsUnreadable, frame_at};
ghost use Rattle.rs_journal.specs.Pages.{page_size, head_form};
ghost use Rattle.rs_journal.specs.Images.{IsUnmade, StandsFor};
ghost use Rattle.rs_journal.specs.OpenFaults.{Explains, IsRefusal, IsHindrance, IsLoneLog, IsForeignLog, HasOtherHead, IsOtherFile, log_name};
ghost use Rattle.rs_journal.specs.declared.pages.fault.OpenFault.TheVariants.{Foreign, ForeignLog};

use crate::disk::JournalDisk;
use crate::pages::fault::{OpenFault, fault_from};
use crate::pages::form::{PAGE_SIZE, read_head};
use sqlite_disk::{Disk, Files};
use sqlite_pager::{Error, PageSize};
use sqlite_wal::{probe_blank, probe_frames};
use std::alloc::Global;

/// How long a log is at most until the pages are made: it has its head, and one byte more.
const BARE_LOG: usize = 41;

/// The second to fourth bytes of each log.
const LOG_NAME: [u8; 3] = [0x7f, 0x06, 0x82];

/// How many bytes a frame of the log has.
const FRAME_SIZE: usize = 24 + PAGE_SIZE;

/// Where the page of the first frame begins.
const FIRST_PAGE: usize = 32 + 24;

/// The last place that has this number.
fn last_place(numbers: &[u32], number: u32) -> Option<usize>
    ensures { MatchOption result ((i : ℕ) → i < length numbers.now → slice_index numbers.now i ≢ number) (IsLatest numbers.now number) }
{
    let mut at = numbers.len();
    while at > 0 {
        at -= 1;
        if numbers[at] == number {
            return Some(at);
        }
    }
    None
}

/// Where the page of this frame begins in the log.
#[tactic(auto, unfolding(sqlite_wal::specs::Recovery::frames_len))]
fn page_place(frame: usize) -> Option<usize>
    ensures { IfSome result (λ at. at ≡ frame_at page_size frame + 24) }
{
    let behind = frame.checked_mul(FRAME_SIZE)?;
    behind.checked_add(FIRST_PAGE)
}

/// Reads the page of this frame.
fn read_in_log<D: Disk>(log: &mut D, frame: usize, page: &mut [u8]) -> Result<(), OpenFault>
    requires usable { IsTrue (D.Disk.is_usable log.old) }
    requires sized { length page.old ≡ page_size }
    ensures read { OnOk result (IsClean D.Disk log.new → part (D.Disk.seen log.old) (frame_at page_size frame + 24) page_size ≡ page.new) }
    ensures kind { IfErr result IsHindrance }
    ensures sized { length page.new ≡ page_size }
    ensures same { OnlyReads D.Disk log.old log.new }
{
    let Some(at) = page_place(frame) else {
        return Err(OpenFault::Disk(Error::Full));
    };
    log.read_at(at, page)?;
    Ok(())
}

/// Reads page 1 of the file of pages.
fn read_in_file<D: Disk>(db: &mut D, page: &mut [u8]) -> Result<(), OpenFault>
    requires usable { IsTrue (D.Disk.is_usable db.old) }
    requires sized { length page.old ≡ page_size }
    ensures read { OnOk result (IsClean D.Disk db.new → (page_size ≤ length (D.Disk.seen db.old)) × (part (D.Disk.seen db.old) 0 page_size ≡ page.new)) }
    ensures short { IfErr result (λ e. IsClean D.Disk db.new → IsHindrance e ⊎ ((e ≡ Foreign) × (length (D.Disk.seen db.old) < page_size))) }
    ensures sized { length page.new ≡ page_size }
    ensures same { OnlyReads D.Disk db.old db.new }
{
    if db.len()? < PAGE_SIZE {
        return Err(OpenFault::Foreign);
    }
    db.read_at(0, page)?;
    Ok(())
}

/// The page of each frame that a recovery would take.
fn read_frames<D: Disk>(alloc: Global, log: &mut D) -> Result<Vec<u32>, OpenFault>
    requires { IsTrue (D.Disk.is_usable log.old) }
    ensures taken { IfOk result (λ numbers. IsClean D.Disk log.new → AreFramesOf page_size (D.Disk.seen log.old) numbers.items) }
    ensures refused { IfErr result (λ e. IsClean D.Disk log.new → IsHindrance e ⊎ ((e ≡ Foreign) × ((k : ℕ) → ¬ Replays page_size (D.Disk.seen log.old) k))) }
    ensures same { OnlyReads D.Disk log.old log.new }
{
    let size = PageSize::new(PAGE_SIZE).unwrap();
    match probe_frames(alloc, log, size) {
        Ok(numbers) => Ok(numbers),
        Err(error) => Err(fault_from(error)),
    }
}

/// Reads page 1, which this frame has.
fn read_logged<D: Disk>(
    files: &mut Files<D>,
    numbers: &[u32],
    frame: usize,
    page: &mut [u8],
) -> Result<(), OpenFault>
    requires log_usable { IsTrue (D.Disk.is_usable files.old.log) }
    requires db_usable { IsTrue (D.Disk.is_usable files.old.db) }
    requires frames { IsClean D.Disk files.old.log → AreFramesOf page_size (D.Disk.seen files.old.log) numbers.now }
    requires last { IsLatest numbers.now 1 frame }
    requires sized { length page.old ≡ page_size }
    ensures read { OnOk result (AreClean D.Disk files.new.log files.new.db → 0 < length (D.Disk.seen files.old.db)
        → (pages : Pages) × Recovers page_size (seen_image D.Disk files.old.log files.old.db) pages × (pages 1 ≡ Some page.new)) }
    ensures refused { IfErr result (λ e. AreClean D.Disk files.new.log files.new.db
        → IsHindrance e ⊎ ((e ≡ Foreign) × IsUnreadable page_size (seen_image D.Disk files.old.log files.old.db))) }
    ensures sized { length page.new ≡ page_size }
    ensures log { OnlyReads D.Disk files.old.log files.new.log }
    ensures db { OnlyReads D.Disk files.old.db files.new.db }
{
    match read_in_log(&mut files.log, frame, page) {
        Ok(()) => Ok(()),
        Err(fault) => Err(fault),
    }
}

/// Reads page 1, which no frame has.
fn read_unlogged<D: Disk>(
    files: &mut Files<D>,
    numbers: &[u32],
    page: &mut [u8],
) -> Result<(), OpenFault>
    requires log_usable { IsTrue (D.Disk.is_usable files.old.log) }
    requires db_usable { IsTrue (D.Disk.is_usable files.old.db) }
    requires frames { IsClean D.Disk files.old.log → AreFramesOf page_size (D.Disk.seen files.old.log) numbers.now }
    requires none { (i : ℕ) → i < length numbers.now → slice_index numbers.now i ≢ 1 }
    requires sized { length page.old ≡ page_size }
    ensures read { OnOk result (AreClean D.Disk files.new.log files.new.db → 0 < length (D.Disk.seen files.old.db)
        → (pages : Pages) × Recovers page_size (seen_image D.Disk files.old.log files.old.db) pages × (pages 1 ≡ Some page.new)) }
    ensures refused { IfErr result (λ e. AreClean D.Disk files.new.log files.new.db
        → IsHindrance e ⊎ ((e ≡ Foreign) × IsUnreadable page_size (seen_image D.Disk files.old.log files.old.db))) }
    ensures sized { length page.new ≡ page_size }
    ensures log { OnlyReads D.Disk files.old.log files.new.log }
    ensures db { OnlyReads D.Disk files.old.db files.new.db }
{
    match read_in_file(&mut files.db, page) {
        Ok(()) => Ok(()),
        Err(fault) => Err(fault),
    }
}

/// Reads page 1, which the last frame with its number has, or else the file of pages.
fn read_page_1<D: Disk>(
    files: &mut Files<D>,
    numbers: &[u32],
    page: &mut [u8],
) -> Result<(), OpenFault>
    requires log_usable { IsTrue (D.Disk.is_usable files.old.log) }
    requires db_usable { IsTrue (D.Disk.is_usable files.old.db) }
    requires frames { IsClean D.Disk files.old.log → AreFramesOf page_size (D.Disk.seen files.old.log) numbers.now }
    requires sized { length page.old ≡ page_size }
    ensures read { OnOk result (AreClean D.Disk files.new.log files.new.db → 0 < length (D.Disk.seen files.old.db)
        → (pages : Pages) × Recovers page_size (seen_image D.Disk files.old.log files.old.db) pages × (pages 1 ≡ Some page.new)) }
    ensures refused { IfErr result (λ e. AreClean D.Disk files.new.log files.new.db
        → IsHindrance e ⊎ ((e ≡ Foreign) × IsUnreadable page_size (seen_image D.Disk files.old.log files.old.db))) }
    ensures sized { length page.new ≡ page_size }
    ensures log { OnlyReads D.Disk files.old.log files.new.log }
    ensures db { OnlyReads D.Disk files.old.db files.new.db }
{
    match last_place(numbers, 1) {
        Some(frame) => read_logged(files, numbers, frame, page),
        None => read_unlogged(files, numbers, page),
    }
}

/// Reads page 1, as a recovery would find it.
fn read_first<D: Disk>(
    alloc: Global,
    files: &mut Files<D>,
    page: &mut [u8],
) -> Result<(), OpenFault>
    requires log_usable { IsTrue (D.Disk.is_usable files.old.log) }
    requires db_usable { IsTrue (D.Disk.is_usable files.old.db) }
    requires sized { length page.old ≡ page_size }
    ensures read { OnOk result (AreClean D.Disk files.new.log files.new.db → 0 < length (D.Disk.seen files.old.db)
        → (pages : Pages) × Recovers page_size (seen_image D.Disk files.old.log files.old.db) pages × (pages 1 ≡ Some page.new)) }
    ensures refused { IfErr result (λ e. AreClean D.Disk files.new.log files.new.db
        → IsHindrance e ⊎ ((e ≡ Foreign) × IsUnreadable page_size (seen_image D.Disk files.old.log files.old.db))) }
    ensures sized { length page.new ≡ page_size }
    ensures log { OnlyReads D.Disk files.old.log files.new.log }
    ensures db { OnlyReads D.Disk files.old.db files.new.db }
{
    let numbers = match read_frames(alloc, &mut files.log) {
        Ok(numbers) => numbers,
        Err(fault) => return Err(fault),
    };
    match read_page_1(files, &numbers, page) {
        Ok(()) => Ok(()),
        Err(fault) => Err(fault),
    }
}

/// Refuses files of pages that have another page 1 than a journal. The buffer has room for it.
fn check_page_1<D: Disk>(
    alloc: Global,
    files: &mut Files<D>,
    page: &mut [u8],
) -> Result<(), OpenFault>
    requires log_usable { IsTrue (D.Disk.is_usable files.old.log) }
    requires db_usable { IsTrue (D.Disk.is_usable files.old.db) }
    requires sized { length page.old ≡ page_size }
    ensures right { OnOk result (AreClean D.Disk files.new.log files.new.db → ¬ HasOtherHead (seen_image D.Disk files.old.log files.old.db)) }
    ensures wrong { IfErr result (λ e. AreClean D.Disk files.new.log files.new.db → 0 < length (D.Disk.seen files.old.db)
        → IsHindrance e ⊎ IsOtherFile e (seen_image D.Disk files.old.log files.old.db)) }
    ensures log { OnlyReads D.Disk files.old.log files.new.log }
    ensures db { OnlyReads D.Disk files.old.db files.new.db }
{
    if let Err(fault) = read_first(alloc, files, page) {
        return Err(fault);
    }
    match read_head(page) {
        Ok(_) => Ok(()),
        Err(fault) => Err(fault),
    }
}

/// Refuses files of pages that have another page 1 than a journal.
fn check_head<D: Disk>(alloc: Global, files: &mut Files<D>) -> Result<(), OpenFault>
    requires log_usable { IsTrue (D.Disk.is_usable files.old.log) }
    requires db_usable { IsTrue (D.Disk.is_usable files.old.db) }
    ensures right { OnOk result (AreClean D.Disk files.new.log files.new.db → ¬ HasOtherHead (seen_image D.Disk files.old.log files.old.db)) }
    ensures wrong { IfErr result (λ e. AreClean D.Disk files.new.log files.new.db → 0 < length (D.Disk.seen files.old.db)
        → IsHindrance e ⊎ IsOtherFile e (seen_image D.Disk files.old.log files.old.db)) }
    ensures log { OnlyReads D.Disk files.old.log files.new.log }
    ensures db { OnlyReads D.Disk files.old.db files.new.db }
{
    let mut page = vec![in alloc; 0; PAGE_SIZE]?;
    match check_page_1(alloc, files, &mut page) {
        Ok(()) => Ok(()),
        Err(fault) => Err(fault),
    }
}

/// Whether these are the second to fourth bytes of a log.
fn is_log_name(bytes: &[u8]) -> bool
    ensures { IsTrue result ↔ bytes.now ≡ log_name }
{
    bytes == LOG_NAME.as_slice()
}

/// Refuses a file in the place of a log that is none.
fn check_log<D: Disk>(log: &mut D) -> Result<(), OpenFault>
    requires { IsTrue (D.Disk.is_usable log.old) }
    ensures right { OnOk result (IsClean D.Disk log.new → ¬ IsForeignLog (D.Disk.seen log.old)) }
    ensures wrong { IfErr result (λ e. IsClean D.Disk log.new → 41 < length (D.Disk.seen log.old) → IsHindrance e ⊎ ((e ≡ ForeignLog) × IsForeignLog (D.Disk.seen log.old))) }
    ensures same { OnlyReads D.Disk log.old log.new }
{
    let mut name = [0; 3];
    log.read_at(1, &mut name)?;
    if is_log_name(name.as_slice()) {
        Ok(())
    } else {
        Err(OpenFault::ForeignLog)
    }
}

/// Refuses files in which something was made that is none of a journal, or of another version.
fn check_made<D: Disk>(alloc: Global, files: &mut Files<D>, first: &[u8]) -> Result<(), OpenFault>
    requires log_usable { IsTrue (D.Disk.is_usable files.old.log) }
    requires db_usable { IsTrue (D.Disk.is_usable files.old.db) }
    requires head { first.now ≡ head_form 1 }
    ensures right { OnOk result (AreClean D.Disk files.new.log files.new.db → ¬ HasOtherHead (seen_image D.Disk files.old.log files.old.db)) }
    ensures refused { IfErr result (λ e. IsRefusal e → AreClean D.Disk files.new.log files.new.db → (stream : List ℕ) → ¬ StandsFor (seen_image D.Disk files.old.log files.old.db) stream) }
    ensures named { IfErr result (λ e. AreClean D.Disk files.new.log files.new.db → Explains e (seen_image D.Disk files.old.log files.old.db)) }
    ensures log { OnlyReads D.Disk files.old.log files.new.log }
    ensures db { OnlyReads D.Disk files.old.db files.new.db }
{
    match probe_blank(alloc, files, first) {
        Ok(true) => Ok(()),
        Ok(false) => match check_head(alloc, files) {
            Ok(()) => Ok(()),
            Err(fault) => Err(fault),
        },
        Err(error) => Err(fault_from(error)),
    }
}

/// The lengths of the log and of the file of pages.
fn lengths<D: Disk>(files: &mut Files<D>) -> Result<(usize, usize), OpenFault>
    requires log_usable { IsTrue (D.Disk.is_usable files.old.log) }
    requires db_usable { IsTrue (D.Disk.is_usable files.old.db) }
    ensures of_log { IfOk result (λ n. IsClean D.Disk files.new.log → n.0 ≡ length (D.Disk.seen files.old.log)) }
    ensures of_db { IfOk result (λ n. IsClean D.Disk files.new.db → n.1 ≡ length (D.Disk.seen files.old.db)) }
    ensures kind { IfErr result IsHindrance }
    ensures log { OnlyReads D.Disk files.old.log files.new.log }
    ensures db { OnlyReads D.Disk files.old.db files.new.db }
{
    let of_log = files.log.len()?;
    let of_db = files.db.len()?;
    Ok((of_log, of_db))
}

/// Refuses files in which something was made that are none of a journal, or of another version. It looks for a log's name only if
/// it is told to, and then the log is longer than a bare one.
fn check_some<D: Disk>(
    alloc: Global,
    files: &mut Files<D>,
    first: &[u8],
    looks: bool,
) -> Result<(), OpenFault>
    requires log_usable { IsTrue (D.Disk.is_usable files.old.log) }
    requires db_usable { IsTrue (D.Disk.is_usable files.old.db) }
    requires head { first.now ≡ head_form 1 }
    requires long { IsTrue looks → IsClean D.Disk files.old.log → 41 < length (D.Disk.seen files.old.log) }
    ensures head { OnOk result (AreClean D.Disk files.new.log files.new.db → ¬ HasOtherHead (seen_image D.Disk files.old.log files.old.db)) }
    ensures named_log { OnOk result (IsTrue looks → AreClean D.Disk files.new.log files.new.db → ¬ IsForeignLog (D.Disk.seen files.old.log)) }
    ensures refused { IfErr result (λ e. IsRefusal e → AreClean D.Disk files.new.log files.new.db → (stream : List ℕ) → ¬ StandsFor (seen_image D.Disk files.old.log files.old.db) stream) }
    ensures named { IfErr result (λ e. AreClean D.Disk files.new.log files.new.db → Explains e (seen_image D.Disk files.old.log files.old.db)) }
    ensures log { OnlyReads D.Disk files.old.log files.new.log }
    ensures db { OnlyReads D.Disk files.old.db files.new.db }
{
    if let Err(fault) = check_made(alloc, files, first) {
        return Err(fault);
    }
    if !looks {
        return Ok(());
    }
    match check_log(&mut files.log) {
        Ok(()) => Ok(()),
        Err(fault) => Err(fault),
    }
}

/// Whether a log of this length has lost its file of pages, which has this length.
fn is_lone(log_len: usize, db_len: usize) -> bool
    ensures { IsTrue result ↔ (db_len ≡ 0) × (41 < log_len) }
{
    db_len == 0 && log_len > BARE_LOG
}

/// Whether a log's name is looked for in a file of this length. A crash may leave another one if it may leave any bytes of a torn write.
fn has_name(log_len: usize, names_stay: bool) -> bool
    ensures { IsTrue result ↔ IsTrue names_stay × (41 < log_len) }
{
    names_stay && log_len > BARE_LOG
}

/// Refuses files of these lengths that are none of a journal, or of another version.
fn check_long<D: Disk>(
    alloc: Global,
    files: &mut Files<D>,
    first: &[u8],
    names_stay: bool,
    log_len: usize,
    db_len: usize,
) -> Result<(), OpenFault>
    requires log_usable { IsTrue (D.Disk.is_usable files.old.log) }
    requires db_usable { IsTrue (D.Disk.is_usable files.old.db) }
    requires head { first.now ≡ head_form 1 }
    requires of_log { IsClean D.Disk files.old.log → log_len ≡ length (D.Disk.seen files.old.log) }
    requires of_db { IsClean D.Disk files.old.db → db_len ≡ length (D.Disk.seen files.old.db) }
    ensures lone { OnOk result (AreClean D.Disk files.new.log files.new.db → ¬ IsLoneLog (seen_image D.Disk files.old.log files.old.db)) }
    ensures head { OnOk result (AreClean D.Disk files.new.log files.new.db → ¬ HasOtherHead (seen_image D.Disk files.old.log files.old.db)) }
    ensures named_log { OnOk result (IsTrue names_stay → AreClean D.Disk files.new.log files.new.db → ¬ IsForeignLog (D.Disk.seen files.old.log)) }
    ensures refused { IfErr result (λ e. IsRefusal e → AreClean D.Disk files.new.log files.new.db → (stream : List ℕ) → ¬ StandsFor (seen_image D.Disk files.old.log files.old.db) stream) }
    ensures named { IfErr result (λ e. AreClean D.Disk files.new.log files.new.db → Explains e (seen_image D.Disk files.old.log files.old.db)) }
    ensures log { OnlyReads D.Disk files.old.log files.new.log }
    ensures db { OnlyReads D.Disk files.old.db files.new.db }
{
    if is_lone(log_len, db_len) {
        return Err(OpenFault::LoneLog);
    }
    match check_some(alloc, files, first, has_name(log_len, names_stay)) {
        Ok(()) => Ok(()),
        Err(fault) => Err(fault),
    }
}

/// Refuses files that are none of a journal, or of another version, and a log whose file of pages is empty. In a long log it looks for a
/// log's name only where a crash leaves each byte of a torn write old or new: elsewhere it may leave other bytes there.
pub(crate) fn check_files<D: JournalDisk>(
    alloc: Global,
    files: &mut Files<D>,
    first: &[u8],
) -> Result<(), OpenFault>
    requires log_usable { IsTrue (D.Disk.is_usable files.old.log) }
    requires db_usable { IsTrue (D.Disk.is_usable files.old.db) }
    requires head { first.now ≡ head_form 1 }
    ensures lone { OnOk result (AreClean D.Disk files.new.log files.new.db → ¬ IsLoneLog (seen_image D.Disk files.old.log files.old.db)) }
    ensures head { OnOk result (AreClean D.Disk files.new.log files.new.db → ¬ HasOtherHead (seen_image D.Disk files.old.log files.old.db)) }
    ensures named_log { OnOk result (AreClean D.Disk files.new.log files.new.db → IsTrue (D.JournalDisk.names_stay files.old.log) → ¬ IsForeignLog (D.Disk.seen files.old.log)) }
    ensures refused { IfErr result (λ e. IsRefusal e → AreClean D.Disk files.new.log files.new.db → (stream : List ℕ) → ¬ StandsFor (seen_image D.Disk files.old.log files.old.db) stream) }
    ensures named { IfErr result (λ e. AreClean D.Disk files.new.log files.new.db → Explains e (seen_image D.Disk files.old.log files.old.db)) }
    ensures log { OnlyReads D.Disk files.old.log files.new.log }
    ensures db { OnlyReads D.Disk files.old.db files.new.db }
{
    let names_stay = files.log.keeps_names();
    let lens = match lengths(files) {
        Ok(lens) => lens,
        Err(fault) => return Err(fault),
    };
    match check_long(alloc, files, first, names_stay, lens.0, lens.1) {
        Ok(()) => Ok(()),
        Err(fault) => Err(fault),
    }
}
