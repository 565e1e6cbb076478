//! What a writer begins with.

ghost use Rattle.std.specs.Prelude.{◌≡◌, List, IfOk, IsTrue, map};
ghost use Rattle.std.specs.List.{All};
ghost use Rattle.sqlite_wal.specs.Files.{seen_image};
ghost use Rattle.rs_message.specs.declared.entry.Operation.{Operation as Kept};
ghost use Rattle.rs_store.specs.Contents.{found_of};
ghost use Rattle.rs_journal_record.specs.Records.{IsOperation};
ghost use Rattle.rs_journal.specs.Journals.{IsClean, IsOpen, StandsFor};
ghost use Rattle.rs_journal.specs.Retaining.{retained_after};
ghost use Rattle.rs_journal_writer.specs.State.{Stores};
ghost use Rattle.rs_version.specs.First.{first_of};

use rs_journal::{Journal, JournalDisk, NotOpened, ReadFault, Retained};
use rs_message::Found;
use sqlite_disk::Files;
use std::alloc::Global;

/// Opens the journal of these files, and gives the messages that are retained after what it keeps: with these a store is opened
/// ([`rs_version::Blank::open_with`]), and its writer and the journal make a [`KeptWriter`](crate::KeptWriter). The seed is any number that
/// no earlier opening of these files had.
///
/// # Errors
///
/// Those of [`Journal::open`]. The files come back.
pub fn load<D: JournalDisk + Drop>(
    alloc: Global,
    files: Files<D>,
    seed: u64,
) -> Result<(Journal<D>, Vec<Found>), NotOpened<D, ReadFault>>
    requires log_usable { IsTrue (D.Disk.is_usable files.log) }
    requires db_usable { IsTrue (D.Disk.is_usable files.db) }
    ensures found { IfOk result (λ r. (operations : List Kept) × All IsOperation operations × (IsClean r.0 → StandsFor (seen_image D.Disk files.log files.db) operations)
        × (r.1.items ≡ map found_of (retained_after operations))) }
    ensures stored { IfOk result (λ r. Stores r.0 (first_of r.1.items)) }
    ensures open { IfOk result (λ r. IsOpen r.0) }
{
    let mut retained = Retained::new(alloc);
    let journal = match Journal::open(alloc, files, seed, &mut retained) {
        Ok(journal) => journal,
        Err(refused) => return Err(refused),
    };
    match retained.list(alloc) {
        Ok(given) => Ok((journal, given)),
        // Refused: the list.
        Err(_) => Err(NotOpened {
            fault: ReadFault::NoMemory,
            files: journal.close(),
        }),
    }
}
