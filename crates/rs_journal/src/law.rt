//! Laws of what files keep, and of a run that begins with it.

ghost use Rattle.rs_journal.specs.Law.{OneList};
ghost use Rattle.rs_journal.specs.Restarting.{AnswerAlike, OperationsRetain, SetsRetain};
ghost use Rattle.rs_journal.specs.StreamLaw.{OneStream};

/// Does nothing. Its contract says that files stand for one stream at most.
pub fn image_law()
    ensures { OneStream }
{}

/// Does nothing. Its contract says that files stand for one list of operations at most.
pub fn journal_law()
    ensures { OneList }
{}

/// Does nothing. Its contract says what a restart keeps: two lists of entries that retain the same messages answer each filter at each time
/// the same, whatever entries follow both (`alike`). So a run that begins with a Set of each message that an earlier one retained (`sets`)
/// answers as that run would have gone on. What is retained follows from the operations alone (`operations`).
pub fn restart_law()
    ensures alike { AnswerAlike }
    ensures sets { SetsRetain }
    ensures operations { OperationsRetain }
{}
