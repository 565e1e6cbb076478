//! What a start after a crash has to do with the run before.

ghost use Rattle.rs_journal_writer.specs.Law.{AnswerAsBefore};

/// Does nothing. Its contract says what a server answers that starts from what a crash left of the journal of a
/// [`KeptWriter`](crate::KeptWriter): as one that took all that was published, and perhaps some of what came behind it. What the image of a
/// crash is, [`KeptWriter::journal`](crate::KeptWriter::journal) says, and what an opening finds in it, [`load`](crate::load).
pub fn crash_law()
    ensures { AnswerAsBefore }
{}
