//! What both directions have to do with one another.

ghost use Rattle.rs_journal_record.specs.Law.{ReadsAgain, ReadsRecords, BeginNoOther, AreCutOff, ReadAgain, BeginAlike};

/// Does nothing. Its contract says what bytes are records: what was encoded is read again, and nothing else is.
pub fn record_law()
    // What was encoded is read again, whatever follows.
    ensures again { ReadsAgain }
    // Nothing else is read.
    ensures only { ReadsRecords }
    // No record begins another.
    ensures apart { BeginNoOther }
    // A part of a record is cut off.
    ensures cut_off { AreCutOff }
    // Operations that were encoded one after the other are read again, exactly those.
    ensures list { ReadAgain }
    // Where the records of operations end, those of the rest begin.
    ensures parts { BeginAlike }
{}
