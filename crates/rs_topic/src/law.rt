//! Laws that relate the definitions of this crate. The functions do nothing: their contracts are the laws.

ghost use Rattle.rs_topic.specs.Law.{AreTheLevels, IsTheOrderOfReplay, TestsMatches, JudgesNames, JudgesFilters};

/// The levels of a text are the one list of one or more texts without a slash which, joined by slashes, gives the text (4.7.1.1).
pub fn level_law()
    ensures { AreTheLevels }
{}

/// The comparison of topic names answers `Less` exactly if the first name comes before the second level by level, each by its
/// bytes, a list of levels before its extensions.
pub fn order_law()
    ensures { IsTheOrderOfReplay }
{}

/// The test of a match, which the layers above cite, is true exactly for the pairs of the match relation (4.7.1, 4.7.2).
pub fn match_law()
    ensures { TestsMatches }
{}

/// A text is accepted as a topic name, and as a topic filter, exactly if it is one by the standard (4.7.1, 4.7.3); else it is
/// refused with its first fault.
pub fn reading_law()
    ensures names { JudgesNames }
    ensures filters { JudgesFilters }
{}
