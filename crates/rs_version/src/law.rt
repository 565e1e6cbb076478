//! What legal lists say of origins, and what a refusal of any writer says of one that holds at most one entry, as laws over the definitions.

ghost use Rattle.rs_version.specs.Receipts.{OriginsDiffer};
ghost use Rattle.rs_version.specs.Writer.{OneHeld};

/// Does nothing. Its contract says that no two entries of a legal list have one origin: each origin has one number at most.
pub fn origin_law()
    ensures differ { OriginsDiffer }
{}

/// Does nothing. Its contract says that a refusal says of a writer that holds at most one entry all that it says of a
/// [`VersionWriter`](crate::VersionWriter).
pub fn one_held_law()
    ensures { OneHeld }
{}
