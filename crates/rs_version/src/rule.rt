//! The rule of the published copy: what it is, and what the writer and each seat know of it.

use crate::catalogue_copy::CatalogueCopy;
use crate::prefix::Prefix;
use atomic_table::{Join, Split};
use crossbeam_utils::rule::{Outcome, Protocol};

/// What the writer or a seat knows: the limit, and a prefix that was published. No value of it is made.
pub struct KnownVersion {
    /// How many topics may hold a message.
    pub limit: u32,
    /// The prefix.
    pub prefix: Prefix,
}

/// The published copy has the content of its prefix, which is legal, and what the writer or a seat knows is a prefix of that.
pub struct VersionRule;

impl Protocol<CatalogueCopy, Option<KnownVersion>> for VersionRule {
    ghost use Rattle.std.specs.Prelude.{None};
    ghost use Rattle.rs_version.specs.VersionRule.{Keeps};

    ghost holds = { Keeps };

    ghost first = { None };
}

/// Whoever publishes or reads knows the published copy from then on.
pub struct Sees;

impl Outcome<CatalogueCopy, Option<KnownVersion>> for Sees {
    ghost use Rattle.rs_version.specs.VersionRule.{SeesIt};

    ghost then = { SeesIt };
}

/// A note of what the writer knows, which a reader takes in.
pub struct Notes;

impl Split<Option<KnownVersion>> for Notes {
    ghost left = { λ v. v };

    ghost right = { λ v. v };
}

impl Join<Option<KnownVersion>> for Notes {
    ghost use Rattle.std.specs.Prelude.{None};

    ghost both = { λ v w. w };

    ghost spent = { None };
}
