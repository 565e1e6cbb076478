//! What a connection was refused, in the words of the log.

use rs_server::Refusals;
use std::fmt;
use std::fmt::{Display, Formatter};

/// What the store refused a connection, behind the rest of its line. It is empty if nothing was refused.
#[derive(Clone, Copy)]
pub(crate) struct Refused(pub(crate) Refusals);

impl Display for Refused {
    fn fmt<W: fmt::Write>(&self, f: &mut Formatter<W>) -> fmt::Result {
        let Refusals {
            full,
            no_memory,
            unknown,
            filters_no_memory,
            filters_too_long,
        } = self.0;
        let mut before = ", refused ";
        for (count, what) in [
            (full, "publications (store full)"),
            (no_memory, "publications (no memory)"),
            (unknown, "publications (not known)"),
            (filters_no_memory, "filters (no memory)"),
            (filters_too_long, "filters (too many messages)"),
        ] {
            if count > 0 {
                write!(f, "{before}{count} {what}")?;
                before = ", ";
            }
        }
        Ok(())
    }
}
