//! Where a message was set.

/// How many indexes are kept.
const DEPTH: usize = 16;

/// The indexes of the children that a Set goes through, one for each branch, and those of another Set as hints. A hint that does not hold
/// costs a comparison or two, and no contract speaks of it.
#[derive(Clone, Copy)]
pub struct IndexPath {
    indexes: [u8; DEPTH],
    // So many were hints at first.
    known: usize,
    // So many are passed.
    passed: usize,
}

impl IndexPath {
    /// Without hints.
    pub fn new() -> IndexPath {
        IndexPath {
            indexes: [0; DEPTH],
            known: 0,
            passed: 0,
        }
    }

    /// A new path, whose hints are the indexes of this one.
    pub fn hints(&self) -> IndexPath {
        IndexPath {
            indexes: self.indexes,
            known: self.passed,
            passed: 0,
        }
    }

    /// The hint for the next branch.
    pub(crate) fn hint(&self) -> Option<usize> {
        if self.passed < self.known && self.passed < DEPTH {
            return Some(usize::from(self.indexes[self.passed]));
        }
        None
    }

    /// The next branch goes on at this index. Of a deeper path nothing is kept.
    pub(crate) fn note(&mut self, index: usize) {
        if self.passed < DEPTH {
            self.indexes[self.passed] = u8::try_from(index).unwrap_or(u8::MAX);
            self.passed += 1;
        }
    }
}
