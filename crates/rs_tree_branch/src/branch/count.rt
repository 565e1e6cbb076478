//! How many branches there are.

use super::{Below, Branch, Child};

/// The branches below some children.
#[cycle(branches)]
fn branches_below(children: &[Child]) -> u32 {
    let mut count: u32 = 0;
    for child in children {
        count = count.saturating_add(child.branches());
    }
    count
}

impl Child {
    #[cycle(branches)]
    fn branches(&self) -> u32 {
        match &self.below {
            Below::Few(_) => 0,
            Below::Inner(stem) => stem.branch.branches(),
            Below::Chunk(chunk) => chunk.branches(),
        }
    }
}

impl Branch {
    /// This branch and those below it, chunks among them.
    #[cycle(branches)]
    pub fn branches(&self) -> u32 {
        branches_below(self.children.as_slice()).saturating_add(1)
    }
}
