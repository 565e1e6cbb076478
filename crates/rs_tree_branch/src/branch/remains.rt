//! What a Sweep took out of a tree.

use super::{Below, Branch, Child, Stem};
use std::alloc::Global;
use std::mem;
use std::sync::Arc;

/// How many nodes are dropped for each entry.
const NODES: usize = 4;

/// Nodes of the tree before the last Sweep that are not dropped yet. To drop a large tree takes longer than to sweep it, so each later
/// entry drops some.
#[derive(Drop)]
pub struct Remains {
    nodes: Vec<Child>,
}

impl Remains {
    /// Without nodes.
    pub fn new(alloc: Global) -> Remains {
        Remains {
            nodes: Vec::new(alloc),
        }
    }

    /// The number of nodes, without those below them.
    pub fn len(&self) -> usize {
        self.nodes.len()
    }

    /// Adds the children of a branch. If memory is refused, they are dropped at once.
    fn take(&mut self, alloc: Global, branch: &mut Branch) {
        let mut children = mem::replace(&mut branch.children, Vec::new(alloc));
        if self.nodes.is_empty() {
            self.nodes = children;
        } else {
            drop(self.nodes.append(&mut children));
        }
    }

    /// Keeps a tree instead of what is left of the one before, which is dropped at once: so Sweeps one after the other leave no more than
    /// one tree. If something else shares the tree, that drops it then.
    pub fn replace(&mut self, alloc: Global, tree: Arc<Branch>) {
        self.nodes = Vec::new(alloc);
        self.add(alloc, tree);
    }

    /// Adds the children of a branch, unless something else shares it, which drops it then.
    fn add(&mut self, alloc: Global, tree: Arc<Branch>) {
        let mut tree = tree;
        if let Some(branch) = Arc::get_mut(&mut tree) {
            self.take(alloc, branch);
        }
    }

    /// The same of what is below a chain.
    fn add_stem(&mut self, alloc: Global, stem: Arc<Stem>) {
        let mut stem = stem;
        if let Some(own) = Arc::get_mut(&mut stem) {
            self.take(alloc, &mut own.branch);
        }
    }

    /// Drops some nodes, but not what is below a large one.
    pub fn shrink(&mut self, alloc: Global) {
        for _ in 0..NODES {
            let Some(node) = self.nodes.pop() else {
                return;
            };
            let Child {
                level: _level,
                below,
            } = node;
            match below {
                Below::Few(bucket) => drop(bucket),
                Below::Inner(stem) => self.add_stem(alloc, stem),
                Below::Chunk(chunk) => self.add(alloc, chunk),
            }
        }
    }
}
