//! Memory that the writer keeps for when no other is left.

ghost use Rattle.std.specs.Prelude.{◌≡◌, ◌+◌, ◌<◌, ◌≤◌, [], length, vec_capacity, MatchBool, OnErr, OnOk};
ghost use Rattle.rs_version.specs.declared.reserve.TheConstants.{BLOCK_SIZE, ENOUGH_BLOCKS, MOST_BLOCKS};

use std::alloc::{AllocError, Global};

/// How many bytes a block has: no more than the largest nodes of a catalogue, so that one fits where such a node was.
const BLOCK_SIZE: usize = 2_048;

/// How many blocks there are at most.
const MOST_BLOCKS: usize = 64;

/// With so many there is enough for the nodes that a change makes.
const ENOUGH_BLOCKS: usize = 32;

/// A block of memory.
#[derive(Drop)]
struct Block {
    bytes: Vec<u8>,
    ghost wide: { BLOCK_SIZE ≤ vec_capacity bytes },
}

/// Memory that nobody uses. It is in small blocks: what cleared messages leave lies apart, and has to be enough to have them back.
#[derive(Drop)]
pub struct Reserve {
    alloc: Global,
    blocks: Vec<Block>,
    ghost few: { length blocks.items ≤ MOST_BLOCKS },
}

impl Reserve {
    /// Without memory.
    pub fn new(alloc: Global) -> Reserve {
        Reserve {
            alloc,
            blocks: Vec::new(alloc),
        }
    }

    /// Takes the blocks that are missing, if they are to be had.
    ///
    /// # Errors
    ///
    /// [`AllocError`] if there are not enough then.
    pub fn fill(&mut self) -> Result<(), AllocError>
        ensures enough { OnOk result (ENOUGH_BLOCKS ≤ length self.new.blocks.items) }
        ensures kept { length self.old.blocks.items ≤ length self.new.blocks.items }
    {
        for _ in self.blocks.len()..MOST_BLOCKS {
            if self.take_block().is_err() {
                break;
            }
        }
        if self.blocks.len() < ENOUGH_BLOCKS {
            // Refused: the next block.
            return Err(AllocError);
        }
        Ok(())
    }

    /// Takes one more block.
    fn take_block(&mut self) -> Result<(), AllocError>
        requires { length self.old.blocks.items < MOST_BLOCKS }
        ensures more { OnOk result (length self.new.blocks.items ≡ length self.old.blocks.items + 1) }
        ensures refused { OnErr result (self.new.blocks.items ≡ self.old.blocks.items) }
    {
        let bytes = Vec::with_capacity(self.alloc, BLOCK_SIZE)?;
        match self.blocks.push(Block { bytes }) {
            Ok(()) => Ok(()),
            Err(_) => Err(AllocError),
        }
    }

    /// Gives all blocks back. Whether there were any.
    pub fn give_back(&mut self) -> bool
        ensures some { MatchBool result (0 < length self.old.blocks.items) (self.old.blocks.items ≡ []) }
        ensures none { self.new.blocks.items ≡ [] }
    {
        let had_some = !self.blocks.is_empty();
        self.blocks = Vec::new(self.alloc);
        had_some
    }
}
