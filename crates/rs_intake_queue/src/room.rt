//! Memory that is left for clients that read and clear.

ghost use Rattle.std.specs.Prelude.{◌≡◌, ◌≤◌, IfOk, length, vec_capacity};
ghost use Rattle.rs_intake_queue.specs.declared.room.TheConstants.{BLOCKS, BLOCK_SIZE};

use std::alloc::{AllocError, Global};

/// How many blocks have to be left when a message is stored.
const BLOCKS: usize = 6;

/// How many bytes a block has: more than a client that comes reads into. Cleared messages leave gaps, and few that are larger.
const BLOCK_SIZE: usize = 8_192;

/// A block of memory.
#[derive(Drop)]
struct Block {
    bytes: Vec<u8>,
    ghost wide: { BLOCK_SIZE ≤ vec_capacity bytes },
}

/// Whether so many blocks are left. None is kept.
pub fn has_room(alloc: Global) -> bool {
    room(alloc).is_ok()
}

/// So many blocks.
fn room(alloc: Global) -> Result<Vec<Block>, AllocError>
    ensures { IfOk result (λ blocks. length blocks.items ≡ BLOCKS) }
{
    let mut blocks = Vec::with_capacity(alloc, BLOCKS)?;
    for _ in 0..BLOCKS {
        let bytes = Vec::with_capacity(alloc, BLOCK_SIZE)?;
        match blocks.push(Block { bytes }) {
            Ok(()) => {}
            Err(_) => return Err(AllocError),
        }
    }
    Ok(blocks)
}
