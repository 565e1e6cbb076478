//! A writer that notes at which byte it is flushed.

ghost use Rattle.std.specs.Prelude.{◌<◌};

use std::alloc::Global;
use std::io;
use std::io::Write;

/// Keeps what is written, and whether each packet was flushed by itself.
#[derive(Drop)]
pub struct Replies {
    bytes: Vec<u8>,
    flushed: usize,
    is_flushed_by_packet: bool,
}

impl Replies {
    pub fn new(alloc: Global) -> Replies {
        Replies {
            bytes: Vec::new(alloc),
            flushed: 0,
            is_flushed_by_packet: true,
        }
    }

    pub fn bytes(&self) -> &[u8] {
        self.bytes.as_slice()
    }

    /// Whether each flush came after one whole packet, and all that was written is flushed.
    pub fn each_is_flushed(&self) -> bool {
        self.is_flushed_by_packet && self.flushed == self.bytes.len()
    }

    /// What was written after the last flush.
    fn pending(&self) -> &[u8] {
        self.bytes.as_slice().get(self.flushed..).unwrap_or(&[])
    }
}

impl Write for Replies {
    fn write(&mut self, buf: &[u8]) -> io::Result<usize> {
        self.bytes.extend_from_slice(buf)?;
        Ok(buf.len())
    }

    fn flush(&mut self) -> io::Result<()> {
        let is_one = is_one_packet(self.pending());
        self.is_flushed_by_packet = self.is_flushed_by_packet && is_one;
        self.flushed = self.bytes.len();
        Ok(())
    }
}

/// The seven low bits of a byte of a Variable Byte Integer (1.5.5).
fn digit(byte: u8) -> usize
    ensures { result < 128 }
{
    usize::from(byte % 128)
}

/// Whether the bytes are as many as their Remaining Length says (2.1.4).
fn is_one_packet(bytes: &[u8]) -> bool {
    match bytes {
        [_, a, body @ ..] if *a < 128 => body.len() == digit(*a),
        [_, a, b, body @ ..] if *b < 128 => body.len() == digit(*a) + 128 * digit(*b),
        [_, a, b, c, body @ ..] if *c < 128 => {
            body.len() == digit(*a) + 128 * digit(*b) + 16_384 * digit(*c)
        }
        [_, a, b, c, d, body @ ..] if *d < 128 => {
            let low = digit(*a) + 128 * digit(*b);
            body.len() == low + 16_384 * digit(*c) + 2_097_152 * digit(*d)
        }
        _ => false,
    }
}
