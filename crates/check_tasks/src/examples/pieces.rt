//! A reader that gives its bytes in pieces.

use std::io;
use std::io::Read;

/// Gives the bytes before `cut` in one read and the others in another, or one byte a read if `cut` is 0.
#[derive(Drop)]
pub struct Pieces<'a> {
    bytes: &'a [u8],
    at: usize,
    cut: usize,
}

impl<'a> Pieces<'a> {
    pub fn new(bytes: &'a [u8], cut: usize) -> Pieces<'a> {
        Pieces { bytes, at: 0, cut }
    }

    /// The end of the piece that begins at `at`.
    fn end(&self) -> usize {
        if self.cut == 0 {
            return self.at.saturating_add(1);
        }
        if self.at < self.cut {
            return self.cut;
        }
        self.bytes.len()
    }
}

impl Read for Pieces<'_> {
    fn read(&mut self, buf: &mut [u8]) -> io::Result<usize> {
        let end = self.end().min(self.bytes.len());
        let Some(piece) = self.bytes.get(self.at..end) else {
            return Ok(0);
        };
        let n = piece.len().min(buf.len());
        buf[..n].copy_from_slice(&piece[..n]);
        self.at = self.at.saturating_add(n);
        Ok(n)
    }
}
