//! Text that was read, and the bytes of its lines.

ghost use Rattle.std.specs.Prelude.{◌≡◌, ◌<◌, ◌≤◌, ℕ, List, [], ◌++◌, None, Some, IfOk, IfSome, IfNone, OnOk, length, take, min, true, false};
ghost use Rattle.std.specs.Io.KnownBytes.{Consumes, IsAtEnd};
ghost use Rattle.rs_program_pipe.specs.Lines.{has_line_feed, IsLineEnd};
ghost use Rattle.rs_program_pipe.specs.Coming.{Gives, IsOver, coming};

use crate::digits::{HexFault, read_hex};
use bytes::BytesMut;
use std::alloc::Global;
use std::io;
use std::io::{ErrorKind, Read};

/// How many bytes of text one read may give.
const TEXT_ROOM: usize = 8192;

/// Text that was read, and the bytes of the line before it.
#[derive(Drop)]
pub(crate) struct LineBuffer {
    alloc: Global,
    /// The text that was read and is not taken yet.
    text: BytesMut,
    /// The bytes of the last line that was taken that are not given yet.
    bytes: BytesMut,
    /// The number of the line at the start of the text, from 1.
    line: u64,
    /// The line that is not hex, if one was met. Nothing is taken from then on.
    not_hex: Option<u64>,
}

impl LineBuffer {
    ghost use Rattle.rs_program_pipe.specs.Views.{coming_of};

    /// With no text yet.
    pub(crate) fn new(alloc: Global) -> LineBuffer
        ensures coming { (more : List ℕ) → coming_of result more ≡ coming None [] 1 more }
        ensures not_hex { result.not_hex ≡ None }
    {
        LineBuffer {
            alloc,
            text: BytesMut::new(alloc),
            bytes: BytesMut::new(alloc),
            line: 1,
            not_hex: None,
        }
    }

    /// The line that is not hex, if one was met.
    pub(crate) fn not_hex(&self) -> Option<u64>
        ensures { result ≡ self.now.not_hex }
    {
        self.not_hex
    }

    /// Whether all bytes of the lines that were taken are given.
    pub(crate) fn has_given_all(&self) -> bool
        ensures all { result ≡ true → self.now.bytes.items ≡ [] }
        ensures some { result ≡ false → self.now.bytes.items ≡ [] → ⊥ }
    {
        self.bytes.is_empty()
    }

    /// Gives bytes that wait.
    pub(crate) fn give(&mut self, buf: &mut [u8]) -> usize
        ensures count { result ≡ min (length buf.new) (length self.old.bytes.items) }
        ensures coming { (more : List ℕ) → Gives (coming_of self.old more) (coming_of self.new more) (take result buf.new) }
    {
        let ready = self.bytes.as_slice();
        let count = buf.len().min(ready.len());
        buf[..count].copy_from_slice(&ready[..count]);
        self.bytes.advance(count);
        count
    }

    /// Reads more text. False at the end of the input.
    pub(crate) fn read_text<R: Read>(&mut self, input: &mut R) -> io::Result<bool>
        ensures same { self.new ≡ record self.old { text = self.new.text } }
        ensures text { (more : List ℕ) × (self.new.text.items ≡ self.old.text.items ++ more)
            × Consumes (R.remaining input.old) (R.remaining input.new) more }
        ensures end { IfOk result (λ more. more ≡ false
            → (self.new.text.items ≡ self.old.text.items) × IsAtEnd (R.remaining input.new)) }
    {
        self.text.reserve(TEXT_ROOM)?;
        let n = self.text.read_from(input)?;
        Ok(n > 0)
    }

    /// How much text waits.
    pub(crate) fn text_len(&self) -> usize
        ensures { result ≡ length self.now.text.items }
    {
        self.text.len()
    }

    /// The end of the first line, if its line feed is there. The first `scanned` bytes have none.
    pub(crate) fn line_end(&self, scanned: usize) -> Option<usize>
        requires within { scanned ≤ length self.now.text.items }
        requires clean { has_line_feed (take scanned self.now.text.items) ≡ false }
        ensures found { IfSome result (λ end. IsLineEnd self.now.text.items end) }
        ensures none { IfNone result (has_line_feed self.now.text.items ≡ false) }
    {
        match find_line_feed(&self.text.as_slice()[scanned..]) {
            Some(at) => Some(scanned + at),
            None => None,
        }
    }

    /// Takes the first line, which ends here, and its line feed.
    pub(crate) fn take_line(&mut self, end: usize) -> io::Result<()>
        requires given { self.old.bytes.items ≡ [] }
        requires ongoing { self.old.not_hex ≡ None }
        requires line { IsLineEnd self.old.text.items end }
        ensures coming { (more : List ℕ) → coming_of self.new more ≡ coming_of self.old more }
        ensures ongoing { OnOk result (self.new.not_hex ≡ None) }
    {
        match read_hex(self.alloc, &self.text.as_slice()[..end]) {
            Ok(bytes) => {
                self.bytes = BytesMut::from_vec(bytes);
                self.text.advance(end + 1);
                self.line = self.line.saturating_add(1);
                Ok(())
            }
            Err(fault) => Err(self.stop(fault)),
        }
    }

    /// Takes the last line, which no line feed ends. It may be empty.
    pub(crate) fn take_last(&mut self) -> io::Result<()>
        requires given { self.old.bytes.items ≡ [] }
        requires ongoing { self.old.not_hex ≡ None }
        requires line { has_line_feed self.old.text.items ≡ false }
        ensures coming { coming_of self.new [] ≡ coming_of self.old [] }
        ensures ongoing { OnOk result (self.new.not_hex ≡ None) }
        ensures end { OnOk result (self.new.bytes.items ≡ [] → IsOver (coming_of self.new [])) }
    {
        match read_hex(self.alloc, self.text.as_slice()) {
            Ok(bytes) => {
                self.bytes = BytesMut::from_vec(bytes);
                self.text.clear();
                self.line = self.line.saturating_add(1);
                Ok(())
            }
            Err(fault) => Err(self.stop(fault)),
        }
    }

    /// Notes a line that is not hex.
    fn stop(&mut self, fault: HexFault) -> io::Error
        ensures not_hex { fault ≡ HexFault.NotHex → self.new ≡ record self.old { not_hex = Some self.old.line } }
        ensures no_memory { fault ≡ HexFault.NoMemory → self.new ≡ self.old }
    {
        match fault {
            HexFault::NotHex => {
                self.not_hex = Some(self.line);
                io::Error::from(ErrorKind::InvalidData)
            }
            HexFault::NoMemory => io::Error::from(ErrorKind::OutOfMemory),
        }
    }
}

/// The index of the first line feed.
fn find_line_feed(text: &[u8]) -> Option<usize>
    ensures found { IfSome result (λ end. IsLineEnd text.now end) }
    ensures none { IfNone result (has_line_feed text.now ≡ false) }
{
    for (at, b) in text.iter().enumerate() {
        if *b == b'\n' {
            return Some(at);
        }
    }
    None
}
