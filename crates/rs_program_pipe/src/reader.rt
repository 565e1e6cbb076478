//! A reader of lines of hex digits.

ghost use Rattle.std.specs.Prelude.{◌≡◌, ◌<◌, [], None, Some, IfOk, IfSome, OnOk, MatchOption, length, false};
ghost use Rattle.std.specs.Io.{ReadsAtMost};
ghost use Rattle.std.specs.Io.KnownBytes.{ReadConsumes, IsAtEnd};
ghost use Rattle.rs_program_pipe.specs.Lines.{has_line_feed, read_bytes, line_not_hex, IsLineEnd};
ghost use Rattle.rs_program_pipe.specs.Coming.{KeepsOutlook, KeepsStop, IsAllOver, stop_coming};

use crate::line_buffer::LineBuffer;
use std::alloc::Global;
use std::io;
use std::io::{ErrorKind, Read};

/// The bytes that lines of hex digits stand for.
///
/// Line feeds separate the lines. Spaces are ignored, and so are empty lines. A line is read as a whole,
/// so a line that is not hex gives none of its bytes. From then on every read fails.
#[derive(Drop)]
pub struct HexReader<R> {
    input: R,
    lines: LineBuffer,
}

impl<R: Read> HexReader<R> {
    ghost use Rattle.rs_program_pipe.specs.Views.{input_of, not_hex_of, outlook, hex_remaining};

    /// Reads lines from this input.
    pub fn new(alloc: Global, input: R) -> HexReader<R>
        ensures input { input_of result ≡ input }
        ensures not_hex { not_hex_of result ≡ None }
        ensures bytes { hex_remaining R.remaining result ≡ read_bytes (R.remaining input) }
        ensures stop { IfSome (R.remaining input)
            (λ text. stop_coming (outlook R.remaining result) ≡ Some (line_not_hex text)) }
    {
        HexReader {
            input,
            lines: LineBuffer::new(alloc),
        }
    }

    /// The line, counted from 1, that is not hex, if a read failed for one. [`u64::MAX`] stands for itself
    /// and all above.
    pub fn not_hex(&self) -> Option<u64>
        ensures { result ≡ not_hex_of self.now }
    {
        self.lines.not_hex()
    }

    /// The input. What was read of it and not given is lost.
    pub fn into_inner(self) -> R
    where
        R: Drop,
        ensures { result ≡ input_of self }
    {
        self.input
    }

    /// Reads text until a line ends. None at the end of the input.
    fn find_line(&mut self) -> io::Result<Option<usize>>
        ensures same { self.new.lines ≡ record self.old.lines { text = self.new.lines.text } }
        ensures keeps { KeepsOutlook (outlook R.remaining self.old) (outlook R.remaining self.new) }
        ensures found { IfOk result (λ found. MatchOption found
            ((has_line_feed self.new.lines.text.items ≡ false) × IsAtEnd (R.remaining self.new.input))
            (λ end. IsLineEnd self.new.lines.text.items end)) }
    {
        let mut scanned = 0;
        'text: for _ in 0..u64::MAX {
            if let Some(end) = self.lines.line_end(scanned) {
                return Ok(Some(end));
            }
            scanned = self.lines.text_len();
            if !self.lines.read_text(&mut self.input)? {
                return Ok(None);
            }
        }
        // No input is read so often.
        Err(io::Error::from(ErrorKind::TimedOut))
    }

    /// Takes the next line. False at the end.
    fn next_line(&mut self) -> io::Result<bool>
        requires given { self.old.lines.bytes.items ≡ [] }
        requires ongoing { self.old.lines.not_hex ≡ None }
        ensures keeps { KeepsOutlook (outlook R.remaining self.old) (outlook R.remaining self.new) }
        ensures ongoing { OnOk result (self.new.lines.not_hex ≡ None) }
        ensures end { IfOk result (λ more. more ≡ false
            → self.new.lines.bytes.items ≡ [] → IsAllOver (outlook R.remaining self.new)) }
    {
        match self.find_line()? {
            Some(end) => {
                self.lines.take_line(end)?;
                Ok(true)
            }
            None => {
                self.lines.take_last()?;
                Ok(false)
            }
        }
    }

    /// Takes lines until some bytes wait, or to the end.
    fn fill(&mut self) -> io::Result<()>
        requires { self.old.lines.not_hex ≡ None }
        ensures keeps { KeepsOutlook (outlook R.remaining self.old) (outlook R.remaining self.new) }
        ensures ongoing { OnOk result (self.new.lines.not_hex ≡ None) }
        ensures end { OnOk result (self.new.lines.bytes.items ≡ [] → IsAllOver (outlook R.remaining self.new)) }
    {
        let mut more = true;
        'lines: for _ in 0..u64::MAX {
            if !more || !self.lines.has_given_all() {
                return Ok(());
            }
            more = self.next_line()?;
        }
        // No input is read so often.
        Err(io::Error::from(ErrorKind::TimedOut))
    }
}

impl<R: Read> Read for HexReader<R> {
    ghost use Rattle.rs_program_pipe.specs.Views.{outlook, hex_remaining};

    ghost remaining = { hex_remaining R.remaining };

    /// Fails if the input does, if a line is not hex, or if memory is refused. No byte is lost then.
    fn read(&mut self, buf: &mut [u8]) -> io::Result<usize>
        ensures bound { ReadsAtMost result buf.new }
        ensures bytes { ReadConsumes (hex_remaining R.remaining self.old) (hex_remaining R.remaining self.new) result buf.new }
        // The line that stops the reader stays the same, so `not_hex` can be no other.
        ensures stop { KeepsStop (stop_coming (outlook R.remaining self.old)) (stop_coming (outlook R.remaining self.new)) }
        ensures end { IfOk result (λ n. n ≡ 0 → 0 < length buf.new → IsAllOver (outlook R.remaining self.new)) }
    {
        if self.lines.not_hex().is_some() {
            return Err(io::Error::from(ErrorKind::InvalidData));
        }
        self.fill()?;
        Ok(self.lines.give(buf))
    }
}
