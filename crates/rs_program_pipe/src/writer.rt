//! A writer of lines of hex digits.

ghost use Rattle.std.specs.Prelude.{◌≡◌, ◌+◌, ◌%◌, ◌≤◌, ◌∷◌, [], None, OnOk, IfOk, take, length, MatchResult};
ghost use Rattle.std.specs.Io.{WritesAtMost};
ghost use Rattle.std.specs.Io.KnownBytes.{Appends, Keeps, WriteAppends};
ghost use Rattle.hex.specs.Hex.{encode_lower};
ghost use Rattle.rs_program_pipe.specs.Lines.{written_bytes};

use std::io;
use std::io::{ErrorKind, Write};

/// How many bytes one write takes at most.
const CHUNK: usize = 512;

/// Writes bytes as lower case hex digits, and ends a line at each flush.
///
/// A byte counts as written once its first digit is. If the output took no more then, the second digit is
/// due, and the next write or flush begins with it.
#[derive(Drop)]
pub struct HexWriter<W> {
    output: W,
    /// The second digit of the last byte, if it is due.
    due: Option<u8>,
}

impl<W: Write> HexWriter<W> {
    ghost use Rattle.rs_program_pipe.specs.Views.{output_of, text_of, hex_contents};

    /// Writes lines to this output.
    pub fn new(output: W) -> HexWriter<W>
        ensures output { output_of result ≡ output }
        ensures bytes { hex_contents W.contents result ≡ written_bytes (W.contents output) }
    {
        HexWriter { output, due: None }
    }

    /// The output. A digit that is due is lost.
    pub fn into_inner(self) -> W
    where
        W: Drop,
        ensures { result ≡ output_of self }
    {
        self.output
    }

    /// Writes the digit that is due.
    fn write_due(&mut self) -> io::Result<()>
        ensures text { Keeps (text_of W.contents self.old) (text_of W.contents self.new) }
        ensures none { OnOk result (self.new.due ≡ None) }
    {
        let Some(digit) = self.due else {
            return Ok(());
        };
        match write_byte(&mut self.output, digit) {
            Ok(()) => {
                self.due = None;
                Ok(())
            }
            Err(error) => Err(error),
        }
    }

    /// Writes the first of these digits, no digit being due. They are those of so many bytes.
    fn write_text(&mut self, digits: &[u8]) -> io::Result<usize>
        requires none { self.old.due ≡ None }
        requires even { length digits.now % 2 ≡ 0 }
        ensures count { IfOk result (λ n. n + n ≤ length digits.now) }
        ensures digits { MatchResult result
            (λ n. Appends (text_of W.contents self.old) (text_of W.contents self.new) (take (n + n) digits.now))
            (λ _. Keeps (text_of W.contents self.old) (text_of W.contents self.new)) }
    {
        let written = self.output.write(digits)?;
        if written % 2 == 0 {
            Ok(written / 2)
        } else {
            self.due = Some(digits[written]);
            Ok(written / 2 + 1)
        }
    }

    /// Writes the digits of the first of these bytes, no digit being due.
    fn write_digits(&mut self, buf: &[u8]) -> io::Result<usize>
        requires { self.old.due ≡ None }
        ensures bound { WritesAtMost result buf.now }
        ensures digits { MatchResult result
            (λ n. Appends (text_of W.contents self.old) (text_of W.contents self.new) (encode_lower (take n buf.now)))
            (λ _. Keeps (text_of W.contents self.old) (text_of W.contents self.new)) }
    {
        let bytes = &buf[..buf.len().min(CHUNK)];
        let mut digits = [0u8; 2 * CHUNK];
        let digits = &mut digits[..2 * bytes.len()];
        match hex::encode_to_slice(bytes, digits) {
            Ok(()) => self.write_text(digits),
            Err(_) => Err(io::Error::from(ErrorKind::Other)),
        }
    }

    /// Writes a line feed and flushes the output, no digit being due.
    fn end_line(&mut self) -> io::Result<()>
        requires { self.old.due ≡ None }
        ensures bytes { Keeps (hex_contents W.contents self.old) (hex_contents W.contents self.new) }
        ensures line { OnOk result
            (Appends (W.contents (output_of self.old)) (W.contents (output_of self.new)) (10 ∷ [])) }
    {
        match write_byte(&mut self.output, b'\n') {
            Ok(()) => self.output.flush(),
            Err(error) => Err(error),
        }
    }
}

impl<W: Write> Write for HexWriter<W> {
    ghost use Rattle.rs_program_pipe.specs.Views.{output_of, text_of, hex_contents};

    ghost contents = { hex_contents W.contents };

    fn write(&mut self, buf: &[u8]) -> io::Result<usize>
        ensures bound { WritesAtMost result buf.now }
        ensures bytes { WriteAppends (hex_contents W.contents self.old) (hex_contents W.contents self.new) result buf.now }
        ensures digits { MatchResult result
            (λ n. Appends (text_of W.contents self.old) (text_of W.contents self.new) (encode_lower (take n buf.now)))
            (λ _. Keeps (text_of W.contents self.old) (text_of W.contents self.new)) }
    {
        match self.write_due() {
            Ok(()) => self.write_digits(buf),
            Err(error) => Err(error),
        }
    }

    /// Ends the line, and flushes the output.
    fn flush(&mut self) -> io::Result<()>
        ensures bytes { Keeps (hex_contents W.contents self.old) (hex_contents W.contents self.new) }
        // The output has the line then, with the digit that was due.
        ensures line { OnOk result
            (Appends (text_of W.contents self.old) (W.contents (output_of self.new)) (10 ∷ [])) }
    {
        match self.write_due() {
            Ok(()) => self.end_line(),
            Err(error) => Err(error),
        }
    }
}

/// Writes one byte. Taking nothing is an error.
fn write_byte<W: Write>(output: &mut W, byte: u8) -> io::Result<()>
    ensures { MatchResult result
        (λ _. Appends (W.contents output.old) (W.contents output.new) (byte ∷ []))
        (λ _. Keeps (W.contents output.old) (W.contents output.new)) }
{
    match output.write(&[byte]) {
        Ok(0) => Err(io::Error::from(ErrorKind::WriteZero)),
        Ok(_) => Ok(()),
        Err(error) => Err(error),
    }
}
