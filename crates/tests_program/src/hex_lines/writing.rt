//! Lines that are written in pieces of every size.

use rs_program_pipe::HexWriter;
use std::alloc::Global;
use std::io;
use std::io::{ErrorKind, Write};
use std::test::Fail;

// Takes at most `step` bytes a call. The call with this number fails, a write or a flush, counted from 1.
#[derive(Drop)]
struct StepWriter {
    text: Vec<u8>,
    step: usize,
    calls: usize,
    fails_at: usize,
    flushes: usize,
}

impl StepWriter {
    fn call(&mut self) -> io::Result<()> {
        self.calls = self.calls.saturating_add(1);
        if self.calls == self.fails_at {
            return Err(io::Error::from(ErrorKind::Interrupted));
        }
        Ok(())
    }
}

impl Write for StepWriter {
    fn write(&mut self, buf: &[u8]) -> io::Result<usize> {
        self.call()?;
        let n = buf.len().min(self.step);
        self.text.extend_from_slice(&buf[..n])?;
        Ok(n)
    }

    fn flush(&mut self) -> io::Result<()> {
        self.call()?;
        self.flushes = self.flushes.saturating_add(1);
        Ok(())
    }
}

// Writes all of the bytes, and each call that failed again.
fn write_line(writer: &mut HexWriter<StepWriter>, bytes: &[u8]) -> Result<(), Fail> {
    let mut done = 0;
    for _ in 0..1000 {
        if done >= bytes.len() {
            if writer.flush().is_ok() {
                return Ok(());
            }
        } else if let Ok(n) = writer.write(&bytes[done..]) {
            done = done.saturating_add(n);
        }
    }
    Err(Fail::from("no end"))
}

// Whether the lines are written as this text by an output that takes `step` bytes a call, of which the one with this number fails. Each
// line is flushed once.
fn are_written(
    alloc: Global,
    step: usize,
    fails_at: usize,
    lines: &[&[u8]],
    text: &[u8],
) -> Result<bool, Fail> {
    let mut writer = HexWriter::new(StepWriter {
        text: Vec::new(alloc),
        step,
        calls: 0,
        fails_at,
        flushes: 0,
    });
    for line in lines {
        write_line(&mut writer, line)?;
    }
    let output = writer.into_inner();
    Ok(output.text.as_slice() == text && output.flushes == lines.len())
}

// However few digits the output takes at once.
#[test]
fn all_bytes_are_written(rt: HostRuntime) -> Result<(), Fail> {
    let lines: [&[u8]; 2] = [b"\x00\x0A\x1f\xF0\xff", b"\x12"];
    for step in 1..=7 {
        assert!(rt;
            are_written(rt.alloc(), step, 0, &lines, b"000a1ff0ff\n12\n")?,
            "{step}"
        );
    }
    Ok(())
}

// A call that failed and is made again leaves no digit out, and writes none twice.
#[test]
fn writing_goes_on_after_a_failed_write(rt: HostRuntime) -> Result<(), Fail> {
    let lines: [&[u8]; 1] = [b"\x01\x23\x45\x67\x89"];
    for fails_at in 1..=11 {
        assert!(rt;
            are_written(rt.alloc(), 1, fails_at, &lines, b"0123456789\n")?,
            "{fails_at}"
        );
    }
    Ok(())
}

// Nothing is written if the output takes nothing.
#[test]
fn nothing_is_written_if_the_output_takes_nothing(rt: HostRuntime) {
    let mut lines = HexWriter::new(StepWriter {
        text: Vec::new(rt.alloc()),
        step: 0,
        calls: 0,
        fails_at: 0,
        flushes: 0,
    });
    assert!(rt; lines.write(b"\x01").ok() == Some(0));
    assert!(rt; lines.flush().is_err());
}
