//! Reads and writes that fail are counted.

use bytes::BytesMut;
use rs_server::Counted;
use std::alloc::Global;
use std::io;
use std::io::{ErrorKind, Read, Write};
use std::test::Fail;

static BYTES: [u8; 5] = [1, 2, 3, 4, 5];

// Ends each call as it is told, by an error or by a number of bytes, and notes the length of each slice.
#[derive(Drop)]
struct Scripted {
    endings: [Option<usize>; 5],
    slices: Vec<usize>,
    flushes: usize,
}

impl Scripted {
    fn end(&mut self, len: usize) -> io::Result<usize> {
        let ending = self.endings.get(self.slices.len()).copied().flatten();
        self.slices.push(len)?;
        match ending {
            Some(n) => Ok(n.min(len)),
            None => Err(io::Error::from(ErrorKind::Interrupted)),
        }
    }
}

impl Read for Scripted {
    fn read(&mut self, buf: &mut [u8]) -> io::Result<usize> {
        let n = self.end(buf.len())?;
        Ok(n.min(buf.len()))
    }
}

impl Write for Scripted {
    fn write(&mut self, buf: &[u8]) -> io::Result<usize> {
        let n = self.end(buf.len())?;
        Ok(n.min(buf.len()))
    }

    // The second one fails.
    fn flush(&mut self) -> io::Result<()> {
        self.flushes = self.flushes.saturating_add(1);
        if self.flushes == 2 {
            return Err(io::Error::from(ErrorKind::BrokenPipe));
        }
        Ok(())
    }
}

fn by_script(alloc: Global, endings: [Option<usize>; 5]) -> Counted<Scripted> {
    Counted::new(Scripted {
        endings,
        slices: Vec::new(alloc),
        flushes: 0,
    })
}

fn written(writer: &mut Counted<Scripted>, len: usize) -> (Option<usize>, u64) {
    let result = writer.write(&BYTES[..len.min(5)]).ok();
    (result, writer.failures())
}

fn flushed(writer: &mut Counted<Scripted>) -> (bool, u64) {
    let result = writer.flush().is_ok();
    (result, writer.failures())
}

fn read_some(reader: &mut Counted<Scripted>, len: usize) -> (Option<usize>, u64) {
    let mut buf = [0u8; 5];
    let result = reader.read(&mut buf[..len.min(5)]).ok();
    (result, reader.failures())
}

// A call counts if it ends in an error, or if nothing is written of a slice that is not empty.
#[test]
fn failed_writes_are_counted(rt: HostRuntime) {
    let mut writer = by_script(rt.alloc(), [Some(3), Some(0), None, Some(0), None]);
    let calls = [
        (5, Some(3), 0),
        (4, Some(0), 1),
        (3, None, 2),
        (0, Some(0), 2),
        (0, None, 3),
    ];
    for (len, result, failures) in calls {
        let found = written(&mut writer, len);
        assert!(rt; found == (result, failures), "{len}");
    }
    assert!(rt; flushed(&mut writer) == (true, 3));
    assert!(rt; flushed(&mut writer) == (false, 4));
    let inner = writer.into_inner();
    assert!(rt; inner.slices.as_slice() == [5, 4, 3, 0, 0].as_slice());
    assert!(rt; inner.flushes == 2);
}

// Reading nothing is the end of the input, and no failure.
#[test]
fn failed_reads_are_counted(rt: HostRuntime) -> Result<(), Fail> {
    let mut reader = by_script(rt.alloc(), [Some(2), Some(0), None, Some(1), None]);
    for (len, result, failures) in [(5, Some(2), 0), (4, Some(0), 0), (0, None, 1)] {
        let found = read_some(&mut reader, len);
        assert!(rt; found == (result, failures), "{len}");
    }
    let mut held = BytesMut::new(rt.alloc());
    held.reserve(3)?;
    let one = reader.read_into(&mut held).ok();
    assert!(rt; one == Some(1));
    assert!(rt; reader.failures() == 1);
    let none = reader.read_into(&mut held).ok();
    assert!(rt; none == None);
    assert!(rt; reader.failures() == 2);
    assert!(rt; held.len() == 1);
    let inner = reader.into_inner();
    assert!(rt; inner.slices.len() == 5);
    Ok(())
}
