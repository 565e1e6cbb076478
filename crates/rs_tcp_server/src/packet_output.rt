//! A writer that counts packets.

use rs_metrics::Meter;
use std::io;
use std::io::Write;

/// A writer to which packets are written. It is flushed behind each, and counts that.
#[derive(Drop)]
pub struct PacketOutput<W> {
    inner: W,
    meter: Meter,
}

impl<W> PacketOutput<W> {
    /// No packet was written.
    pub(crate) fn new(inner: W, meter: Meter) -> PacketOutput<W> {
        PacketOutput { inner, meter }
    }

    /// The writer.
    pub(crate) fn into_inner(self) -> W
    where
        W: Drop,
    {
        self.inner
    }
}

impl<W: Write> Write for PacketOutput<W> {
    ghost contents = { λ it. W.contents it.inner };

    fn write(&mut self, buf: &[u8]) -> io::Result<usize> {
        self.inner.write(buf)
    }

    fn flush(&mut self) -> io::Result<()> {
        self.inner.flush()?;
        self.meter.count_packet_out();
        Ok(())
    }
}
