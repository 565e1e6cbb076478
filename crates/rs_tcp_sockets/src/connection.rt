//! One TCP connection.

use crate::closing::end;
use crate::halves::{ReadHalf, WriteHalf};
use crate::polling::{Pollers, Polling};
use crate::splitting::{finish, give_up, split};
use crate::stream::SharedStream;
use rs_metrics::Meter;
use std::alloc::Global;
use std::io;
use std::io::{Read, Write};
use std::net::{OpenStream, TcpStream};
use std::os::fd::{AsRawFd, RawFd};
use std::sync::Arc;
use std::time::{Clock, Duration};

/// What a client sends. Before each read, what was gathered for the client is written out. If the client may answer that soon, the read
/// polls for a while before it blocks.
pub type FromClient = ReadHalf<Polling<SharedStream>, SharedStream>;

/// What is sent to a client, gathered.
pub type ToClient = WriteHalf<SharedStream>;

/// The two halves of a connection. What is written out is sent at once (TCP_NODELAY). If `idle` is given, a read fails for which no
/// byte comes for so long, and so does a write of which no byte is taken for so long. Of all connections with these `pollers`, only so many
/// poll at the same time. `meter` counts the bytes that the socket gives and takes.
///
/// # Errors
///
/// If `idle` is zero, or memory is refused. The connection is closed.
pub fn open(
    alloc: Global,
    stream: TcpStream,
    idle: Option<Duration>,
    pollers: Arc<Pollers>,
    meter: Meter,
) -> io::Result<(FromClient, ToClient)> {
    // Of a client that has gone already this may fail. The next read tells.
    let _ = stream.set_nodelay(true);
    if idle.is_some() {
        stream.set_read_timeout(idle)?;
        stream.set_write_timeout(idle)?;
    }
    let (reader, writer) = SharedStream::pair(alloc, stream, meter)?;
    split(alloc, Polling::new(reader, pollers), writer)
}

/// The descriptor of a connection. There is something to read if its client has sent bytes or their end, or if a read fails.
pub fn descriptor(input: &FromClient) -> RawFd {
    input.inner.inner().as_raw_fd()
}

/// From now on a read of this connection for which no byte comes for so long fails ([`WouldBlock`](io::ErrorKind::WouldBlock)). Without a
/// limit it waits for as long as it takes. Writes keep their own limit. Less than a microsecond counts as one.
///
/// # Errors
///
/// If the limit is zero. What was set before still stands.
pub fn set_read_limit(input: &FromClient, limit: Option<Duration>) -> io::Result<()> {
    input.inner.inner().set_read_timeout(limit)
}

/// Ends a connection: writes out what was gathered, tells the client that no more comes, reads and discards
/// what it still sends, at most [`MAX_DISCARDED`](crate::MAX_DISCARDED) bytes and for about a second, and
/// closes.
///
/// # Errors
///
/// If what was gathered could not be written. The connection is closed.
pub fn close<H: Clock, R: Read + Drop, S: Read + Write + OpenStream + Drop>(
    rt: &H,
    input: ReadHalf<R, S>,
    output: WriteHalf<S>,
) -> io::Result<()> {
    let (_reader, mut stream) = finish(input, output)?;
    end(rt, &mut stream);
    Ok(())
}

/// Ends a connection that failed: nothing more is written or read, and nothing is waited for.
pub fn abandon<R: Read + Drop, W: Write + Drop>(input: ReadHalf<R, W>, output: WriteHalf<W>) {
    drop(give_up(input, output));
}
