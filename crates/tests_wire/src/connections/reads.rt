//! How much each read asks for.

use kit_test::{CONNECT, REFUSING_GATE};
use rs_server::{ConnectionId, Counted, Moments, ServeFault, Served, serve};
use std::alloc::{AllocError, Global};
use std::io;
use std::io::Read;
use std::sync::Wait;
use std::test::Fail;

/// How many bytes a read is asked for, and how many it gives.
type Reading = (usize, usize);

/// Gives so many bytes by each read, and notes how many it was asked for.
#[derive(Drop)]
struct Noting<'a> {
    bytes: &'a [u8],
    reads: &'a [Reading],
    asked: Vec<usize>,
}

impl Read for Noting<'_> {
    fn read(&mut self, buf: &mut [u8]) -> io::Result<usize> {
        let given = match self.reads.get(self.asked.len()) {
            Some((_, given)) => buf.len().min(*given),
            None => 0,
        };
        self.asked.push(buf.len())?;
        self.bytes.read(&mut buf[..given])
    }
}

/// A client that sends CONNECT, so many times PINGREQ, and a PUBLISH that begins so and has so many bytes; its reads; and how it ends.
#[derive(Clone, Copy)]
struct Client {
    pings: usize,
    head: &'static [u8],
    size: usize,
    reads: &'static [Reading],
    served: Result<Served, ServeFault>,
}

/// While reads are full, the next one asks for twice as much, up to 32 KiB. One that gives less than a quarter of it ends that. The rest of
/// a packet is no sign of a client that sends little.
const PINGS: Client = Client {
    pings: 58_367,
    head: b"\x30\xB1\x10\x00\x01a\x00",
    size: 2_100,
    reads: &[
        (1_024, 16),
        (1_024, 1_024),
        (2_048, 2_048),
        (4_096, 4_096),
        (8_192, 8_192),
        (16_384, 16_384),
        (32_768, 32_768),
        (32_768, 32_768),
        (32_768, 8_192),
        (32_768, 8_190),
        (1_024, 1_024),
        (2_048, 2_048),
        (4_096, 2_000),
        (2_096, 100),
        (4_096, 0),
    ],
    served: Ok(Served::EndOfInput),
};

/// What is missing of a packet is asked for at once.
const LONG: Client = Client {
    pings: 0,
    head: b"\x30\xFC\x87\x02\x00\x01a\x00",
    size: 33_792,
    reads: &[
        (1_024, 16),
        (1_024, 1_024),
        (32_768, 31_768),
        (1_000, 1_000),
        (4_096, 0),
    ],
    served: Ok(Served::EndOfInput),
};

/// The same, up to 32 KiB.
const LONGER: Client = Client {
    pings: 0,
    head: b"\x30\x9C\x8D\x06\x00\x01a\x00",
    size: 100_000,
    reads: &[(1_024, 16), (1_024, 1_024), (32_768, 0)],
    served: Ok(Served::CutInput),
};

/// What the client sends.
fn sent(alloc: Global, client: &Client) -> Result<Vec<u8>, AllocError> {
    let mut bytes = CONNECT.to_vec(alloc)?;
    for _ in 0..client.pings {
        bytes.extend_from_slice(b"\xC0\x00")?;
    }
    bytes.extend_from_slice(client.head)?;
    let rest = client.size.saturating_sub(client.head.len());
    bytes.resize(bytes.len().saturating_add(rest), b'x')?;
    Ok(bytes)
}

/// How the connection ends, and how many bytes each read was asked for.
fn served<H: Wait>(
    rt: &H,
    alloc: Global,
    client: &Client,
) -> Result<(Result<Served, ServeFault>, Vec<usize>), Fail> {
    let bytes = sent(alloc, client)?;
    let mut reader = Counted::new(Noting {
        bytes: &bytes,
        reads: client.reads,
        asked: Vec::new(alloc),
    });
    let mut writer = Counted::new(Vec::new(alloc));
    let mut clock = Moments::new(0, Vec::new(alloc));
    let id = ConnectionId {
        place: 1,
        number: 1,
    };
    let gate = REFUSING_GATE;
    let (served, _gate, _handled) = serve(
        rt,
        alloc,
        &mut reader,
        &mut writer,
        gate,
        id,
        &mut clock,
    );
    Ok((served, reader.into_inner().asked))
}

/// How many reads asked for what they should, up to the first that did not.
fn right(asked: &[usize], wanted: &[Reading]) -> usize {
    let mut count = 0usize;
    for (asked, (wanted, _)) in asked.iter().zip(wanted) {
        if asked != wanted {
            return count;
        }
        count = count.saturating_add(1);
    }
    count
}

#[test]
fn a_read_asks_for_more_the_longer_reads_are_full(rt: HostRuntime) -> Result<(), Fail> {
    for client in [PINGS, LONG, LONGER] {
        let (end, asked) = served(&rt, rt.alloc(), &client)?;
        let count = right(&asked, client.reads);
        assert!(rt; count == client.reads.len(), "read {count}");
        assert!(rt; asked.len() == count);
        assert!(rt; end == client.served);
    }
    Ok(())
}
