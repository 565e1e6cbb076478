//! Lines of hex digits instead of bytes.

use kit_test::{CONNACK, REFUSING_GATE, REPLAYED, concat, is_concat, limits};
use rs_program_pipe::{PipeFault, pipe, serve_bytes};
use rs_server::Served;
use std::alloc::{AllocError, Global};
use std::sync::Wait;
use std::test::Fail;

// Whether this input, with hex digits or without, ends so and gives this output.
fn is_piped<H: Wait>(
    rt: &H,
    alloc: Global,
    hex: bool,
    input: &[u8],
    ends: Result<Served, PipeFault>,
    output: &[u8],
) -> bool {
    let ended = pipe(rt, alloc, input, Vec::new(alloc), REFUSING_GATE, hex, 0);
    ended.served == ends && ended.output.as_slice() == output
}

// These parts as one line of hex digits.
fn line(alloc: Global, parts: &[&[u8]]) -> Result<String, AllocError> {
    let mut line = String::new(alloc);
    for byte in concat(alloc, parts)? {
        let digits = format!(in alloc; "{byte:02x}")?;
        line.push_str(digits.as_str())?;
    }
    line.push_str("\n")?;
    Ok(line)
}

#[test]
fn lines_of_hex_digits_are_read_and_written(rt: HostRuntime) -> Result<(), Fail> {
    let input =
        b"10 0E 00 04 4D 51 54 54 05 02 00 3C 00 00 01\n\n  \n61 C000 C0\n00\nE000 zz".as_slice();
    let mut output = line(rt.alloc(), &[CONNACK])?;
    output.push_str("d000\nd000\n")?;
    assert!(rt;
        is_piped(
            &rt,
            rt.alloc(),
            true,
            input,
            Err(PipeFault::NotHex(6)),
            output.as_bytes()
        )
    );

    let input = b"100E00044D5154540502003C00000161E000\nzz\n".as_slice();
    let output = line(rt.alloc(), &[CONNACK])?;
    assert!(rt;
        is_piped(
            &rt,
            rt.alloc(),
            true,
            input,
            Ok(Served::ClientClosed),
            output.as_bytes()
        )
    );
    Ok(())
}

// A client that gives no identifier is told one.
#[test]
fn the_identifier_is_assigned(rt: HostRuntime) -> Result<(), Fail> {
    let input = b"10 0D 00 04 4D 51 54 54 05 02 00 3C 00 00 00".as_slice();
    let head = b"\x20\x15\x00\x00\x12\x12\x00\x05rs1-1".as_slice();
    let output = line(rt.alloc(), &[head, limits()])?;
    assert!(rt;
        is_piped(
            &rt,
            rt.alloc(),
            true,
            input,
            Ok(Served::EndOfInput),
            output.as_bytes()
        )
    );
    Ok(())
}

#[test]
fn bytes_are_read_and_written_as_they_are(rt: HostRuntime) {
    let input = b"\x10\x0D\x00\x04MQTT\x04\x02\x00\x3C\x00\x01a".as_slice();
    let output = b"\x20\x03\x00\x84\x00".as_slice();
    assert!(rt;
        is_piped(
            &rt,
            rt.alloc(),
            false,
            input,
            Ok(Served::ServerClosed(0x84)),
            output
        )
    );
}

// CONNECT, PUBLISH, SUBSCRIBE, DISCONNECT: the retained message is replayed after the SUBACK.
#[test]
fn a_message_is_replayed(rt: HostRuntime) -> Result<(), Fail> {
    let input =
        b"\x10\x0E\x00\x04MQTT\x05\x02\x00\x3C\x00\x00\x01a1\x07\x00\x03a/b\x00x\x82\x09\x00\x01\x00\x00\x03a/#\x00\xE0\x00".as_slice();
    let (served, output) = serve_bytes(&rt, rt.alloc(), input, 0)?;
    assert!(rt; served == Served::ClientClosed);
    assert!(rt; is_concat(&output, &[CONNACK, REPLAYED]));
    Ok(())
}
