//! One failing read, write or flush of `pipe`, over bytes and over lines of hex digits: the fault names what failed.

use kit_test::{Behavior, Call, FIRST, FaultyStream};
use rs_program_pipe::{OwnGate, PipeFault, pipe};
use rs_server::Served;
use std::alloc::Global;
use std::process::Abort;
use std::sync::Wait;
use std::test::Fail;

// The packets of `FIRST` in 60 characters.
const LINES: &[u8] = b"100E00044D5154540502003C00000161\n33090003612F6200010078\nE000";

const READ: Result<Served, PipeFault> = Err(PipeFault::Read);

const WRITE: Result<Served, PipeFault> = Err(PipeFault::Write);

const CLOSED: Result<Served, PipeFault> = Ok(Served::ClientClosed);

// Whether hex digits are read and written, which calls fail, from the first to the last, one in each run, and how the connection ends
// then. The last row of each kind of call is of one that is never made. With hex digits it takes a read more to find the end of the
// last line.
type Row = (bool, Call, usize, usize, Result<Served, PipeFault>);

const ROWS: &[Row] = &[
    (false, Call::Read, 1, 29, READ),
    (false, Call::Read, 30, 30, CLOSED),
    (false, Call::Write, 1, 19, WRITE),
    (false, Call::Write, 20, 20, CLOSED),
    (false, Call::Flush, 1, 2, WRITE),
    (false, Call::Flush, 3, 3, CLOSED),
    (true, Call::Read, 1, 61, READ),
    (true, Call::Read, 62, 62, CLOSED),
    (true, Call::Write, 1, 40, WRITE),
    (true, Call::Write, 41, 41, CLOSED),
    (true, Call::Flush, 1, 2, WRITE),
    (true, Call::Flush, 3, 3, CLOSED),
];

fn check_row<H: Abort + Wait>(rt: &H, alloc: Global, row: Row) -> Result<(), Fail> {
    let (hex, call, first, last, ends) = row;
    let input = if hex { LINES } else { FIRST };
    for at in first..=last {
        let behavior = Behavior { step: 1, call, at };
        let reader = FaultyStream {
            inner: input,
            behavior,
        };
        let writer = FaultyStream {
            inner: Vec::new(alloc),
            behavior,
        };
        let ended = pipe(rt, alloc, reader, writer, OwnGate::new(alloc)?, hex, 0);
        assert!(rt; ended.served == ends, "{hex} {call:?} {at}");
    }
    Ok(())
}

#[test]
fn the_fault_names_what_failed(rt: HostRuntime) -> Result<(), Fail> {
    for row in ROWS {
        check_row(&rt, rt.alloc(), *row)?;
    }
    Ok(())
}
