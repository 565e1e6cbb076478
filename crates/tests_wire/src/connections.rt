//! Connections over streams in memory.

mod ahead;
mod counted;
mod expecting;
mod reads;
mod refusals;
mod steps;
mod streams;

use kit_test::is_shown;
use rs_server::ServeFault;
use std::test::Fail;

/// Each fault, its number and its text.
const FAULTS: &[(ServeFault, u8, &str)] = &[
    (
        ServeFault::Read,
        60,
        "reading from the client failed; check the connection",
    ),
    (
        ServeFault::Write,
        61,
        "writing to the client failed; check that it still reads",
    ),
    (
        ServeFault::NoMemory,
        62,
        "out of memory to serve the connection; try again with fewer clients",
    ),
];

#[test]
fn faults_have_a_code_and_a_text(rt: HostRuntime) -> Result<(), Fail> {
    for (fault, code, text) in FAULTS {
        assert!(rt; fault.code() == *code);
        assert!(rt; is_shown(rt.alloc(), fault, text));
    }
    Ok(())
}
