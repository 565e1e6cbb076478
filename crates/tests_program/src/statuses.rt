//! Statuses and texts of what ends the program.

use kit_test::is_shown;
use rs_program::{RunFault, WordsFault};
use rs_program_pipe::PipeFault;
use std::alloc::Global;
use std::test::Fail;

fn ends_with(alloc: Global, fault: &RunFault, status: u8, text: &str) -> bool {
    fault.status() == status && is_shown(alloc, fault, text)
}

// Whether this is the status and the text of the fault, and of a run that it ends.
fn pipe_ends_with(alloc: Global, fault: PipeFault, status: u8, text: &str) -> bool {
    fault.status() == status
        && is_shown(alloc, &fault, text)
        && ends_with(alloc, &RunFault::Pipe(fault), status, text)
}

#[test]
fn faults_have_a_status_and_a_text(rt: HostRuntime) {
    let faults = [
        (PipeFault::Read, 1, "read failed"),
        (PipeFault::Write, 1, "write failed"),
        (PipeFault::NoMemory, 1, "out of memory"),
        (PipeFault::NotHex(7), 2, "line 7 is not hex"),
    ];
    for (fault, status, text) in faults {
        assert!(rt; pipe_ends_with(rt.alloc(), fault, status, text));
    }
}

#[test]
fn a_server_ends_with_a_status_and_a_text(rt: HostRuntime) {
    let few = RunFault::FewThreads {
        threads: 3,
        places: 4,
    };
    assert!(rt; ends_with(rt.alloc(), &few, 1, "3 of 4 places had a thread"));
    let few = RunFault::FewClients {
        served: 390,
        clients: 400,
    };
    let text = "390 of 400 clients could be served at the same time";
    assert!(rt; ends_with(rt.alloc(), &few, 1, text));
    let text = "not all changes are known to be taken";
    assert!(rt; ends_with(rt.alloc(), &RunFault::Unsettled, 1, text));
    assert!(rt; ends_with(rt.alloc(), &RunFault::Listen(None), 1, "cannot listen"));
    assert!(rt; ends_with(rt.alloc(), &RunFault::Keep(None), 1, "cannot keep"));
}

// As `pipe_ends_with`.
fn words_end_with(alloc: Global, fault: WordsFault, status: u8, text: &str) -> bool {
    fault.status() == status
        && is_shown(alloc, &fault, text)
        && ends_with(alloc, &RunFault::Words(fault), status, text)
}

#[test]
fn words_have_a_status_and_a_text(rt: HostRuntime) -> Result<(), Fail> {
    let alloc = rt.alloc();
    let help = WordsFault::Help(String::from_str(alloc, "help")?);
    assert!(rt; words_end_with(alloc, help, 0, "help"));
    let refused = WordsFault::Refused(String::from_str(alloc, "no")?);
    assert!(rt; words_end_with(alloc, refused, 2, "no"));
    assert!(rt; words_end_with(alloc, WordsFault::NoMemory, 1, "out of memory"));
    Ok(())
}
