//! What is counted of changes and of filters.

use rs_message::{Found, Operation, SubmitFault};
use rs_metrics::{Change, FilterOutcome, Meter, Outcome};
use std::alloc::AllocError;

/// What is counted of an operation. A Sweep is none that a client asks for, and counts as a Clear.
pub(crate) fn change_of(operation: &Operation) -> Change {
    match operation {
        Operation::Set(found) => Change::Set(qos_of(found.message().qos())),
        Operation::Clear(_) | Operation::Sweep(_) => Change::Clear,
    }
}

fn qos_of(qos: rs_message::Qos) -> rs_metrics::Qos {
    match qos {
        rs_message::Qos::AtMostOnce => rs_metrics::Qos::AtMostOnce,
        rs_message::Qos::AtLeastOnce => rs_metrics::Qos::AtLeastOnce,
        rs_message::Qos::ExactlyOnce => rs_metrics::Qos::ExactlyOnce,
    }
}

/// Counts a change by its answer.
pub(crate) fn count_change(meter: &Meter, change: Change, answer: &Result<(), SubmitFault>) {
    let outcome = match answer {
        Ok(()) => Outcome::Stored,
        Err(SubmitFault::Full) => Outcome::StoreFull,
        Err(SubmitFault::NoMemory) => Outcome::OutOfMemory,
        Err(SubmitFault::Open | SubmitFault::Strange | SubmitFault::Closed) => Outcome::NotKnown,
    };
    meter.count_change(change, outcome);
}

/// Counts a filter by its answer.
pub(crate) fn count_filter(meter: &Meter, answer: &Result<Option<Vec<Found>>, AllocError>) {
    match answer {
        Ok(Some(found)) => meter.count_filter(FilterOutcome::Answered, found.len()),
        Ok(None) => meter.count_filter(FilterOutcome::TooManyMessages, 0),
        Err(_) => meter.count_filter(FilterOutcome::OutOfMemory, 0),
    }
}
