//! What a store begins with.

ghost use Rattle.std.specs.Prelude.{◌≡◌, ◌≤◌, [], All, OnOk, length};
ghost use Rattle.rs_store.specs.declared.limit.TheConstants.{MAX_TOPICS};
ghost use Rattle.rs_version.specs.First.{first_of};
ghost use Rattle.rs_version.specs.Writer.{shows};

use crate::history::StoreName;
use crate::receipt::Told;
use crate::seat::Seat;
use crate::writer::VersionWriter;
use rs_message::{Entry, Found, Operation, Origin};
use std::alloc::AllocError;
use std::sync::Wait;

/// Puts a Set of each message, with an origin of the writer's own place, before anything else.
pub fn put_first<N: StoreName, R: Wait + Drop>(
    writer: &mut VersionWriter<N, R>,
    given: Vec<Found>,
) -> Result<(), AllocError>
    requires new { writer.old ≡ shows [] }
    requires few { (length given.items ≤ N.limit) × (N.limit ≤ MAX_TOPICS) }
    ensures { OnOk result (writer.new ≡ shows (first_of given.items)) }
{
    let mut serial = 0u64;
    for found in given {
        serial += 1;
        let Some(origin) = Origin::of_writer(serial) else {
            unreachable!()
        };
        writer.put_legal(Entry {
            origin,
            operation: Operation::Set(found),
        })?;
    }
    Ok(())
}

/// Lets seats that know nothing learn the token.
pub fn teach<N: StoreName>(seats: &mut [Seat<N>], told: &Told<N>)
    requires { All (λ s. s ≡ []) seats.old }
    ensures { (length seats.new ≡ length seats.old) × All (λ s. s ≡ told.now) seats.new }
{
    for seat in seats.iter_mut() {
        seat.learn(told.again());
    }
}
