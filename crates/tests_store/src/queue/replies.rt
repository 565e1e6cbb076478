//! What a line answers to a reply.

ghost use Rattle.std.specs.Prelude.{◌≡◌, false, IfSome};
ghost use Rattle.rs_message.specs.Messages.{is_sweep};

use kit_test::{blank_store, set};
use rs_intake_line::{LineName, WriterReply, read_reply};
use rs_message::{Entry, Origin, PlaceCount};
use rs_version::{Blank, PutFault};
use std::alloc::Global;
use std::marker::Brand;
use std::sync::Wait;
use std::test::Fail;

/// An entry of the first place.
fn first_entry(alloc: Global, payload: &[u8]) -> Option<Entry>
    ensures { IfSome result (λ e. is_sweep e.operation ≡ false) }
{
    let origin = Origin::new(1, 1)?;
    let operation = set(alloc, b"a", payload)?;
    Some(Entry { origin, operation })
}

/// What a line of this entry answers if this comes back.
fn code_of<N: LineName>(reply: WriterReply<N>, entry: &Entry) -> Option<u8> {
    match read_reply::<N>(reply, entry) {
        Ok(_) => None,
        Err(fault) => Some(fault.code()),
    }
}

/// Whether a line of this entry answers each fault as it has to, and the reply to another entry.
fn answers_each_fault<N: LineName>(entry: &Entry) -> Option<bool> {
    let origin = entry.origin;
    let elsewhere = Origin::new(1, 2)?;
    let rows = [
        (elsewhere, PutFault::Full, 43),
        (origin, PutFault::Stale, 43),
        (origin, PutFault::Full, 40),
        (origin, PutFault::NoMemory, 41),
        (origin, PutFault::Held, 42),
    ];
    for (origin, fault, code) in rows {
        let outcome = Err(fault);
        if code_of::<N>(WriterReply { origin, outcome }, entry)? != code {
            return Some(false);
        }
    }
    Some(true)
}

/// The reply to this entry, which a new store takes.
fn reply_to<N: LineName, R: Wait>(rt: &R, blank: Blank, entry: Entry) -> Option<WriterReply<N>>
    requires store { (blank.history ≡ N.history) × (blank.limit ≡ N.limit) }
    requires change { is_sweep entry.operation ≡ false }
{
    let (mut writer, _seats) = blank.open::<N, &R>(rt).ok()?;
    let origin = entry.origin;
    let outcome = writer.put(entry);
    Some(WriterReply { origin, outcome })
}

/// What a line answers to the receipt for another entry of its origin.
fn code_of_other<N: LineName, R: Wait>(rt: &R, alloc: Global, blank: Blank) -> Option<u8>
    requires { (blank.history ≡ N.history) × (blank.limit ≡ N.limit) }
{
    let reply = reply_to::<N, R>(rt, blank, first_entry(alloc, b"2")?)?;
    code_of(reply, &first_entry(alloc, b"1")?)
}

/// A fault is read as what it says of this entry, and is strange if it is for another.
#[test]
fn a_fault_is_read_as_what_it_says_of_its_entry(rt: HostRuntime) -> Result<(), Fail> {
    let entry = first_entry(rt.alloc(), b"1").ok_or("an entry")?;
    assert!(rt; answers_each_fault::<Brand>(&entry) == Some(true));
    Ok(())
}

/// A receipt for another entry is strange.
#[test]
fn a_receipt_for_another_entry_is_strange(rt: HostRuntime) -> Result<(), Fail> {
    let blank = blank_store(rt.alloc(), 2, PlaceCount::new(1).ok_or("a place")?)?;
    assert!(rt; code_of_other::<Brand, _>(&rt, rt.alloc(), blank) == Some(43));
    Ok(())
}
