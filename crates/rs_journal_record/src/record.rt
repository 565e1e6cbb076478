//! Records: the kind of an operation, and what it is on.

ghost use Rattle.std.specs.Prelude.{◌≡◌, ◌++◌, IfOk, OnOk};
ghost use Rattle.rs_topic.specs.Meanings.{IsTopicName};
ghost use Rattle.rs_packet_property.specs.Forms.{counted};
ghost use Rattle.rs_journal_record.specs.Fields.{Gives};
ghost use Rattle.rs_journal_record.specs.Records.{record_form, name_at, set_at, clear_at, sweep_at, record_at, IsOperation};

use crate::fault::RecordFault;
use crate::field::{put_u64, read_byte, read_text, read_u64};
use crate::message::{put_message, read_message};
use bytes::Bytes;
use rs_message::{Found, Operation};
use rs_packet_field::{note_octets, put_binary};
use rs_topic::TopicName;
use std::alloc::{AllocError, Global};

/// The first byte of the record of each kind of operation.
const SET: u8 = 1;

const CLEAR: u8 = 2;

const SWEEP: u8 = 3;

#[tactic(auto, unfolding(crate::specs::Records::name_at))]
fn read_name(rest: &mut Bytes) -> Result<TopicName, RecordFault>
    ensures { Gives (λ t. (t, rest.new)) result (name_at rest.old) }
{
    let text = read_text(rest)?;
    match TopicName::try_from(text) {
        Ok(name) => Ok(name),
        Err(_) => Err(RecordFault::Malformed),
    }
}

#[tactic(auto, unfolding(crate::specs::Records::set_at))]
fn read_set(alloc: Global, rest: &mut Bytes) -> Result<Operation, RecordFault>
    ensures { Gives (λ o. (o, rest.new)) result (set_at rest.old) }
{
    let topic = read_name(rest)?;
    let message = read_message(alloc, rest)?;
    let found = Found::new(alloc, topic, message)?;
    Ok(Operation::Set(found))
}

#[tactic(auto, unfolding(crate::specs::Records::clear_at))]
fn read_clear(rest: &mut Bytes) -> Result<Operation, RecordFault>
    ensures { Gives (λ o. (o, rest.new)) result (clear_at rest.old) }
{
    let topic = read_name(rest)?;
    Ok(Operation::Clear(topic))
}

#[tactic(auto, unfolding(crate::specs::Records::sweep_at))]
fn read_sweep(rest: &mut Bytes) -> Result<Operation, RecordFault>
    ensures { Gives (λ o. (o, rest.new)) result (sweep_at rest.old) }
{
    let moment = read_u64(rest)?;
    Ok(Operation::Sweep(moment))
}

/// Reads a record: `read_record` says more of the same answer.
#[tactic(auto, unfolding(crate::specs::Records::record_at))]
fn read_any(alloc: Global, rest: &mut Bytes) -> Result<Operation, RecordFault>
    ensures { Gives (λ o. (o, rest.new)) result (record_at rest.old) }
{
    match read_byte(rest)? {
        SET => read_set(alloc, rest),
        CLEAR => read_clear(rest),
        SWEEP => read_sweep(rest),
        _ => Err(RecordFault::UnknownKind),
    }
}

/// Reads the record that the bytes begin with, and leaves what follows it. [`RecordFault`] says what is wrong if there is none; then
/// what is left has no meaning. The operation keeps the bytes in memory.
pub fn read_record(alloc: Global, rest: &mut Bytes) -> Result<Operation, RecordFault>
    ensures read { Gives (λ o. (o, rest.new)) result (record_at rest.old) }
    // The record was there, to its last byte.
    ensures found { IfOk result (λ o. IsOperation o × (rest.old ≡ record_form o ++ rest.new)) }
{
    note_octets(rest.as_slice());
    read_any(alloc, rest)
}

fn put_name(out: &mut Vec<u8>, topic: &TopicName) -> Result<(), AllocError>
    ensures put { OnOk result (out.new.items ≡ out.old.items ++ counted topic.now) }
    ensures fits { IsTopicName topic.now }
{
    put_binary(out, topic.as_bytes())
}

/// Appends the record of an operation. The error says that memory was refused; then what `out` holds has no meaning.
pub fn put_record(out: &mut Vec<u8>, operation: &Operation) -> Result<(), AllocError>
    ensures put { OnOk result (out.new.items ≡ out.old.items ++ record_form operation.now) }
    ensures fits { OnOk result (IsOperation operation.now) }
{
    match operation {
        Operation::Set(found) => {
            out.push(SET)?;
            put_name(out, found.topic())?;
            put_message(out, found.message())?;
        }
        Operation::Clear(topic) => {
            out.push(CLEAR)?;
            put_name(out, topic)?;
        }
        Operation::Sweep(moment) => {
            out.push(SWEEP)?;
            put_u64(out, *moment)?;
        }
    }
    Ok(())
}
