//! Connections as rows of a table.

use crate::script::{Counts, Course, Script};
use kit_test::{Behavior, Call, ServeResult, concat, cut_off, limits};
use rs_server::Served;
use std::alloc::{AllocError, Global};
use std::sync::Arc;
use std::test::Fail;

/// Any number of bytes by a call, and none fails.
pub const SMOOTH: Behavior = Behavior {
    step: usize::MAX,
    call: Call::Read,
    at: 0,
};

/// The course of a connection of the first place that waits for no other, all at 0, until its client ends it.
pub const PLAIN: Course = Course {
    place: 1,
    after: 0,
    together: 0,
    moments: &[0],
    behavior: SMOOTH,
    stalls: (0, 0),
    ends: Ok(Served::ClientClosed),
};

/// A connection: how it goes, what its client sends, and what it has to be sent, in parts.
#[derive(Clone, Copy)]
pub struct Row<'a> {
    pub course: Course,
    pub sent: [&'a [u8]; 4],
    pub replies: [&'a [u8]; 3],
}

/// CONNECT, a retained PUBLISH of a/b, DISCONNECT.
pub const PUBLISHES: &[u8] =
    b"\x10\x0E\x00\x04MQTT\x05\x02\x00\x3C\x00\x00\x01a1\x07\x00\x03a/b\x00x\xE0\x00";

/// CONNECT, SUBSCRIBE of a/#, DISCONNECT.
pub const SUBSCRIBES: &[u8] =
    b"\x10\x0E\x00\x04MQTT\x05\x02\x00\x3C\x00\x00\x01a\x82\x09\x00\x01\x00\x00\x03a/#\x00\xE0\x00";

/// A part that has no bytes.
pub const NONE: &[u8] = b"";

/// A connection in one part that is accepted, and is sent this behind its CONNACK.
pub fn plain_row<'a>(course: Course, sent: &'a [u8], behind: &'a [u8]) -> Row<'a> {
    cut_row(course, sent, behind, usize::MAX)
}

/// One that is sent only the first bytes of CONNACK and of what would follow it, so many in all.
pub fn cut_row<'a>(course: Course, sent: &'a [u8], behind: &'a [u8], len: usize) -> Row<'a> {
    let [accepted, rest] = cut_off(behind, len);
    Row {
        course,
        sent: [sent, NONE, NONE, NONE],
        replies: [accepted, rest, NONE],
    }
}

/// The course of a connection of this place that begins once so many have ended.
pub fn later(place: u8, after: u64) -> Course {
    let mut course = PLAIN;
    course.place = place;
    course.after = after;
    course
}

/// The course of a connection that ends so.
pub fn ending(course: Course, ends: ServeResult) -> Course {
    let mut course = course;
    course.ends = ends;
    course
}

/// Appends the connection to those that wait.
fn put_row(alloc: Global, script: &mut Script, row: &Row<'_>) -> Result<(), AllocError> {
    let output = concat(alloc, &row.replies)?;
    let input = concat(alloc, &row.sent)?;
    script.put(row.course, input, output)
}

/// Turns for so many places.
pub fn scripts(alloc: Global, counts: &Arc<Counts>, places: u8) -> Result<Vec<Script>, AllocError> {
    let mut scripts = Vec::new(alloc);
    for place in 1..=places {
        scripts.push(Script::new(alloc, Arc::try_clone(counts)?, u16::from(place)))?;
    }
    Ok(scripts)
}

/// Gives the connections to their places.
pub fn put_rows(alloc: Global, scripts: &mut [Script], rows: &[Row<'_>]) -> Result<(), Fail> {
    for row in rows {
        let before = usize::from(row.course.place).saturating_sub(1);
        let script = scripts.get_mut(before).ok_or("no such place")?;
        put_row(alloc, script, row)?;
    }
    Ok(())
}

/// The CONNACK of a client that is assigned an identifier.
pub fn assigned(alloc: Global, place: u16, number: u64) -> Result<Vec<u8>, AllocError> {
    let name = format!(in alloc; "rs{place}-{number}")?;
    let len = name.as_bytes().len().min(25) as u8;
    let mut output = Vec::new(alloc);
    output.extend_from_slice(&[0x20, 16 + len, 0, 0, 13 + len, 0x12, 0, len])?;
    output.extend_from_slice(name.as_bytes())?;
    output.extend_from_slice(limits())?;
    Ok(output)
}
