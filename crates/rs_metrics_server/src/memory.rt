//! The memory of this process.

use libc::{close, read};
use os::open_read;
use rs_metrics::{PAGE_SIZE, resident_pages};
use std::str;

/// For the text of `/proc/self/statm`: seven numbers of at most 20 digits.
const ROOM: usize = 256;

/// How many bytes of the process are resident. None if the system does not tell. It takes no memory, and no handle, so any thread can ask.
pub fn resident_bytes() -> Option<u64> {
    let fd = open_read(b"/proc/self/statm");
    if fd < 0 {
        return None;
    }
    let mut room = [0u8; ROOM];
    let size = read(fd, &mut room);
    let _ = close(fd);
    let text = room.get(..usize::try_from(size).ok()?)?;
    resident_pages(str::from_utf8(text).ok()?)?.checked_mul(PAGE_SIZE)
}
