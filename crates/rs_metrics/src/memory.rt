//! The memory of the process, as Linux tells it.

/// The bytes of a page of memory on x86-64.
pub const PAGE_SIZE: u64 = 4_096;

const _: () = prove!(PAGE_SIZE == 4_096);

/// How many pages are resident, by the text of `/proc/self/statm`: its second number. None if it is not such a text.
pub fn resident_pages(statm: &str) -> Option<u64> {
    statm.split_whitespace().nth(1)?.parse::<u64>().ok()
}
