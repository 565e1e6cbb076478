//! The bytes of a page.

ghost use Rattle.std.specs.Prelude.{◌≡◌, ◌<◌, ◌≤◌, ◌^◌, length, take, IfOk, IfErr, OnOk};
ghost use Rattle.std.specs.Int.{w64, from_be_bytes};
ghost use Rattle.rs_journal.specs.Pages.{IsHead, head_form, number_of, page_form, page_size, part_of, part_size};
ghost use Rattle.rs_journal.specs.OpenFaults.{IsWrongHead};

use crate::pages::fault::OpenFault;
use std::alloc::AllocError;

/// How many bytes a page has.
pub const PAGE_SIZE: usize = 1024;

/// How many bytes of the stream a page can have.
pub const PART_SIZE: usize = 1014;

/// What page 1 begins with.
const NAME: [u8; 7] = *b"rstored";

/// The version of the form, behind the name.
const VERSION: u8 = 1;

/// Makes `page` the page with this number and this part of the stream.
pub(crate) fn form_page(page: &mut Vec<u8>, number: u64, part: &[u8]) -> Result<(), AllocError>
    requires { length part.now ≤ part_size }
    ensures form { OnOk result (page.new.items ≡ page_form number part.now) }
    ensures range { number < 2 ^ 64 }
{
    page.clear();
    page.extend_from_slice(&number.to_be_bytes())?;
    page.extend_from_slice(&(part.len() as u16).to_be_bytes())?;
    page.extend_from_slice(part)?;
    page.resize(PAGE_SIZE, 0)?;
    Ok(())
}

/// Makes `page` the page 1 of a stream whose first page has this number. The number stands there twice, since old pages would count if it
/// alone were damaged.
pub(crate) fn form_head(page: &mut Vec<u8>, first: u64) -> Result<(), AllocError>
    ensures form { OnOk result (page.new.items ≡ head_form first) }
    ensures range { first < 2 ^ 64 }
{
    page.clear();
    page.extend_from_slice(&NAME)?;
    page.push(VERSION)?;
    page.extend_from_slice(&first.to_be_bytes())?;
    page.extend_from_slice(&first.to_be_bytes())?;
    page.resize(PAGE_SIZE, 0)?;
    Ok(())
}

/// The number that these bytes begin with.
fn read_number(bytes: &[u8]) -> u64
    requires { 8 ≤ length bytes.now }
    ensures { result ≡ from_be_bytes w64 (take 8 bytes.now) }
{
    let (front, _) = bytes.split_at(8);
    u64::from_be_bytes([
        front[0], front[1], front[2], front[3], front[4], front[5], front[6], front[7],
    ])
}

/// The number of a page, and its part of the stream.
pub(crate) fn read_page(page: &[u8]) -> (u64, &[u8])
    requires { length page.now ≡ page_size }
    ensures number { result.0 ≡ number_of page.now }
    ensures part { result.1.now ≡ part_of page.now }
{
    let (_, rest) = page.split_at(8);
    let (len, rest) = rest.split_at(2);
    let len = u16::from_be_bytes([len[0], len[1]]) as usize;
    let (part, _) = rest.split_at(len.min(rest.len()));
    (read_number(page), part)
}

/// The number that page 1 says the stream begins with.
pub(crate) fn read_head(page: &[u8]) -> Result<u64, OpenFault>
    requires { length page.now ≡ page_size }
    ensures ok { IfOk result (λ first. IsHead page.now first) }
    ensures err { IfErr result (λ e. IsWrongHead e page.now) }
{
    let (name, rest) = page.split_at(7);
    if name != NAME.as_slice() {
        return Err(OpenFault::Foreign);
    }
    if rest[0] != VERSION {
        return Err(OpenFault::Version(rest[0]));
    }
    let (_, behind) = page.split_at(8);
    let (_, again) = page.split_at(16);
    let first = read_number(behind);
    if read_number(again) != first {
        return Err(OpenFault::Damaged);
    }
    Ok(first)
}
