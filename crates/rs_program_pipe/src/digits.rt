//! One line of hex digits.

ghost use Rattle.std.specs.Prelude.{◌≡◌, ◌≢◌, IfOk, IfErr, Some, None};
ghost use Rattle.hex.specs.declared.error.FromHexError.TheVariants.{OutOfMemory};
ghost use Rattle.rs_program_pipe.specs.Digits.{without_spaces, bytes_of_line};

use hex::FromHexError;
use std::alloc::{AllocError, Global};
use thiserror::Error;

/// Why a line gives no bytes.
#[derive(Clone, Copy, Debug, PartialEq, Eq, Error)]
pub enum HexFault {
    /// The line is not an even number of hex digits.
    #[error("the line is not an even number of hex digits")]
    NotHex,
    /// Memory was refused.
    #[error("out of memory for the bytes of the line")]
    NoMemory,
}

/// Reads the bytes of one line of hex digits, without its line feed.
///
/// Two digits in either case are one byte, the high four bits first. Spaces are ignored, and nothing
/// else is.
///
/// # Errors
///
/// [`HexFault::NotHex`] if the line is not an even number of hex digits, and [`HexFault::NoMemory`] if
/// memory is refused.
pub fn read_hex(alloc: Global, line: &[u8]) -> Result<Vec<u8>, HexFault>
    ensures bytes { IfOk result (λ bytes. bytes_of_line line.now ≡ Some bytes.items) }
    ensures not_hex { IfErr result (λ fault. fault ≡ HexFault.NotHex → bytes_of_line line.now ≡ None) }
{
    let Ok(digits) = digits_of(alloc, line) else {
        return Err(HexFault::NoMemory);
    };
    match hex::decode(alloc, digits.as_slice()) {
        Ok(bytes) => Ok(bytes),
        Err(error) => Err(hex_fault_of(error)),
    }
}

fn hex_fault_of(error: FromHexError) -> HexFault
    ensures { result ≡ HexFault.NotHex → error ≢ OutOfMemory }
{
    match error {
        FromHexError::OutOfMemory => HexFault::NoMemory,
        _ => HexFault::NotHex,
    }
}

/// The line without its spaces.
fn digits_of(alloc: Global, line: &[u8]) -> Result<Vec<u8>, AllocError>
    ensures { IfOk result (λ digits. digits.items ≡ without_spaces line.now) }
{
    line.iter().copied().filter(|b| *b != b' ').collect(alloc)
}
