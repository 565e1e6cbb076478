//! Why a change was not acknowledged.

ghost use Rattle.std.specs.Prelude.{◌≡◌};
ghost use Rattle.rs_message.specs.Codes.{code_of};

use thiserror::Error;

/// Why a gate to the store gave no receipt for a change. If memory was refused, the Sweep that the change needs may have been made all
/// the same.
#[derive(Clone, Copy, Debug, PartialEq, Eq, Error)]
pub enum SubmitFault {
    /// 40: the change was not made: one more topic would hold a message than the limit allows, and no Sweep makes space; or the store has
    /// no number left; or the place has used its last serial.
    #[error("the store holds as many topics as it may, or has no number left; clear a topic or raise the limit")]
    Full = 40,
    /// 41: out of memory; the change was not made.
    #[error("memory was refused, and nothing was stored; free memory and try again")]
    NoMemory = 41,
    /// 42: no receipt came; the change may still become an entry, at most once.
    #[error("the store gave no receipt; the change may still be made, once")]
    Open = 42,
    /// 43: the receipt was for another change, and whether this one is an entry is not known; or another change was announced to come
    /// first, and nothing was done.
    #[error("the store answered for another change, or another was to come first; whether this one was made is not known")]
    Strange = 43,
    /// 44: the gate is closed; the change was not made.
    #[error("the store takes no more changes; start it again")]
    Closed = 44,
}

impl SubmitFault {
    /// The number of the fault, 40 to 44.
    pub fn code(&self) -> u8
        ensures { result ≡ code_of self.now }
    {
        *self as u8
    }
}
