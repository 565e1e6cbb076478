//! Why the lines and the writer do not agree.

ghost use Rattle.std.specs.Prelude.{◌≡◌};
ghost use Rattle.rs_intake.specs.Codes.{code_of};

use thiserror::Error;

/// Why [`settle`](crate::settle) does not say that all that was sent was taken.
#[derive(Clone, Copy, Debug, PartialEq, Eq, Error)]
pub enum SettleFault {
    /// 45: a place has no end or two, or not as many entries were taken as sent.
    #[error("not all that was sent is known to be taken; close each line once, and settle after the writer has ended")]
    Unsettled,
}

impl SettleFault {
    /// 45.
    pub fn code(&self) -> u8
        ensures { result ≡ code_of self.now }
    {
        match self {
            SettleFault::Unsettled => 45,
        }
    }
}
