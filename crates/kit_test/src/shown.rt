//! What a user is shown.

use std::alloc::Global;
use std::fmt::Display;

/// Whether the fault is shown as this text.
pub fn is_shown<E: Display>(alloc: Global, fault: &E, text: &str) -> bool {
    match format!(in alloc; "{fault}") {
        Ok(shown) => shown.as_str() == text,
        Err(_) => false,
    }
}
