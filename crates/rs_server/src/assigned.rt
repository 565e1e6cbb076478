//! The identifier that is assigned to a client that gives none (3.2.2.3.7).

ghost use Rattle.std.specs.Prelude.{◌≡◌, IfOk};
ghost use Rattle.std.specs.String.{string_bytes};
ghost use Rattle.rs_server.specs.Conversation.{assigned_of};

use crate::connection::ConnectionId;
use bytes::Bytes;
use rs_topic::Text;
use std::alloc::{AllocError, Global};

/// `rs`, the place, `-` and the number of the connection at that place, in decimal.
pub(crate) fn assigned_client(alloc: Global, id: ConnectionId) -> Result<Text, AllocError>
    ensures { IfOk result (λ text. text ≡ assigned_of id.place id.number) }
{
    let bytes = Bytes::from_vec(assigned_text(alloc, id)?.into_bytes())?;
    match Text::from_bytes(bytes) {
        Some(text) => Ok(text),
        None => unreachable!(),
    }
}

fn assigned_text(alloc: Global, id: ConnectionId) -> Result<String, AllocError>
    ensures { IfOk result (λ text. string_bytes text ≡ assigned_of id.place id.number) }
{
    let ConnectionId { place, number } = id;
    format!(in alloc; "rs{place}-{number}")
}
