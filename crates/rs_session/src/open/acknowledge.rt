//! PUBACK, PUBREC, PUBREL and PUBCOMP: sections 3.4 to 3.7.

ghost use Rattle.std.specs.Prelude.{◌≡◌};
ghost use Rattle.rs_session.specs.Table.{LeadsWithoutGate, released_reason};

use super::{Effect, Open};
use crate::phase::Input;
use crate::reason::ReasonCode;
use rs_packet::{Acknowledgement, Packet, Reply};
use rs_window::Ack;

impl Open {
    pub(super) fn puback(&mut self, a: Acknowledgement) -> Effect
        ensures { LeadsWithoutGate (Input.Whole (Packet.Puback a)) self.old result self.new }
    {
        match self.window.on_puback(a.id, a.code) {
            Ok(_ack) => Effect::Replies(None),
            Err(_) => Effect::Closes(ReasonCode::ProtocolError),
        }
    }

    /// A PUBREC below 0x80 is answered by a PUBREL.
    pub(super) fn pubrec(&mut self, a: Acknowledgement) -> Effect
        ensures { LeadsWithoutGate (Input.Whole (Packet.Pubrec a)) self.old result self.new }
    {
        match self.window.on_pubrec(a.id, a.code) {
            Ok(Ack::Released) => Effect::Replies(Some(Reply::Pubrel(
                a.id,
                ReasonCode::Success.code(),
            ))),
            Ok(Ack::Freed) => Effect::Replies(None),
            Ok(Ack::Unknown) => {
                if a.code < 0x80 {
                    let code = ReasonCode::PacketIdentifierNotFound.code();
                    return Effect::Replies(Some(Reply::Pubrel(a.id, code)));
                }
                Effect::Replies(None)
            }
            Err(_) => Effect::Closes(ReasonCode::ProtocolError),
        }
    }

    pub(super) fn pubcomp(&mut self, a: Acknowledgement) -> Effect
        ensures { LeadsWithoutGate (Input.Whole (Packet.Pubcomp a)) self.old result self.new }
    {
        match self.window.on_pubcomp(a.id, a.code) {
            Ok(_ack) => Effect::Replies(None),
            Err(_) => Effect::Closes(ReasonCode::ProtocolError),
        }
    }

    /// Its identifier is released.
    pub(super) fn pubrel(&mut self, a: Acknowledgement) -> Effect
        ensures { LeadsWithoutGate (Input.Whole (Packet.Pubrel a)) self.old result self.new }
    {
        let reason = if self.inbound.release(a.id) {
            ReasonCode::Success
        } else {
            ReasonCode::PacketIdentifierNotFound
        };
        Effect::Replies(Some(Reply::Pubcomp(a.id, reason.code())))
    }
}
