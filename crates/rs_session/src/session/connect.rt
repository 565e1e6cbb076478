//! The first packet.

ghost use Rattle.std.specs.Prelude.{◌≡◌, ◌≤◌, ◌<◌, None, Some, IfOk, is_some};
ghost use Rattle.rs_packet.specs.declared.packet.Publish.{Publish};
ghost use Rattle.rs_packet.specs.declared.reply.Reply.{Reply};
ghost use Rattle.rs_session.specs.Reasons.{reason_value};
ghost use Rattle.rs_session.specs.State.{state_of, ended, within};
ghost use Rattle.rs_session.specs.Steps.{IsAccepted, connect_refusal};
ghost use Rattle.rs_session.specs.Table.{AnswersWithoutGate, connack, open_for, packet_maximum, receive_maximum, is_longer, assigned_for};
ghost use Rattle.rs_session.specs.declared.open.Open.{Open};

use super::Session;
use crate::gate::Gate;
use crate::incoming::Incoming;
use crate::open::Open;
use crate::phase::{Closing, Input, Phase};
use crate::reason::ReasonCode;
use crate::session::within;
use crate::subscriptions::Subscriptions;
use rs_packet::{ConnackAccepted, Connect, Packet, PacketFault, Reply, encoded_len};
use rs_topic::Text;
use rs_window::{Inbound, Window};
use std::alloc::AllocError;

impl<G: Gate> Session<G> {
    /// The first input.
    pub(super) fn first_input(&mut self, incoming: Incoming)
        requires due { self.old.due ≡ None }
        requires before { self.old.phase ≡ Phase.Before }
        ensures row { AnswersWithoutGate incoming.input (state_of self.old) self.new.due (state_of self.new) }
        ensures gate { self.new.gate ≡ self.old.gate }
        ensures early { (p : Publish) → incoming.input ≡ Input.Whole (Packet.Publish p) → self.new.phase ≡ Phase.Ended Closing.Dropped }
    {
        match incoming.into_input() {
            Input::Whole(packet) => self.first_packet(packet),
            Input::Broken(fault) => self.first_fault(fault),
        }
    }

    /// The first packet, which has to be a CONNECT.
    fn first_packet(&mut self, packet: Packet)
        requires due { self.old.due ≡ None }
        requires before { self.old.phase ≡ Phase.Before }
        ensures row { AnswersWithoutGate (Input.Whole packet) (state_of self.old) self.new.due (state_of self.new) }
        ensures gate { self.new.gate ≡ self.old.gate }
        ensures early { (p : Publish) → packet ≡ Packet.Publish p → self.new.phase ≡ Phase.Ended Closing.Dropped }
    {
        match packet {
            Packet::Connect(c) => self.connect(&c),
            Packet::Publish(_p) => self.end(Closing::Dropped),
            Packet::Puback(_a) => self.end(Closing::Dropped),
            Packet::Pubrec(_a) => self.end(Closing::Dropped),
            Packet::Pubrel(_a) => self.end(Closing::Dropped),
            Packet::Pubcomp(_a) => self.end(Closing::Dropped),
            Packet::Subscribe(_s) => self.end(Closing::Dropped),
            Packet::Unsubscribe(_u) => self.end(Closing::Dropped),
            Packet::Pingreq => self.end(Closing::Dropped),
            Packet::Disconnect(_code) => self.end(Closing::Dropped),
        }
    }

    /// A fault instead of the first packet. Only another version of the protocol is answered.
    pub(super) fn first_fault(&mut self, fault: PacketFault)
        requires due { self.old.due ≡ None }
        requires before { self.old.phase ≡ Phase.Before }
        ensures row { AnswersWithoutGate (Input.Broken fault) (state_of self.old) self.new.due (state_of self.new) }
        ensures gate { self.new.gate ≡ self.old.gate }
    {
        match fault {
            PacketFault::Version => {
                let code = ReasonCode::UnsupportedProtocolVersion.code();
                self.due = Some(Reply::ConnackRefused(code));
                self.end(Closing::ByServer(code));
            }
            PacketFault::Malformed => self.end(Closing::Dropped),
            PacketFault::Protocol => self.end(Closing::Dropped),
            PacketFault::TooLarge => self.end(Closing::Dropped),
            PacketFault::NoMemory => self.end(Closing::Dropped),
        }
    }

    fn connect(&mut self, c: &Connect)
        requires due { self.old.due ≡ None }
        requires before { self.old.phase ≡ Phase.Before }
        ensures row { AnswersWithoutGate (Input.Whole (Packet.Connect c.now)) (state_of self.old) self.new.due (state_of self.new) }
        ensures gate { self.new.gate ≡ self.old.gate }
    {
        let maximum = packet_maximum(c);
        if let Some(reason) = refusal(c) {
            self.refuse(reason, maximum);
            return;
        }
        match self.begin(c) {
            Ok((connack, begun)) => self.accept(connack, begun, maximum),
            Err(_) => self.refuse(ReasonCode::QuotaExceeded, maximum),
        }
    }

    /// The CONNACK that accepts, and what the session keeps then.
    fn begin(&self, c: &Connect) -> Result<(Reply, Open), AllocError>
        ensures connack { IfOk result (λ r. r.0 ≡ connack c.now (state_of self.now)) }
        ensures keeps { IfOk result (λ r. r.1 ≡ open_for c.now) }
    {
        let connack = self.connack(c)?;
        Ok((connack, self.open_for(c)))
    }

    /// What the session keeps once it is open.
    fn open_for(&self, c: &Connect) -> Open
        ensures { result ≡ open_for c.now }
    {
        Open {
            subscriptions: Subscriptions::new(self.alloc),
            inbound: Inbound::new(),
            window: Window::idle(self.alloc, receive_maximum(c), packet_maximum(c)),
        }
    }

    /// A CONNACK that refuses, to a client that takes it, and the end.
    fn refuse(&mut self, reason: ReasonCode, maximum: u32)
        ensures state { state_of self.new ≡ ended (state_of self.old) (Closing.ByServer (reason_value reason)) }
        ensures due { self.new.due ≡ within maximum (Reply.ConnackRefused (reason_value reason)) }
        ensures gate { self.new.gate ≡ self.old.gate }
    {
        let code = reason.code();
        self.due = within(maximum, Reply::ConnackRefused(code));
        self.end(Closing::ByServer(code));
    }

    /// The CONNACK that accepts.
    fn connack(&self, c: &Connect) -> Result<Reply, AllocError>
        ensures { IfOk result (λ r. r ≡ connack c.now (state_of self.now)) }
    {
        Ok(Reply::ConnackAccepted(ConnackAccepted {
            session_expiry_zero: is_longer(c.session_expiry),
            assigned_client: self.assigned_for(&c.client)?,
        }))
    }

    /// The identifier for a client that gave an empty one.
    fn assigned_for(&self, client: &Option<Text>) -> Result<Option<Text>, AllocError>
        ensures { IfOk result (λ a. a ≡ assigned_for client.now (state_of self.now).assigned) }
    {
        match client {
            Some(client) if client.is_empty() => Ok(Some(self.assigned.copy()?)),
            _ => Ok(None),
        }
    }

    /// The session is open, unless the client would not take the CONNACK.
    fn accept(&mut self, connack: Reply, begun: Open, maximum: u32)
        requires { self.old.due ≡ None }
        ensures accepted { IsAccepted connack maximum begun (state_of self.old) self.new.due (state_of self.new) }
        ensures gate { self.new.gate ≡ self.old.gate }
    {
        if encoded_len(&connack) > maximum as usize {
            self.end(Closing::ByServer(ReasonCode::Success.code()));
        } else {
            self.due = Some(connack);
            self.phase = Phase::Open(begun);
        }
    }
}

/// The longest packet that the client takes, in bytes (3.1.2.11.4).
fn packet_maximum(c: &Connect) -> u32
    ensures value { result ≡ packet_maximum c.now.packet_maximum }
    ensures some { 0 < result }
{
    match c.packet_maximum {
        Some(maximum) => maximum,
        None => u32::MAX,
    }
}

/// How many PUBLISH packets of QoS 1 and 2 the client takes before it acknowledges one (3.1.2.11.3).
fn receive_maximum(c: &Connect) -> u16
    ensures value { result ≡ receive_maximum c.now.receive_maximum }
    ensures some { 0 < result }
{
    match c.receive_maximum {
        Some(maximum) => maximum,
        None => u16::MAX,
    }
}

/// The Reason Code of a CONNECT that asks for what is not served.
fn refusal(c: &Connect) -> Option<ReasonCode>
    ensures { result ≡ connect_refusal (is_some c.now.method) c.now.will }
{
    if c.method.is_some() {
        return Some(ReasonCode::BadAuthenticationMethod);
    }
    if c.will {
        return Some(ReasonCode::ImplementationSpecificError);
    }
    None
}

/// The client asked for a session that outlives its connection.
fn is_longer(session_expiry: Option<u32>) -> bool
    ensures { result ≡ is_longer session_expiry }
{
    match session_expiry {
        Some(seconds) => seconds > 0,
        None => false,
    }
}
