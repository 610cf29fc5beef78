//! What the forwarder sends and receives.
ghost use Rattle.std.specs.Prelude.{◌≡◌, ◌≤◌, ◌<◌, true, false, length, find, is_some, OnOk, IfOk, IfSome, IsSome, None, Some, Ok};
ghost use Rattle.mux_outside.specs.House.{SendsFits, sends_nothing};
ghost use Rattle.mux_outside.specs.declared.piece.TheConstants.{LONGEST_PIECE};
ghost use Rattle.house_forward.specs.Forwardings.{has_request, forwarding_request_of};
ghost use Rattle.house_forward.specs.Quiet.{sends_none};
ghost use Rattle.house_forward.specs.Said.{framed, request_payload};
ghost use Rattle.house_forward.specs.RelayTraces.{is_grant, GoesFurther, ReceivesNext, ReceivesFrame};
ghost use Rattle.proxy_frames.specs.Steps.{pushed};
ghost use Rattle.ssh_fields.specs.Fields.{take_u32};
ghost use Rattle.house_forward.specs.State.{held_in, HasSent, KnowsSame, StaysKnown};

use super::{ForwarderStage, ForwarderState};
use crate::forwarding::ForwardingRequest;
use crate::outgoing;
use crate::receiving::receive;
use mux_outside::Piece;
use proxy_frames::{Framing, Next};
use ssh_fields::{Cursor, OutOfMemory};
use ssh_grammar::numbers::S_PROXY;

impl ForwarderState {
    /// Puts the next thing that it has to send into the piece.
    pub fn send(&mut self, into: &mut Piece) -> Result<bool, OutOfMemory>
        requires { self.old.ordering ≡ None }
        ensures fits { SendsFits result into.new }
        ensures exact { OnOk result (sends_nothing result ≡ sends_none self.old.greeted
            self.old.forwardings.all.items self.old.relays.all.items) }
        ensures silent { result ≡ Ok false → self.new ≡ self.old }
        ensures same { KnowsSame self.old self.new }
        ensures forwardings { length self.new.forwardings.all.items
            ≤ length self.old.forwardings.all.items }
        ensures relays { length self.new.relays.all.items
            ≤ length self.old.relays.all.items }
        ensures asks { self.new.asks ≡ self.old.asks }
        ensures says { IfOk result (λ said. said ≡ true
            → HasSent into.new self.old self.new) }
    {
        if !self.greeted {
            outgoing::put_whole(into, mux_outside::GREETING)?;
            self.greeted = true;
            return Ok(true);
        }
        if let Some(request) = self.request(into)? {
            self.forwardings.said(request)?;
            return Ok(true);
        }
        self.relays.send(into)
    }

    // Puts the next request to the server into the piece, if there is one.
    fn request(&self, into: &mut Piece) -> Result<Option<ForwardingRequest>, OutOfMemory>
        ensures exact { IfOk result (λ request. is_some request
            ≡ is_some (find has_request self.now.forwardings.all.items)) }
        ensures which { IfOk result (λ request. IfSome
            (find has_request self.now.forwardings.all.items)
            (λ f. request ≡ Some (forwarding_request_of f))) }
        ensures spelled { OnOk result (IfSome
            (find has_request self.now.forwardings.all.items)
            (λ f. into.new ≡ framed (request_payload f))) }
        ensures some { IfOk result (λ request. IfSome request
            (λ r. 0 < length into.new)) }
        ensures short { IfOk result (λ request. IfSome request
            (λ r. length into.new ≤ LONGEST_PIECE)) }
    {
        let Some(forwarding) = self.forwardings.to_send() else {
            return Ok(None);
        };
        let payload = outgoing::request(
            self.alloc,
            forwarding.request_name(),
            forwarding.listen_host.as_bytes(),
            forwarding.request_port(),
        )?;
        outgoing::put_frame(into, &payload)?;
        Ok(Some(forwarding.request()))
    }

    /// Receives bytes that are written to the forwarder.
    pub fn take(&mut self, bytes: &[u8]) -> Result<(), OutOfMemory>
        ensures others { self.new ≡ record self.old { framer = self.new.framer } }
        ensures heard { OnOk result (self.new.framer ≡ pushed bytes.now self.old.framer) }
    {
        self.framer.push(bytes)
    }

    /// Receives the next frame of them, and whether there was one.
    pub fn receive(&mut self) -> Result<bool, OutOfMemory>
        requires { self.old.ordering ≡ None }
        ensures fewer { IfOk result (λ heard. heard ≡ true
            → length self.new.framer.rest < length self.old.framer.rest) }
        ensures stays { StaysKnown self.old self.new }
        ensures none { result ≡ Ok false → self.new
            ≡ record self.old { framer = self.new.framer } }
        ensures receives { IfOk result (λ heard. GoesFurther (ReceivesNext heard)
            (held_in self.old) (held_in self.new)) }
    {
        match self.framer.next() {
            Next::Frame => {
                self.receive_frame()?;
                Ok(true)
            }
            Next::More | Next::Bad(_) => Ok(false),
        }
    }

    // Receives the frame that is current.
    fn receive_frame(&mut self) -> Result<(), OutOfMemory>
        requires current { IsSome self.old.framer.current }
        requires ordering { self.old.ordering ≡ None }
        ensures rest { self.new.framer.rest ≡ self.old.framer.rest }
        ensures stays { StaysKnown self.old self.new }
        ensures receives { OnOk result (IfSome self.old.framer.current
            (λ content. GoesFurther (ReceivesFrame self.old.stage content)
            (held_in self.old) (held_in self.new))) }
    {
        match self.stage {
            ForwarderStage::Control => {
                if grants(self.framer.content()) {
                    self.stage = ForwarderStage::Proxy;
                    self.framer.switch(Framing::Proxy);
                }
                Ok(())
            }
            ForwarderStage::Proxy => receive(
                self.alloc,
                self.framer.content(),
                &mut self.forwardings,
                &mut self.asks,
                &mut self.relays,
            ),
        }
    }
}

// Whether a control message grants the proxy.
fn grants(message: &[u8]) -> bool
    ensures { result ≡ is_grant (take_u32 message.now) }
{
    match Cursor::new(message).take_u32() {
        Some(number) => number == S_PROXY,
        None => false,
    }
}
