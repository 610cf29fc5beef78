ghost use Rattle.std.specs.Prelude.{◌≡◌, ◌≤◌, length, IfOk, IfSome, OnOk, OnErr};
ghost use Rattle.ssh_fields.specs.Fields.{u32_at};
ghost use Rattle.ssh_grammar.specs.declared.framing.Framing.TheVariants.{Proxy};
ghost use Rattle.ssh_grammar.specs.IsFrame.{IsContent};
ghost use Rattle.proxy_frames.specs.declared.queue.TheConstants.{LONGEST_PAYLOAD};
ghost use Rattle.mux_history.specs.Summary.{Refuses, Requests, Succeeds};
ghost use Rattle.mux_history.specs.Farewell.{late_refusal, late_success};
ghost use Rattle.global_replies.specs.Asks.{IsShortRequest};
ghost use Rattle.global_replies.specs.Replies.{after_reply, refusals_behind};
ghost use Rattle.client_teardown.specs.Leaving.{with_payloads};
ghost use Rattle.mux_core.specs.Calls.{CoreReceivesOn, ReceivesWith};
ghost use Rattle.conn_messages.specs.Message.{grammar_request_of};
ghost use Rattle.client_teardown.specs.Steps.{payload_list};
ghost use Rattle.mux_core.specs.Replying.{after_failure, after_success, misses_port};
ghost use Rattle.mux_core.specs.Requesting.{member_waiting_of, with_waiting};
ghost use Rattle.mux_core.specs.Settling.{client_settled};
ghost use Rattle.mux_core.specs.declared.heard.Delivery.TheVariants.{Client, Lost};

use crate::reading::{Summary, read_summary};
use crate::state::Core;
use client_teardown::cancel;
use conn_messages::{Key, Request, request_failure};
use mux_history::Break;
use proxy_frames::Queue;
use ssh_fields::{Cursor, OutOfMemory, Small};
use ssh_grammar::numbers::*;

/// Where what the server sent goes.
#[derive(Clone, Copy, PartialEq, Eq)]
pub enum Delivery {
    /// Nothing goes to a client.
    Master,
    /// The payload, and then so many refusals, are this client's.
    Client { client: u64, refusals: u32 },
    /// To a client that is lost.
    Lost { client: u64 },
    /// The run ends.
    Disconnect,
    /// The server breaks the protocol.
    Broke(Break),
}

// The server must name the port that it chose, and doesn't.
fn misses_port(request: Request<'_>, rest: &[u8]) -> bool
    ensures { result ≡ misses_port (grammar_request_of request.entry) rest.now }
{
    match request {
        Request::Forward(Key::Tcp { port: 0, .. }) => rest.len() != 4,
        _ => false,
    }
}

// The port that a success contains, if it does (RFC 4254, section 7.1).
fn recorded_port(rest: &[u8]) -> u32
    ensures { result ≡ u32_at 0 rest.now }
{
    Cursor::new(rest).take_u32().unwrap_or(0)
}

// What follows for a client that is lost where its request succeeds: what it asked for is
// cancelled.
fn late_success(request: Request<'_>, rest: &[u8]) -> Option<Small>
    requires { IsShortRequest (grammar_request_of request) }
    ensures exact { payload_list result ≡ late_success rest.now (grammar_request_of request.entry) }
    ensures fits { IfSome result (IsContent Proxy) }
{
    match request {
        Request::Forward(key) => Some(cancel(key.with_port(recorded_port(rest)))),
        Request::Cancel(_) | Request::KeepAlive | Request::Other => None,
    }
}

// And where it fails: a cancel is sent again.
fn late_refusal(request: Request<'_>) -> Option<Small>
    requires { IsShortRequest (grammar_request_of request) }
    ensures exact { payload_list result ≡ late_refusal (grammar_request_of request.entry) }
    ensures fits { IfSome result (IsContent Proxy) }
{
    match request {
        Request::Cancel(key) => Some(cancel(key)),
        Request::Forward(_) | Request::KeepAlive | Request::Other => None,
    }
}

impl Core {
    /// The server sends a payload. Where it goes to a client it has the client's own number for the
    /// channel afterwards.
    pub fn heard(&mut self, payload: &mut [u8], up: &mut Queue) -> Result<Delivery, OutOfMemory>
        requires { length payload.old ≤ LONGEST_PAYLOAD }
        ensures stands { IfOk result (λ h.
            CoreReceivesOn self.old self.new payload.old payload.new up.old up.new h) }
        ensures length { length payload.new ≡ length payload.old }
        ensures spare { up.old.spare ≤ up.new.spare }
        ensures policy { self.new.policy ≡ self.old.policy }
        ensures err { OnErr result (up.new ≡ up.old) }
    {
        match read_summary(payload) {
            Err(bad) => Ok(Delivery::Broke(Break::Message(bad))),
            Ok(Summary::Transport { number: DISCONNECT }) => Ok(Delivery::Disconnect),
            Ok(Summary::Transport { .. }) => Ok(Delivery::Master),
            Ok(Summary::Requests { what, want }) => self.receive_request(payload, what, want, up),
            Ok(Summary::Succeeds { rest }) => self.receive_success(payload, rest, up),
            Ok(Summary::Refuses) => self.receive_refusal(payload, up),
            Ok(
                Summary::Open {
                    what,
                    sender,
                    window,
                    maximum,
                },
            ) => self.receive_open(payload, &what, sender, window, maximum, up),
            Ok(
                Summary::Confirmation {
                    recipient,
                    sender,
                    window,
                    maximum,
                },
            ) => self.receive_confirmation(payload, recipient, sender, window, maximum, up),
            Ok(Summary::Fails { recipient }) => Ok(self.receive_failure(payload, recipient)),
            Ok(Summary::Within { recipient, act }) => Ok(self.receive_within(
                payload, recipient, act,
            )),
        }
    }

    // ---- global requests and their replies

    // The server sends a global request: the master refuses.
    fn receive_request(
        &self,
        payload: &[u8],
        what: Request<'_>,
        want: bool,
        up: &mut Queue,
    ) -> Result<Delivery, OutOfMemory>
        ensures stands { IfOk result (λ h.
            ReceivesWith self.now self.now payload.now payload.now
            (Requests (grammar_request_of what.entry) want) up.old up.new h) }
        ensures spare { up.new.spare ≡ up.old.spare }
        ensures err { OnErr result (up.new ≡ up.old) }
    {
        if !want {
            return Ok(Delivery::Master);
        }
        let refusal = request_failure();
        up.push_payload(refusal.as_bytes())?;
        Ok(Delivery::Master)
    }

    // A success: to the client whose request waits longest, and where that is lost what it asked
    // for is cancelled.
    fn receive_success(
        &mut self,
        payload: &[u8],
        rest: &[u8],
        up: &mut Queue,
    ) -> Result<Delivery, OutOfMemory>
        ensures stands { IfOk result (λ h.
            ReceivesWith self.old self.new payload.now payload.now (Succeeds rest.now)
            up.old up.new h) }
        ensures spare { up.new.spare ≡ up.old.spare }
        ensures policy { self.new.policy ≡ self.old.policy }
        ensures err { OnErr result (up.new ≡ up.old) }
    {
        let Some((client, ask)) = self.take_asker() else {
            return Ok(Delivery::Broke(Break::NoAsker));
        };
        let request = ask.as_request();
        if misses_port(request, rest) {
            return Ok(Delivery::Broke(Break::BadReply { length: rest.len() }));
        }
        if self.is_lost(client) {
            return self.receive_late(client, late_success(request, rest), up);
        }
        self.succeed(client, request, rest);
        Ok(self.pass_on(client))
    }

    // A failure: to the client whose request waits longest, and where that is lost its cancel is
    // sent again.
    fn receive_refusal(&mut self, payload: &[u8], up: &mut Queue) -> Result<Delivery, OutOfMemory>
        ensures stands { IfOk result (λ h.
            ReceivesWith self.old self.new payload.now payload.now Refuses up.old up.new h) }
        ensures spare { up.new.spare ≡ up.old.spare }
        ensures policy { self.new.policy ≡ self.old.policy }
        ensures err { OnErr result (up.new ≡ up.old) }
    {
        let Some((client, ask)) = self.take_asker() else {
            return Ok(Delivery::Broke(Break::NoAsker));
        };
        let request = ask.as_request();
        if self.is_lost(client) {
            return self.receive_late(client, late_refusal(request), up);
        }
        self.fail(client, request);
        Ok(self.pass_on(client))
    }

    // A reply for a client that is lost, and what the master sends after it.
    fn receive_late(
        &mut self,
        client: u64,
        cancel: Option<Small>,
        up: &mut Queue,
    ) -> Result<Delivery, OutOfMemory>
        requires { IfSome cancel (IsContent Proxy) }
        ensures to { IfOk result (λ h. h ≡ Lost client) }
        ensures ok { OnOk result (self.new ≡ client_settled self.old client) }
        ensures sent { OnOk result (up.new ≡ with_payloads (payload_list cancel) up.old) }
        ensures policy { self.new.policy ≡ self.old.policy }
        ensures err { OnErr result (up.new ≡ up.old) }
    {
        if let Some(payload) = cancel {
            up.push_payload(payload.as_bytes())?;
        }
        self.settle(client);
        Ok(Delivery::Lost { client })
    }

    // A reply goes to its client, and so many refusals after it as waited after it.
    pub(crate) fn pass_on(&mut self, client: u64) -> Delivery
        ensures to { result ≡ Client client (refusals_behind (member_waiting_of client self.old.clients)) }
        ensures left { self.new
            ≡ record self.old { clients = with_waiting client after_reply self.old.clients } }
    {
        let refusals = self.pass_reply(client);
        Delivery::Client { client, refusals }
    }

    // What a success does to the forwardings.
    fn succeed(&mut self, client: u64, request: Request<'_>, rest: &[u8])
        ensures { self.new ≡ record self.old {
          forwards = after_success client (grammar_request_of request.entry) rest.now
              self.old.forwards;
        } }
    {
        match request {
            Request::Forward(key) => self.answer_forward(client, key, Some(recorded_port(rest))),
            Request::Cancel(key) => self.answer_cancel(client, key, true),
            Request::KeepAlive | Request::Other => {}
        }
    }

    // What a failure does to them.
    fn fail(&mut self, client: u64, request: Request<'_>)
        ensures { self.new ≡ record self.old {
          forwards = after_failure client (grammar_request_of request.entry) self.old.forwards;
        } }
    {
        match request {
            Request::Forward(key) => self.answer_forward(client, key, None),
            Request::Cancel(key) => self.answer_cancel(client, key, false),
            Request::KeepAlive | Request::Other => {}
        }
    }
}
