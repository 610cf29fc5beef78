//! What a client requests of the server beside its channels.

ghost use Rattle.std.specs.Prelude.{◌≡◌, true, IfOk, OnOk, OnErr};
ghost use Rattle.ssh_grammar.specs.declared.framing.Framing.TheVariants.{Proxy};
ghost use Rattle.ssh_grammar.specs.IsFrame.{IsContent};
ghost use Rattle.ssh_grammar.specs.Messages.{Cancel, Forward, KeepAlive};
ghost use Rattle.mux_history.specs.Summary.{Requests};
ghost use Rattle.conn_messages.specs.Keys.{IsShort, key_of};
ghost use Rattle.mux_core.specs.Calls.{VerdictFits, SendsAs};
ghost use Rattle.conn_messages.specs.Message.{grammar_request_of};
ghost use Rattle.mux_core.specs.Requesting.{SendsRoomy, after_refusal, is_one_too_many, may_ask, refusal_verdict, member_waiting_of};

use crate::state::Core;
use crate::verdict::Verdict;
use conn_messages::{Key, OwnKey, Request, request_failure};
use forward_rules::ForwardRefused;
use global_replies::Ask;
use mux_history::Why;
use mux_history::limits::MAX_GLOBAL_REQUESTS;
use proxy_frames::Queue;
use ssh_fields::OutOfMemory;
use ssh_grammar::numbers::*;

impl Core {
    // A global request of a client.
    pub(crate) fn send_request(
        &mut self,
        client: u64,
        payload: &[u8],
        what: Request<'_>,
        want: bool,
        up: &mut Queue,
    ) -> Result<Verdict, OutOfMemory>
        requires { IsContent Proxy payload.now }
        ensures stands { IfOk result (λ v.
            SendsAs self.old self.new client payload.now (Requests (grammar_request_of what.entry) want) 0
            up.old up.new v) }
        ensures fits { IfOk result VerdictFits }
        ensures spare { up.new.spare ≡ up.old.spare }
        ensures policy { self.new.policy ≡ self.old.policy }
        ensures err { OnErr result (up.new ≡ up.old) }
    {
        if self.is_full(client, want) {
            return Ok(Verdict::Drop(Why::TooManyAsks {
                have: MAX_GLOBAL_REQUESTS,
            }));
        }
        match what {
            Request::KeepAlive => return self.send_alive(client, payload, want, up),
            Request::Other => return self.refuse_request(client, want),
            Request::Forward(key) => return self.send_forward(client, payload, key, want, up),
            Request::Cancel(key) => return self.send_cancel(client, payload, key, want, up),
        }
    }

    // Whether a client's request is one too many.
    pub(crate) fn is_full(&self, client: u64, want: bool) -> bool
        ensures { result ≡ is_one_too_many want (member_waiting_of client self.now.clients) }
    {
        want && self.waiting(client) >= MAX_GLOBAL_REQUESTS
    }

    // Whether a client may ask for a forwarding, however many it has.
    pub(crate) fn may_listen(&self, key: Key<'_>, want: bool) -> bool
        ensures exact { result ≡ may_ask self.now.policy (key_of key.entry) want }
        ensures short { result ≡ true → IsShort (key_of key.entry) }
    {
        want && key.is_askable() && self.permits_listen(key)
    }

    // A request that isn't sent.
    pub(crate) fn refuse_request(&mut self, client: u64, want: bool) -> Result<Verdict, OutOfMemory>
        ensures verdict { IfOk result (λ v. v ≡ refusal_verdict want (member_waiting_of client self.old.clients)) }
        ensures fits { IfOk result VerdictFits }
        ensures ok { OnOk result
            (self.new ≡ record self.old { clients = after_refusal want client self.old.clients }) }
        ensures policy { self.new.policy ≡ self.old.policy }
    {
        if !want {
            return Ok(Verdict::Silent);
        }
        let now = self.refuse_waiting(client)?;
        if now {
            return Ok(Verdict::Answer(request_failure()));
        }
        Ok(Verdict::Held)
    }

    // A client asks whether the server is there.
    pub(crate) fn send_alive(
        &mut self,
        client: u64,
        payload: &[u8],
        want: bool,
        up: &mut Queue,
    ) -> Result<Verdict, OutOfMemory>
        requires { IsContent Proxy payload.now }
        ensures stands { IfOk result (λ v.
            SendsRoomy self.old self.new client payload.now KeepAlive want up.old up.new v) }
        ensures fits { IfOk result VerdictFits }
        ensures spare { up.new.spare ≡ up.old.spare }
        ensures policy { self.new.policy ≡ self.old.policy }
        ensures err { OnErr result (up.new ≡ up.old) }
    {
        if want {
            self.await_reply(client, Ask::KeepAlive)?;
            up.push_payload(payload)?;
            return Ok(Verdict::Sent);
        }
        up.push_payload(payload)?;
        Ok(Verdict::Sent)
    }

    // A client asks for a forwarding.
    pub(crate) fn send_forward(
        &mut self,
        client: u64,
        payload: &[u8],
        key: Key<'_>,
        want: bool,
        up: &mut Queue,
    ) -> Result<Verdict, OutOfMemory>
        requires { IsContent Proxy payload.now }
        ensures stands { IfOk result (λ v.
            SendsRoomy self.old self.new client payload.now (Forward (key_of key.entry)) want
            up.old up.new v) }
        ensures fits { IfOk result VerdictFits }
        ensures spare { up.new.spare ≡ up.old.spare }
        ensures policy { self.new.policy ≡ self.old.policy }
        ensures err { OnErr result (up.new ≡ up.old) }
    {
        if !self.may_listen(key, want) {
            return self.refuse_request(client, want);
        }
        match self.add_forward(client, key) {
            Ok(()) => {}
            Err(ForwardRefused::Full { .. }) => return self.refuse_request(client, want),
            Err(ForwardRefused::OutOfMemory) => return Err(OutOfMemory),
        }
        self.await_reply(client, Ask::Forward(OwnKey::copy(key)))?;
        up.push_payload(payload)?;
        Ok(Verdict::Sent)
    }

    // A client cancels a forwarding.
    pub(crate) fn send_cancel(
        &mut self,
        client: u64,
        payload: &[u8],
        key: Key<'_>,
        want: bool,
        up: &mut Queue,
    ) -> Result<Verdict, OutOfMemory>
        requires { IsContent Proxy payload.now }
        ensures stands { IfOk result (λ v.
            SendsRoomy self.old self.new client payload.now (Cancel (key_of key.entry)) want
            up.old up.new v) }
        ensures fits { IfOk result VerdictFits }
        ensures spare { up.new.spare ≡ up.old.spare }
        ensures policy { self.new.policy ≡ self.old.policy }
        ensures err { OnErr result (up.new ≡ up.old) }
    {
        if !self.cancel_forward(client, key, want) {
            return self.refuse_request(client, want);
        }
        if want {
            self.await_reply(client, Ask::Cancel(OwnKey::copy(key)))?;
            up.push_payload(payload)?;
            return Ok(Verdict::Sent);
        }
        up.push_payload(payload)?;
        Ok(Verdict::Sent)
    }
}
