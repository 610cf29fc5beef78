//! The requests that wait for a reply, and the forwardings.

ghost use Rattle.std.specs.Prelude.{◌≡◌, ◌+◌, ◌++◌, ◌∷◌, [], true, false, length, IfOk, IfSome, OnOk, OnErr};
ghost use Rattle.global_replies.specs.Replies.{FirstAsked, after_reply, is_none_left, or_behind, refusals_behind, request_of, rest_of};
ghost use Rattle.global_replies.specs.Asks as asks;
ghost use Rattle.conn_messages.specs.Keys.{IsShort, key_of};
ghost use Rattle.forward_rules.specs.Step.{forward_answered, asked_forward, cancel_answered, forward_cancelled, forward_owner_at, some_free};
ghost use Rattle.forward_rules.specs.Taking.{AddsAs};
ghost use Rattle.mux_core.specs.Requesting.{more_awaited, member_waiting_of, with_waiting};

use super::Core;
use conn_messages::Key;
use forward_rules::ForwardRefused;
use global_replies::Ask;
use ssh_fields::OutOfMemory;

impl Core {
    // How many requests of a client have no answer.
    pub(crate) fn waiting(&self, client: u64) -> u32
        ensures { result ≡ length (member_waiting_of client self.now.clients) }
    {
        self.clients.waiting(client)
    }

    // A request that was sent and wants a reply.
    pub(crate) fn await_reply(&mut self, client: u64, what: Ask) -> Result<(), OutOfMemory>
        requires { asks.IsShortRequest (asks.what_of what) }
        ensures ok { OnOk result
            (self.new ≡ record self.old {
              asks = self.old.asks ++ request_of client what ∷ [];
              clients = with_waiting client more_awaited self.old.clients;
            }) }
        ensures policy { self.new.policy ≡ self.old.policy }
    {
        self.askers.ask(client, what)?;
        self.clients.awaited(client)?;
        Ok(())
    }

    // A request that wants a reply and isn't sent: whether its refusal goes out at once.
    pub(crate) fn refuse_waiting(&mut self, client: u64) -> Result<bool, OutOfMemory>
        ensures now { IfOk result (λ now. now ≡ is_none_left (member_waiting_of client self.old.clients)) }
        ensures ok { OnOk result
            (self.new ≡ record self.old {
              clients = with_waiting client or_behind self.old.clients;
            }) }
        ensures policy { self.new.policy ≡ self.old.policy }
    {
        self.clients.refused(client)
    }

    // The request that the server's next reply answers.
    pub(crate) fn take_asker(&mut self) -> Option<(u64, Ask)>
        ensures first { FirstAsked self.old.asks result }
        ensures rest { self.new ≡ record self.old { asks = rest_of self.old.asks } }
        ensures short { IfSome result (λ a. asks.IsShortRequest (asks.what_of a.1)) }
    {
        self.askers.answered()
    }

    // The reply to a client's first request goes to it: how many refusals follow it now.
    pub(crate) fn pass_reply(&mut self, client: u64) -> u32
        ensures refusals { result ≡ refusals_behind (member_waiting_of client self.old.clients) }
        ensures left { self.new
            ≡ record self.old { clients = with_waiting client after_reply self.old.clients } }
    {
        self.clients.answered(client)
    }

    // Whose a forwarded connection is.
    pub(crate) fn owner_of(&self, key: Key<'_>) -> Option<u64>
        ensures { result ≡ forward_owner_at (key_of key.entry) self.now.forwards }
    {
        self.forwards.owner_of(key)
    }

    // A forwarding that a client asks for.
    pub(crate) fn add_forward(&mut self, client: u64, key: Key<'_>) -> Result<(), ForwardRefused>
        requires { IsShort (key_of key) }
        ensures exact { AddsAs self.old.forwards client result }
        ensures ok { OnOk result
            (self.new ≡ record self.old {
              forwards = self.old.forwards ++ asked_forward client (key_of key.entry) ∷ [];
            }) }
        ensures unchanged { OnErr result (self.new ≡ self.old) }
    {
        self.forwards.add(client, key)
    }

    // The server's answer to a client's request for a forwarding.
    pub(crate) fn answer_forward(&mut self, client: u64, key: Key<'_>, bound: Option<u32>)
        ensures { self.new ≡ record self.old {
          forwards = forward_answered client (key_of key.entry) bound self.old.forwards;
        } }
    {
        self.forwards.answer(client, key, bound);
    }

    // The forwarding that a cancel means is cancelled: whether there is one.
    pub(crate) fn cancel_forward(&mut self, client: u64, key: Key<'_>, want: bool) -> bool
        ensures exact { result ≡ some_free client (key_of key.entry) self.old.forwards }
        ensures step { self.new
            ≡ record self.old {
              forwards =
                  forward_cancelled client (key_of key.entry) want self.old.forwards;
            } }
        ensures short { result ≡ true → IsShort (key_of key.entry) }
        ensures none { result ≡ false → self.new ≡ self.old }
    {
        self.forwards.cancel(client, key, want)
    }

    // The server's answer to a client's cancel.
    pub(crate) fn answer_cancel(&mut self, client: u64, key: Key<'_>, done: bool)
        ensures { self.new ≡ record self.old {
          forwards = cancel_answered client (key_of key.entry) done self.old.forwards;
        } }
    {
        self.forwards.cancel_answer(client, key, done);
    }
}
