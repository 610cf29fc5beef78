//! One forwarding of the forwarder.
ghost use Rattle.std.specs.Prelude.{◌≡◌, true, not, is_some, IfOk, OnOk, IfSome, None, Some};
ghost use Rattle.house_forward.specs.Forwardings.{is_asked_or_live, listens_at, connects_same_end, forwarding_outcome_of, bound_of, listener_of, is_first, as_first, has_request, forwarding_request_of, IsAt, IsAskedFor};
ghost use Rattle.house_forward.specs.Said.{request_name, request_port};
ghost use Rattle.house_forward.specs.Rules.{listens_here};
ghost use Rattle.house_forward.specs.Forwardings.{to_listen, waits_at, has_listener, forwarding_changed, listener_stage_after, bound_port, outcome_of_grant, is_listen_unanswered, is_cancelled, is_to_listen, is_order_pending, want_in, served_at};

use crate::asks::{ImmediateOutcome, PendingRequests, RequestOutcome};
use crate::forwardings::ForwardingWant;
use crate::rules::{Ends, ForwardingKind, same_kind};
use crate::two_texts::TwoTexts;
use ssh_fields::{OutOfMemory, Text};
use std::alloc::Global;
use std::mem;

/// A request to the server that has no reply yet.
#[derive(Clone, Copy)]
pub enum ForwardingRequest {
    /// To listen for this forwarding.
    Listen(u64),
    /// To listen for it no longer.
    Cancel(u64),
}

/// How far a forwarding is.
#[derive(Drop)]
pub enum Stage {
    /// A listener is to be ordered at this host.
    ToListen(TwoTexts),
    /// It is ordered, and its number is awaited.
    Ordered,
    /// This listener listens.
    Listening(u64),
    /// The request to the server is to be sent.
    ToRequest,
    /// It is sent and unanswered.
    Requested,
    /// The server listens on this port.
    Live(u32),
    /// The same, and the cancel is sent and unanswered.
    Cancelling(u32),
}

/// How a forwarding changes by what is requested, sent and received.
#[derive(Clone, Copy)]
pub enum Change {
    /// It is asked to close.
    Close,
    /// The request to listen is sent.
    ForwardingRequest,
    /// The cancel is sent.
    Cancel,
    /// The server listens, on this port if it was to choose one.
    Live(Option<u32>),
    /// The server refused the cancel.
    Stay,
}

/// A forwarding that is asked or live, or that is still to be closed.
#[derive(Drop)]
pub struct Forwarding {
    /// A number of its own, never used again.
    pub serial: u64,
    pub kind: ForwardingKind,
    /// The listen host as it is used, and the port as it was asked.
    pub listen_host: Text,
    pub listen_port: u32,
    pub connect_host: Text,
    pub connect_port: u32,
    pub stage: Stage,
    /// Whether it was asked to close.
    pub closing: bool,
    /// Which of the forwardings asked for at the start it is.
    pub start: Option<usize>,
}

impl Forwarding {
    /// A forwarding that is asked for.
    pub fn asked(
        alloc: Global,
        serial: u64,
        ends: Ends<'_>,
        start: Option<usize>,
    ) -> Result<Forwarding, OutOfMemory>
        ensures { IfOk result (λ f. IsAskedFor ends.entry serial start f) }
    {
        let mut forwarding = Forwarding {
            serial,
            kind: ends.kind,
            listen_host: Text::new(alloc),
            listen_port: ends.listen_port,
            connect_host: Text::new(alloc),
            connect_port: ends.connect_port,
            stage: Stage::ToRequest,
            closing: false,
            start,
        };
        match forwarding.copy_hosts(alloc, ends) {
            Ok(()) => Ok(forwarding),
            Err(e) => {
                drop(forwarding);
                Err(e)
            }
        }
    }

    // The hosts and the first stage are copied from what is asked.
    fn copy_hosts(&mut self, alloc: Global, ends: Ends<'_>) -> Result<(), OutOfMemory>
        ensures listens { OnOk result (self.new.listen_host ≡ ends.entry.listen_host.now) }
        ensures connects { OnOk result (self.new.connect_host ≡ ends.entry.connect_host.now) }
        ensures first { OnOk result (is_first self.new.stage ≡ true) }
        ensures here { OnOk result (waits_at self.new.stage ≡ listens_here ends.entry.kind) }
        ensures place { OnOk result (IsAt self.new.stage ends.entry.listen_host.now) }
        ensures others { self.new ≡ record self.old {
          listen_host = self.new.listen_host;
          connect_host = self.new.connect_host;
          stage = self.new.stage;
        } }
    {
        self.listen_at(Text::copy(alloc, ends.listen_host)?);
        self.connect_to(Text::copy(alloc, ends.connect_host)?);
        self.enter(first_stage(alloc, ends)?);
        Ok(())
    }

    // It is to listen at this host.
    fn listen_at(&mut self, host: Text)
        ensures { self.new ≡ record self.old { listen_host = host } }
    {
        drop(mem::replace(&mut self.listen_host, host));
    }

    // It is to connect to this host.
    fn connect_to(&mut self, host: Text)
        ensures { self.new ≡ record self.old { connect_host = host } }
    {
        drop(mem::replace(&mut self.connect_host, host));
    }

    /// Whether it is to listen here, and has no listener yet.
    pub fn to_listen(&self) -> bool
        ensures { result ≡ to_listen self.now }
    {
        match self.stage {
            Stage::ToListen(_) | Stage::Ordered => true,
            Stage::Listening(_)
            | Stage::ToRequest
            | Stage::Requested
            | Stage::Live(_)
            | Stage::Cancelling(_) => false,
        }
    }

    /// Whether it has this listener.
    pub fn has_listener(&self, listener: u64) -> bool
        ensures { result ≡ has_listener listener self.now }
    {
        self.listener() == Some(listener)
    }

    /// Whether it doesn't have this listener.
    pub fn lacks_listener(&self, listener: u64) -> bool
        ensures { result ≡ not (has_listener listener self.now) }
    {
        !self.has_listener(listener)
    }

    /// Whether this is its serial and its request to listen is unanswered.
    pub fn is_asked(&self, serial: u64) -> bool
        ensures { result ≡ is_listen_unanswered serial self.now }
    {
        match self.stage {
            Stage::Requested => self.serial == serial,
            Stage::ToListen(_)
            | Stage::Ordered
            | Stage::Listening(_)
            | Stage::ToRequest
            | Stage::Live(_)
            | Stage::Cancelling(_) => false,
        }
    }

    /// Whether this is its serial and its cancel is unanswered.
    pub fn is_cancelled(&self, serial: u64) -> bool
        ensures { result ≡ is_cancelled serial self.now }
    {
        match self.stage {
            Stage::Cancelling(_) => self.serial == serial,
            Stage::ToListen(_)
            | Stage::Ordered
            | Stage::Listening(_)
            | Stage::ToRequest
            | Stage::Requested
            | Stage::Live(_) => false,
        }
    }

    /// Whether it is to be ordered, or to be closed.
    pub fn is_pending(&self) -> bool
        ensures { result ≡ is_order_pending self.now }
    {
        match self.stage {
            Stage::ToListen(_) | Stage::Ordered => true,
            Stage::Listening(_) => self.closing,
            Stage::ToRequest | Stage::Requested | Stage::Live(_) | Stage::Cancelling(_) => false,
        }
    }

    /// Which order it is to have. One that is closed waits for the answers of those that asked for
    /// it.
    pub fn wants(&self, asks: &PendingRequests) -> Option<ForwardingWant>
        ensures { result ≡ want_in asks.now.waiting.items (Some self.now) }
    {
        match self.stage {
            Stage::ToListen(_) => Some(ForwardingWant::Listen),
            Stage::Listening(listener) => {
                if self.closing && !asks.owes_opening(self.serial) {
                    Some(ForwardingWant::Unlisten(self.serial, listener))
                } else {
                    None
                }
            }
            Stage::Ordered
            | Stage::ToRequest
            | Stage::Requested
            | Stage::Live(_)
            | Stage::Cancelling(_) => None,
        }
    }

    /// Its listener is ordered, if it is to be: the host and the port.
    pub fn ordered(&mut self) -> Option<(TwoTexts, u32)>
        ensures some { is_some result ≡ is_to_listen self.old.stage }
        ensures ordered { is_to_listen self.old.stage ≡ true
            → self.new ≡ record self.old { stage = Stage.Ordered } }
        ensures none { result ≡ None → self.new ≡ self.old }
        ensures port { IfSome result (λ r. r.1 ≡ self.old.listen_port) }
        ensures host { IfSome result (λ r. IsAt self.old.stage self.old.listen_host
            → r.0.one ≡ self.old.listen_host) }
    {
        match &self.stage {
            Stage::ToListen(_) => {}
            Stage::Ordered
            | Stage::Listening(_)
            | Stage::ToRequest
            | Stage::Requested
            | Stage::Live(_)
            | Stage::Cancelling(_) => return None,
        }
        match mem::replace(&mut self.stage, Stage::Ordered) {
            Stage::ToListen(host) => Some((host, self.listen_port)),
            _ => None,
        }
    }

    /// Whether the server listens for it at an address and a port.
    pub fn serves(&self, address: &[u8], port: u32) -> bool
        ensures { result ≡ served_at address.now port self.now }
    {
        same_kind(self.kind, ForwardingKind::Remote)
            && self.bound() == Some(port)
            && self.listen_host.as_bytes() == address
    }

    /// It changes, if this is its serial.
    pub fn change(&mut self, serial: u64, change: Change)
        ensures { self.new ≡ forwarding_changed change serial self.old }
    {
        if self.serial != serial {
            return;
        }
        self.go(change);
        match change {
            Change::Close => self.closing = true,
            Change::Stay => self.closing = false,
            Change::ForwardingRequest | Change::Cancel | Change::Live(_) => {}
        }
    }

    // Its stage changes.
    fn go(&mut self, change: Change)
        ensures { self.new ≡ record self.old {
          stage = listener_stage_after change self.old.listen_port self.old.stage;
        } }
    {
        let next = match (change, &self.stage) {
            (Change::ForwardingRequest, Stage::ToRequest) => Stage::Requested,
            (Change::Cancel, Stage::Live(port)) => Stage::Cancelling(*port),
            (Change::Live(port), Stage::Requested) => Stage::Live(self.bound_to(port)),
            (Change::Stay, Stage::Cancelling(port)) => Stage::Live(*port),
            _ => return,
        };
        self.enter(next);
    }

    // It is at this stage now.
    fn enter(&mut self, stage: Stage)
        ensures { self.new ≡ record self.old { stage = stage } }
    {
        drop(mem::replace(&mut self.stage, stage));
    }

    // The port on which the server listens, if it chose this one where it was to choose.
    fn bound_to(&self, port: Option<u32>) -> u32
        ensures { result ≡ bound_port self.now.listen_port port }
    {
        if self.listen_port == 0 {
            port.unwrap_or(0)
        } else {
            self.listen_port
        }
    }

    /// Its outcome as the server listens.
    pub fn granted(&self, port: Option<u32>) -> RequestOutcome
        ensures { result
            ≡ outcome_of_grant self.now.listen_port (bound_port self.now.listen_port port) }
    {
        if self.listen_port == 0 {
            RequestOutcome::Port(self.bound_to(port))
        } else {
            RequestOutcome::Done
        }
    }

    /// Whether it counts as asked or live: one that listens here ends as it is asked to close.
    pub fn counts(&self) -> bool
        ensures { result ≡ is_asked_or_live self.now }
    {
        !(self.closing && self.kind.listens_here())
    }

    /// Whether it listens where this is to listen.
    pub fn listens_at(&self, ends: Ends<'_>) -> bool
        ensures { result ≡ listens_at ends.entry self.now }
    {
        same_kind(self.kind, ends.kind)
            && self.listen_port == ends.listen_port
            && self.listen_host.as_bytes() == ends.listen_host
    }

    /// Whether it connects where this is to connect: where a dialog specifies that, whatever was
    /// asked.
    pub fn connects_to(&self, ends: Ends<'_>) -> bool
        ensures { result ≡ connects_same_end ends.entry self.now }
    {
        !self.kind.connects_there()
            || (self.connect_port == ends.connect_port
                && self.connect_host.as_bytes() == ends.connect_host)
    }

    /// The outcome of those that request it, once that is known.
    pub fn outcome(&self) -> Option<RequestOutcome>
        ensures { result ≡ forwarding_outcome_of self.now }
    {
        match self.stage {
            Stage::Listening(_) => Some(RequestOutcome::Done),
            Stage::Live(port) | Stage::Cancelling(port) => {
                if self.listen_port == 0 {
                    Some(RequestOutcome::Port(port))
                } else {
                    Some(RequestOutcome::Done)
                }
            }
            Stage::ToListen(_) | Stage::Ordered | Stage::ToRequest | Stage::Requested => None,
        }
    }

    /// The outcome of the same request again.
    pub fn as_first(&self) -> ImmediateOutcome
        ensures { result ≡ as_first self.now (forwarding_outcome_of self.now) }
    {
        match self.outcome() {
            None => ImmediateOutcome::Later(self.serial),
            Some(outcome) => ImmediateOutcome::Now(outcome),
        }
    }

    /// Whether a request is to be sent for it: to listen, or to do so no longer.
    pub fn has_request(&self) -> bool
        ensures { result ≡ has_request self.now }
    {
        match self.stage {
            Stage::ToRequest => true,
            Stage::Live(_) => self.closing,
            Stage::ToListen(_)
            | Stage::Ordered
            | Stage::Listening(_)
            | Stage::Requested
            | Stage::Cancelling(_) => false,
        }
    }

    /// The request that is to be sent for it, where there is one.
    pub fn request(&self) -> ForwardingRequest
        ensures { result ≡ forwarding_request_of self.now }
    {
        match self.stage {
            Stage::Live(_) => ForwardingRequest::Cancel(self.serial),
            Stage::ToListen(_)
            | Stage::Ordered
            | Stage::Listening(_)
            | Stage::ToRequest
            | Stage::Requested
            | Stage::Cancelling(_) => ForwardingRequest::Listen(self.serial),
        }
    }

    /// The name of that request (RFC 4254, section 7.1).
    pub fn request_name(&self) -> &[u8]
        ensures { result.now ≡ request_name self.now.stage }
    {
        match self.stage {
            Stage::Live(_) => b"cancel-tcpip-forward",
            Stage::ToListen(_)
            | Stage::Ordered
            | Stage::Listening(_)
            | Stage::ToRequest
            | Stage::Requested
            | Stage::Cancelling(_) => b"tcpip-forward",
        }
    }

    /// The port that it names: the one on which the server listens, once it does.
    pub fn request_port(&self) -> u32
        ensures { result ≡ request_port self.now.stage self.now.listen_port }
    {
        match self.stage {
            Stage::Live(port) => port,
            Stage::ToListen(_)
            | Stage::Ordered
            | Stage::Listening(_)
            | Stage::ToRequest
            | Stage::Requested
            | Stage::Cancelling(_) => self.listen_port,
        }
    }

    /// The port that the server listens on, if it does.
    pub fn bound(&self) -> Option<u32>
        ensures { result ≡ bound_of self.now }
    {
        match self.stage {
            Stage::Live(port) | Stage::Cancelling(port) => Some(port),
            Stage::ToListen(_)
            | Stage::Ordered
            | Stage::Listening(_)
            | Stage::ToRequest
            | Stage::Requested => None,
        }
    }

    /// The listener, if it listens here.
    pub fn listener(&self) -> Option<u64>
        ensures { result ≡ listener_of self.now }
    {
        match self.stage {
            Stage::Listening(listener) => Some(listener),
            Stage::ToListen(_)
            | Stage::Ordered
            | Stage::ToRequest
            | Stage::Requested
            | Stage::Live(_)
            | Stage::Cancelling(_) => None,
        }
    }
}

// What is to be done first.
fn first_stage(alloc: Global, ends: Ends<'_>) -> Result<Stage, OutOfMemory>
    ensures first { IfOk result (λ stage. is_first stage ≡ true) }
    ensures here { IfOk result (λ stage. waits_at stage ≡ listens_here ends.entry.kind) }
    ensures place { IfOk result (λ stage. IsAt stage ends.entry.listen_host.now) }
{
    match ends.kind {
        ForwardingKind::Local | ForwardingKind::Dynamic => {
            let host = TwoTexts::copy(alloc, ends.listen_host)?;
            Ok(Stage::ToListen(host))
        }
        ForwardingKind::Remote => Ok(Stage::ToRequest),
    }
}
