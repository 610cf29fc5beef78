//! One relay: a channel and a socket.
ghost use Rattle.std.specs.Prelude.{◌≡◌, ◌+◌, ◌≤◌, ◌<◌, ◌^◌, ◌++◌, ℕ, List, [], true, false, if◌then◌else◌, length, take, drop, min, IfSome, OnOk, IfOk, None, Some, IsTrue};
ghost use Rattle.house_relay.specs.Acts.{RelayAct, Reads, Ends, Takes, Fails, Confirms, Refuses, Delivers, ReceivesEof, ReceivesClose, SendsData, SendsAdjust, SendsEof, SendsClose, Other};
ghost use Rattle.house_relay.specs.Next.{sends_of, sends_offered, sends_live, orders_of};
ghost use Rattle.house_relay.specs.Relay.{RelayRepresents, RelayGoesOn, IsSending, sent_act, SilentIn, is_broken, is_to_be_closed, socket_stream_of, delivers, IsChannelOffered, OrdersRight, IsResting, is_stuck, stuck_in, received_if_live, answered_in, RelayMayRead, holding};
ghost use Rattle.house_relay.specs.ChannelState.{owed_in};
ghost use Rattle.house_relay.specs.Steps.{sent_of, made_as, socket_connected, failing, relay_taken_of, confirmed_in, refused_in, on_line, room_received, eof_received, close_received, request_received, data_received, no_channel_left_of, Dials, fresh_relay, is_gone};
ghost use Rattle.proxy_frames.specs.Queued.{without_first_bytes};
ghost use Rattle.socks_dialog.specs.State.{new_dialog};

use crate::MAXIMUM;
use crate::dialing::{Came, DialogReceived, grant, receive, refuse};
use crate::line::{ChannelState, Live};
use mux_outside::{Order, OwnStream};
use proxy_frames::Queue;
use socks_dialog::Dialog;
use ssh_fields::{OutOfMemory, Text};
use std::alloc::Global;

/// How a socket stands.
#[derive(Clone, Copy, PartialEq, Eq)]
pub enum RelaySocket {
    /// It is to be connected, and has no number yet.
    Unmade,
    /// It connects.
    Connecting(u64),
    /// It is connected.
    Open(u64),
    /// It failed, and is to be closed.
    Failed(u64),
    /// There was no channel left for it, and it is to be closed.
    NoChannelLeft(u64),
    /// It is closed, or never was.
    Closed,
}

/// What a relay sends next.
#[derive(Clone, Copy, PartialEq, Eq)]
pub enum Outgoing {
    Open,
    Confirmation,
    OpenFailure,
    Close,
    Failure,
    /// So many of the bytes that are held.
    Data(u32),
    Eof,
    /// Room for so many bytes.
    Adjust(u32),
}

/// A channel and a socket, and what is under way between them.
#[derive(Drop)]
pub struct Relay {
    /// The forwarder's own number of the channel.
    pub number: u32,
    pub line: ChannelState,
    pub socket: RelaySocket,
    /// Whether the socket has given its end.
    pub ended: bool,
    /// Read from the socket, and not sent in the channel.
    pub held: Queue,
    /// Received in the channel, and not accepted by the socket.
    pub queue: Queue,
}

impl Relay {
    // A relay in which nothing happened yet.
    fn begun(alloc: Global, number: u32, line: ChannelState, socket: RelaySocket) -> Relay
        ensures { result ≡ fresh_relay number line socket }
    {
        Relay {
            number,
            line,
            socket,
            ended: false,
            held: Queue::new(alloc),
            queue: Queue::new(alloc),
        }
    }

    /// A socket that was accepted, and is to be a channel to this end.
    pub fn joined(alloc: Global, number: u32, stream: u64, host: Text, port: u32) -> Relay
        ensures stands { RelayRepresents false [] result }
        ensures exact { result
            ≡ fresh_relay number (ChannelState.Asked host port None) (RelaySocket.Open stream) }
    {
        Relay::begun(
            alloc,
            number,
            ChannelState::Asked {
                host,
                port,
                version: None,
            },
            RelaySocket::Open(stream),
        )
    }

    /// A socket that was accepted, whose client requests the channel's end in a dialog.
    pub fn dynamic(alloc: Global, number: u32, stream: u64) -> Relay
        ensures stands { RelayRepresents true [] result }
        ensures exact { result
            ≡ fresh_relay number (ChannelState.Dialing new_dialog) (RelaySocket.Open stream) }
    {
        Relay::begun(
            alloc,
            number,
            ChannelState::Dialing(Dialog::new()),
            RelaySocket::Open(stream),
        )
    }

    /// A socket that was accepted, and for which there is no channel.
    pub fn no_channel_left(alloc: Global, number: u32, stream: u64) -> Relay
        ensures stands { RelayRepresents false [] result }
        ensures exact { result ≡ fresh_relay number ChannelState.Over (RelaySocket.NoChannelLeft stream) }
    {
        Relay::begun(
            alloc,
            number,
            ChannelState::Over,
            RelaySocket::NoChannelLeft(stream),
        )
    }

    /// An OPEN of the server, for which a socket is to be connected.
    pub fn offered(alloc: Global, number: u32, remote: u32, window: u32, maximum: u32) -> Relay
        ensures stands { RelayRepresents false [] result }
        ensures exact { result
            ≡ fresh_relay number (ChannelState.Offered remote window maximum) RelaySocket.Unmade }
    {
        Relay::begun(
            alloc,
            number,
            ChannelState::Offered {
                remote,
                window,
                maximum,
            },
            RelaySocket::Unmade,
        )
    }

    /// Its stream, if it has one.
    pub fn stream(&self) -> Option<u64>
        ensures { result ≡ socket_stream_of self.now.socket }
    {
        match self.socket {
            RelaySocket::Connecting(stream)
            | RelaySocket::Open(stream)
            | RelaySocket::Failed(stream)
            | RelaySocket::NoChannelLeft(stream) => Some(stream),
            RelaySocket::Unmade | RelaySocket::Closed => None,
        }
    }

    /// Whether nothing is left of it.
    pub fn is_gone(&self) -> bool
        ensures { result ≡ is_gone self.now }
    {
        match self.socket {
            RelaySocket::Closed => !self.line.counts(),
            RelaySocket::Unmade
            | RelaySocket::Connecting(_)
            | RelaySocket::Open(_)
            | RelaySocket::Failed(_)
            | RelaySocket::NoChannelLeft(_) => false,
        }
    }

    // Whether its socket failed, or couldn't be made, or is closed.
    fn is_broken(&self) -> bool
        ensures { result ≡ is_broken self.now.socket }
    {
        match self.socket {
            RelaySocket::Failed(_) | RelaySocket::NoChannelLeft(_) | RelaySocket::Closed => true,
            RelaySocket::Unmade | RelaySocket::Connecting(_) | RelaySocket::Open(_) => false,
        }
    }

    // ---- what it sends

    /// What it sends next.
    pub fn says(&self) -> Option<Outgoing>
        ensures may { IfSome result (λ outgoing. IsSending outgoing self.now) }
        ensures silent { result ≡ None → SilentIn self.now.line self.now }
        ensures exact { result ≡ sends_of self.now }
    {
        match &self.line {
            ChannelState::Asked { .. } => Some(Outgoing::Open),
            ChannelState::Dialing(_) => None,
            ChannelState::Opened { .. } => None,
            ChannelState::Over => None,
            ChannelState::Offered { .. } => self.sends_offered(),
            ChannelState::Live(live) => self.sends_live(*live),
        }
    }

    // What it sends to an OPEN of the server.
    fn sends_offered(&self) -> Option<Outgoing>
        requires { IsChannelOffered self.now.line }
        ensures may { IfSome result (λ outgoing. IsSending outgoing self.now) }
        ensures silent { result ≡ None → is_broken self.now.socket ≡ false }
        ensures exact { result ≡ sends_offered self.now.socket }
    {
        match self.socket {
            RelaySocket::Open(_) => Some(Outgoing::Confirmation),
            RelaySocket::Failed(_) | RelaySocket::NoChannelLeft(_) | RelaySocket::Closed => Some(
                Outgoing::OpenFailure,
            ),
            RelaySocket::Unmade | RelaySocket::Connecting(_) => None,
        }
    }

    // What it sends in a channel that is confirmed.
    fn sends_live(&self, live: Live) -> Option<Outgoing>
        requires { self.now.line ≡ ChannelState.Live live }
        ensures may { IfSome result (λ outgoing. IsSending outgoing self.now) }
        ensures silent { result ≡ None → SilentIn (ChannelState.Live live) self.now }
        ensures exact { result ≡ sends_live self.now live }
    {
        if live.close_sent {
            return None;
        }
        if self.is_finished(live) {
            return Some(Outgoing::Close);
        }
        if live.failures > 0 {
            return Some(Outgoing::Failure);
        }
        if live.owed > 0 {
            return Some(Outgoing::Adjust(u32::try_from(live.owed).unwrap_or(u32::MAX)));
        }
        let held = self.held.len();
        if held > 0 {
            let takes = at_most(live.takes().min(MAXIMUM), held);
            return if takes > 0 {
                Some(Outgoing::Data(takes))
            } else {
                None
            };
        }
        if self.ended && !live.eof_sent {
            return Some(Outgoing::Eof);
        }
        None
    }

    // Whether its channel is to be closed.
    fn is_finished(&self, live: Live) -> bool
        ensures { result ≡ is_to_be_closed self.now.socket self.now.queue.waiting live }
    {
        self.is_broken()
            || live.close_received
            || (live.eof_sent && live.eof_received && self.queue.is_empty())
    }

    /// It sent this.
    pub fn said(&mut self, outgoing: Outgoing)
        requires { IsSending outgoing self.old }
        ensures stands { RelayGoesOn self.old self.new (sent_act outgoing self.old) }
        ensures exact { self.new ≡ sent_of outgoing self.old }
    {
        match outgoing {
            Outgoing::Open => self.sent_open(),
            Outgoing::Confirmation => self.sent_confirmation(),
            Outgoing::OpenFailure => self.line = ChannelState::Over,
            Outgoing::Close => self.sent_close(),
            Outgoing::Failure => self.sent_failure(),
            Outgoing::Data(count) => self.sent_data(count),
            Outgoing::Eof => self.sent_eof(),
            Outgoing::Adjust(n) => self.sent_adjust(n),
        }
    }

    fn sent_open(&mut self)
        ensures stands { IsSending Outgoing.Open self.old → RelayGoesOn self.old self.new Other }
        ensures exact { self.new ≡ sent_of Outgoing.Open self.old }
    {
        if let ChannelState::Asked { version, .. } = self.line {
            self.line = ChannelState::Opened { version };
        }
    }

    fn sent_confirmation(&mut self)
        ensures stands { IsSending Outgoing.Confirmation self.old → RelayGoesOn self.old self.new Other }
        ensures exact { self.new ≡ sent_of Outgoing.Confirmation self.old }
    {
        if let ChannelState::Offered {
            remote,
            window,
            maximum,
        } = self.line
        {
            self.line = ChannelState::Live(Live::new(remote, window, maximum, 0));
        }
    }

    fn sent_close(&mut self)
        ensures stands { IsSending Outgoing.Close self.old → RelayGoesOn self.old self.new SendsClose }
        ensures exact { self.new ≡ sent_of Outgoing.Close self.old }
    {
        if let ChannelState::Live(live) = self.line {
            self.line = live.closes();
        }
    }

    fn sent_failure(&mut self)
        ensures stands { IsSending Outgoing.Failure self.old → RelayGoesOn self.old self.new Other }
        ensures exact { self.new ≡ sent_of Outgoing.Failure self.old }
    {
        if let ChannelState::Live(live) = &mut self.line {
            *live = live.answers();
        }
    }

    fn sent_data(&mut self, count: u32)
        requires { IsSending (Outgoing.Data count) self.old }
        ensures stands { RelayGoesOn self.old self.new (SendsData (take count self.old.held.waiting)) }
        ensures exact { self.new ≡ sent_of (Outgoing.Data count) self.old }
    {
        if let ChannelState::Live(live) = &mut self.line {
            self.held.took(count as usize);
            *live = live.sends(count);
        }
    }

    fn sent_eof(&mut self)
        ensures stands { IsSending Outgoing.Eof self.old → RelayGoesOn self.old self.new SendsEof }
        ensures exact { self.new ≡ sent_of Outgoing.Eof self.old }
    {
        if let ChannelState::Live(live) = &mut self.line {
            *live = live.ends();
        }
    }

    fn sent_adjust(&mut self, n: u32)
        requires { IsSending (Outgoing.Adjust n) self.old }
        ensures stands { RelayGoesOn self.old self.new (SendsAdjust n) }
        ensures exact { self.new ≡ sent_of (Outgoing.Adjust n) self.old }
    {
        if let ChannelState::Live(live) = &mut self.line {
            *live = live.grants(n);
        }
    }

    // ---- what it orders

    /// What it orders next of its stream, which stands so.
    pub fn orders(&self, stream: &OwnStream) -> Option<Order>
        requires { socket_stream_of self.now.socket ≡ Some stream.now.number }
        ensures may { IfSome result (λ order. OrdersRight order self.now stream.now) }
        ensures rests { result ≡ None → IsResting self.now stream.now }
        ensures exact { result ≡ orders_of self.now stream.now }
    {
        let t = stream.number;
        match self.socket {
            RelaySocket::Failed(_) | RelaySocket::NoChannelLeft(_) => return Some(Order::Close(t)),
            RelaySocket::Open(_) | RelaySocket::Connecting(_) => {}
            RelaySocket::Unmade | RelaySocket::Closed => return None,
        }
        if self.line.has_no_more(self.ended) && self.queue.is_empty() {
            return Some(Order::Close(t));
        }
        if self.line.is_ended() && self.queue.is_empty() && !stream.finished {
            return Some(Order::Finish(t));
        }
        if self.is_stuck() && !stream.paused {
            return Some(Order::Pause(t));
        }
        if self.held.is_empty() && stream.paused {
            return Some(Order::Resume(t));
        }
        None
    }

    // Whether bytes are held that the channel doesn't take now.
    fn is_stuck(&self) -> bool
        ensures { result ≡ is_stuck self.now.line self.now.held.waiting }
    {
        if self.held.is_empty() {
            return false;
        }
        match &self.line {
            ChannelState::Live(live) => live.close_sent || live.takes() == 0,
            ChannelState::Dialing(_)
            | ChannelState::Asked { .. }
            | ChannelState::Opened { .. }
            | ChannelState::Offered { .. }
            | ChannelState::Over => true,
        }
    }

    /// Its stream was ordered to close.
    pub fn closed(&mut self)
        ensures stands { RelayGoesOn self.old self.new Other }
        ensures exact { self.new ≡ record self.old { socket = RelaySocket.Closed } }
    {
        self.socket = RelaySocket::Closed;
    }

    // ---- the outcome of its socket

    /// Its stream is made, or couldn't be.
    pub fn made(&mut self, stream: Option<u64>)
        ensures stands { RelayGoesOn self.old self.new Other }
        ensures exact { self.new ≡ record self.old { socket = made_as stream } }
    {
        self.socket = match stream {
            Some(stream) => RelaySocket::Connecting(stream),
            None => RelaySocket::Closed,
        };
    }

    /// It gave bytes. A dialog that asks for a channel gets one where one is free.
    pub fn got(&mut self, alloc: Global, bytes: &[u8], free: bool) -> Result<(), OutOfMemory>
        ensures stands { OnOk result
            (RelayMayRead bytes.now self.old → RelayGoesOn self.old self.new (Reads bytes.now)) }
        ensures dials { OnOk result (Dials free bytes.now self.old self.new) }
        ensures few { length self.new.held.waiting
            ≤ length self.old.held.waiting + length bytes.now }
        ensures others { OnOk result (self.new ≡ record self.old {
          line = self.new.line;
          socket = self.new.socket;
          held = self.new.held;
          queue = self.new.queue;
        }) }
    {
        let count = self.dials(alloc, bytes, free)?;
        self.held.push_bytes(&bytes[count..])
    }

    // Its dialog, if one is read, receives the bytes first: how many of them belong to it.
    fn dials(&mut self, alloc: Global, bytes: &[u8], free: bool) -> Result<usize, OutOfMemory>
        ensures within { IfOk result (λ count. count ≤ length bytes.now) }
        ensures stands { IfOk result (λ count. RelayMayRead bytes.now self.old
            → RelayGoesOn self.old (holding (drop count bytes.now) self.new) (Reads bytes.now)) }
        ensures dials { OnOk result (Dials free bytes.now self.old self.new) }
        ensures others { self.new ≡ record self.old {
          line = self.new.line;
          socket = self.new.socket;
          queue = self.new.queue;
        } }
    {
        let ChannelState::Dialing(dialog) = &mut self.line else {
            return Ok(0);
        };
        let DialogReceived { count, came } = receive(dialog, bytes, &mut self.queue)?;
        match came {
            Came::Nothing => {}
            Came::Connect {
                host,
                port,
                version,
            } => {
                let host = Text::copy(alloc, host.as_bytes())?;
                self.asks(host, u32::from(port), version, free);
            }
            Came::Fault => self.line = ChannelState::Over,
        }
        Ok(count)
    }

    // Its dialog asks for a channel to this end, and one is free or not.
    fn asks(&mut self, host: Text, port: u32, version: u8, free: bool)
        ensures line { self.new.line
            ≡ (if free then ChannelState.Asked host port (Some version) else ChannelState.Over) }
        ensures socket { self.new.socket
            ≡ (if free then self.old.socket else no_channel_left_of self.old.socket) }
        ensures others { self.new
            ≡ record self.old { line = self.new.line; socket = self.new.socket } }
    {
        if free {
            self.line = ChannelState::Asked {
                host,
                port,
                version: Some(version),
            };
            return;
        }
        self.line = ChannelState::Over;
        if let Some(stream) = self.stream() {
            self.socket = RelaySocket::NoChannelLeft(stream);
        }
    }

    /// It gave its end.
    pub fn ends(&mut self)
        ensures stands { RelayGoesOn self.old self.new Ends }
        ensures exact { self.new ≡ record self.old { ended = true } }
    {
        self.ended = true;
    }

    /// Its socket gives bytes, or is connected.
    pub fn writable(&mut self)
        ensures stands { RelayGoesOn self.old self.new Other }
        ensures exact { self.new ≡ record self.old { socket = socket_connected self.old.socket } }
    {
        if let RelaySocket::Connecting(stream) = self.socket {
            self.socket = RelaySocket::Open(stream);
        }
    }

    /// It failed.
    pub fn failed(&mut self)
        ensures stands { RelayGoesOn self.old self.new Fails }
        ensures exact { self.new ≡ record self.old { socket = failing self.old.socket } }
    {
        if let Some(stream) = self.stream() {
            self.socket = RelaySocket::Failed(stream);
        }
    }

    /// It accepted the first bytes of those that wait.
    pub fn took(&mut self, n: usize)
        requires { n ≤ length self.old.queue.waiting }
        ensures stands { owed_in self.old.line + n < 2 ^ 64
            → RelayGoesOn self.old self.new (Takes (take n self.old.queue.waiting)) }
        ensures exact { owed_in self.old.line + n < 2 ^ 64 → self.new ≡ relay_taken_of n self.old }
        ensures stuck { stuck_in self.new.line ≡ stuck_in self.old.line }
        ensures others { self.new ≡ record self.old {
          line = self.new.line;
          queue = without_first_bytes n self.old.queue;
        } }
    {
        self.queue.took(n);
        self.line.takes_more(n);
    }

    // ---- the outcome of its channel

    /// The server confirmed its OPEN: a dialog is granted what it asked for.
    pub fn confirmed(&mut self, remote: u32, window: u32, maximum: u32) -> Result<(), OutOfMemory>
        ensures stands { OnOk result
            (RelayGoesOn self.old self.new (answered_in self.old.line Confirms)) }
        ensures exact { OnOk result
            (self.new ≡ confirmed_in self.old.line remote window maximum self.old) }
        ensures held { self.new.held ≡ self.old.held }
    {
        let ChannelState::Opened { version } = self.line else {
            return Ok(());
        };
        grant(version, &mut self.queue)?;
        let replies = self.queue.len();
        self.line = ChannelState::Live(Live::new(remote, window, maximum, replies));
        Ok(())
    }

    /// The server refused its OPEN for this reason (RFC 4254, section 5.1): its dialog gets the
    /// reply for that.
    pub fn refused(&mut self, reason: u32) -> Result<(), OutOfMemory>
        ensures stands { OnOk result
            (RelayGoesOn self.old self.new (answered_in self.old.line (Refuses reason))) }
        ensures exact { OnOk result (self.new ≡ refused_in self.old.line reason self.old) }
        ensures held { self.new.held ≡ self.old.held }
    {
        let ChannelState::Opened { version } = self.line else {
            return Ok(());
        };
        refuse(version, reason, &mut self.queue)?;
        self.line = ChannelState::Over;
        Ok(())
    }

    /// Room for more bytes in the channel.
    pub fn receives_room(&mut self, n: u32)
        ensures stands { RelayGoesOn self.old self.new Other }
        ensures exact { self.new ≡ on_line (room_received n) self.old }
    {
        if let ChannelState::Live(live) = &mut self.line {
            *live = live.receives_room(n);
        }
    }

    // Whether data that comes in the channel is for the socket: it is confirmed, its end wasn't
    // received, and there is a socket.
    fn delivers(&self) -> bool
        ensures { result ≡ delivers self.now }
    {
        match &self.line {
            ChannelState::Live(live) => !live.eof_received && self.stream().is_some(),
            ChannelState::Dialing(_)
            | ChannelState::Asked { .. }
            | ChannelState::Opened { .. }
            | ChannelState::Offered { .. }
            | ChannelState::Over => false,
        }
    }

    /// Data in the channel; whether it is delivered to the socket.
    pub fn receives_data(&mut self, bytes: &[u8]) -> Result<bool, OutOfMemory>
        ensures stands { IfOk result (λ is. RelayGoesOn self.old self.new
            (if is then Delivers bytes.now else Other)) }
        ensures exact { IfOk result (λ is. is ≡ delivers self.old) }
        ensures queue { IfOk result (λ is. self.new ≡ data_received is bytes.now self.old) }
        ensures held { self.new.held ≡ self.old.held }
    {
        if self.delivers() {
            self.queue.push_bytes(bytes)?;
            return Ok(true);
        }
        Ok(false)
    }

    /// The server ends its data.
    pub fn receives_eof(&mut self)
        ensures stands { RelayGoesOn self.old self.new (received_if_live self.old.line ReceivesEof) }
        ensures exact { self.new ≡ on_line eof_received self.old }
    {
        match &mut self.line {
            ChannelState::Live(live) => *live = live.receives_eof(),
            ChannelState::Dialing(_) => {}
            ChannelState::Asked { .. } => {}
            ChannelState::Opened { .. } => {}
            ChannelState::Offered { .. } => {}
            ChannelState::Over => {}
        }
    }

    /// The server closes the channel.
    pub fn receives_close(&mut self)
        ensures stands { RelayGoesOn self.old self.new (received_if_live self.old.line ReceivesClose) }
        ensures exact { self.new ≡ on_line close_received self.old }
    {
        match self.line {
            ChannelState::Live(live) => self.line = live.receives_close(),
            ChannelState::Dialing(_) => {}
            ChannelState::Asked { .. } => {}
            ChannelState::Opened { .. } => {}
            ChannelState::Offered { .. } => {}
            ChannelState::Over => {}
        }
    }

    /// A channel request of the server.
    pub fn receives_request(&mut self, want: bool)
        ensures stands { RelayGoesOn self.old self.new Other }
        ensures exact { self.new ≡ on_line (request_received want) self.old }
    {
        if let ChannelState::Live(live) = &mut self.line {
            *live = live.receives_request(want);
        }
    }
}

// The lesser of both.
fn at_most(n: u32, len: usize) -> u32
    ensures { result ≡ min n len }
{
    match u32::try_from(len) {
        Ok(len) => n.min(len),
        Err(_) => n,
    }
}
