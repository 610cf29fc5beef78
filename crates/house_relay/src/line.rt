//! The channel's side of a relay.
ghost use Rattle.std.specs.Prelude.{◌≡◌, ◌≤◌, ◌<◌, ◌+◌, ◌-◌, ◌^◌};
ghost use Rattle.house_relay.specs.ChannelState.{is_counted_channel, has_no_more, receives_end, fresh_live, takes, live_after_close, answers_failure, live_after_sending, ends, live_after_grant, receives_room, receives_eof, receives_close, receives_request, takes_more, takes_in, owed_in};
ghost use Rattle.house_relay.specs.Relay.{stuck_in};

use socks_dialog::Dialog;
use ssh_fields::Text;

/// A channel that is confirmed and hasn't ended.
#[derive(Clone, Copy)]
pub struct Live {
    /// The server's number.
    pub remote: u32,
    /// How many bytes of data the server accepts for now.
    pub room: u32,
    /// The longest data that it accepts in one message.
    pub maximum: u32,
    pub eof_sent: bool,
    pub eof_received: bool,
    pub close_sent: bool,
    pub close_received: bool,
    /// Channel requests of the server that want a reply and have none.
    pub failures: u32,
    /// Bytes that the socket accepted and that weren't given back to the window.
    pub owed: u64,
    /// How many of the bytes that wait for the socket are replies to its dialog.
    pub replies: usize,
}

/// How a channel stands.
#[derive(Drop)]
pub enum ChannelState {
    /// A dialog is read, which requests the end that the OPEN is for.
    Dialing(Dialog),
    /// The OPEN to this end is to be sent.
    Asked {
        host: Text,
        port: u32,
        /// The version of the dialog that waits for the answer, if one does.
        version: Option<u8>,
    },
    /// The OPEN is sent and unanswered.
    Opened {
        /// The version of the dialog that waits for the answer, if one does.
        version: Option<u8>,
    },
    /// The server's OPEN is unanswered, with its number, its window and its maximum.
    Offered {
        remote: u32,
        window: u32,
        maximum: u32,
    },
    /// Both sides may send.
    Live(Live),
    /// It has ended.
    Over,
}

impl ChannelState {
    /// Whether it counts as a channel.
    pub fn counts(&self) -> bool
        ensures { result ≡ is_counted_channel self.now }
    {
        match self {
            ChannelState::Dialing(_) | ChannelState::Over => false,
            ChannelState::Asked { .. }
            | ChannelState::Opened { .. }
            | ChannelState::Offered { .. }
            | ChannelState::Live(_) => true,
        }
    }

    /// Whether nothing more comes from it, where the socket has given its end or not.
    pub fn has_no_more(&self, ended: bool) -> bool
        ensures { result ≡ has_no_more ended self.now }
    {
        match self {
            ChannelState::Dialing(_) => ended,
            ChannelState::Over => true,
            ChannelState::Asked { .. }
            | ChannelState::Opened { .. }
            | ChannelState::Offered { .. }
            | ChannelState::Live(_) => false,
        }
    }

    /// Whether the server's EOF came.
    pub fn is_ended(&self) -> bool
        ensures { result ≡ receives_end self.now }
    {
        match self {
            ChannelState::Live(live) => live.eof_received,
            ChannelState::Dialing(_)
            | ChannelState::Asked { .. }
            | ChannelState::Opened { .. }
            | ChannelState::Offered { .. }
            | ChannelState::Over => false,
        }
    }

    /// The socket accepted so many bytes.
    pub fn takes_more(&mut self, n: usize)
        ensures taken { owed_in self.old + n < 2 ^ 64 → self.new ≡ takes_in n self.old }
        ensures stuck { stuck_in self.new ≡ stuck_in self.old }
    {
        if let ChannelState::Live(live) = self {
            *live = live.takes_more(n);
        }
    }
}

impl Live {
    /// A channel as it is confirmed, while so many bytes of replies wait.
    pub fn new(remote: u32, window: u32, maximum: u32, replies: usize) -> Live
        ensures { result ≡ fresh_live remote window maximum replies }
    {
        Live {
            remote,
            room: window,
            maximum,
            eof_sent: false,
            eof_received: false,
            close_sent: false,
            close_received: false,
            failures: 0,
            owed: 0,
            replies,
        }
    }

    /// How many bytes of data the server accepts in one message now.
    pub fn takes(&self) -> u32
        ensures { result ≡ takes self.now }
    {
        self.room.min(self.maximum)
    }

    // ---- what is sent

    /// CLOSE is sent.
    pub fn closes(self) -> ChannelState
        ensures { result ≡ live_after_close self }
    {
        if self.close_received {
            ChannelState::Over
        } else {
            ChannelState::Live(Live {
                close_sent: true,
                failures: 0,
                owed: 0,
                ..self
            })
        }
    }

    /// A request is answered.
    pub fn answers(self) -> Live
        ensures { result ≡ answers_failure self }
    {
        Live {
            failures: self.failures.saturating_sub(1),
            ..self
        }
    }

    /// So many bytes of data are sent.
    pub fn sends(self, len: u32) -> Live
        requires { len ≤ self.room }
        ensures { result ≡ live_after_sending len self }
    {
        Live {
            room: self.room - len,
            ..self
        }
    }

    /// EOF is sent.
    pub fn ends(self) -> Live
        ensures { result ≡ ends self }
    {
        Live {
            eof_sent: true,
            ..self
        }
    }

    /// Room is given back for so many bytes of those that are owed.
    pub fn grants(self, n: u32) -> Live
        requires { n ≤ self.owed }
        ensures { result ≡ live_after_grant n self }
    {
        Live {
            owed: self.owed - u64::from(n),
            ..self
        }
    }

    // ---- what is received

    /// Room for so many bytes more, of which there is never too much.
    pub fn receives_room(self, n: u32) -> Live
        ensures { result ≡ receives_room n self }
    {
        match self.room.checked_add(n) {
            Some(room) => Live { room, ..self },
            None => self,
        }
    }

    /// EOF is received.
    pub fn receives_eof(self) -> Live
        ensures { result ≡ receives_eof self }
    {
        Live {
            eof_received: true,
            ..self
        }
    }

    /// CLOSE is received.
    pub fn receives_close(self) -> ChannelState
        ensures { result ≡ receives_close self }
    {
        if self.close_sent {
            ChannelState::Over
        } else {
            ChannelState::Live(Live {
                close_received: true,
                ..self
            })
        }
    }

    /// A request is received, and whether it wants a reply.
    pub fn receives_request(self, want: bool) -> Live
        ensures { result ≡ receives_request want self }
    {
        if want && !self.close_sent {
            Live {
                failures: self.failures.saturating_add(1),
                ..self
            }
        } else {
            self
        }
    }

    /// The socket accepted so many bytes: the replies first, and room is owed for those after them.
    pub fn takes_more(self, n: usize) -> Live
        ensures taken { self.owed + (n - self.replies) < 2 ^ 64 → result ≡ takes_more n self }
        ensures others { result
            ≡ record self { owed = result.owed; replies = result.replies } }
    {
        if self.close_sent {
            self
        } else {
            let data = n.saturating_sub(self.replies);
            Live {
                owed: self.owed.saturating_add(data as u64),
                replies: self.replies.saturating_sub(n),
                ..self
            }
        }
    }
}
