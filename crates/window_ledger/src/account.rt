ghost use Rattle.std.specs.Prelude.{◌≡◌, true};
ghost use Rattle.window_ledger.specs.Leaving.{is_speech_closed};
ghost use Rattle.window_ledger.specs.Step.{judged, own_act_breach, own_breach, other_breach, account_after, other_after};
ghost use Rattle.window_ledger.specs.declared.act.Act.TheVariants.{Data, Grant, Eof, Request, Reply};
ghost use Rattle.window_ledger.specs.declared.account.Speech.TheVariants.{Speaking};

use crate::act::Act;
use mux_history::limits::MAX_CHANNEL_REQUESTS;
use ssh_grammar::Breach;

/// What the sender of a direction may still send.
#[derive(Clone, Copy, PartialEq, Eq)]
pub enum Speech {
    /// Anything.
    Speaking,
    /// Anything but data: it has sent EOF.
    Ended,
    /// Nothing: it has sent CLOSE.
    Closed,
}

/// Whether the sender has sent CLOSE.
pub fn is_speech_closed(speech: Speech) -> bool
    ensures { result ≡ is_speech_closed speech }
{
    match speech {
        Speech::Speaking | Speech::Ended => false,
        Speech::Closed => true,
    }
}

/// One direction of a confirmed channel.
#[derive(Clone, Copy, PartialEq, Eq)]
pub struct Account {
    /// How many bytes of data the receiver accepts for now.
    pub room: u32,
    /// How many it accepts at once.
    pub maximum: u32,
    /// How many wanted requests of this direction have no reply.
    pub unanswered: u32,
    /// What the sender may still send.
    pub speech: Speech,
}

impl Account {
    /// A direction in which nothing was sent yet.
    pub fn new(room: u32, maximum: u32) -> Account
        ensures { result ≡ record {
          room = room;
          maximum = maximum;
          unanswered = 0;
          speech = Speaking;
        } }
    {
        Account {
            room,
            maximum,
            unanswered: 0,
            speech: Speech::Speaking,
        }
    }

    /// After an act of this direction's sender.
    pub fn says(self, act: Act) -> Result<Account, Breach>
        ensures { result ≡ judged (own_breach act self) (account_after act self) }
    {
        if self.speech == Speech::Closed {
            return Err(Breach::AfterClose);
        }
        match act {
            Act::Data(size) => self.carry(size),
            Act::Eof => self.end(),
            Act::Close => Ok(Account {
                speech: Speech::Closed,
                ..self
            }),
            Act::Request(true) => self.ask(),
            Act::Request(false) | Act::Grant(_) | Act::Reply => Ok(self),
        }
    }

    /// After an act of this direction's receiver.
    pub fn receives(self, act: Act) -> Result<Account, Breach>
        ensures { result ≡ judged (other_breach act self) (other_after act self) }
    {
        match act {
            Act::Grant(add) => self.grow(add),
            Act::Reply => self.answer(),
            Act::Data(_) | Act::Eof | Act::Close | Act::Request(_) => Ok(self),
        }
    }

    fn carry(self, size: u32) -> Result<Account, Breach>
        ensures { result ≡ judged (own_act_breach (Data size) self) (account_after (Data size) self) }
    {
        if self.speech != Speech::Speaking {
            return Err(Breach::AfterEof);
        }
        if self.maximum < size {
            return Err(Breach::PastPacket {
                max: self.maximum,
                want: size,
            });
        }
        let Some(room) = self.room.checked_sub(size) else {
            return Err(Breach::PastWindow {
                have: self.room,
                want: size,
            });
        };
        Ok(Account { room, ..self })
    }

    fn grow(self, add: u32) -> Result<Account, Breach>
        ensures { result ≡ judged (other_breach (Grant add) self) (other_after (Grant add) self) }
    {
        let Some(room) = self.room.checked_add(add) else {
            return Err(Breach::Overflow {
                have: self.room,
                add,
            });
        };
        Ok(Account { room, ..self })
    }

    fn end(self) -> Result<Account, Breach>
        ensures { result ≡ judged (own_act_breach Eof self) (account_after Eof self) }
    {
        if self.speech != Speech::Speaking {
            return Err(Breach::AfterEof);
        }
        Ok(Account {
            speech: Speech::Ended,
            ..self
        })
    }

    fn ask(self) -> Result<Account, Breach>
        ensures { result ≡ judged (own_act_breach (Request true) self)
            (account_after (Request true) self) }
    {
        if self.unanswered >= MAX_CHANNEL_REQUESTS {
            return Err(Breach::TooManyAsks {
                have: self.unanswered,
            });
        }
        Ok(Account {
            unanswered: self.unanswered + 1,
            ..self
        })
    }

    fn answer(self) -> Result<Account, Breach>
        ensures { result ≡ judged (other_breach Reply self) (other_after Reply self) }
    {
        let Some(unanswered) = self.unanswered.checked_sub(1) else {
            return Err(Breach::Unasked);
        };
        Ok(Account { unanswered, ..self })
    }
}
