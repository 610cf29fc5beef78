ghost use Rattle.std.specs.Prelude.{◌≡◌, ◌≤◌, ◌<◌, [], ◌++◌, ℕ, List, length, take, Some, None, IfOk, OnOk, OnErr, IsSome, IsTrue, ◌↔◌, ◌+◌, ◌*◌};
ghost use Rattle.ssh_grammar.specs.declared.framing.Framing.TheVariants.{Control};
ghost use Rattle.ssh_grammar.specs.Frames.{first_frame};
ghost use Rattle.mux_client.specs.declared.asks.Asks.{Asks as TheAsks};
ghost use Rattle.mux_client.specs.declared.stage.TalkStage.TheVariants.{Greets, Asks as Asked};
ghost use Rattle.mux_client.specs.Requests.{MayAsk, request_at};
ghost use Rattle.mux_client.specs.Client.{new_talk, talk_received, without_sent, awaited_place, after_cut, request_is_sent, TalkRepresents, IsTalkSettled, ReadsNext};

use crate::answer::is_hello_of_4;
use crate::asks::Asks;
use crate::request::{put_hello, put_request};
use crate::stage::TalkStage;
use crate::verdict::{OutLine, ReplyVerdict, verdict_of};
use proxy_frames::{Framer, Framing, Next, Queue};
use ssh_fields::OutOfMemory;
use std::alloc::Global;
use std::marker::Model;

/// A client that talks to a master: what it still sends, and the master's bytes cut into frames.
#[derive(Drop)]
pub struct Client {
    alloc: Global,
    framer: Framer,
    /// What the master didn't accept yet.
    queue: Queue,
    stage: TalkStage,
}

impl Model for Client {
    ghost use Rattle.std.specs.Prelude.{◌≡◌};
    ghost use Rattle.ssh_grammar.specs.declared.framing.Framing.TheVariants.{Control};
    ghost use Rattle.mux_client.specs.Client.{TalkState, IsStagePlaced, IsFaultless};

    ghost Value = { TalkState };

    ghost view = { λ c. record { framer = c.framer; queue = c.queue.waiting; stage = c.stage } };

    ghost invariant = { λ c. (c.framer.framing ≡ Control) × IsStagePlaced c.stage
        × IsFaultless c.stage c.framer.fault };
}

impl Client {
    /// A client that has received nothing, and has the hello to send.
    pub fn new(alloc: Global) -> Result<Client, OutOfMemory>
        ensures new { IfOk result (λ client. client ≡ new_talk) }
        ensures stands { IfOk result (λ client. (asks : TheAsks) → TalkRepresents asks [] [] [] client) }
        ensures settled { IfOk result IsTalkSettled }
    {
        let mut hello = Vec::new(alloc);
        put_hello(&mut hello)?;
        let mut queue = Queue::new(alloc);
        queue.push_bytes(hello.as_slice())?;
        Ok(Client {
            alloc,
            framer: Framer::new(alloc, Framing::Control),
            queue,
            stage: TalkStage::Greets,
        })
    }

    /// How far the talk is.
    pub fn stage(&self) -> TalkStage
        ensures { result ≡ self.now.stage }
    {
        self.stage
    }

    /// What is to be sent.
    pub fn front(&self) -> &[u8]
        ensures { result.now ≡ self.now.queue }
    {
        self.queue.front()
    }

    /// So many of the first bytes were accepted.
    pub fn took(&mut self, n: usize)
        requires { n ≤ length self.old.queue }
        ensures exact { self.new ≡ without_sent n self.old }
        ensures stands { (asks : TheAsks) (bytes taken shown : List ℕ)
            → TalkRepresents asks bytes taken shown self.old
            → TalkRepresents asks bytes (taken ++ take n self.old.queue) shown self.new }
    {
        self.queue.took(n);
    }

    /// More bytes of the master.
    pub fn receives(&mut self, piece: &[u8]) -> Result<(), OutOfMemory>
        ensures exact { OnOk result (self.new ≡ talk_received piece.now self.old) }
        ensures unchanged { OnErr result (self.new ≡ self.old) }
        ensures stands { (asks : TheAsks) (bytes taken shown : List ℕ)
            → TalkRepresents asks bytes taken shown self.old
            → OnOk result (TalkRepresents asks (bytes ++ piece.now) taken shown self.new) }
    {
        self.framer.push(piece)
    }

    // Cuts the next frame, whose place this is: whether there is one. Where none can be, the master
    // broke the protocol.
    fn cut(&mut self, at: usize) -> bool
        requires { awaited_place self.old.stage ≡ Some at }
        ensures exact { self.new
            ≡ after_cut (first_frame Control self.old.framer.rest) at self.old }
        ensures frame { IsTrue result ↔ IsSome self.new.framer.current }
    {
        match self.framer.next() {
            Next::Frame => true,
            Next::More => false,
            Next::Bad(_) => {
                self.stage = TalkStage::Broken { at };
                false
            }
        }
    }

    // The request with this id is due, if there is one, whose reply stands at this place.
    fn ask(&mut self, asks: &Asks, id: u32, at: usize) -> Result<(), OutOfMemory>
        requires may { MayAsk asks.now }
        requires faultless { self.old.framer.fault ≡ None }
        requires placed { at ≤ (id + 1) * 262148 }
        ensures exact { OnOk result (self.new ≡ request_is_sent (request_at asks.now id) id at self.old) }
    {
        let mut frame = Vec::new(self.alloc);
        if put_request(&mut frame, asks, id)? {
            self.queue.push_bytes(frame.as_slice())?;
            self.stage = TalkStage::Asks { id, at };
        } else {
            self.stage = TalkStage::Granted;
        }
        Ok(())
    }

    // Reads the master's hello, if it is there.
    fn greet(&mut self, asks: &Asks) -> Result<Option<OutLine>, OutOfMemory>
        requires may { MayAsk asks.now }
        requires stage { self.old.stage ≡ Greets }
        ensures reads { ReadsNext asks.now self.old self.new result }
    {
        if !self.cut(0) {
            return Ok(None);
        }
        let body = self.framer.content();
        let at = 4 + body.len();
        if !is_hello_of_4(body) {
            self.stage = TalkStage::Broken { at: 0 };
            return Ok(None);
        }
        self.ask(asks, 0, at)?;
        Ok(Some(OutLine::Nothing))
    }

    // Reads the reply to the request with this id, if it is there, at this place.
    fn reply(&mut self, asks: &Asks, id: u32, at: usize) -> Result<Option<OutLine>, OutOfMemory>
        requires may { MayAsk asks.now }
        requires stage { self.old.stage ≡ Asked id at }
        ensures reads { ReadsNext asks.now self.old self.new result }
    {
        if !self.cut(at) {
            return Ok(None);
        }
        let body = self.framer.content();
        let behind = at + (4 + body.len());
        match verdict_of(asks, id, body) {
            ReplyVerdict::Grants(line) => {
                let Some(next) = id.checked_add(1) else {
                    return Err(OutOfMemory);
                };
                self.ask(asks, next, behind)?;
                Ok(Some(line))
            }
            ReplyVerdict::Refuses => {
                self.stage = TalkStage::Refused { id };
                Ok(None)
            }
            ReplyVerdict::Breaks => {
                self.stage = TalkStage::Broken { at };
                Ok(None)
            }
        }
    }

    /// Reads the next frame: the line that it shows, and nothing where no frame is read any more,
    /// or none is there yet.
    pub fn next(&mut self, asks: &Asks) -> Result<Option<OutLine>, OutOfMemory>
        requires { MayAsk asks.now }
        ensures { ReadsNext asks.now self.old self.new result }
    {
        match self.stage {
            TalkStage::Greets => self.greet(asks),
            TalkStage::Asks { id, at } => self.reply(asks, id, at),
            _ => Ok(None),
        }
    }
}
