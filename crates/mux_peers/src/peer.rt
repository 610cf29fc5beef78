ghost use Rattle.std.specs.Prelude.{◌≡◌, true, false, ◌≤◌, ◌+◌, [], ◌∷◌, length, IfOk, OnOk, OnErr, Some};
ghost use Rattle.ssh_grammar.specs.declared.framing.Framing.TheVariants.{Proxy};
ghost use Rattle.ssh_grammar.specs.IsFrame.{IsContent};
ghost use Rattle.ssh_grammar.specs.Frames.{frame_payload};
ghost use Rattle.proxy_frames.specs.declared.queue.TheConstants.{LONGEST_PAYLOAD};
ghost use Rattle.mux_core.specs.Calls.{LeavesUnsent, LeavesRecorded};
ghost use Rattle.mux_peers.specs.declared.standing.Standing.TheVariants.{Lost};
ghost use Rattle.mux_peers.specs.State.{full_of, part, refusals_of, with_frames_queued, KeepsRoom};
ghost use Rattle.mux_peers.specs.Says.{SendsPayload};
ghost use Rattle.mux_peers.specs.Receives.{ReceivesRecorded};
ghost use Rattle.mux_peers.specs.Losing.{Loses};
ghost use Rattle.mux_peers.specs.Answering.{AnswersLater};
ghost use Rattle.mux_peers.specs.Entering.{new_client};
ghost use Rattle.mux_peers.specs.declared.standing.Standing.{Standing as TheStanding};
ghost use Rattle.mux_peers.specs.Decisions.{frames, is_stops, DecisionGoesOn, StandsAs};
ghost use Rattle.mux_peers.specs.Bodies.{FollowsBy};
ghost use Rattle.mux_peers.specs.declared.run_change.RunChange.{RunChange as TheRunChange};
ghost use Rattle.mux_peers.specs.Nexts.{FaultBy};
ghost use Rattle.mux_peers.specs.Stands.{is_standing_lost, is_read};

mod views;

use crate::decision::{Decision, Effect, answer_of};
use crate::run_change::RunChange;
use crate::standing::Standing;
use client_teardown::FAREWELL_ROOM;
use conn_messages::request_failure;
use mux_core::{Core, Verdict};
use mux_history::Why;
use mux_history::limits::MAX_QUEUE;
use mux_messages::hello;
use mux_outside::HouseReply;
use proxy_frames::{HEADER, Queue};
use ssh_fields::{OutOfMemory, Small};
use ssh_grammar::BadFrame;
use std::alloc::Global;
use std::marker::Model;

/// A client without the bytes that it sent: its state, and what waits for it.
#[derive(Drop)]
pub struct Peer {
    number: u64,
    standing: Standing,
    queue: Queue,
}

impl Model for Peer {
    ghost use Rattle.mux_peers.specs.State.{PeerState};

    ghost Value = { PeerState };

    ghost view = { λ a. record {
      number = a.number;
      standing = a.standing;
      queue = a.queue.waiting;
    } };
}

// How a client stands that goes on so.
fn standing_by(effect: Effect) -> Standing
    ensures { (s : TheStanding) → StandsAs effect s → DecisionGoesOn effect → result ≡ s }
{
    match effect {
        Effect::Switches => Standing::Proxied,
        Effect::Unreads => Standing::Unread,
        Effect::Goes | Effect::Stops | Effect::Ends(_) | Effect::Drops(_) => Standing::Greeted,
    }
}

fn stops(effect: Effect) -> bool
    ensures { result ≡ is_stops effect }
{
    matches!(effect, Effect::Stops)
}

impl Peer {
    /// A client that comes: the master's hello waits for it.
    pub fn new(alloc: Global, number: u64) -> Result<Peer, OutOfMemory>
        ensures { IfOk result (λ peer. peer ≡ (new_client number).peer) }
    {
        let mut queue = Queue::new(alloc);
        queue.push_bytes(hello().as_bytes())?;
        Ok(Peer {
            number,
            standing: Standing::Awaited,
            queue,
        })
    }

    // Queues a payload for it if the frame fits into the queue; else why it is to be dropped.
    fn report(&mut self, payload: &[u8]) -> Result<Option<Why>, OutOfMemory>
        requires { IsContent Proxy payload.now }
        ensures queue { OnOk result (self.new ≡ with_frames_queued (frame_payload payload.now ∷ []) self.old) }
        ensures full { IfOk result (λ full.
            full ≡ full_of (frame_payload payload.now ∷ []) self.old) }
        ensures stays { self.new.standing ≡ self.old.standing }
    {
        let have = self.queue.len();
        let want = payload.len() + HEADER;
        if MAX_QUEUE - want < have {
            return Ok(Some(Why::QueueFull { have, want }));
        }
        self.queue.push_payload(payload)?;
        Ok(None)
    }

    // Queues so many refusals for it, as far as they fit into the queue.
    fn refuse(&mut self, refusals: u32) -> Result<Option<Why>, OutOfMemory>
        ensures queue { OnOk result (self.new ≡ with_frames_queued (refusals_of refusals) self.old) }
        ensures full { IfOk result (λ full. full ≡ full_of (refusals_of refusals) self.old) }
        ensures stays { self.new.standing ≡ self.old.standing }
    {
        if refusals == 0 {
            return Ok(None);
        }
        let refusal = request_failure();
        let mut left = refusals;
        while left > 0 {
            if let Some(why) = self.report(refusal.as_bytes())? {
                return Ok(Some(why));
            }
            left -= 1;
        }
        Ok(None)
    }

    // Queues a payload and then so many refusals for it, as far as they fit into the queue.
    fn record_all(&mut self, payload: &[u8], refusals: u32) -> Result<Option<Why>, OutOfMemory>
        requires { IsContent Proxy payload.now }
        ensures queue { OnOk result
            (self.new ≡ with_frames_queued (frame_payload payload.now ∷ refusals_of refusals) self.old) }
        ensures full { IfOk result (λ full.
            full ≡ full_of (frame_payload payload.now ∷ refusals_of refusals) self.old) }
        ensures stays { self.new.standing ≡ self.old.standing }
    {
        match self.report(payload)? {
            Some(why) => Ok(Some(why)),
            None => self.refuse(refusals),
        }
    }

    // It is dropped for a cause, and its farewell is sent.
    fn drop_for(&mut self, why: Why, core: &mut Core, up: &mut Queue)
        requires room { FAREWELL_ROOM ≤ up.old.spare }
        ensures peer { self.new ≡ record self.old { standing = Lost (Some why) } }
        ensures out { is_read self.new.standing ≡ false }
        ensures unsent { LeavesUnsent core.old core.new self.old.number up.old up.new }
        ensures recorded { LeavesRecorded core.old core.new self.old.number up.old up.new }
        ensures policy { core.new.policy ≡ core.old.policy }
        ensures spare { up.old.spare ≤ up.new.spare + FAREWELL_ROOM }
    {
        self.standing = Standing::Lost(Some(why));
        core.gone(self.number, up);
    }

    /// Its stream is gone: what it left open is closed.
    pub fn lose(&mut self, core: &mut Core, up: &mut Queue)
        requires room { FAREWELL_ROOM ≤ up.old.spare }
        ensures loses { Loses (part core.old self.old up.old) (part core.new self.new up.new) }
        ensures out { is_read self.new.standing ≡ false }
        ensures policy { core.new.policy ≡ core.old.policy }
        ensures spare { up.old.spare ≤ up.new.spare + FAREWELL_ROOM }
    {
        self.standing = Standing::Lost(None);
        core.gone(self.number, up);
    }

    /// What it sends is no frame.
    pub fn fails(&mut self, fault: BadFrame, core: &mut Core, up: &mut Queue)
        requires room { FAREWELL_ROOM ≤ up.old.spare }
        ensures faults { (change : TheRunChange)
            → FaultBy fault (part core.old self.old up.old) change
            (part core.new self.new up.new) change }
        ensures out { is_read self.new.standing ≡ false }
        ensures number { self.new.number ≡ self.old.number }
        ensures policy { core.new.policy ≡ core.old.policy }
        ensures spare { KeepsRoom up.old up.new self.new.standing }
    {
        self.drop_for(Why::BadFrame(fault), core, up);
    }

    /// It sends a payload.
    pub fn says(
        &mut self,
        payload: &mut [u8],
        core: &mut Core,
        up: &mut Queue,
    ) -> Result<(), OutOfMemory>
        requires length { length payload.old ≤ LONGEST_PAYLOAD }
        requires room { FAREWELL_ROOM ≤ up.old.spare }
        ensures stands { OnOk result
            (SendsPayload payload.old (part core.old self.old up.old)
            (part core.new self.new up.new)) }
        ensures keeps { is_read self.new.standing ≡ true → self.new.standing ≡ self.old.standing }
        ensures number { OnOk result (self.new.number ≡ self.old.number) }
        ensures policy { core.new.policy ≡ core.old.policy }
        ensures spare { OnOk result (KeepsRoom up.old up.new self.new.standing) }
    {
        match core.said(self.number, payload, up)? {
            Verdict::Sent | Verdict::Held | Verdict::Silent => Ok(()),
            Verdict::Answer(answer) => match self.report(answer.as_bytes())? {
                None => Ok(()),
                Some(why) => {
                    self.drop_for(why, core, up);
                    Ok(())
                }
            },
            Verdict::Drop(why) => {
                self.drop_for(why, core, up);
                Ok(())
            }
        }
    }

    /// It receives a payload of the server, and then so many refusals, after the core has received
    /// it.
    pub fn deliver(
        &mut self,
        payload: &[u8],
        refusals: u32,
        core: &mut Core,
        up: &mut Queue,
    ) -> Result<(), OutOfMemory>
        requires payload { IsContent Proxy payload.now }
        requires room { FAREWELL_ROOM ≤ up.old.spare }
        ensures keeps { is_read self.new.standing ≡ true → self.new.standing ≡ self.old.standing }
        ensures stays { is_standing_lost self.new.standing ≡ false → self.new.standing ≡ self.old.standing }
        ensures stands { OnOk result (ReceivesRecorded (frame_payload payload.now ∷ refusals_of refusals)
            (part core.old self.old up.old) (part core.new self.new up.new)) }
        ensures policy { core.new.policy ≡ core.old.policy }
        ensures spare { OnOk result (KeepsRoom up.old up.new self.new.standing) }
    {
        match self.record_all(payload, refusals)? {
            None => Ok(()),
            Some(why) => {
                self.drop_for(why, core, up);
                Ok(())
            }
        }
    }

    // Queues a control frame for it, if there is one and it fits into the queue; else why it is to
    // be dropped.
    fn record_frame(&mut self, answer: &Option<Small>) -> Result<Option<Why>, OutOfMemory>
        ensures queue { OnOk result (self.new ≡ with_frames_queued (frames answer.now) self.old) }
        ensures full { IfOk result (λ full. full ≡ full_of (frames answer.now) self.old) }
        ensures stays { self.new.standing ≡ self.old.standing }
    {
        let Some(frame) = answer else {
            return Ok(None);
        };
        let have = self.queue.len();
        let want = frame.as_bytes().len();
        if MAX_QUEUE - want < have {
            return Ok(Some(Why::QueueFull { have, want }));
        }
        self.queue.push_bytes(frame.as_bytes())?;
        Ok(None)
    }

    /// The forwarder replies to a request of it later than at once: it is sent that, unless it is
    /// in proxy mode.
    pub fn answered(
        &mut self,
        id: u32,
        reply: HouseReply,
        core: &mut Core,
        up: &mut Queue,
    ) -> Result<(), OutOfMemory>
        requires room { FAREWELL_ROOM ≤ up.old.spare }
        ensures keeps { is_read self.new.standing ≡ true → self.new.standing ≡ self.old.standing }
        ensures stays { is_standing_lost self.new.standing ≡ false → self.new.standing ≡ self.old.standing }
        ensures answers { OnOk result (AnswersLater id reply (part core.old self.old up.old)
            (part core.new self.new up.new)) }
        ensures policy { core.new.policy ≡ core.old.policy }
        ensures spare { OnOk result (KeepsRoom up.old up.new self.new.standing) }
    {
        if self.is_proxied() {
            return Ok(());
        }
        match self.record_frame(&answer_of(true, id, reply))? {
            None => Ok(()),
            Some(why) => {
                self.drop_for(why, core, up);
                Ok(())
            }
        }
    }

    /// It follows what was decided of a control message.
    pub fn follows(
        &mut self,
        decision: &Decision,
        change: &mut RunChange,
        core: &mut Core,
        up: &mut Queue,
    ) -> Result<(), OutOfMemory>
        requires room { FAREWELL_ROOM ≤ up.old.spare }
        ensures err { OnErr result (is_read self.new.standing ≡ true
            → self.new.standing ≡ self.old.standing) }
        ensures follows { OnOk result
            (FollowsBy decision.now (part core.old self.old up.old) change.old
            (part core.new self.new up.new) change.new) }
        ensures number { OnOk result (self.new.number ≡ self.old.number) }
        ensures policy { core.new.policy ≡ core.old.policy }
        ensures spare { OnOk result (KeepsRoom up.old up.new self.new.standing) }
    {
        match decision.effect {
            Effect::Drops(why) => {
                self.drop_for(why, core, up);
                Ok(())
            }
            Effect::Ends(cause) => {
                self.record_frame(&decision.recorded)?;
                self.standing = Standing::Unread;
                change.ended = Some(cause);
                Ok(())
            }
            Effect::Goes | Effect::Switches | Effect::Unreads | Effect::Stops =>
                match self.record_frame(&decision.recorded)? {
                    Some(why) => {
                        self.drop_for(why, core, up);
                        Ok(())
                    }
                    None => {
                        self.standing = standing_by(decision.effect);
                        change.stops |= stops(decision.effect);
                        Ok(())
                    }
                },
        }
    }
}
