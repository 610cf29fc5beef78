ghost use Rattle.std.specs.Prelude.{◌≡◌, ◌++◌, [], ◌∷◌, ◌≤◌, length, drop, true, IfOk, OnOk, OnErr};
ghost use Rattle.global_replies.specs.Replies.{is_none_left, or_behind, refusals_behind, after_reply, leading, without_leading};
ghost use Rattle.global_replies.specs.Stands.{AnswerGoesOn, LeavesUnanswered, RefusalGoesOn, SentGoesOn};

use crate::ask::MOST_WAITING;
use ssh_fields::OutOfMemory;
use std::alloc::Global;
use std::marker::Model;

/// What a client is still to be answered, in the order of its wanted requests: from the first on
/// that was sent and has no reply, whether each was sent, or else refused.
#[derive(Drop)]
pub struct ClientAnswers {
    waiting: Vec<bool>,
}

impl Model for ClientAnswers {
    ghost use Rattle.std.specs.Prelude.{List, Bool, length, ◌≤◌};
    ghost use Rattle.global_replies.specs.declared.ask.TheConstants.{MOST_WAITING};

    ghost Value = { List Bool };

    ghost view = { λ a. a.waiting.items };

    ghost invariant = { λ a. length a.waiting.items ≤ MOST_WAITING };
}

// How many refusals stand in front.
fn leading(flags: &[bool]) -> usize
    ensures within { result ≤ length flags.now }
    ensures exact { result ≡ leading flags.now }
    ensures rest { drop result flags.now ≡ without_leading flags.now }
{
    let mut count = 0;
    for sent in flags {
        if *sent {
            break;
        }
        count += 1;
    }
    count
}

impl ClientAnswers {
    /// Nothing is to be answered.
    pub fn new(alloc: Global) -> ClientAnswers
        ensures { result ≡ [] }
    {
        ClientAnswers {
            waiting: Vec::new(alloc),
        }
    }

    /// A wanted request of the client is sent: its reply is awaited. An `Err` also comes where
    /// 2^32 - 1 requests wait.
    pub fn awaited(&mut self) -> Result<(), OutOfMemory>
        ensures stands { OnOk result (SentGoesOn self.old self.new) }
        ensures ok { OnOk result (self.new ≡ self.old ++ true ∷ []) }
        ensures unchanged { OnErr result (self.new ≡ self.old) }
    {
        if self.waiting.len() >= MOST_WAITING {
            return Err(OutOfMemory);
        }
        self.waiting.push(true)?;
        Ok(())
    }

    /// A wanted request of the client is refused: true where nothing waits, so that the refusal
    /// goes out now; else it waits after what waits. An `Err` also comes where 2^32 - 1 requests
    /// wait.
    pub fn local(&mut self) -> Result<bool, OutOfMemory>
        ensures stands { IfOk result (RefusalGoesOn self.old self.new) }
        ensures now { IfOk result (λ now. now ≡ is_none_left self.old) }
        ensures ok { OnOk result (self.new ≡ or_behind self.old) }
        ensures unchanged { OnErr result (self.new ≡ self.old) }
    {
        if self.waiting.is_empty() {
            return Ok(true);
        }
        if self.waiting.len() >= MOST_WAITING {
            return Err(OutOfMemory);
        }
        self.waiting.push(false)?;
        Ok(false)
    }

    /// The server's reply to the client's first request came, and is the client's: so many refusals
    /// follow it now. Where nothing waits nothing follows.
    pub fn server_answered(&mut self) -> u32
        ensures stands { AnswerGoesOn self.old self.new result }
        ensures refusals { result ≡ refusals_behind self.old }
        ensures left { self.new ≡ after_reply self.old }
    {
        if self.waiting.is_empty() {
            return 0;
        }
        let refusals = leading(&self.waiting[1..]);
        let _ = self.waiting.drain(..refusals + 1);
        refusals as u32
    }

    /// How many wanted requests have no answer so far, sent and refused ones together.
    pub fn waiting(&self) -> u32
        ensures stands { LeavesUnanswered self.now result }
        ensures exact { result ≡ length self.now }
    {
        self.waiting.len() as u32
    }
}
