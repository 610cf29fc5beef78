ghost use Rattle.std.specs.Prelude.{◌≡◌, ◌↔◌, ◌+◌, ◌<◌, ◌≤◌, length, drop, IsSome, Some, OnOk, OnErr};
ghost use Rattle.std.specs.Vec.{vec_capacity};
ghost use Rattle.std.specs.Borrow.{Lends, Array, sem, u8};
ghost use Rattle.ssh_grammar.specs.declared.fault.BadFrame.{BadFrame};
ghost use Rattle.proxy_frames.specs.contracts.framer.Framer.{the_row};
ghost use Rattle.proxy_frames.specs.Steps.{new_framer, pushed, switched, front_of, answer_to, after_front, with_written};
ghost use Rattle.proxy_frames.specs.Fronts.{WantsMore, HasFault};
ghost use Rattle.proxy_frames.specs.FramerHistory.{FramerRepresents, FramerGoesOn, IsNextFrame, new_history, and_bytes, and_switch, and_next};

use crate::next::{Front, Next, first_frame};
use ssh_fields::OutOfMemory;
use ssh_grammar::numbers::LONGEST_FRAME;
use ssh_grammar::{BadFrame, Framing};
use std::alloc::Global;
use std::marker::Model;

/// A stream that comes in pieces and is cut into frames. Each frame is given once, and lent where
/// it lies.
#[derive(Drop)]
pub struct Framer {
    framing: Framing,
    bytes: Vec<u8>,
    /// Where the current frame begins, if there is one.
    current: Option<usize>,
    /// Where the bytes begin that aren't cut yet. The current frame ends there.
    at: usize,
    fault: Option<BadFrame>,
}

impl Model for Framer {
    ghost use Rattle.std.specs.Prelude.{◌≤◌, length};
    ghost use Rattle.proxy_frames.specs.State.{FramerState, kept_state, IsFrameWithin};

    ghost Value = { FramerState };

    ghost view = { λ a. kept_state a.framing a.fault a.current a.at a.bytes.items };

    ghost invariant = { λ a. IsFrameWithin a.current a.at × (a.at ≤ length a.bytes.items) };
}

impl Framer {
    /// A framer without a byte.
    pub fn new(alloc: Global, kind: Framing) -> Framer
        ensures exact { result ≡ new_framer kind }
        ensures stands { FramerRepresents (new_history kind) result }
    {
        Framer {
            framing: kind,
            bytes: Vec::new(alloc),
            current: None,
            at: 0,
            fault: None,
        }
    }

    /// More bytes of the stream. An `Err` changes nothing.
    pub fn push(&mut self, piece: &[u8]) -> Result<(), OutOfMemory>
        ensures ok { OnOk result (self.new ≡ pushed piece.now self.old) }
        ensures stands { OnOk result (FramerGoesOn self.old self.new (and_bytes piece.now)) }
        ensures unchanged { OnErr result (self.new ≡ self.old) }
    {
        self.bytes.reserve(piece.len())?;
        self.current = None;
        // What is gone already is dropped where it is half of all or more.
        if self.bytes.len() - self.at <= self.at {
            remove_front(&mut self.bytes, self.at);
            self.at = 0;
        }
        self.bytes.extend_from_slice(piece)?;
        Ok(())
    }

    /// Cuts the next frame, which is the current one then. Where a fault is answered, nothing else
    /// is from then on.
    pub fn next(&mut self) -> Next
        ensures answer { result ≡ answer_to (front_of self.old) }
        ensures exact { self.new ≡ after_front (front_of self.old) self.old }

        // A frame, too little of one, or a fault stands there.
        ensures current { (result ≡ Next.Frame) ↔ IsSome self.new.current }
        ensures more { (result ≡ Next.More) ↔ WantsMore self.old }
        ensures short { result ≡ Next.More → length self.new.rest < LONGEST_FRAME + 4 }
        ensures fault { (fault : BadFrame) → (result ≡ Next.Bad fault) ↔ HasFault self.old fault }

        // Over all that came and was given.
        ensures given { IsNextFrame self.old result self.new }
        ensures stands { FramerGoesOn self.old self.new and_next }
    {
        self.current = None;
        if let Some(fault) = self.fault {
            return Next::Bad(fault);
        }
        match first_frame(self.framing, &self.bytes[self.at..]) {
            Front::More => Next::More,
            Front::Bad(fault) => {
                self.fault = Some(fault);
                Next::Bad(fault)
            }
            Front::Frame { header, length } => {
                self.current = Some(self.at + header);
                self.at += header + length;
                Next::Frame
            }
        }
    }

    /// From now on cuts so. The bytes that weren't cut yet are kept.
    pub fn switch(&mut self, kind: Framing)
        ensures exact { self.new ≡ switched kind self.old }
        ensures stands { FramerGoesOn self.old self.new (and_switch kind) }
    {
        self.framing = kind;
        self.current = None;
    }

    /// The current frame, to be written in. What is written there, byte for byte, changes nothing
    /// else.
    pub fn frame(&mut self) -> &mut [u8]
        requires { IsSome self.old.current }
        ensures* writes_back { sem 𝓛
            (Lends the_row (Array u8 0) self.entry result (with_written self.old)) }
        ensures value { self.old.current ≡ Some result.now }
    {
        let start = self.current.unwrap_or(self.at);
        self.bytes.slice_mut(start..self.at)
    }

    /// The current frame, to be read.
    pub fn content(&self) -> &[u8]
        requires { IsSome self.now.current }
        ensures { self.now.current ≡ Some result.now }
    {
        &self.bytes[self.current.unwrap_or(self.at)..self.at]
    }

    /// How many bytes aren't cut yet.
    pub fn rest_len(&self) -> usize
        ensures { result ≡ length self.now.rest }
    {
        self.bytes.len() - self.at
    }
}

// Drops so many first bytes. The others are moved down once, and the room stays.
pub(crate) fn remove_front(bytes: &mut Vec<u8>, n: usize)
    requires { n ≤ length bytes.old.items }
    ensures items { bytes.new.items ≡ drop n bytes.old.items }
    ensures capacity { vec_capacity bytes.new ≡ vec_capacity bytes.old }
{
    let len = bytes.len();
    bytes.copy_within(n..len, 0);
    bytes.truncate(len - n);
}
