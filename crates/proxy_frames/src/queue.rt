ghost use Rattle.std.specs.Prelude.{◌≡◌, ◌+◌, ◌≤◌, ◌++◌, ◌==◌, length, drop, max, OnOk, OnErr};
ghost use Rattle.std.specs.Vec.{vec_capacity};
ghost use Rattle.ssh_grammar.specs.declared.framing.Framing.TheVariants.{Proxy};
ghost use Rattle.ssh_grammar.specs.Frames.{frame_payload};
ghost use Rattle.ssh_grammar.specs.IsFrame.{IsContent};
ghost use Rattle.proxy_frames.specs.Queued.{empty_queue, with_bytes, frame_length, with_reserved, without_first_bytes};

use crate::framer::remove_front;
use ssh_fields::OutOfMemory;
use ssh_grammar::numbers::LONGEST_FRAME;
use std::alloc::Global;
use std::marker::Model;

/// How many bytes the header of a proxy frame has: a packet length and a padding length.
pub const HEADER: usize = 5;

/// The longest payload of a proxy frame: its packet length counts the padding length too.
pub const LONGEST_PAYLOAD: usize = LONGEST_FRAME as usize - 1;

/// Bytes that wait to be written, in order, and room for more that lasts.
#[derive(Drop)]
pub struct Queue {
    bytes: Vec<u8>,
    /// Where those begin that wait: what is before was accepted.
    start: usize,
    /// For how many more there is room that lasts.
    spare: usize,
}

impl Model for Queue {
    ghost use Rattle.std.specs.Prelude.{◌≤◌, ◌+◌, length, drop};
    ghost use Rattle.std.specs.Vec.{vec_capacity};
    ghost use Rattle.proxy_frames.specs.State.{QueueState};

    ghost Value = { QueueState };

    ghost view = { λ a. record { waiting = drop a.start a.bytes.items; spare = a.spare } };

    ghost invariant = { λ a. (a.start ≤ length a.bytes.items)
        × (length a.bytes.items + a.spare ≤ vec_capacity a.bytes) };
}

impl Queue {
    /// A queue without a byte and without room.
    pub fn new(alloc: Global) -> Queue
        ensures { result ≡ empty_queue }
    {
        Queue {
            bytes: Vec::new(alloc),
            start: 0,
            spare: 0,
        }
    }

    /// Adds bytes at the end. The room that lasts stays. An `Err` changes nothing.
    pub fn push_bytes(&mut self, bytes: &[u8]) -> Result<(), OutOfMemory>
        ensures ok { OnOk result (self.new ≡ with_bytes bytes.now self.old) }
        ensures unchanged { OnErr result (self.new ≡ self.old) }
    {
        let room = bytes.len().checked_add(self.spare).ok_or(OutOfMemory)?;
        make_room(&mut self.bytes, &mut self.start, room)?;
        put_bytes(&mut self.bytes, bytes);
        Ok(())
    }

    /// Adds the proxy frame of a payload at the end. The room that lasts stays. An `Err` changes
    /// nothing.
    pub fn push_payload(&mut self, payload: &[u8]) -> Result<(), OutOfMemory>
        requires { IsContent Proxy payload.now }
        ensures ok { OnOk result (self.new ≡ with_bytes (frame_payload payload.now) self.old) }
        ensures unchanged { OnErr result (self.new ≡ self.old) }
    {
        let room = (payload.len() + HEADER)
            .checked_add(self.spare)
            .ok_or(OutOfMemory)?;
        make_room(&mut self.bytes, &mut self.start, room)?;
        put_payload(&mut self.bytes, payload);
        Ok(())
    }

    /// Makes room that lasts for so many bytes at least. An `Err` changes nothing.
    pub fn reserve(&mut self, n: usize) -> Result<(), OutOfMemory>
        ensures ok { OnOk result (self.new ≡ record self.old { spare = max self.old.spare n }) }
        ensures unchanged { OnErr result (self.new ≡ self.old) }
    {
        let spare = self.spare.max(n);
        make_room(&mut self.bytes, &mut self.start, spare)?;
        self.spare = spare;
        Ok(())
    }

    /// Adds the proxy frame of a payload at the end, in the room that lasts.
    pub fn push_reserved(&mut self, payload: &[u8])
        requires payload { IsContent Proxy payload.now }
        requires room { frame_length payload.now ≤ self.old.spare }
        ensures { self.new ≡ with_reserved payload.now self.old }
    {
        put_payload(&mut self.bytes, payload);
        self.spare -= payload.len() + HEADER;
    }

    /// All bytes that wait.
    pub fn front(&self) -> &[u8]
        ensures { result.now ≡ self.now.waiting }
    {
        &self.bytes[self.start..]
    }

    /// How many bytes wait.
    pub fn len(&self) -> usize
        ensures { result ≡ length self.now.waiting }
    {
        self.bytes.len() - self.start
    }

    /// Whether none waits.
    pub fn is_empty(&self) -> bool
        ensures { result ≡ (length self.now.waiting == 0) }
    {
        self.len() == 0
    }

    /// So many of the first bytes were accepted.
    pub fn took(&mut self, n: usize)
        requires { n ≤ length self.old.waiting }
        ensures { self.new ≡ without_first_bytes n self.old }
    {
        self.start += n;
        if self.start == self.bytes.len() {
            self.bytes.clear();
            self.start = 0;
        }
    }
}

// Makes room for so many bytes after these, of which those from the start on wait. Those before it
// are dropped where there is too little room and they are half of all or more: so each byte is
// moved at most once for each that was accepted.
fn make_room(bytes: &mut Vec<u8>, start: &mut usize, n: usize) -> Result<(), OutOfMemory>
    requires { start.old ≤ length bytes.old.items }
    ensures waiting { drop start.new bytes.new.items ≡ drop start.old bytes.old.items }
    ensures within { start.new ≤ length bytes.new.items }
    ensures room { OnOk result (length bytes.new.items + n ≤ vec_capacity bytes.new) }
    ensures no_more { length bytes.new.items ≤ length bytes.old.items }
    ensures capacity { vec_capacity bytes.old ≤ vec_capacity bytes.new }
{
    let waiting = bytes.len() - *start;
    if bytes.capacity() - bytes.len() < n && waiting <= *start {
        remove_front(bytes, *start);
        *start = 0;
    }
    bytes.reserve(n)?;
    Ok(())
}

// Adds bytes, for which there is room.
fn put_bytes(out: &mut Vec<u8>, bytes: &[u8])
    requires { length out.old.items + length bytes.now ≤ vec_capacity out.old }
    ensures items { out.new.items ≡ out.old.items ++ bytes.now }
    ensures capacity { vec_capacity out.old ≤ vec_capacity out.new }
{
    let Ok(()) = out.extend_from_slice(bytes) else {
        unreachable!()
    };
}

// Adds the proxy frame of a payload, for which there is room.
fn put_payload(out: &mut Vec<u8>, payload: &[u8])
    requires payload { IsContent Proxy payload.now }
    requires room { length out.old.items + frame_length payload.now ≤ vec_capacity out.old }
    ensures items { out.new.items ≡ out.old.items ++ frame_payload payload.now }
    ensures capacity { vec_capacity out.old ≤ vec_capacity out.new }
{
    let length = payload.len() as u32 + 1;
    put_bytes(out, &length.to_be_bytes());
    put_bytes(out, &[0]);
    put_bytes(out, payload);
}
