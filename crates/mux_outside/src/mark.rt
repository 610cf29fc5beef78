ghost use Rattle.std.specs.Prelude.{◌≡◌, ◌++◌, IfOk};
ghost use Rattle.mux_outside.specs.Marks.{bytes_taken as all_taken, accepted_at_mark as all_taken_at};

use crate::kept_mark::KeptMark;
use crate::kept_shown::KeptShown;
use crate::kept_streams::KeptStreams;
use crate::turn::Want;
use ssh_fields::{OutOfMemory, Text};
use std::alloc::Global;

/// The arguments of a call of `open`.
#[derive(Drop)]
pub struct OpenCall {
    pub control: Text,
    pub transport: Text,
}

/// What a wire that records has recorded: each call of `wait` and the turn that it gave, and each
/// answer to a write.
#[derive(Drop)]
pub enum Mark {
    /// A call of `wait`: the waiting streams, what was wanted, the streams open then, and what else
    /// the wire showed then.
    Waits(KeptStreams, Want, KeptStreams, KeptShown),
    /// A client came.
    Accepts(u64),
    /// A stream gave bytes.
    Gets(u64, Text),
    /// A stream ended.
    Ends(u64),
    /// A blocked stream accepts bytes again.
    Frees(u64),
    /// A stream failed at a wait.
    Fails(u64),
    /// A stream accepted bytes; and whether clients were accepted then.
    Takes(u64, Text, bool),
    /// A stream accepted nothing at a write, and is blocked.
    Holds(u64),
    /// A stream failed at a write.
    WriteFails(u64),
    /// A socket was accepted at this listener of the master's own, and is this stream.
    Joins(u64, u64),
    /// What happened between the master and its forwarder.
    House(KeptMark),
}

/// All bytes that a stream accepted, in order.
pub fn bytes_taken(alloc: Global, marks: &[Mark], stream: u64) -> Result<Text, OutOfMemory>
    ensures { IfOk result (λ bytes. bytes ≡ all_taken stream marks.now) }
{
    let mut all = Text::new(alloc);
    for mark in marks {
        all.add(taken_at(mark, stream))?;
    }
    Ok(all)
}

// The bytes that a stream accepted at one mark.
fn taken_at(mark: &Mark, stream: u64) -> &[u8]
    ensures { result.now ≡ all_taken_at stream mark.now }
{
    match mark {
        Mark::Takes(taker, bytes, _) if *taker == stream => bytes.as_bytes(),
        _ => b"",
    }
}
