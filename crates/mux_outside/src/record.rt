//! The marks that a wire in memory records of its calls. There is room before they are recorded.
ghost use Rattle.std.specs.Prelude.{◌≡◌, ◌≢◌, ◌≤◌, ◌+◌, OnOk, IfOk, ◌∷◌, [], length, vec_len, vec_capacity};
ghost use Rattle.mux_outside.specs.Wire.{WroteFits};
ghost use Rattle.mux_outside.specs.Seen.{shown_of, turn_marks, wait_marks, write_marks};
ghost use Rattle.mux_outside.specs.declared.house_mark.HouseMark.TheVariants.{HouseOrder};
ghost use Rattle.mux_outside.specs.declared.mark.Mark.TheVariants.{House as TheHouse};
ghost use Rattle.mux_outside.specs.declared.turn.Turn.TheVariants.{NoMemory};
ghost use Rattle.mux_outside.specs.declared.turn.Wrote.TheVariants.{NoMemory as NoMemoryToWrite};

use crate::house_mark::HouseMark;
use crate::kept_mark::KeptMark;
use crate::mark::Mark;
use crate::marks::Marks;
use crate::order::Order;
use crate::streams::Streams;
use crate::turn::{Turn, Want, Wrote};
use crate::wire_state::WireState;
use ssh_fields::{OutOfMemory, Text};
use std::alloc::Global;

/// The marks of a call of `wait` and of its turn, by the streams that are open before it. There is
/// room for them, and they aren't recorded yet.
pub fn marks_of_wait(
    alloc: Global,
    marks: &mut Marks,
    state: &mut WireState,
    turn: Turn,
    waiting: &Streams,
    want: Want,
    bytes: &[u8],
) -> Result<(Mark, Mark), OutOfMemory>
    ensures marks { IfOk result (λ two. wait_marks turn waiting.now want state.old.seen.streams
        (shown_of state.old.seen) bytes.now ≡ two.0 ∷ two.1 ∷ []) }
    ensures recorded { marks.new.recorded.items ≡ marks.old.recorded.items }
    ensures room { OnOk result
        (vec_len marks.new.recorded + 2 ≤ vec_capacity marks.new.recorded) }
    ensures state { state.new ≡ state.old }
    ensures memory { OnOk result (turn ≢ NoMemory) }
{
    let gives = mark_of_turn(alloc, turn, bytes)?;
    let open = state.keep()?;
    let waits = marks.wait_mark(alloc, waiting, want, open, state)?;
    marks.recorded.reserve(2)?;
    Ok((waits, gives))
}

// The mark of a turn.
fn mark_of_turn(alloc: Global, turn: Turn, bytes: &[u8]) -> Result<Mark, OutOfMemory>
    ensures { IfOk result (λ mark. turn_marks turn bytes.now ≡ mark ∷ []) }
{
    match turn {
        Turn::Accepted(client) => Ok(Mark::Accepts(client)),
        Turn::Got(stream) => Ok(Mark::Gets(stream, Text::copy(alloc, bytes)?)),
        Turn::End(stream) => Ok(Mark::Ends(stream)),
        Turn::Writable(stream) => Ok(Mark::Frees(stream)),
        Turn::Failed(stream) => Ok(Mark::Fails(stream)),
        Turn::Joined(listener, stream) => Ok(Mark::Joins(listener, stream)),
        Turn::NoMemory => Err(OutOfMemory),
    }
}

/// The mark of an answer to a write, with whether clients are accepted. There is room for it, and it
/// isn't recorded yet.
pub fn mark_of_write(
    alloc: Global,
    marks: &mut Marks,
    wrote: Wrote,
    stream: u64,
    bytes: &[u8],
    listens: bool,
) -> Result<Mark, OutOfMemory>
    requires { WroteFits wrote (length bytes.now) }
    ensures mark { IfOk result (λ mark. write_marks wrote stream bytes.now listens ≡ mark ∷ []) }
    ensures recorded { marks.new.recorded.items ≡ marks.old.recorded.items }
    ensures room { OnOk result (vec_len marks.new.recorded + 1 ≤ vec_capacity marks.new.recorded) }
    ensures memory { OnOk result (wrote ≢ NoMemoryToWrite) }
{
    let mark = match wrote {
        Wrote::Took(count) => Mark::Takes(stream, Text::copy(alloc, &bytes[..count])?, listens),
        Wrote::Later => Mark::Holds(stream),
        Wrote::Failed => Mark::WriteFails(stream),
        Wrote::NoMemory => return Err(OutOfMemory),
    };
    marks.recorded.reserve(1)?;
    Ok(mark)
}

/// The mark of an order that is to make something, which has this number. There is room for it, and
/// it isn't recorded yet.
pub fn mark_of_made(
    alloc: Global,
    marks: &mut Marks,
    order: Order,
    number: Option<u64>,
) -> Result<Mark, OutOfMemory>
    ensures mark { IfOk result (λ mark. mark ≡ TheHouse (HouseOrder order number)) }
    ensures recorded { marks.new.recorded.items ≡ marks.old.recorded.items }
    ensures room { OnOk result (vec_len marks.new.recorded + 1 ≤ vec_capacity marks.new.recorded) }
{
    let kept = KeptMark::keep(alloc, HouseMark::HouseOrder { order, number })?;
    marks.recorded.reserve(1)?;
    Ok(Mark::House(kept))
}
