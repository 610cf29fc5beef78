//! The marks of a wire in memory.
ghost use Rattle.std.specs.Prelude.{◌≡◌, [], IfOk};
ghost use Rattle.mux_outside.specs.Seen.{shown_of};
ghost use Rattle.mux_outside.specs.declared.mark.Mark.TheVariants.{Waits};

use crate::kept_shown::KeptShown;
use crate::kept_streams::KeptStreams;
use crate::mark::Mark;
use crate::shown::Shown;
use crate::streams::Streams;
use crate::turn::Want;
use crate::wire_state::WireState;
use ssh_fields::OutOfMemory;
use std::alloc::Global;

/// The marks so far, and the waiting streams of the last call of `wait` and what the wire showed
/// then, which the next one shares where they are the same.
#[derive(Drop)]
pub struct Marks {
    pub recorded: Vec<Mark>,
    waiting: Option<KeptStreams>,
    shown: Option<KeptShown>,
}

impl Marks {
    /// No mark.
    pub fn new(alloc: Global) -> Marks
        ensures { result.recorded.items ≡ [] }
    {
        Marks {
            recorded: Vec::new(alloc),
            waiting: None,
            shown: None,
        }
    }

    /// The mark of a call of `wait`, by the streams that are open then and what the wire shows. It
    /// isn't recorded yet.
    pub fn wait_mark(
        &mut self,
        alloc: Global,
        waiting: &Streams,
        want: Want,
        streams: KeptStreams,
        state: &WireState,
    ) -> Result<Mark, OutOfMemory>
        ensures mark { IfOk result (λ mark.
            mark ≡ Waits waiting.now want streams (shown_of state.now.seen)) }
        ensures recorded { self.new.recorded ≡ self.old.recorded }
    {
        let waiting = keep(alloc, &mut self.waiting, waiting.as_slice())?;
        let shown = keep_shown(alloc, &mut self.shown, state)?;
        Ok(Mark::Waits(waiting, want, streams, shown))
    }
}

// Keeps these streams, and shares the last ones where they are the same.
fn keep(
    alloc: Global,
    last: &mut Option<KeptStreams>,
    numbers: &[u64],
) -> Result<KeptStreams, OutOfMemory>
    ensures { IfOk result (λ kept. kept ≡ numbers.now) }
{
    if let Some(kept) = last {
        if kept.as_slice() == numbers {
            return kept.share();
        }
    }
    let kept = KeptStreams::copy(alloc, numbers)?;
    *last = Some(kept.share()?);
    Ok(kept)
}

// Keeps what a wire shows now, and shares what it showed last where that is the same.
fn keep_shown(
    alloc: Global,
    last: &mut Option<KeptShown>,
    state: &WireState,
) -> Result<KeptShown, OutOfMemory>
    ensures { IfOk result (λ kept. kept ≡ shown_of state.now.seen) }
{
    if let Some(kept) = last {
        if kept.as_shown().is_of(state) {
            return kept.share();
        }
    }
    let kept = KeptShown::keep(alloc, Shown::copy(alloc, state)?)?;
    *last = Some(kept.share()?);
    Ok(kept)
}
