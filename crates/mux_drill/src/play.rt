//! How a drill is played, turn by turn.
ghost use Rattle.std.specs.Prelude.{◌≡◌, ◌≢◌, ◌≤◌, [], length, IsTrue, IfOk, true, false};
ghost use Rattle.mux_outside.specs.Streams.{among};
ghost use Rattle.mux_outside.specs.Wire.{OwnFits, TurnFits};
ghost use Rattle.mux_outside.specs.declared.turn.Want.TheVariants.{Read};
ghost use Rattle.mux_outside.specs.declared.turn.Turn.TheVariants.{End, NoMemory};
ghost use Rattle.mux_drill.specs.declared.stage.DrillStage.TheVariants.{Ending};
ghost use Rattle.mux_drill.specs.Plan.{IsPlan};
ghost use Rattle.mux_drill.specs.Play.{has_bytes_left, may_happen, is_met, next_step, next_turn, next_piece, next_change, drill_piece_of, play_changed, begun, speaker_of, picks_after, IsNothing, PlayStarts, GivesNextTurn};
ghost use Rattle.mux_drill.specs.declared.play.PlayChange.TheVariants.{Nothing};

use crate::frames::opener_in;
use crate::inboxes::Inboxes;
use crate::outgoing::{DrillOutgoing, first_piece};
use crate::picks::Picks;
use crate::plan::Plan;
use crate::stage::DrillStage;
use crate::step::DrillStep;
use crate::trace::Trace;
use mux_outside::{LAST_CLIENT, Turn, WireLog};
use ssh_fields::OutOfMemory;
use std::alloc::Global;

/// What is played: how far it has come, what is being sent, the bytes that aren't read yet, and the
/// numbers that the master picked.
#[derive(Drop)]
pub struct Play {
    pub alloc: Global,
    pub trace: Trace,
    pub said: DrillOutgoing,
    pub unread: Inboxes,
    pub picks: Picks,
}

/// What a turn leaves.
#[derive(Drop)]
pub enum PlayChange {
    /// All stays.
    Nothing,
    /// A stream gave a piece more.
    GoesOn,
    /// A step was begun.
    Takes(DrillStep),
}

/// A turn, and what it leaves.
#[derive(Drop)]
pub struct GivenTurn {
    pub turn: Turn,
    pub change: PlayChange,
}

// Whether what is outside lets a turn happen.
fn may_happen(turn: Turn, log: &WireLog, unread: &Inboxes) -> bool
    ensures { result ≡ may_happen turn log.now.state.seen unread.now }
{
    match turn {
        Turn::Accepted(client) => {
            log.is_listening()
                && (0 < client && (client - 1 == log.last() && log.last() < LAST_CLIENT))
        }
        Turn::Got(stream) => log.streams().contains(stream),
        Turn::End(0) => log.streams().contains(0) && unread.all_read(),
        Turn::End(stream) => log.streams().contains(stream),
        _ => false,
    }
}

// The stream of a turn.
fn speaker_of(turn: Turn) -> u64
    ensures { result ≡ speaker_of turn }
{
    match turn {
        Turn::Got(stream) => stream,
        Turn::Accepted(client) => client,
        Turn::End(stream) => stream,
        Turn::Writable(stream) => stream,
        Turn::Failed(stream) => stream,
        Turn::Joined(_, stream) => stream,
        Turn::NoMemory => 0,
    }
}

// Whether all that a step needs was written, and its turn may happen.
fn is_met(step: &DrillStep, log: &WireLog, unread: &Inboxes) -> bool
    ensures { result ≡ is_met step.now log.now.state.seen unread.now }
{
    unread.stands_first(0, step.up.as_bytes())
        && (unread.stands_first(step.client, step.down.as_bytes())
            && may_happen(step.turn, log, unread))
}

impl Play {
    /// Nothing is played.
    pub fn nothing(alloc: Global) -> Play
        ensures { IsNothing result }
    {
        Play {
            alloc,
            trace: Trace::unopened(),
            said: DrillOutgoing::nothing(alloc),
            unread: Inboxes::new(alloc),
            picks: Picks::new(),
        }
    }

    /// The start of a plan.
    pub fn start(alloc: Global, plan: Plan) -> Result<Play, OutOfMemory>
        requires { IsPlan plan }
        ensures { IfOk result (PlayStarts plan) }
    {
        let unread = Inboxes::empty(alloc, plan.clients + 1)?;
        Ok(Play {
            alloc,
            trace: Trace::start(plan),
            said: DrillOutgoing::nothing(alloc),
            unread,
            picks: Picks::new(),
        })
    }

    /// The next turn.
    pub fn next(&self, log: &WireLog) -> GivenTurn
        requires { IsTrue (among 0 log.now.state.seen.streams) }
        ensures fits { TurnFits result.turn Read log.now.state.seen
            (drill_piece_of result.change self.now) }
        ensures own_turn { log.now.state.seen.own ≡ [] → OwnFits result.turn log.now.state.seen }
        ensures gives { result.turn ≢ NoMemory → GivesNextTurn self.now log.now.state.seen result }
        ensures starved { result.turn ≡ NoMemory → result.change ≡ Nothing }
        ensures ends { result.turn ≡ End 0 → self.now.trace.stage ≡ Ending }
    {
        if self.said.rest().is_empty() {
            self.begin(log)
        } else {
            self.go_on(log)
        }
    }

    // The next piece of what is being sent.
    fn go_on(&self, log: &WireLog) -> GivenTurn
        requires server { IsTrue (among 0 log.now.state.seen.streams) }
        requires speaks { has_bytes_left self.now.said ≡ true }
        ensures fits { TurnFits result.turn Read log.now.state.seen
            (drill_piece_of result.change self.now) }
        ensures own_turn { log.now.state.seen.own ≡ [] → OwnFits result.turn log.now.state.seen }
        ensures gives { result.turn ≢ NoMemory → GivesNextTurn self.now log.now.state.seen result }
        ensures starved { result.turn ≢ NoMemory }
        ensures ends { result.turn ≢ End 0 }
    {
        if !log.streams().contains(self.said.stream()) {
            return GivenTurn {
                turn: Turn::Failed(0),
                change: PlayChange::Nothing,
            };
        }
        GivenTurn {
            turn: Turn::Got(self.said.stream()),
            change: PlayChange::GoesOn,
        }
    }

    // The next step, where what it needs was written.
    fn begin(&self, log: &WireLog) -> GivenTurn
        requires server { IsTrue (among 0 log.now.state.seen.streams) }
        requires silent { has_bytes_left self.now.said ≡ false }
        ensures fits { TurnFits result.turn Read log.now.state.seen
            (drill_piece_of result.change self.now) }
        ensures own_turn { log.now.state.seen.own ≡ [] → OwnFits result.turn log.now.state.seen }
        ensures gives { result.turn ≢ NoMemory → GivesNextTurn self.now log.now.state.seen result }
        ensures starved { result.turn ≡ NoMemory → result.change ≡ Nothing }
        ensures ends { result.turn ≡ End 0 → self.now.trace.stage ≡ Ending }
    {
        let Ok(step) = self.trace.step(self.alloc, &self.picks, self.unread.at(0)) else {
            return GivenTurn {
                turn: Turn::NoMemory,
                change: PlayChange::Nothing,
            };
        };
        if !is_met(&step, log, &self.unread) {
            return GivenTurn {
                turn: Turn::Failed(0),
                change: PlayChange::Nothing,
            };
        }
        GivenTurn {
            turn: step.turn,
            change: PlayChange::Takes(step),
        }
    }

    /// The bytes that the turn of this change gives, if it gives any.
    pub fn piece<'a>(&'a self, change: &'a PlayChange) -> &'a [u8]
        ensures piece { result.now ≡ drill_piece_of change.now self.now }
        ensures short { length result.now ≤ 37 }
    {
        match change {
            PlayChange::Nothing => &[],
            PlayChange::GoesOn => first_piece(self.said.rest()),
            PlayChange::Takes(step) => first_piece(step.says.as_bytes()),
        }
    }

    /// Keeps what a turn leaves.
    pub fn keep(&mut self, change: PlayChange)
        ensures { self.new ≡ play_changed change self.old }
    {
        match change {
            PlayChange::Nothing => {}
            PlayChange::GoesOn => self.said.go_on(),
            PlayChange::Takes(step) => self.take(step),
        }
    }

    // A step was begun.
    fn take(&mut self, step: DrillStep)
        ensures { self.new ≡ begun step self.old }
    {
        let number = opener_in(self.unread.at(0));
        keep_pick(&mut self.picks, self.trace.stage(), number);
        self.unread.read(0, step.up.as_bytes().len());
        self.unread.read(step.client, step.down.as_bytes().len());
        self.trace.advance();
        self.said = DrillOutgoing::new(speaker_of(step.turn), step.says);
        self.said.go_on();
    }
}

// The numbers that the master picked, after one more where an open was read.
fn keep_pick(picks: &mut Picks, stage: DrillStage, number: u32)
    ensures { picks.new ≡ picks_after stage number picks.old }
{
    if let DrillStage::Confirming(client) = stage {
        picks.set(client, number);
    }
}
