ghost use Rattle.std.specs.Prelude.{◌≡◌, ◌⊎◌, ℕ, [], ◌∷◌, ◌++◌, true, false, Some, None, IfOk, OnOk, OnErr, option_map};
ghost use Rattle.mux_outside.specs.declared.house.HouseReply.{HouseReply as TheReply};
ghost use Rattle.ssh_grammar.specs.Frames.{frame_answer};
ghost use Rattle.mux_history.specs.Controls.{type_of as kind_of, house_answer};
ghost use Rattle.mux_messages.specs.Control.{control_of, Skipped};
ghost use Rattle.mux_outside.specs.House.{start_ask_of};
ghost use Rattle.mux_outside.specs.declared.house_mark.HouseMark.TheVariants.{HouseAsked};
ghost use Rattle.mux_peers.specs.declared.decision.Effect.TheVariants.{Goes};
ghost use Rattle.mux_peers.specs.Asked.{Applies};
ghost use Rattle.mux_peers.specs.Decisions.{Decides, DecidesBy};
ghost use Rattle.mux_peers.specs.Starved.{AsksAtMost, AsksThis};

use crate::ask_log::AskLog;
use mux_history::{Ended, Why};
use mux_messages::{Control, alive, failure, ok, proxy, read_control, remote_port};
use mux_outside::{Asks, FwdAsk, HouseMark, HouseReply};
use ssh_fields::{OutOfMemory, Small};
use ssh_grammar::BadControl;
use ssh_grammar::numbers::*;

/// Why a request that hands descriptors over fails.
const NO_DESCRIPTORS: &[u8] = b"descriptors are not supported";

/// Why the forwarder refuses.
const NO_FORWARDINGS: &[u8] = b"forwardings are not served";

/// Why another type fails.
const UNSUPPORTED: &[u8] = b"unsupported request";

/// What becomes of a client and of the run after a control message.
#[derive(Clone, Copy, PartialEq, Eq)]
pub enum Effect {
    /// The client goes on.
    Goes,
    /// The client is in proxy mode from now on.
    Switches,
    /// Nothing that the client sends is read any more.
    Unreads,
    /// No client is accepted any more.
    Stops,
    /// The run ends.
    Ends(Ended),
    /// The client is dropped.
    Drops(Why),
}

/// What becomes of a control message: the frame that answers it, if one does, and its effect.
#[derive(Drop)]
pub struct Decision {
    pub recorded: Option<Small>,
    pub effect: Effect,
}

impl Decision {
    fn records(frame: Small, effect: Effect) -> Decision
        ensures { result ≡ record { recorded = Some frame; effect = effect } }
    {
        Decision {
            recorded: Some(frame),
            effect,
        }
    }

    fn answers(recorded: Option<Small>) -> Decision
        ensures { result ≡ record { recorded = recorded; effect = Goes } }
    {
        Decision {
            recorded,
            effect: Effect::Goes,
        }
    }

    fn silent(effect: Effect) -> Decision
        ensures { result ≡ record { recorded = None; effect = effect } }
    {
        Decision {
            recorded: None,
            effect,
        }
    }
}

// The type of a control message.
fn type_of(control: &Control<'_>) -> u32
    ensures { (skipped : Skipped) → result ≡ kind_of (control_of skipped control.now) }
{
    match control {
        Control::Hello { .. } => HELLO,
        Control::NewSession { .. } => NEW_SESSION,
        Control::Alive { .. } => ALIVE_CHECK,
        Control::Terminate { .. } => TERMINATE,
        Control::OpenForward { .. } => OPEN_FWD,
        Control::CloseForward { .. } => CLOSE_FWD,
        Control::StdioForward { .. } => NEW_STDIO_FWD,
        Control::StopListening { .. } => STOP_LISTENING,
        Control::Proxy { .. } => PROXY,
    }
}

// What becomes of the first control message: all but a HELLO with version 4 drops the client.
fn decide_first(body: &[u8]) -> Decision
    ensures { (pid k : ℕ) → Decides pid k false body.now None result }
{
    Decision::silent(match read_control(body) {
        Ok(Control::Hello { version: VERSION }) => Effect::Goes,
        Ok(Control::Hello { version: have }) => Effect::Drops(Why::Version { have }),
        Ok(control) => Effect::Drops(Why::NoHello {
            kind: type_of(&control),
        }),
        Err(BadControl::Unknown { kind, .. }) => Effect::Drops(Why::NoHello { kind }),
        Err(fault) => Effect::Drops(Why::BadControl(fault)),
    })
}

/// The answer of the forwarder to a request, which may be deferred; a port is no answer to a close.
pub fn answer_of(opening: bool, id: u32, reply: HouseReply) -> Option<Small>
    ensures { result ≡ option_map frame_answer (house_answer opening id reply) }
{
    match reply {
        HouseReply::Done => Some(ok(id)),
        HouseReply::Port(port) if opening => Some(remote_port(id, port)),
        HouseReply::Port(_) | HouseReply::Refused => Some(failure(id, NO_FORWARDINGS)),
        HouseReply::Later => None,
    }
}

// The outcome of a request: it is made of the forwarder, and that is noted.
fn ask<H: Asks>(
    house: &mut H,
    asks: &mut AskLog,
    client: u64,
    opening: bool,
    id: u32,
    what: &FwdAsk<'_>,
) -> Result<Decision, OutOfMemory>
    requires ordering { (H.state house.old).known.ordering ≡ None }
    ensures asked { IfOk result (λ decision. (given : TheReply) × (H.may given
        × ((decision ≡ record { recorded = option_map frame_answer (house_answer opening id given); effect = Goes })
        × (asks.new ≡ asks.old ++ HouseAsked client id opening (start_ask_of what.now) given ∷ [])))) }
    ensures cut { OnErr result (((H.state house.new).recorded ≡ (H.state house.old).recorded)
        ⊎ AsksThis H.may (H.state house.old).recorded (H.state house.new).recorded
        (λ given. HouseAsked client id opening (start_ask_of what.now) given ∷ [])) }
    ensures applies { Applies result asks.old asks.new (H.state house.old) (H.state house.new) }
{
    let ask = asks.copied(what)?;
    let reply = house.ask(client, id, opening, what)?;
    asks.push(HouseMark::HouseAsked {
        client,
        id,
        opening,
        ask,
        reply,
    })?;
    Ok(Decision::answers(answer_of(opening, id, reply)))
}

// What becomes of a control message after the HELLO.
#[tactic(auto, using(crate::proofs::Heeding::applies_none))]
fn decide_later<H: Asks>(
    client: u64,
    pid: u32,
    body: &[u8],
    house: &mut H,
    asks: &mut AskLog,
) -> Result<Decision, OutOfMemory>
    requires ordering { (H.state house.old).known.ordering ≡ None }
    ensures decides { IfOk result (λ decision. DecidesBy H.may (Some asks.old) (Some asks.new) pid
        client true body.now decision) }
    ensures cut { OnErr result (AsksAtMost H.may (H.state house.old).recorded (H.state house.new).recorded
        client true body.now) }
    ensures applies { Applies result asks.old asks.new (H.state house.old) (H.state house.new) }
{
    match read_control(body) {
        Ok(Control::Hello { .. }) => Ok(Decision::silent(Effect::Drops(Why::SecondHello))),
        Ok(Control::NewSession { id } | Control::StdioForward { id }) => {
            Ok(Decision::records(failure(id, NO_DESCRIPTORS), Effect::Unreads))
        }
        Ok(Control::Alive { id }) => Ok(Decision::records(alive(id, pid), Effect::Goes)),
        Ok(Control::Terminate { id }) => {
            Ok(Decision::records(ok(id), Effect::Ends(Ended::Terminated { client, id })))
        }
        Ok(Control::OpenForward { id, what }) => ask(house, asks, client, true, id, &what),
        Ok(Control::CloseForward { id, what }) => ask(house, asks, client, false, id, &what),
        Ok(Control::StopListening { id }) => Ok(Decision::records(ok(id), Effect::Stops)),
        Ok(Control::Proxy { id }) => Ok(Decision::records(proxy(id), Effect::Switches)),
        Err(BadControl::Unknown { id: Some(id), .. }) => {
            Ok(Decision::records(failure(id, UNSUPPORTED), Effect::Goes))
        }
        Err(fault) => Ok(Decision::silent(Effect::Drops(Why::BadControl(fault)))),
    }
}

/// The outcome of a control message, the first one or one after the HELLO. What it requests of the
/// forwarder is noted.
#[tactic(auto, using(crate::proofs::Decided::decides_first, crate::proofs::Heeding::applies_none))]
pub fn decide<H: Asks>(
    client: u64,
    pid: u32,
    greeted: bool,
    body: &[u8],
    house: &mut H,
    asks: &mut AskLog,
) -> Result<Decision, OutOfMemory>
    requires ordering { (H.state house.old).known.ordering ≡ None }
    ensures decides { IfOk result (λ decision. DecidesBy H.may (Some asks.old) (Some asks.new) pid
        client greeted body.now decision) }
    ensures cut { OnErr result (AsksAtMost H.may (H.state house.old).recorded (H.state house.new).recorded
        client greeted body.now) }
    ensures applies { Applies result asks.old asks.new (H.state house.old) (H.state house.new) }
{
    if greeted {
        return decide_later(client, pid, body, house, asks);
    }
    Ok(decide_first(body))
}
