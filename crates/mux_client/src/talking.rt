ghost use Rattle.std.specs.Prelude.{◌≡◌, ◌≢◌, ◌++◌, ◌<◌, [], ℕ, List, length, true, false, IfOk, IfErr, OnOk};
ghost use Rattle.std.specs.declared.option.Option.{Option};
ghost use Rattle.mux_outside.specs.declared.mark.Mark.{Mark as TheMark};
ghost use Rattle.mux_client.specs.Client.{IsTalkSettled};
ghost use Rattle.mux_client.specs.Counted.{AnsweredBy, CameTo, CountsOfTalk, SinkFaults, StepFaults, StepSinkFaults, TalkStops, WireFaults};
ghost use Rattle.mux_client.specs.Requests.{MayAsk};
ghost use Rattle.mux_client.specs.Talking.{BreaksOff, HasTalked, TransportIsAlone, IsBetween, IsCutLine, IsTalkDecided, IsGoing, IsTransportJoined, IsOfSink, IsOfTransport, IsTalkOffered, IsTalk, SameWire, ShowsLast, ShowsOn, Talking, TalksOn, TalkTookOrOffered, WholeTalk, talked_of};
ghost use Rattle.mux_client.specs.Verdicts.{text_of_line};
ghost use Rattle.mux_client.specs.declared.asks.Asks.{Asks as TheAsks};
ghost use Rattle.mux_client.specs.declared.talked.Talked.TheVariants.{Spent as SpentTurns};

use crate::asks::Asks;
use crate::client::Client;
use crate::stage::TalkStage;
use crate::talked::Talked;
use crate::verdict::{OutLine, text_of};
use mux_outside::{FileError, Piece, Sink, Streams, Turn, Want, Wire, Wrote};
use std::alloc::Global;

// In what follows an `Err` is how the talk is over.

// Offers the master what is to be sent, once: whether it accepted some and can be offered the rest.
fn offer_once<W: Wire>(
    client: &mut Client,
    wire: &mut W,
    held: &mut Streams,
) -> Result<bool, Talked>
    requires alone { TransportIsAlone (W.state wire.old).seen }
    requires between { IsBetween client.old held.old (W.state wire.old).seen }
    requires free { held.old ≡ [] }
    ensures talking { (asks : TheAsks) (start : Option (List TheMark)) (shown : List ℕ)
        → Talking asks start (W.state wire.old).seen.recorded held.old shown client.old
        → TalksOn result
        (λ more. Talking asks start (W.state wire.new).seen.recorded held.new shown client.new)
        (λ answer. IsTalk asks answer start (W.state wire.new).seen.recorded shown shown) }
    ensures between { OnOk result (IsBetween client.new held.new (W.state wire.new).seen) }
    ensures offered { IfOk result (λ more. TalkTookOrOffered more held.new client.old client.new) }
    ensures own { IfErr result IsOfTransport }
    ensures stage { OnOk result (client.new.stage ≡ client.old.stage) }
    ensures calls { CountsOfTalk 0 result (W.state wire.old).calls (W.state wire.new).calls }
    ensures cause { StepFaults result (W.faults wire.old) (W.faults wire.new) }
    ensures wire { SameWire (W.state wire.old) (W.state wire.new) }
{
    let bytes = client.front();
    if bytes.is_empty() {
        return Ok(false);
    }
    match wire.write(0, bytes) {
        Wrote::Took(n) => {
            client.took(n);
            Ok(true)
        }
        Wrote::Later => {
            held.push(0)?;
            Ok(false)
        }
        Wrote::Failed => Err(Talked::ServerFailed),
        Wrote::NoMemory => Err(Talked::OutOfMemory),
    }
}

// Offers the master what is to be sent, until all is accepted, or it accepts no more for now, or
// its stream fails.
fn offer<W: Wire>(client: &mut Client, wire: &mut W, held: &mut Streams) -> Result<(), Talked>
    requires alone { TransportIsAlone (W.state wire.old).seen }
    requires between { IsBetween client.old held.old (W.state wire.old).seen }
    ensures talking { (asks : TheAsks) (start : Option (List TheMark)) (shown : List ℕ)
        → Talking asks start (W.state wire.old).seen.recorded held.old shown client.old
        → TalksOn result
        (λ done. Talking asks start (W.state wire.new).seen.recorded held.new shown client.new)
        (λ answer. IsTalk asks answer start (W.state wire.new).seen.recorded shown shown) }
    ensures between { OnOk result (IsBetween client.new held.new (W.state wire.new).seen) }
    ensures offered { OnOk result (IsTalkOffered held.new client.new) }
    ensures own { IfErr result IsOfTransport }
    ensures stage { OnOk result (client.new.stage ≡ client.old.stage) }
    ensures calls { CountsOfTalk 0 result (W.state wire.old).calls (W.state wire.new).calls }
    ensures cause { StepFaults result (W.faults wire.old) (W.faults wire.new) }
    ensures wire { SameWire (W.state wire.old) (W.state wire.new) }
{
    if held.len() > 0 {
        return Ok(());
    }
    while offer_once(client, wire, held)? {}
    Ok(())
}

// How the talk is over, if it is: each request was granted and all was sent, or one was refused, or
// the master broke the protocol.
fn decided(client: &Client) -> Result<(), Talked>
    ensures { IsTalkDecided client.now result }
{
    match client.stage() {
        TalkStage::Granted if client.front().is_empty() => Err(Talked::Done),
        TalkStage::Refused { id } => Err(Talked::Refused { id }),
        TalkStage::Broken { at } => Err(Talked::BadMaster { at }),
        _ => Ok(()),
    }
}

// How the talk is over, if it is, where the master's bytes end: before the last reply they break
// the protocol.
fn broken_off(client: &Client) -> Result<(), Talked>
    ensures { BreaksOff client.now result }
{
    match client.stage() {
        TalkStage::Greets => Err(Talked::BadMaster { at: 0 }),
        TalkStage::Asks { at, .. } => Err(Talked::BadMaster { at }),
        _ => Ok(()),
    }
}

// Shows a line, if it has some bytes.
fn show<S: Sink>(alloc: Global, line: OutLine, out: &mut S) -> Result<(), Talked>
    ensures shows { TalksOn result
        (λ done. ShowsOn (S.recorded out.old) (S.recorded out.new) out.old out.new
        (λ more. more ≡ text_of_line line))
        (λ answer. ShowsLast (S.recorded out.old) (S.recorded out.new) out.old out.new
        (IsCutLine answer (text_of_line line))) }
    ensures own { IfErr result IsOfSink }
    ensures cause { StepSinkFaults result (S.faults out.old) (S.faults out.new) }
{
    if line == OutLine::Nothing {
        return Ok(());
    }
    let text = text_of(alloc, line)?;
    match out.put(text.as_bytes()) {
        Ok(()) => Ok(()),
        Err(FileError::Failed) => Err(Talked::WriteFault),
        Err(FileError::OutOfMemory) => Err(Talked::OutOfMemory),
    }
}

// Reads the next frame, and shows what it shows: whether there was one.
fn read_once<S: Sink>(
    alloc: Global,
    client: &mut Client,
    asks: &Asks,
    out: &mut S,
) -> Result<bool, Talked>
    requires { MayAsk asks.now }
    ensures talking { (start recorded : Option (List TheMark)) (held shown : List ℕ)
        → Talking asks.now start recorded held shown client.old
        → TalksOn result
        (λ some. ShowsOn (S.recorded out.old) (S.recorded out.new) out.old out.new
        (λ more. Talking asks.now start recorded held (shown ++ more) client.new))
        (λ answer. ShowsLast (S.recorded out.old) (S.recorded out.new) out.old out.new
        (λ more due. IsTalk asks.now answer start recorded (shown ++ more) (shown ++ due))) }
    ensures settled { IfOk result (λ some. some ≡ false → IsTalkSettled client.new) }
    ensures less { IfOk result (λ some. some ≡ true
        → length client.new.framer.rest < length client.old.framer.rest) }
    ensures own { IfErr result IsOfSink }
    ensures cause { StepSinkFaults result (S.faults out.old) (S.faults out.new) }
{
    match client.next(asks)? {
        None => Ok(false),
        Some(line) => {
            show(alloc, line, out)?;
            Ok(true)
        }
    }
}

// Reads all frames that are there, and shows what they show.
fn read<S: Sink>(alloc: Global, client: &mut Client, asks: &Asks, out: &mut S) -> Result<(), Talked>
    requires { MayAsk asks.now }
    ensures talking { (start recorded : Option (List TheMark)) (held shown : List ℕ)
        → Talking asks.now start recorded held shown client.old
        → TalksOn result
        (λ done. ShowsOn (S.recorded out.old) (S.recorded out.new) out.old out.new
        (λ more. Talking asks.now start recorded held (shown ++ more) client.new))
        (λ answer. ShowsLast (S.recorded out.old) (S.recorded out.new) out.old out.new
        (λ more due. IsTalk asks.now answer start recorded (shown ++ more) (shown ++ due))) }
    ensures settled { OnOk result (IsTalkSettled client.new) }
    ensures own { IfErr result IsOfSink }
    ensures cause { StepSinkFaults result (S.faults out.old) (S.faults out.new) }
{
    while read_once(alloc, client, asks, out)? {}
    Ok(())
}

// One turn.
fn turn<W: Wire, S: Sink>(
    alloc: Global,
    client: &mut Client,
    wire: &mut W,
    out: &mut S,
    asks: &Asks,
    held: &mut Streams,
    piece: &mut Piece,
) -> Result<(), Talked>
    requires may { MayAsk asks.now }
    requires alone { TransportIsAlone (W.state wire.old).seen }
    requires between { IsBetween client.old held.old (W.state wire.old).seen }
    requires offered { IsTalkOffered held.old client.old }
    requires going { IsGoing client.old.stage client.old.queue }
    ensures talking { (start : Option (List TheMark)) (shown : List ℕ)
        → Talking asks.now start (W.state wire.old).seen.recorded held.old shown client.old
        → TalksOn result
        (λ done. ShowsOn (S.recorded out.old) (S.recorded out.new) out.old out.new (λ more.
        Talking asks.now start (W.state wire.new).seen.recorded held.new (shown ++ more) client.new))
        (λ answer. ShowsLast (S.recorded out.old) (S.recorded out.new) out.old out.new (λ more due.
        IsTalk asks.now answer start (W.state wire.new).seen.recorded (shown ++ more)
        (shown ++ due))) }
    ensures between { OnOk result (IsBetween client.new held.new (W.state wire.new).seen) }
    ensures unspent { IfErr result (λ answer. answer ≢ SpentTurns) }
    ensures calls { CountsOfTalk 1 result (W.state wire.old).calls (W.state wire.new).calls }
    ensures came { CameTo result client.old.stage client.new.stage (W.state wire.old).calls
        (W.state wire.new).calls }
    ensures cause { StepFaults result (W.faults wire.old) (W.faults wire.new) }
    ensures sink { StepSinkFaults result (S.faults out.old) (S.faults out.new) }
    ensures wire { SameWire (W.state wire.old) (W.state wire.new) }
{
    match wire.wait(held, Want::Read, piece) {
        Turn::Got(_) => {
            client.receives(piece.as_bytes())?;
            read(alloc, client, asks, out)
        }
        Turn::End(_) => broken_off(client),
        Turn::Writable(stream) => {
            held.remove(stream);
            Ok(())
        }
        Turn::Failed(_) => Err(Talked::ServerFailed),
        Turn::Accepted(_) | Turn::Joined(_, _) => Ok(()),
        Turn::NoMemory => Err(Talked::OutOfMemory),
    }
}

// Talks for so many turns at most.
fn converse<W: Wire, S: Sink>(
    alloc: Global,
    wire: &mut W,
    out: &mut S,
    asks: &Asks,
    turns: u64,
) -> Result<(), Talked>
    requires may { MayAsk asks.now }
    requires joined { IsTransportJoined (W.state wire.old).seen }
    ensures talks { WholeTalk asks.now (talked_of result) (W.state wire.old).seen.recorded
        (W.state wire.new).seen.recorded (S.recorded out.old) (S.recorded out.new) out.old out.new }
    ensures calls { TalkStops turns (talked_of result) (W.state wire.old).calls
        (W.state wire.new).calls }
    ensures answered { AnsweredBy (talked_of result) (W.state wire.old).calls
        (W.state wire.new).calls }
    ensures cause { WireFaults (talked_of result) (W.faults wire.old) (W.faults wire.new) }
    ensures sink { SinkFaults (talked_of result) (S.faults out.old) (S.faults out.new) }
    ensures wire { SameWire (W.state wire.old) (W.state wire.new) }
{
    let mut client = Client::new(alloc)?;
    let mut piece = Piece::new(alloc)?;
    let mut held = Streams::new(alloc);
    for _ in 0..turns {
        offer(&mut client, wire, &mut held)?;
        decided(&client)?;
        turn(alloc, &mut client, wire, out, asks, &mut held, &mut piece)?;
    }
    offer(&mut client, wire, &mut held)?;
    decided(&client)
}

/// Asks a master over stream 0, and shows what it answers, for so many turns at most: how it ended.
/// What the wire records of it is the talk by the master's bytes: what stream 0 accepted is a front
/// of what is sent, and at each wait all of it, or the stream is blocked.
pub fn talk<W: Wire, S: Sink>(
    alloc: Global,
    wire: &mut W,
    out: &mut S,
    asks: &Asks,
    turns: u64,
) -> Talked
    requires asks { MayAsk asks.now }
    requires joined { IsTransportJoined (W.state wire.old).seen }
    ensures talked { HasTalked asks.now result (W.state wire.old).seen.recorded
        (W.state wire.new).seen.recorded (S.recorded out.old) (S.recorded out.new) out.old out.new }
    ensures calls { TalkStops turns result (W.state wire.old).calls (W.state wire.new).calls }
    ensures answered { AnsweredBy result (W.state wire.old).calls (W.state wire.new).calls }
    ensures cause { WireFaults result (W.faults wire.old) (W.faults wire.new) }
    ensures sink { SinkFaults result (S.faults out.old) (S.faults out.new) }
    ensures wire { SameWire (W.state wire.old) (W.state wire.new) }
    ensures idle { turns ≡ 0 → (wire.new ≡ wire.old) × (out.new ≡ out.old) }
{
    // Without a turn nothing is written, so nothing can fail.
    if turns == 0 {
        return Talked::Spent;
    }
    match converse(alloc, wire, out, asks, turns) {
        Ok(()) => Talked::Spent,
        Err(talked) => talked,
    }
}
