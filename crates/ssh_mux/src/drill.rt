ghost use Rattle.std.specs.Bool.{OnFalse};
ghost use Rattle.std.specs.Prelude.{◌≡◌, ◌++◌, ◌∷◌, [], None, false, IfOk, OnOk};
ghost use Rattle.mux_history.specs.Policy.{any_policy};
ghost use Rattle.ssh_mux.specs.Answers.{may_write, so_far};
ghost use Rattle.ssh_mux.specs.Causes.{OutCause};
ghost use Rattle.mux_outside.specs.NoHouse.{no_house};
ghost use Rattle.ssh_mux.specs.Drill.{AnyCalls, DrillGoes, NoneRests, RefusesAll, count_line};
ghost use Rattle.ssh_mux.specs.Drill.{drill_text, drill_transport};
ghost use Rattle.ssh_mux.specs.Master.{EndsMaster};
ghost use Rattle.ssh_mux.specs.Out.{HandsOver};
ghost use Rattle.ssh_mux.specs.Puts.{PutsOnce};
ghost use Rattle.ssh_mux.specs.Sharing.{CountsFor, OpensAt, Shares, StartCause};

use crate::ending::Ending;
use crate::listing::hand_over;
use crate::master::{open_and_serve, policy_of};
use crate::status::Status;
use conf_rules::Permissions;
use conf_tokens::put_number;
use mux_outside::{NoHouse, Sink, Tally, Wire};
use ssh_fields::{OutOfMemory, Text, Texts};
use std::alloc::Global;

/// Drills as the words ask: `--drill`. The wire is opened with no control path and with their seed
/// and numbers for a transport, and is served as for a master that permits anything. Once it has
/// ended well, what it counted goes to `out` in one `put`.
pub fn drill<W: Wire, S: Sink>(
    alloc: Global,
    words: &Texts,
    wire: &mut W,
    out: &mut S,
    turns: u64,
) -> Result<Status, Ending>
    ensures goes { DrillGoes words.now turns result (W.state wire.old) (W.state wire.new)
        (S.recorded out.old) (S.recorded out.new) }
    ensures wire { CountsFor false turns (so_far result) (W.state wire.old) (W.state wire.new)
        (W.faults wire.old) (W.faults wire.new) }
    ensures unwritten { OnFalse (may_write (so_far result)) (out.new ≡ out.old) }
    ensures out_cause { OutCause (so_far result) (S.faults out.old) (S.faults out.new) }
    ensures once { PutsOnce (so_far result) (S.puts out.old) (S.puts out.new) }
{
    serve_drill(alloc, words, wire, turns)?;
    let tally = wire.tally();
    sum_up(alloc, &tally, out)
}

// Opens the wire for a drill, and serves it.
fn serve_drill<W: Wire>(
    alloc: Global,
    words: &Texts,
    wire: &mut W,
    turns: u64,
) -> Result<Status, Ending>
    ensures ends { EndsMaster result }
    ensures opened { OpensAt [] (drill_transport words.now) (so_far result)
        (W.state wire.old).openings (W.state wire.new).openings }
    ensures served { Shares RefusesAll NoneRests AnyCalls no_house any_policy 0 turns None None
        (W.state wire.old).seen.recorded (W.state wire.new).seen None result }
    ensures start { StartCause (so_far result) None }
    ensures wire { CountsFor false turns (so_far result) (W.state wire.old) (W.state wire.new)
        (W.faults wire.old) (W.faults wire.new) }
{
    let transport = transport_of(alloc, words.as_slice())?;
    let opens = Texts::new(alloc);
    let listens = Texts::new(alloc);
    let here = Texts::new(alloc);
    let permits = Permissions {
        opens,
        listens,
        sessions: true,
        here,
    };
    let policy = policy_of(alloc, &permits)?;
    let control = Text::new(alloc);
    let mut house = NoHouse;
    open_and_serve(
        alloc, &control, &transport, policy, 0, wire, &mut house, turns,
    )
}

// The transport of a drill: its seed and its numbers as they were given, with spaces between them.
fn transport_of(alloc: Global, words: &[Text]) -> Result<Text, OutOfMemory>
    ensures { IfOk result (λ transport. transport ≡ drill_transport words.now) }
{
    let [_, seed, clients, messages, ..] = words else {
        return Ok(Text::new(alloc));
    };
    spaced(
        alloc,
        seed.as_bytes(),
        clients.as_bytes(),
        messages.as_bytes(),
    )
}

// Three words with spaces between them.
fn spaced(alloc: Global, a: &[u8], b: &[u8], c: &[u8]) -> Result<Text, OutOfMemory>
    ensures { IfOk result (λ text. text ≡ a.now ++ (32 ∷ b.now ++ (32 ∷ c.now))) }
{
    let mut text = Text::copy(alloc, a)?;
    text.push(b' ')?;
    text.add(b)?;
    text.push(b' ')?;
    text.add(c)?;
    Ok(text)
}

// Hands over what a wire has counted.
fn sum_up<S: Sink>(alloc: Global, tally: &Tally, out: &mut S) -> Result<Status, Ending>
    ensures handed { HandsOver result (drill_text tally.now) (S.recorded out.old) (S.recorded out.new) }
    ensures cause { OutCause (so_far result) (S.faults out.old) (S.faults out.new) }
    ensures once { PutsOnce (so_far result) (S.puts out.old) (S.puts out.new) }
{
    let text = text_of(alloc, tally)?;
    hand_over(out, text.as_bytes())
}

// The summary of a drill.
#[tactic(auto, unfolding(crate::specs::Drill::drill_text))]
fn text_of(alloc: Global, tally: &Tally) -> Result<Text, OutOfMemory>
    ensures { IfOk result (λ text. text ≡ drill_text tally.now) }
{
    let mut text = Text::new(alloc);
    put_count(alloc, &mut text, b"clients ", tally.clients)?;
    put_count(alloc, &mut text, b"messages ", tally.messages)?;
    put_count(alloc, &mut text, b"data-up ", tally.data_up)?;
    put_count(alloc, &mut text, b"data-down ", tally.data_down)?;
    put_count(alloc, &mut text, b"closed ", tally.closed)?;
    Ok(text)
}

// A line of the summary: what is counted, and its number.
#[tactic(auto, unfolding(crate::specs::Drill::count_line))]
fn put_count(alloc: Global, out: &mut Text, name: &[u8], count: u64) -> Result<(), OutOfMemory>
    ensures { OnOk result (out.new ≡ out.old ++ count_line name.now count) }
{
    out.add(name)?;
    put_number(alloc, out, count)?;
    out.push(b'\n')
}
