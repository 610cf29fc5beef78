//! The steps of a drill.
ghost use Rattle.std.specs.Prelude.{◌≡◌, ◌≤◌, ◌-◌, ◌==◌, if◌then◌else◌, [], IfOk, slice_index};
ghost use Rattle.mux_drill.specs.Frames.{greeting, welcome, close_frame};
ghost use Rattle.mux_drill.specs.Generator.{IsDrillMessage};
ghost use Rattle.mux_drill.specs.Steps.{turn_alone, settled_up, settled_down, welcome_before, confirming, message_step, echoing, adjusting, close_step};
ghost use Rattle.mux_outside.specs.declared.turn.Turn.TheVariants.{Got, End};

use crate::frames::{
    add_adjust, add_close, add_confirmation, add_data, add_greeting, add_open, add_welcome,
};
use crate::generator::DrillMessage;
use mux_outside::Turn;
use ssh_fields::{OutOfMemory, Text};
use std::alloc::Global;

/// A step: what has to be written before it to the server and to a client, and the turn that it
/// gives, with all bytes that it sends.
#[derive(Drop)]
pub struct DrillStep {
    pub up: Text,
    pub client: u64,
    pub down: Text,
    pub turn: Turn,
    pub says: Text,
}

impl DrillStep {
    /// A turn, before which nothing is needed and which sends nothing.
    pub fn bare(alloc: Global, turn: Turn) -> DrillStep
        ensures { result ≡ turn_alone turn }
    {
        DrillStep {
            up: Text::new(alloc),
            client: 0,
            down: Text::new(alloc),
            turn,
            says: Text::new(alloc),
        }
    }

    /// A client sends HELLO, PROXY and its open.
    pub fn entering(alloc: Global, client: u64) -> Result<DrillStep, OutOfMemory>
        ensures { IfOk result (λ step. step ≡ record (turn_alone (Got client)) { says = greeting }) }
    {
        let mut step = DrillStep::bare(alloc, Turn::Got(client));
        add_greeting(&mut step.says)?;
        Ok(step)
    }

    /// The server confirms the open of a client, to the number in it.
    pub fn confirming(alloc: Global, client: u64, number: u32) -> Result<DrillStep, OutOfMemory>
        requires some { 1 ≤ client }
        requires few { client ≤ 64 }
        ensures { IfOk result (λ step. step ≡ confirming client number) }
    {
        let down = welcome_before(alloc, client)?;
        let mut step = DrillStep::bare(alloc, Turn::Got(0));
        step.client = client - 1;
        step.down = down;
        add_open(&mut step.up, number)?;
        add_confirmation(&mut step.says, number, client as u32 - 1)?;
        Ok(step)
    }

    /// Message i is sent.
    pub fn sending(
        alloc: Global,
        clients: u64,
        i: u64,
        before: DrillMessage,
        message: DrillMessage,
    ) -> Result<DrillStep, OutOfMemory>
        requires some { 1 ≤ clients }
        requires few { clients ≤ 64 }
        requires earlier { IsDrillMessage before }
        requires sound { IsDrillMessage message }
        ensures { IfOk result (λ step. step ≡ message_step clients i before message) }
    {
        let up = settled_up(alloc, before, i)?;
        let down = settled_down(alloc, clients, i)?;
        let mut step = DrillStep::bare(alloc, Turn::Got(message.client));
        step.up = up;
        step.client = clients;
        step.down = down;
        let number = message.client as u32 - 1;
        add_data(alloc, &mut step.says, number, message.len, message.byte)?;
        Ok(step)
    }

    /// The server answers it, to the number of its client.
    pub fn echoing(
        alloc: Global,
        number: u32,
        message: DrillMessage,
    ) -> Result<DrillStep, OutOfMemory>
        requires { IsDrillMessage message }
        ensures { IfOk result (λ step. step ≡ echoing number message) }
    {
        let mut step = DrillStep::bare(alloc, Turn::Got(0));
        let heard = message.client as u32 - 1;
        add_data(alloc, &mut step.up, heard, message.len, message.byte)?;
        add_adjust(&mut step.says, number, message.len)?;
        add_data(alloc, &mut step.says, number, message.len, message.byte)?;
        Ok(step)
    }

    /// Its client answers that.
    pub fn adjusting(alloc: Global, message: DrillMessage) -> Result<DrillStep, OutOfMemory>
        requires { IsDrillMessage message }
        ensures { IfOk result (λ step. step ≡ adjusting message) }
    {
        let mut step = DrillStep::bare(alloc, Turn::Got(message.client));
        step.client = message.client;
        add_adjust(&mut step.down, 0, message.len)?;
        add_data(alloc, &mut step.down, 0, message.len, message.byte)?;
        add_adjust(&mut step.says, message.client as u32 - 1, message.len)?;
        Ok(step)
    }

    /// A client sends CLOSE, the first after so many messages.
    pub fn closing(
        alloc: Global,
        clients: u64,
        messages: u64,
        before: DrillMessage,
        client: u64,
    ) -> Result<DrillStep, OutOfMemory>
        requires some { 1 ≤ clients }
        requires few { clients ≤ 64 }
        requires first { 1 ≤ client }
        requires last { client ≤ clients }
        requires earlier { IsDrillMessage before }
        ensures { IfOk result (λ step. step ≡ close_step clients messages before client) }
    {
        let mut step = DrillStep::before_close(alloc, clients, messages, before, client)?;
        add_close(&mut step.says, client as u32 - 1)?;
        Ok(step)
    }

    // What has to be written before a client sends CLOSE.
    fn before_close(
        alloc: Global,
        clients: u64,
        messages: u64,
        before: DrillMessage,
        client: u64,
    ) -> Result<DrillStep, OutOfMemory>
        requires some { 1 ≤ clients }
        requires few { clients ≤ 64 }
        requires earlier { IsDrillMessage before }
        ensures { IfOk result (λ step.
            step ≡ record (close_step clients messages before client) { says = [] }) }
    {
        let mut step = DrillStep::bare(alloc, Turn::Got(client));
        step.client = clients;
        if client == 1 {
            step.up = settled_up(alloc, before, messages)?;
            step.down = settled_down(alloc, clients, messages)?;
        }
        Ok(step)
    }

    /// The server sends CLOSE to a client, to its number.
    pub fn closing_back(alloc: Global, number: u32, client: u64) -> Result<DrillStep, OutOfMemory>
        requires some { 1 ≤ client }
        requires few { client ≤ 64 }
        ensures { IfOk result (λ step. step
            ≡ record (turn_alone (Got 0)) { up = close_frame (client - 1); says = close_frame number }) }
    {
        let mut step = DrillStep::bare(alloc, Turn::Got(0));
        add_close(&mut step.up, client as u32 - 1)?;
        add_close(&mut step.says, number)?;
        Ok(step)
    }

    /// A client ends.
    pub fn leaving(alloc: Global, client: u64) -> Result<DrillStep, OutOfMemory>
        ensures { IfOk result (λ step. step
            ≡ record (turn_alone (End client)) { client = client; down = close_frame 0 }) }
    {
        let mut step = DrillStep::bare(alloc, Turn::End(client));
        step.client = client;
        add_close(&mut step.down, 0)?;
        Ok(step)
    }
}

// The adjustment of the message before.
fn settled_up(alloc: Global, before: DrillMessage, i: u64) -> Result<Text, OutOfMemory>
    requires { IsDrillMessage before }
    ensures { IfOk result (λ up. up ≡ settled_up before i) }
{
    let mut up = Text::new(alloc);
    if i > 0 {
        add_adjust(&mut up, before.client as u32 - 1, before.len)?;
    }
    Ok(up)
}

// The welcome of the last client.
fn settled_down(alloc: Global, clients: u64, i: u64) -> Result<Text, OutOfMemory>
    requires some { 1 ≤ clients }
    requires few { clients ≤ 64 }
    ensures { IfOk result (λ down. down ≡ settled_down clients i) }
{
    let mut down = Text::new(alloc);
    if i == 0 {
        add_welcome(&mut down, clients as u32 - 1)?;
    }
    Ok(down)
}

// The welcome of the client before.
fn welcome_before(alloc: Global, client: u64) -> Result<Text, OutOfMemory>
    requires some { 1 ≤ client }
    requires few { client ≤ 64 }
    ensures { IfOk result (λ down. down ≡ welcome_before client) }
{
    let mut down = Text::new(alloc);
    if client > 1 {
        add_welcome(&mut down, client as u32 - 2)?;
    }
    Ok(down)
}
