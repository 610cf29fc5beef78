ghost use Rattle.std.specs.Prelude.{◌≡◌, length, IfOk, OnOk, None};
ghost use Rattle.ssh_grammar.specs.declared.framing.Framing.TheVariants.{Proxy as InFrames};
ghost use Rattle.ssh_grammar.specs.Said.{first_in, InProxy};
ghost use Rattle.mux_peers.specs.Server.{ServerReceivesBytes, ServerNext, new_server, stream_end};
ghost use Rattle.mux_peers.specs.Losing.{NotesMore};
ghost use Rattle.mux_peers.specs.Room.{HasRoom};
ghost use Rattle.mux_peers.specs.State.{clients_and_queue};

use crate::clients::Clients;
use crate::receiving::deliver;
use mux_core::Core;
use mux_history::{Break, Ended};
use proxy_frames::{Framer, Framing, Next, Queue};
use ssh_fields::OutOfMemory;
use std::alloc::Global;
use std::marker::Model;

/// The server: what it sent that isn't cut yet, and the place of its next frame, counted from 1.
#[derive(Drop)]
pub struct Server {
    framer: Framer,
    index: u64,
}

impl Model for Server {
    ghost use Rattle.mux_peers.specs.Server.{ServerState};

    ghost Value = { ServerState };

    ghost view = { λ a. record {
      framing = a.framer.framing;
      fault = a.framer.fault;
      rest = a.framer.rest;
      index = a.index;
    } };
}

impl Server {
    /// A server that sent nothing yet.
    pub fn new(alloc: Global) -> Server
        ensures { result ≡ new_server }
    {
        Server {
            framer: Framer::new(alloc, Framing::Proxy),
            index: 1,
        }
    }

    /// How many of its bytes are not cut yet.
    pub fn rest_len(&self) -> usize
        ensures { result ≡ length self.now.rest }
    {
        self.framer.rest_len()
    }

    /// How the run ends where its stream ends now.
    pub fn end(&self) -> Ended
        ensures { result ≡ stream_end self.now.rest self.now.index }
    {
        match self.framer.rest_len() {
            0 => Ended::ServerEnd,
            have => Ended::Broke {
                index: self.index,
                why: Break::Cut { have },
            },
        }
    }

    // What it sends next: whether anything whole was there.
    fn send_next(
        &mut self,
        clients: &mut Clients,
        ended: &mut Option<Ended>,
        core: &mut Core,
        up: &mut Queue,
    ) -> Result<bool, OutOfMemory>
        requires cuts { self.old.framing ≡ InFrames }
        requires well { self.old.fault ≡ None }
        requires room { HasRoom clients.old.all up.old }
        ensures next { IfOk result (λ more.
            ServerNext more (first_in InProxy self.old.rest) (clients_and_queue clients.old core.old up.old)
            (clients_and_queue clients.new core.new up.new) self.old self.new ended.old ended.new) }
        ensures room { OnOk result
            (HasRoom clients.old.all up.old → HasRoom clients.new.all up.new) }
        ensures more { NotesMore clients.old.leaving clients.new.leaving }
        ensures policy { OnOk result (core.new.policy ≡ core.old.policy) }
    {
        match self.framer.next() {
            Next::More => Ok(false),
            Next::Bad(fault) => {
                *ended = Some(Ended::Broke {
                    index: self.index,
                    why: Break::Frame(fault),
                });
                Ok(true)
            }
            Next::Frame => {
                *ended = deliver(clients, self.index, self.framer.frame(), core, up)?;
                self.index = self.index.saturating_add(1);
                Ok(true)
            }
        }
    }

    /// Its stream gave bytes, where it is read: how the run ended by them, if it did. After an end
    /// it isn't read again. The clients that are lost by it are to be closed, in that order.
    pub fn got(
        &mut self,
        clients: &mut Clients,
        bytes: &[u8],
        core: &mut Core,
        up: &mut Queue,
    ) -> Result<Option<Ended>, OutOfMemory>
        requires cuts { self.old.framing ≡ InFrames }
        requires well { self.old.fault ≡ None }
        requires room { HasRoom clients.old.all up.old }
        ensures receives { IfOk result (λ ended.
            ServerReceivesBytes bytes.now (clients_and_queue clients.old core.old up.old)
            (clients_and_queue clients.new core.new up.new) self.old self.new ended) }
        ensures room { OnOk result
            (HasRoom clients.old.all up.old → HasRoom clients.new.all up.new) }
        ensures more { NotesMore clients.old.leaving clients.new.leaving }
        ensures policy { OnOk result (core.new.policy ≡ core.old.policy) }
    {
        self.framer.push(bytes)?;
        let mut ended = None;
        while ended.is_none() {
            if !self.send_next(clients, &mut ended, core, up)? {
                break;
            }
        }
        Ok(ended)
    }
}
