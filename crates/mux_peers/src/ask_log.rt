ghost use Rattle.std.specs.Prelude.{◌≡◌, [], ◌∷◌, ◌++◌, All, IfOk, OnOk, OnErr};
ghost use Rattle.mux_outside.specs.House.{start_ask_of};
ghost use Rattle.mux_outside.specs.Wire.{MayNote};

use mux_outside::{FwdAsk, HouseMark, HouseReply, StartAsk};
use ssh_fields::{OutOfMemory, Text};
use std::alloc::Global;
use std::marker::Model;

/// What the forwarder was asked, in order, each with its reply.
#[derive(Drop)]
pub struct AskLog {
    alloc: Global,
    marks: Vec<HouseMark>,
}

impl Model for AskLog {
    ghost use Rattle.std.specs.Prelude.{List, All};
    ghost use Rattle.mux_outside.specs.Wire.{MayNote};
    ghost use Rattle.mux_outside.specs.declared.house_mark.HouseMark.{HouseMark as TheMark};

    ghost Value = { List TheMark };

    ghost view = { λ a. a.marks.items };

    ghost invariant = { λ a. All MayNote a.marks.items };
}

impl AskLog {
    /// Nothing was asked.
    pub fn new(alloc: Global) -> AskLog
        ensures { result ≡ [] }
    {
        AskLog {
            alloc,
            marks: Vec::new(alloc),
        }
    }

    // What a client asks, as it is noted.
    pub fn copied(&self, what: &FwdAsk<'_>) -> Result<StartAsk, OutOfMemory>
        ensures { IfOk result (λ ask. ask ≡ start_ask_of what.now) }
    {
        let listen_host = Text::copy(self.alloc, what.listen_host)?;
        let connect_host = Text::copy(self.alloc, what.connect_host)?;
        Ok(StartAsk {
            kind: what.kind,
            listen_host,
            listen_port: what.listen_port,
            connect_host,
            connect_port: what.connect_port,
            path: false,
        })
    }

    /// Adds a request with its reply. An `Err` changes nothing.
    pub fn push(&mut self, mark: HouseMark) -> Result<(), OutOfMemory>
        requires may { MayNote mark }
        ensures ok { OnOk result (self.new ≡ self.old ++ mark ∷ []) }
        ensures err { OnErr result (self.new ≡ self.old) }
    {
        self.marks.push(mark)?;
        Ok(())
    }

    /// All of them.
    pub fn as_slice(&self) -> &[HouseMark]
        ensures all { result.now ≡ self.now }
        ensures may { All MayNote result.now }
    {
        self.marks.as_slice()
    }

    /// Forgets them.
    pub fn clear(&mut self)
        ensures { self.new ≡ [] }
    {
        self.marks.clear();
    }
}
