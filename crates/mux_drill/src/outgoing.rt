ghost use Rattle.std.specs.Prelude.{◌≡◌, ◌≤◌, [], take, drop, length};

use ssh_fields::Text;
use std::alloc::Global;
use std::marker::Model;

// The most bytes that a turn gives.
const PIECE: usize = 37;

/// What a stream sends, and how much of it was given.
#[derive(Drop)]
pub struct DrillOutgoing {
    stream: u64,
    text: Text,
    given: usize,
}

impl Model for DrillOutgoing {
    ghost use Rattle.std.specs.Prelude.{drop, length, ◌≤◌};
    ghost use Rattle.mux_drill.specs.DrillOutgoing.{Said};

    ghost Value = { Said };

    ghost view = { λ s. record { stream = s.stream; rest = drop s.given s.text } };

    ghost invariant = { λ s. s.given ≤ length s.text };
}

impl DrillOutgoing {
    ghost use Rattle.mux_drill.specs.DrillOutgoing.{gone_on};

    /// A stream sends a text.
    pub fn new(stream: u64, text: Text) -> DrillOutgoing
        ensures { result ≡ record { stream = stream; rest = text } }
    {
        DrillOutgoing {
            stream,
            text,
            given: 0,
        }
    }

    /// Nothing is sent.
    pub fn nothing(alloc: Global) -> DrillOutgoing
        ensures { result ≡ record { stream = 0; rest = [] } }
    {
        DrillOutgoing::new(0, Text::new(alloc))
    }

    pub fn stream(&self) -> u64
        ensures { result ≡ self.now.stream }
    {
        self.stream
    }

    /// What wasn't given yet.
    pub fn rest(&self) -> &[u8]
        ensures { result.now ≡ self.now.rest }
    {
        &self.text.as_bytes()[self.given..]
    }

    /// A piece of it was given.
    pub fn go_on(&mut self)
        ensures { self.new ≡ gone_on self.old }
    {
        let len = self.text.as_bytes().len();
        self.given += PIECE.min(len - self.given);
    }
}

/// The first piece of some bytes.
pub fn first_piece(bytes: &[u8]) -> &[u8]
    ensures piece { result.now ≡ take 37 bytes.now }
    ensures short { length result.now ≤ 37 }
{
    &bytes[..PIECE.min(bytes.len())]
}
