ghost use Rattle.std.specs.Prelude.{◌≡◌};
ghost use Rattle.mux_outside.specs.Counts.{counted as count_after};
ghost use Rattle.mux_outside.specs.CallCounts.{no_calls, calls_after_one, calls_after_wait, calls_after_write};

use crate::counts::counted;
use crate::turn::{Turn, Wrote};
use crate::whose::Whose;
use std::marker::Model;

/// How often a wire was called, how often it found no memory, and how often it gave what.
#[derive(Drop)]
pub struct CallCounts {
    opens: u64,
    waits: u64,
    wants: u64,
    late: u64,
    accepts: u64,
    server_pieces: u64,
    client_pieces: u64,
    server_ends: u64,
}

impl Model for CallCounts {
    ghost use Rattle.mux_outside.specs.CallCounts.{CallCounts as TheCalls};

    ghost Value = { TheCalls };

    ghost view = { λ c. record {
      opens = c.opens;
      waits = c.waits;
      wants = c.wants;
      late = c.late;
      accepts = c.accepts;
      server_pieces = c.server_pieces;
      client_pieces = c.client_pieces;
      server_ends = c.server_ends;
    } };
}

impl CallCounts {
    /// No call.
    pub fn new() -> CallCounts
        ensures { result ≡ no_calls }
    {
        CallCounts {
            opens: 0,
            waits: 0,
            wants: 0,
            late: 0,
            accepts: 0,
            server_pieces: 0,
            client_pieces: 0,
            server_ends: 0,
        }
    }

    /// Counts a call of `open` that didn't want memory.
    pub fn opened(&mut self)
        ensures { self.new ≡ record self.old { opens = count_after self.old.opens } }
    {
        self.opens = counted(self.opens);
    }

    /// Counts a call of `wait` that gave this turn.
    pub fn waited(&mut self, turn: Turn)
        ensures { self.new ≡ calls_after_wait turn self.old }
    {
        self.called(turn == Turn::NoMemory);
        self.waits = counted(self.waits);
        match turn {
            Turn::Accepted(_) => self.accepts = counted(self.accepts),
            Turn::Got(stream) => match Whose::of(stream) {
                Whose::Server => self.server_pieces = counted(self.server_pieces),
                Whose::Client(_) => self.client_pieces = counted(self.client_pieces),
                Whose::Own => {}
            },
            Turn::End(stream) if Whose::of(stream) == Whose::Server => {
                self.server_ends = counted(self.server_ends);
            }
            _ => {}
        }
    }

    /// Counts a call of `write` that gave this answer.
    pub fn wrote(&mut self, wrote: Wrote)
        ensures { self.new ≡ calls_after_write wrote self.old }
    {
        self.called(wrote == Wrote::NoMemory);
    }

    // Counts a call of either, which found no memory or did.
    fn called(&mut self, starved: bool)
        ensures { self.new ≡ calls_after_one starved self.old }
    {
        if self.wants > 0 {
            self.late = counted(self.late);
        }
        if starved {
            self.wants = counted(self.wants);
        }
    }
}
