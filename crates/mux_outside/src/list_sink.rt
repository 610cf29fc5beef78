ghost use Rattle.std.specs.Prelude.{◌≡◌, [], Some};
ghost use Rattle.mux_outside.specs.Calls.{FailsByNumber, calls_after};
ghost use Rattle.mux_outside.specs.Counts.{HasCause, counted as count_after};
ghost use Rattle.mux_outside.specs.Sink.{TakesRecorded, TakesOrNothing};

use crate::calls::Calls;
use crate::counts::{counted, raised};
use crate::file_error::FileError;
use crate::sink::Sink;
use ssh_fields::Text;
use std::alloc::Global;

/// A sink that keeps what it accepts.
#[derive(Drop)]
pub struct ListSink {
    taken: Text,
    fails: Calls,
    calls: u64,
    faults: u64,
    puts: u64,
}

impl ListSink {
    /// A sink that has accepted nothing, and accepts nothing at the calls that fail.
    pub fn new(alloc: Global, fails: Calls) -> ListSink
        ensures taken { result.taken ≡ [] }
        ensures fails { result.fails ≡ fails }
        ensures calls { result.calls ≡ 0 }
        ensures faults { result.faults ≡ 0 }
        ensures puts { result.puts ≡ 0 }
    {
        ListSink {
            taken: Text::new(alloc),
            fails,
            calls: 0,
            faults: 0,
            puts: 0,
        }
    }

    /// The bytes accepted so far.
    pub fn taken(&self) -> &[u8]
        ensures { result.now ≡ self.now.taken }
    {
        self.taken.as_bytes()
    }
}

impl Sink for ListSink {
    ghost recorded = { λ s. Some s.taken };

    ghost faults = { λ s. s.faults };

    ghost puts = { λ s. s.puts };

    fn put(&mut self, bytes: &[u8]) -> Result<(), FileError>
        ensures taken { TakesRecorded result (Some self.old.taken) (Some self.new.taken) bytes.now }
        ensures cause { HasCause result self.old.faults self.new.faults }
        ensures puts { self.new.puts ≡ count_after self.old.puts }
        ensures all_or_nothing { TakesOrNothing result self.old.taken self.new.taken bytes.now }
        ensures exact { FailsByNumber result self.old.calls self.old.fails }
        ensures calls { self.new.calls ≡ calls_after result self.old.calls }
        ensures fails { self.new.fails ≡ self.old.fails }
    {
        self.puts = counted(self.puts);
        let call = counted(self.calls);
        if self.fails.contains(call) {
            self.calls = call;
            self.faults = raised(self.faults);
            return Err(FileError::Failed);
        }
        self.taken.add(bytes)?;
        self.calls = call;
        Ok(())
    }
}
