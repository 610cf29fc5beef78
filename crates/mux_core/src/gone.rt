ghost use Rattle.std.specs.Prelude.{◌≡◌, ◌≤◌, ◌+◌};
ghost use Rattle.mux_core.specs.Calls.{LeavesRecorded, LeavesUnsent};

use crate::state::Core;
use client_teardown::FAREWELL_ROOM;
use proxy_frames::Queue;

impl Core {
    /// A client is lost: its stream is gone, or it is dropped. The farewell goes up, in the room
    /// that is reserved.
    pub fn gone(&mut self, client: u64, up: &mut Queue)
        requires { FAREWELL_ROOM ≤ up.old.spare }
        ensures unsent { LeavesUnsent self.old self.new client up.old up.new }
        ensures recorded { LeavesRecorded self.old self.new client up.old up.new }
        ensures policy { self.new.policy ≡ self.old.policy }
        ensures spare { up.old.spare ≤ up.new.spare + FAREWELL_ROOM }
    {
        self.leave(client, up);
        self.lose(client);
        self.settle(client);
    }
}
