ghost use Rattle.std.specs.Prelude.{◌≡◌};
ghost use Rattle.mux_client.specs.declared.talked.Talked.TheVariants.{OutOfMemory as WantOfMemory};

use ssh_fields::OutOfMemory;

/// How a talk ended.
#[derive(Clone, Copy, PartialEq, Eq)]
pub enum Talked {
    /// Each request was granted.
    Done,
    /// The request with this id was refused.
    Refused { id: u32 },
    /// The master broke the protocol: the place of the frame in its bytes, and at an end the place
    /// after its last whole frame.
    BadMaster { at: usize },
    /// The sink failed.
    WriteFault,
    /// The master's stream failed.
    ServerFailed,
    /// All turns were given.
    Spent,
    OutOfMemory,
}

impl From<OutOfMemory> for Talked {
    ghost from_gives = { λ _ e. e ≡ WantOfMemory };

    fn from(_e: OutOfMemory) -> Talked {
        Talked::OutOfMemory
    }
}
