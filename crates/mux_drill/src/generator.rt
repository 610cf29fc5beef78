ghost use Rattle.std.specs.Prelude.{◌≡◌, ◌≤◌, ◌-◌};
ghost use Rattle.mux_drill.specs.Generator.{drill_message_of, IsDrillMessage};

/// A message of a drill: who sends it, and so many bytes, each the same.
#[derive(Clone, Copy)]
pub struct DrillMessage {
    pub client: u64,
    pub len: u32,
    pub byte: u8,
}

impl DrillMessage {
    /// The message of a number, the i-th from 0 on.
    #[tactic(auto, unfolding(crate::specs::Generator::length_of, crate::specs::Generator::client_of))]
    pub fn of(clients: u64, x: u64, i: u64) -> DrillMessage
        requires some { 1 ≤ clients }
        requires few { clients ≤ 64 }
        ensures exact { result ≡ drill_message_of clients x i }
        ensures sound { IsDrillMessage result }
    {
        let high = x / (1 << 33);
        DrillMessage {
            client: 1 + (high / 1025) % clients,
            len: (high % 1025) as u32,
            byte: (i % 256) as u8,
        }
    }

    /// The message of a number, the one before the i-th.
    pub fn before(clients: u64, x: u64, i: u64) -> DrillMessage
        requires some { 1 ≤ clients }
        requires few { clients ≤ 64 }
        ensures exact { result ≡ drill_message_of clients x (i - 1) }
        ensures sound { IsDrillMessage result }
    {
        DrillMessage::of(clients, x, i.saturating_sub(1))
    }
}
