use mux_outside::StartAsks;

/// What a master is asked.
#[derive(Drop)]
pub enum Asks {
    /// Whether it is there.
    Check,
    /// That it ends.
    Exit,
    /// That it accepts no more clients.
    Stop,
    /// That it opens forwardings, or closes them.
    Forwards { opening: bool, what: StartAsks },
}
