/// How far a talk is.
#[derive(Clone, Copy, PartialEq, Eq)]
pub enum TalkStage {
    /// The master's hello is awaited.
    Greets,
    /// The reply to the request with this id is awaited, at this place of the master's bytes.
    Asks { id: u32, at: usize },
    /// Each request was granted.
    Granted,
    /// The request with this id was refused.
    Refused { id: u32 },
    /// The master broke the protocol at this place of its bytes.
    Broken { at: usize },
}
