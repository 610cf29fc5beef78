//! What holds of framers over all bytes: each function's contract is the law.

ghost use Rattle.proxy_frames.specs.Laws.{PiecesGiveTheCut, AnyPiecesGiveTheSame, AnyTimeGivesTheSame, NothingIsLost, SwitchedIsSent, MoreIsPartial, MoreIsPrefix, FaultsAreRecorded, FaultsStay, QueuedFramesAreCut, WritingChangesTheFrame, WritingKeepsTheHistory};

/// The frames of a stream, its rest and its fault don't depend on the pieces in which it came, nor
/// on when its frames were removed.
pub fn pieces_of_a_stream()
    ensures cut { PiecesGiveTheCut }
    ensures same { AnyPiecesGiveTheSame }
    ensures any_time { AnyTimeGivesTheSame }
{}

/// A switch loses nothing: what a client sends by all its bytes are the control messages given
/// before the switch to the proxy, and the payloads given after it.
pub fn switches_of_a_stream()
    ensures left { NothingIsLost }
    ensures said { SwitchedIsSent }
{}

/// What stands at the front of bytes where no whole frame does.
pub fn fronts_of_a_stream()
    ensures more { MoreIsPartial }
    ensures prefix { MoreIsPrefix }
    ensures fault { FaultsAreRecorded }
    ensures stays { FaultsStay }
{}

/// What a queue writes as frames, a framer gives as frames.
pub fn frames_that_were_queued()
    ensures cut { QueuedFramesAreCut }
{}

/// What is written in a frame stays in the frame.
pub fn writing_in_a_frame()
    ensures own { WritingChangesTheFrame }
    ensures stands { WritingKeepsTheHistory }
{}
