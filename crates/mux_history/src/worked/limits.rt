//! Limits that are too large to compute.

ghost use Rattle.mux_history.specs.WorkedLimits.{FullOfChannels, OneMoreAsk, OneAskTooMany, LongestFrame};

/// The 257th channel of a client is refused to it.
pub fn a_client_has_at_most_256_channels()
    ensures { FullOfChannels }
{}

/// At most 1,024 wanted global requests of a client are unanswered.
pub fn a_client_has_at_most_1024_unanswered_requests()
    ensures sent { OneMoreAsk }
    ensures dropped { OneAskTooMany }
{}

/// A packet length of 262,144 is followed by its bytes.
pub fn the_longest_frame_is_taken()
    ensures { LongestFrame }
{}
