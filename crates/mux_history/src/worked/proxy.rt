//! Proxy mode: opens, data, windows, and channels that end.

ghost use Rattle.std.specs.Prelude.{◌≡◌, [], ◌∷◌, ◌++◌, codes, Some};
ghost use Rattle.ssh_grammar.specs.declared.fault.BadFrame.TheVariants as bad;
ghost use Rattle.ssh_grammar.specs.declared.fault.Breach.TheVariants as breach;
ghost use Rattle.mux_history.specs.declared.why.Why.TheVariants as why;
ghost use Rattle.mux_history.specs.declared.broke.Break.TheVariants as broke;
ghost use Rattle.mux_history.specs.declared.ended.Ended.TheVariants as ended;
ghost use Rattle.mux_history.specs.Rows.{losses};
ghost use Rattle.mux_history.specs.Solo.{run_end_of};
ghost use Rattle.mux_history.specs.Worked.{hex, run, run_of, under, sent_to_server, sent_to_client, recorded_in_proxy, greets, hello};
ghost use Rattle.mux_history.specs.WorkedProxy.{session, two_sessions, sent_after_two, second_confirmed, past_window, overgrown_down, overgrown_up, data_to_nobody, data_too_early, again_setting, foreign_data, database_only, no_session, to_database, opens_directly, opens_session_too, opens_display, sends_at_once, server_sends, enters_in_pieces, cut_short, server_fails};

/// What follows PROXY in the same piece is read as a payload.
pub fn a_payload_may_follow_the_request_for_the_proxy()
    ensures down { sent_to_client 1 (run (greets 1 ++ enters_in_pieces))
        ≡ hello ++ hex (codes "00000008 8000000f 00000000") }
    ensures up { sent_to_server (run (greets 1 ++ enters_in_pieces)) ≡ session 0 }
{}

/// Both clients call their channel 0; the server sees two numbers.
pub fn opens_get_different_numbers()
    ensures { sent_to_server (run two_sessions) ≡ session 0 ++ session 1 }
{}

/// The confirmation reaches the client that opened, under that client's own number.
pub fn a_confirmation_reaches_its_client()
    ensures second { recorded_in_proxy 2 (run second_confirmed)
        ≡ hex (codes "00000012 00 5b 00000000 00000005 00000005 00008000") }
    ensures first { recorded_in_proxy 1 (run second_confirmed) ≡ [] }
{}

/// Data fills the window; one byte more drops the client, and its channel is closed.
pub fn data_past_the_window_drops_its_client()
    ensures up { sent_after_two (run past_window)
        ≡ hex (codes "0000000f 00 5e 00000005 00000005") ++ (codes "hello"
        ++ hex (codes "00000006 00 61 00000005")) }
    ensures loss { losses (run past_window)
        ≡ (2, Some (why.Channel 5 (breach.PastWindow 0 1))) ∷ [] }
{}

/// No window grows past 2^32 - 1, in either direction.
pub fn no_window_grows_past_its_type()
    ensures down { losses (run overgrown_down)
        ≡ (2, Some (why.Channel 5 (breach.Overflow 4294967295 1))) ∷ [] }
    ensures sent { sent_after_two (run overgrown_down)
        ≡ hex (codes "0000000a 00 5d 00000005 ffdfffff 00000006 00 61 00000005") }
    ensures up { run_end_of (run overgrown_up)
        ≡ Some (ended.Broke 3 (broke.Channel 1 (breach.Overflow 4294967295 1))) }
{}

/// A number that no client holds is no channel; one that is given again isn't open before it is
/// confirmed.
pub fn a_closed_channel_takes_nothing()
    ensures nobody { run_end_of (run data_to_nobody) ≡ Some (ended.Broke 3 (broke.NoChannel 1)) }
    ensures again { sent_after_two (run_of again_setting data_too_early)
        ≡ hex (codes "00000006 00 61 00000005") ++ (hex (codes "00000019 00 5a 00000007")
        ++ (codes "session" ++ hex (codes "00000001 00200000 00008000"))) }
    ensures unconfirmed { run_end_of (run_of again_setting data_too_early)
        ≡ Some (ended.Broke 3 (broke.Channel 1 breach.NotOpen)) }
{}

/// A client that writes into another's channel is dropped, and the other sees nothing of it.
pub fn a_foreign_channel_takes_nothing()
    ensures loss { losses (run foreign_data) ≡ (1, Some (why.NotYours 5)) ∷ [] }
    ensures up { sent_after_two (run foreign_data) ≡ [] }
    ensures other { recorded_in_proxy 2 (run foreign_data)
        ≡ hex (codes "00000012 00 5b 00000000 00000005 00000005 00008000") }
{}

/// A direct channel is opened where the policy permits it, and refused to the client elsewhere.
pub fn a_direct_channel_needs_its_permission()
    ensures down { recorded_in_proxy 1 (run_of (under database_only 0 []) opens_directly)
        ≡ hex (codes "0000001f 00 5c 00000004 00000001 0000000d") ++ (codes "not permitted"
        ++ hex (codes "00000000")) }
    ensures up { sent_to_server (run_of (under database_only 0 []) opens_directly) ≡ to_database 0 }
{}

/// A session is started where the policy permits sessions, and refused to the client elsewhere;
/// what else is permitted is opened all the same.
pub fn a_session_needs_its_permission()
    ensures down { recorded_in_proxy 1 (run_of (under no_session 0 []) opens_session_too)
        ≡ hex (codes "0000001f 00 5c 00000003 00000001 0000000d") ++ (codes "not permitted"
        ++ hex (codes "00000000")) }
    ensures up { sent_to_server (run_of (under no_session 0 []) opens_session_too) ≡ to_database 0 }
    ensures permitted { sent_to_server (run_of (under database_only 0 []) opens_session_too)
        ≡ session 0 ++ to_database 1 }
{}

/// Channels of other types are refused.
pub fn an_unknown_channel_type_is_refused()
    ensures down { recorded_in_proxy 1 (run opens_display)
        ≡ hex (codes "00000026 00 5c 00000004 00000003 00000014") ++ (codes "unknown channel type"
        ++ hex (codes "00000000")) }
    ensures up { sent_to_server (run opens_display) ≡ [] }
{}

/// A frame that is none drops a client as soon as its header is there.
pub fn a_bad_frame_drops_its_client()
    ensures longest { losses (run (sends_at_once (hex (codes "00040000 00")))) ≡ [] }
    ensures long { losses (run (sends_at_once (hex (codes "00040001"))))
        ≡ (1, Some (why.BadFrame (bad.Long 262145))) ∷ [] }
    ensures short { losses (run (sends_at_once (hex (codes "00000001"))))
        ≡ (1, Some (why.BadFrame (bad.Short 1))) ∷ [] }
    ensures padding { losses (run (sends_at_once (hex (codes "00000002 01"))))
        ≡ (1, Some (why.BadFrame (bad.Padding 1))) ∷ [] }
{}

/// The same of the server ends the run.
pub fn a_bad_frame_of_the_server_ends_the_run()
    ensures long { run_end_of (run (server_sends (hex (codes "00040001"))))
        ≡ Some (ended.Broke 1 (broke.Frame (bad.Long 262145))) }
    ensures short { run_end_of (run (server_sends (hex (codes "00000001"))))
        ≡ Some (ended.Broke 1 (broke.Frame (bad.Short 1))) }
    ensures padding { run_end_of (run (server_sends (hex (codes "00000002 01"))))
        ≡ Some (ended.Broke 1 (broke.Frame (bad.Padding 1))) }
    ensures cut { run_end_of (run cut_short) ≡ Some (ended.Broke 1 (broke.Cut 5)) }
    ensures failed { run_end_of (run server_fails) ≡ Some ended.ServerFailed }
{}
