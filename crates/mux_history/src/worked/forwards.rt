//! Global requests: remote forwardings, their opens, and answers in order.

ghost use Rattle.std.specs.Prelude.{◌≡◌, [], ◌∷◌, ◌++◌, codes, Some, None, drop};
ghost use Rattle.mux_history.specs.declared.broke.Break.TheVariants as broke;
ghost use Rattle.mux_history.specs.declared.ended.Ended.TheVariants as ended;
ghost use Rattle.mux_history.specs.Rows.{losses};
ghost use Rattle.mux_history.specs.Solo.{run_end_of};
ghost use Rattle.mux_history.specs.Worked.{hex, run, run_of, under, sent_to_server, recorded_in_proxy};
ghost use Rattle.mux_history.specs.WorkedForwards.{asks_port, success_with_port, success, failure, cancel_requests, cancels_at_once, open_for_port, two_ports, second_connected, connected_twice, port_8080_only, one_of_two_ports, no_more_sessions, cancelled_twice, cancel_refused_late, recorded_too_late, replies_to_nothing, short_port};

/// Replies reach the clients in the order in which these asked.
pub fn each_reply_reaches_its_asker()
    ensures first { recorded_in_proxy 1 (run two_ports) ≡ success_with_port 40001 }
    ensures second { recorded_in_proxy 2 (run two_ports) ≡ success_with_port 40002 }
{}

/// An open for a forwarding goes to the client that has it, and that client's answer to the server.
pub fn a_forwarded_open_reaches_its_client()
    ensures down { recorded_in_proxy 2 (run second_connected) ≡ success_with_port 40002 ++ open_for_port 40002 9 }
    ensures other { recorded_in_proxy 1 (run second_connected) ≡ success_with_port 40001 }
    ensures up { drop 64 (sent_to_server (run second_connected))
        ≡ hex (codes "00000012 00 5b 00000009 00000000 00200000 00008000") }
{}

/// The server may not use a number of its own twice.
pub fn a_live_number_of_the_server_is_not_taken_again()
    ensures { run_end_of (run connected_twice) ≡ Some (ended.Broke 4 (broke.NumberInUse 9)) }
{}

/// A refusal waits until all earlier requests are answered.
pub fn a_refusal_waits_for_earlier_replies()
    ensures up { sent_to_server (run_of (under port_8080_only 0 []) one_of_two_ports) ≡ asks_port 8080 }
    ensures down { recorded_in_proxy 1 (run_of (under port_8080_only 0 []) one_of_two_ports)
        ≡ success_with_port 0 ++ failure }
{}

/// Every other global request is refused by the master.
pub fn an_unknown_global_request_is_refused()
    ensures down { recorded_in_proxy 1 (run no_more_sessions) ≡ failure }
    ensures up { sent_to_server (run no_more_sessions) ≡ [] }
{}

/// A second cancel means no forwarding; after the first took effect the port belongs to no client.
pub fn a_forwarding_is_cancelled_once()
    ensures down { recorded_in_proxy 1 (run cancelled_twice) ≡ success_with_port 40001 ++ (success ++ failure) }
    ensures up { drop 64 (sent_to_server (run cancelled_twice))
        ≡ cancel_requests 40001 ++ (hex (codes "0000001f 00 5c 0000000c 00000001 0000000d")
        ++ (codes "not permitted" ++ hex (codes "00000000"))) }
{}

/// A cancel that the server refuses after its client is lost is sent again by the master.
pub fn a_refused_cancel_is_sent_again_for_a_lost_client()
    ensures { sent_to_server (run cancel_refused_late)
        ≡ asks_port 8080 ++ (cancel_requests 8080 ++ cancels_at_once 8080) }
{}

/// A client that fails while its port is sent to it loses the forwarding; the other goes on.
pub fn a_port_of_a_lost_client_is_given_back()
    ensures loss { losses (run recorded_too_late) ≡ (1, None) ∷ [] }
    ensures up { drop 64 (sent_to_server (run recorded_too_late)) ≡ cancels_at_once 40001 }
    ensures other { recorded_in_proxy 2 (run recorded_too_late) ≡ success_with_port 40002 }
{}

/// A reply to nothing, and a success without the port that was asked for, break the protocol.
pub fn a_wrong_reply_ends_the_run()
    ensures nothing { run_end_of (run replies_to_nothing) ≡ Some (ended.Broke 1 broke.NoAsker) }
    ensures short { run_end_of (run short_port) ≡ Some (ended.Broke 1 (broke.BadReply 0)) }
{}
