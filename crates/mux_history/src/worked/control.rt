//! The control phase.

ghost use Rattle.std.specs.Prelude.{◌≡◌, [], ◌∷◌, ◌++◌, codes, Some, None};
ghost use Rattle.mux_outside.specs.declared.house.HouseReply.TheVariants.{Done, Port};
ghost use Rattle.ssh_grammar.specs.declared.fault.BadControl.TheVariants as bad;
ghost use Rattle.mux_history.specs.declared.why.Why.TheVariants as why;
ghost use Rattle.mux_history.specs.declared.ended.Ended.TheVariants as ended;
ghost use Rattle.mux_history.specs.Rows.{losses};
ghost use Rattle.mux_history.specs.Policy.{any_policy};
ghost use Rattle.mux_history.specs.Solo.{run_end_of};
ghost use Rattle.mux_history.specs.Worked.{hex, run, run_of, under, sent_to_client, hello, two_alive_checks, another_version, session_with_descriptors, terminate, alive_without_id, unknown_types, forward_asks};

/// Two clients ask whether the master lives, a byte of each in turn.
pub fn each_client_is_answered_its_own_alive_check()
    ensures first { sent_to_client 1 (run two_alive_checks)
        ≡ hello ++ hex (codes "0000000c 80000005 00000007 0000002a") }
    ensures second { sent_to_client 2 (run two_alive_checks)
        ≡ hello ++ hex (codes "0000000c 80000005 00000007 0000002a") }
    ensures end { run_end_of (run two_alive_checks) ≡ Some ended.ServerEnd }
{}

/// A client that sends version 3 is dropped, and another goes on.
pub fn another_version_is_dropped()
    ensures loss { losses (run another_version) ≡ (1, Some (why.Version 3)) ∷ [] }
    ensures down { sent_to_client 1 (run another_version) ≡ hello }
    ensures other { sent_to_client 2 (run another_version)
        ≡ hello ++ hex (codes "0000000c 80000005 00000007 0000002a") }
{}

/// Nothing that follows a request with descriptors is read.
pub fn a_session_with_descriptors_is_refused()
    ensures down { sent_to_client 1 (run session_with_descriptors)
        ≡ hello ++ (hex (codes "00000029 80000003 00000005 0000001d")
        ++ codes "descriptors are not supported") }
    ensures loss { losses (run session_with_descriptors) ≡ [] }
{}

/// A client ends the run, and nothing after that is read.
pub fn a_client_may_end_the_run()
    ensures down { sent_to_client 1 (run terminate) ≡ hello ++ hex (codes "00000008 80000001 00000003") }
    ensures end { run_end_of (run terminate) ≡ Some (ended.Terminated 1 3) }
{}

/// A control message that is cut short drops its client.
pub fn an_alive_check_has_an_id()
    ensures { losses (run alive_without_id) ≡ (1, Some (why.BadControl (bad.Short 4))) ∷ [] }
{}

/// An unknown type is refused by its id, and without one it drops its client.
pub fn an_unknown_type_is_refused()
    ensures down { sent_to_client 1 (run unknown_types)
        ≡ hello ++ (hex (codes "0000001f 80000003 00000009 00000013")
        ++ codes "unsupported request") }
    ensures loss { losses (run unknown_types)
        ≡ (2, Some (why.BadControl (bad.Unknown 268435466 None))) ∷ [] }
{}

/// The forwarder's answers come in the order of the requests; without a forwarder each is refused.
pub fn the_house_is_asked_in_order()
    ensures served { sent_to_client 1 (run_of (under any_policy 42 (Port 40001 ∷ Done ∷ [])) forward_asks)
        ≡ hello ++ hex (codes "0000000c 80000007 00000001 00009c41 00000008 80000001 00000002") }
    ensures refused { sent_to_client 1 (run forward_asks)
        ≡ hello ++ (hex (codes "00000026 80000003 00000001 0000001a")
        ++ (codes "forwardings are not served"
        ++ (hex (codes "00000026 80000003 00000002 0000001a")
        ++ codes "forwardings are not served"))) }
{}
