//! Clients alone: each sees what it sees among others, and the premises of the laws hold of worked
//! runs.

ghost use Rattle.std.specs.Prelude.{◌≡◌, [], ◌∷◌, IsTrue, false, reverse, true};
ghost use Rattle.mux_outside.specs.declared.mark.Mark.TheVariants.{Accepts};
ghost use Rattle.mux_history.specs.Solo.{looks_unshared};
ghost use Rattle.mux_history.specs.Journal.{IsLawful, is_known};
ghost use Rattle.mux_history.specs.Right.{AreFresh, IsAdmitted};
ghost use Rattle.mux_history.specs.Worked.{open_setting, run, run_of, under};
ghost use Rattle.mux_history.specs.WorkedProxy.{past_window, overgrown_down, overgrown_up, data_too_early, again_setting, foreign_data};
ghost use Rattle.mux_history.specs.WorkedForwards.{second_connected, cancelled_twice, one_of_two_ports, port_8080_only, recorded_too_late, two_ports};
ghost use Rattle.mux_history.specs.WorkedLosses.{all_closed, held_back, leaves_opens};

/// What is recorded for a client and what is sent for it is the same if there is no other client.
pub fn a_client_sees_nothing_of_others()
    ensures opens { IsTrue (looks_unshared open_setting 1 (run past_window)) }
    ensures window { IsTrue (looks_unshared open_setting 2 (run past_window)) }
    ensures grows_down { IsTrue (looks_unshared open_setting 2 (run overgrown_down)) }
    ensures grows_up { IsTrue (looks_unshared open_setting 2 (run overgrown_up)) }
    ensures intruder { IsTrue (looks_unshared open_setting 1 (run foreign_data)) }
    ensures victim { IsTrue (looks_unshared open_setting 2 (run foreign_data)) }
    ensures again { IsTrue (looks_unshared again_setting 1 (run_of again_setting data_too_early)) }
    ensures first { IsTrue (looks_unshared open_setting 1 (run second_connected)) }
    ensures second { IsTrue (looks_unshared open_setting 2 (run second_connected)) }
    ensures refused { IsTrue (looks_unshared (under port_8080_only 0 []) 1
        (run_of (under port_8080_only 0 []) one_of_two_ports)) }
    ensures cancels { IsTrue (looks_unshared open_setting 1 (run cancelled_twice)) }
    ensures lost { IsTrue (looks_unshared open_setting 1 (run recorded_too_late)) }
    ensures goes_on { IsTrue (looks_unshared open_setting 2 (run recorded_too_late)) }
    ensures late { IsTrue (looks_unshared open_setting 1 (run all_closed)) }
    ensures farewell { IsTrue (looks_unshared open_setting 1 (run leaves_opens)) }
{}

/// Worked journals are lawful, their picks are fresh, and their clients are admitted.
pub fn worked_runs_meet_the_premises()
    ensures lawful { IsLawful (reverse two_ports) }
    ensures lawful_lost { IsLawful (reverse all_closed) }
    ensures lawful_held { IsLawful (reverse held_back) }
    ensures fresh { AreFresh (run second_connected) }
    ensures fresh_again { AreFresh (run_of again_setting data_too_early) }
    ensures admitted { IsAdmitted 2 (run second_connected) }
{}

/// A stream is known that is the server's or that of a client that was accepted, and no other, also
/// where its number lies between those of two clients.
pub fn a_client_that_never_came_is_unknown()
    ensures server { is_known 0 [] ≡ true }
    ensures came { is_known 3 (Accepts 3 ∷ Accepts 1 ∷ []) ≡ true }
    ensures between { is_known 2 (Accepts 3 ∷ Accepts 1 ∷ []) ≡ false }
{}
