//! One worked run that meets all premises of the laws at once.

ghost use Rattle.std.specs.Prelude.{◌≡◌, [], ◌∷◌, ◌++◌, codes, Some, None};
ghost use Rattle.mux_history.specs.declared.why.Why.TheVariants.{NotYours};
ghost use Rattle.mux_history.specs.Rows.{losses};
ghost use Rattle.mux_history.specs.Solo.{IsUnshared};
ghost use Rattle.mux_history.specs.Worked.{hex, open_setting, run, sent_to_server, recorded_in_proxy};
ghost use Rattle.mux_history.specs.WorkedProxy.{session};
ghost use Rattle.mux_pieces.specs.Worked.{IntrusionMeetsAll, confirmation, intrusion, two_bytes};

/// One run meets all premises of the unshared connection at once, for both of its clients.
pub fn one_run_meets_all_premises()
    ensures intruder { IntrusionMeetsAll 1 }
    ensures victim { IntrusionMeetsAll 2 }
{}

/// And so each client sees what it sees alone, the one that is dropped too.
pub fn both_clients_are_unshared()
    ensures intruder { IsUnshared open_setting 1 (run intrusion) }
    ensures victim { IsUnshared open_setting 2 (run intrusion) }
{}

/// The first client is dropped for its write, its channel is closed, and the second is sent nothing
/// but its own.
pub fn the_intruder_alone_is_dropped()
    ensures loss { losses (run intrusion) ≡ (1, Some (NotYours 6)) ∷ [] }
    ensures up { sent_to_server (run intrusion) ≡ session 0 ++ (session 1
        ++ (hex (codes "00000006 00 61 00000005") ++ two_bytes 6)) }
    ensures other { recorded_in_proxy 2 (run intrusion) ≡ confirmation 0 6 ++ two_bytes 0 }
{}
