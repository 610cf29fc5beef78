//! Lost clients, limits, and streams that hold back.

ghost use Rattle.std.specs.Prelude.{◌≡◌, [], ◌∷◌, ◌++◌, codes, Some, None, true, false, drop, replicate, reverse};
ghost use Rattle.mux_history.specs.declared.why.Why.TheVariants as why;
ghost use Rattle.mux_history.specs.Rows.{losses};
ghost use Rattle.mux_history.specs.Pending.{pending};
ghost use Rattle.mux_history.specs.Log.{open_matters, frames_that_fit, overflow};
ghost use Rattle.mux_history.specs.Journal.{is_blocked};
ghost use Rattle.mux_history.specs.Worked.{hex, run, sent_to_server, sent_to_client, hello};
ghost use Rattle.mux_history.specs.WorkedLosses.{leaves, late_confirmation, forwarding_late, all_closed, leaves_opens, sixty_five, dialogs_full, held_back, freed_again};

/// What a client leaves open is closed for it, at once and when the server answers later.
pub fn the_master_sends_farewell_for_a_lost_client()
    ensures at_once { drop 90 (sent_to_server (run leaves)) ≡ hex (codes "00000006 00 61 00000007") }
    ensures confirmation { drop 100 (sent_to_server (run late_confirmation))
        ≡ hex (codes "00000006 00 61 00000008") }
    ensures success { drop 110 (sent_to_server (run forwarding_late))
        ≡ hex (codes "00000023 00 50 00000014") ++ (codes "cancel-tcpip-forward"
        ++ hex (codes "00 00000000 00009c41")) }
    ensures before { open_matters (run forwarding_late) ≡ 1 }
    ensures after { open_matters (run all_closed) ≡ 0 }
{}

/// Channels come first in a farewell, in the order in which they began, and then forwardings.
pub fn a_farewell_has_an_order()
    ensures { drop 54 (sent_to_server (run leaves_opens))
        ≡ hex (codes "00000006 00 61 00000003 00000020 00 5c 00000004 00000002 0000000e")
        ++ (codes "client is gone" ++ (hex (codes "00000000 00000023 00 50 00000014")
        ++ (codes "cancel-tcpip-forward" ++ hex (codes "00 00000000 00001f90")))) }
{}

/// A client that comes while 64 have open matters is refused, also where one of them is lost.
pub fn the_sixty_fifth_client_is_refused()
    ensures loss { losses (run sixty_five) ≡ (65, None) ∷ [] }
    ensures down { sent_to_client 65 (run sixty_five) ≡ [] }
    ensures last { sent_to_client 64 (run sixty_five) ≡ hello }
    ensures lost_counts { losses (run dialogs_full) ≡ (1, None) ∷ (65, None) ∷ [] }
{}

/// A frame that fills the queue is accepted, the next is not.
pub fn a_full_queue_drops_its_client()
    ensures fits { frames_that_fit 33554421 (replicate 11 0 ∷ replicate 6 0 ∷ []) ≡ replicate 11 0 ∷ [] }
    ensures full { overflow 33554421 (replicate 11 0 ∷ replicate 6 0 ∷ [])
        ≡ Some (why.QueueFull 33554432 6) }
{}

/// A stream that holds back waits with its output, and others are served meanwhile.
pub fn a_held_stream_waits_with_its_output()
    ensures waits { pending 1 (run held_back) ≡ hello }
    ensures blocked { is_blocked 1 (reverse held_back) ≡ true }
    ensures other { pending 2 (run held_back) ≡ hex (codes "0000000c 80000005 00000007 0000002a") }
    ensures freed { is_blocked 1 (reverse freed_again) ≡ false }
    ensures written { pending 1 (run freed_again) ≡ [] }
{}
