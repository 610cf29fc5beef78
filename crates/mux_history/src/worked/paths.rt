//! Forwardings of paths, and opens to paths.

ghost use Rattle.std.specs.Prelude.{◌≡◌, [], ◌++◌, codes, drop};
ghost use Rattle.mux_history.specs.Worked.{hex, run, run_of, under, sent_to_server, recorded_in_proxy};
ghost use Rattle.mux_history.specs.WorkedForwards.{success, failure};
ghost use Rattle.mux_history.specs.WorkedPaths.{asks_path, cancels_path, cancels_path_at_once, connects_to_path, forwards_path, path_connected, leaves_path, path_granted_late, path_kept_late, namesake_cancelled, opens_both, path_asked, a_port_and_a_path};

/// A path is asked for as it is, and the client is sent the server's success.
pub fn a_path_is_forwarded()
    ensures up { sent_to_server (run forwards_path) ≡ asks_path }
    ensures down { recorded_in_proxy 1 (run forwards_path) ≡ success }
{}

/// An open for a path goes to the client that has it, as it came.
pub fn an_open_for_a_path_reaches_its_client()
    ensures up { sent_to_server (run path_connected) ≡ asks_path }
    ensures down { recorded_in_proxy 1 (run path_connected) ≡ success ++ connects_to_path }
{}

/// What a client forwards is cancelled for it when it is lost: at once, when it is granted later,
/// and when the server refuses its own cancel.
pub fn a_path_of_a_lost_client_is_given_back()
    ensures at_once { sent_to_server (run leaves_path) ≡ asks_path ++ cancels_path_at_once }
    ensures granted { sent_to_server (run path_granted_late) ≡ asks_path ++ cancels_path_at_once }
    ensures kept { sent_to_server (run path_kept_late) ≡ asks_path ++ (cancels_path ++ cancels_path_at_once) }
{}

/// A list that permits a port permits no path.
pub fn a_port_permits_no_path()
    ensures up { sent_to_server (run_of (under a_port_and_a_path 0 []) path_asked) ≡ [] }
    ensures down { recorded_in_proxy 1 (run_of (under a_port_and_a_path 0 []) path_asked) ≡ failure }
{}

/// A list that permits a path permits no port, though the host has the path's bytes.
pub fn a_path_permits_no_port()
    ensures up { sent_to_server (run_of (under a_port_and_a_path 0 []) opens_both)
        ≡ hex (codes "0000003e 00 5a 0000001e") ++ (codes "direct-streamlocal@openssh.com"
        ++ (hex (codes "00000000 00200000 00008000 00000002") ++ (codes "/s"
        ++ hex (codes "00000000 00000000")))) }
    ensures down { recorded_in_proxy 1 (run_of (under a_port_and_a_path 0 []) opens_both)
        ≡ hex (codes "0000001f 00 5c 00000005 00000001 0000000d") ++ (codes "not permitted"
        ++ hex (codes "00000000")) }
{}

/// The same bytes as an address are another key: only the cancel of the path takes it away.
pub fn a_path_is_no_address()
    ensures down { recorded_in_proxy 1 (run namesake_cancelled) ≡ success ++ (failure ++ success) }
    ensures up { sent_to_server (run namesake_cancelled)
        ≡ asks_path ++ (cancels_path ++ (hex (codes "0000001f 00 5c 00000009 00000001 0000000d")
        ++ (codes "not permitted" ++ hex (codes "00000000")))) }
{}
