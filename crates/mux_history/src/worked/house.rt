//! The forwarder: what it replies later, and what it is given as a client.

ghost use Rattle.std.specs.Prelude.{◌≡◌, [], ◌∷◌, ◌++◌, codes};
ghost use Rattle.mux_outside.specs.declared.house.HouseReply.TheVariants.{Later, Port, Refused};
ghost use Rattle.mux_history.specs.declared.limits.TheConstants.{HOUSE as THE_HOUSE};
ghost use Rattle.mux_history.specs.Policy.{any_policy};
ghost use Rattle.mux_history.specs.Worked.{hex, run, run_of, under, sent_to_server, sent_to_client, recorded_in_proxy, hello};
ghost use Rattle.mux_history.specs.WorkedHouse.{house_opens, own_streams, replied_in_proxy, replied_later};

/// A client is sent the reply when it comes, and nothing before; one that has sent PROXY meanwhile
/// isn't sent it.
pub fn a_reply_may_come_later()
    ensures bound { sent_to_client 1 (run_of (under any_policy 42 (Later ∷ [])) (replied_later (Port 40001)))
        ≡ hello ++ hex (codes "0000000c 80000007 00000004 00009c41") }
    ensures refused { sent_to_client 1 (run_of (under any_policy 42 (Later ∷ [])) (replied_later Refused))
        ≡ hello ++ (hex (codes "00000026 80000003 00000004 0000001a")
        ++ codes "forwardings are not served") }
    ensures in_proxy { sent_to_client 1 (run_of (under any_policy 42 (Later ∷ [])) replied_in_proxy)
        ≡ hello ++ hex (codes "00000008 8000000f 00000000") }
{}

/// The forwarder is a client of the connection: what it sends goes up, and what comes for its
/// channel is its own.
pub fn the_house_is_a_client()
    ensures up { sent_to_server (run house_opens) ≡ hex (codes "00000039 00 5a 0000000c")
        ++ (codes "direct-tcpip" ++ (hex (codes "00000000 00200000 00008000 00000002")
        ++ (codes "db" ++ (hex (codes "00001538 00000009") ++ (codes "127.0.0.1"
        ++ hex (codes "00000000")))))) }
    ensures down { recorded_in_proxy THE_HOUSE (run house_opens)
        ≡ hex (codes "00000012 00 5b 00000000 00000005 00000003 00008000 0000000c 00 5e 00000000")
        ++ (hex (codes "00000002") ++ codes "ok") }
{}

/// What the master's own streams do makes no row.
pub fn own_streams_make_no_row()
    ensures { run own_streams ≡ [] }
{}
