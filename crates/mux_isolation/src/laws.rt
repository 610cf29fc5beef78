ghost use Rattle.mux_isolation.specs.Laws.{Isolation, WindowsAreKept, PermissionsAreKept, AskersAreServed, MessagesAreDelivered, MessagesAreSent, MasterSendsLittle, AllIsKept};
ghost use Rattle.mux_isolation.specs.Laws.{QueuesAreBounded, ViewsShowRooms, IdleRowsLeaveViews, CutsKeepViews, RowsFollowViews};
ghost use Rattle.mux_isolation.specs.Renaming.{RowsAreRenamed, ViewsAreRenamed, CutsCutItems};
ghost use Rattle.mux_isolation.specs.Bytes.{BytesAreUnshared, TakesAreUnshared, SendsAreUnshared};

/// What is recorded for an admitted client and what is sent for it is what an unshared connection
/// gives from its own bytes and the server's messages for its channels, up to the numbers that
/// represent its own.
pub fn isolation()
    ensures { Isolation }
{}

/// Byte for byte, an admitted client is given what its unshared connection gives it.
pub fn bytes_are_unshared()
    ensures { BytesAreUnshared }
{}

/// The bytes that an admitted client's stream accepted are a prefix of what its unshared connection
/// gives it, if each accepted write is the front of what waited.
pub fn takes_are_unshared()
    ensures { TakesAreUnshared }
{}

/// Payload by payload, what is sent for an admitted client is what its unshared connection sends,
/// but for the numbers that represent its own.
pub fn sends_are_unshared()
    ensures { SendsAreUnshared }
{}

/// Row by row: what a client's next item does in its unshared connection is what it does among
/// others, but for the numbers that represent its own.
pub fn rows_are_renamed()
    ensures { RowsAreRenamed }
{}

/// What is seen of a client at each of its rows is what is seen of it in its unshared connection,
/// but for those numbers.
pub fn views_are_renamed()
    ensures { ViewsAreRenamed }
{}

/// A log that is cut has the client's items cut: a longer one has one more for each row more of the
/// client.
pub fn cuts_cut_items()
    ensures { CutsCutItems }
{}

/// Data in either direction is within the room and the maximum of its channel.
pub fn windows_are_kept()
    ensures { WindowsAreKept }
{}

/// What is opened or listened on is permitted, and each forwarded open meets a live forwarding.
pub fn permissions_are_kept()
    ensures { PermissionsAreKept }
{}

/// Each reply that doesn't break the run is a row of the client that asked first, and stands next
/// among that client's answers, unless the client was lost before or its queue is full.
pub fn askers_are_served()
    ensures { AskersAreServed }
{}

/// What the server sends to a channel, and each open for a live forwarding, is recorded for its
/// client with nothing changed but the recipient. For a client that was lost before nothing is
/// recorded, and what goes up undoes what the server confirms or replies. Nothing that the server
/// sends drops a client but a full queue.
pub fn messages_are_delivered()
    ensures { MessagesAreDelivered }
{}

/// What a client sends goes up with nothing changed but a number of its own, or not at all; and it
/// goes up where it is of a known kind, permitted, within the limits and allowed by its channel's
/// account.
pub fn messages_are_sent()
    ensures { MessagesAreSent }
{}

/// What the master sends that no client sent, for no client, in farewells and in answer to the
/// server, is, byte for byte, a refused request, a failed open with a text of its own, a close, or
/// a cancel without reply.
pub fn master_sends_little()
    ensures { MasterSendsLittle }
{}

/// At no row do more than 33,554,432 bytes wait for a client.
pub fn queues_are_bounded()
    ensures { QueuesAreBounded }
{}

/// Every right log keeps all that a run promises of its rows: windows, permissions, askers, what is
/// delivered and what goes up, numbers apart, and the unshared connection of each admitted client.
pub fn all_is_kept()
    ensures { AllIsKept }
{}

/// What is seen of a channel shows the rooms of both directions and how many requests have no
/// reply.
pub fn views_show_rooms()
    ensures { ViewsShowRooms }
{}

/// A row of another client leaves what is seen of a client as it was, whatever it does.
pub fn idle_rows_leave_views()
    ensures { IdleRowsLeaveViews }
{}

/// What is seen of a client in a log is what is seen of it in its own rows.
pub fn cuts_keep_views()
    ensures { CutsKeepViews }
{}

/// What a client's row gives, and what is seen of the client after it, is known from its item, its
/// pick and what is seen of it before.
pub fn rows_follow_views()
    ensures { RowsFollowViews }
{}
