ghost use Rattle.std.specs.Prelude.{◌≡◌};
ghost use Rattle.mux_bounds.specs.Awaited.{RepliesAreAwaited};
ghost use Rattle.mux_bounds.specs.Few.{NothingIsLeft, ChannelsAreFew, ForwardingsAreFew, RequestsAreFew, UnansweredAreFew, ClientsAreFew};
ghost use Rattle.mux_bounds.specs.Bounds.{CancelsAreShort, FarewellsAreShort, longest_cancel, longest_farewell, longest_farewells};
ghost use Rattle.mux_bounds.specs.Bounds.{RowsAddLittle, MarksAddLittle, ServerQueueIsBounded, RunsAreBounded, RestsAreShort};

/// At no row has a client whose matters are closed a channel, a request without a reply or a
/// forwarding.
pub fn nothing_is_left()
    ensures { NothingIsLeft }
{}

/// At no row does a client hold more than 256 channels.
pub fn channels_are_few()
    ensures { ChannelsAreFew }
{}

/// At no row does a client have more than 64 forwardings, asked or live.
pub fn forwardings_are_few()
    ensures { ForwardingsAreFew }
{}

/// At no row have more than 1,024 global requests of a client been sent without a reply.
pub fn requests_are_few()
    ensures { RequestsAreFew }
{}

/// At no row have more than 1,024 global requests of a client that is not lost no answer, those
/// among them that were refused and wait after one that was sent.
pub fn unanswered_are_few()
    ensures { UnansweredAreFew }
{}

/// At no row do more than 64 clients have open matters.
pub fn clients_are_few()
    ensures { ClientsAreFew }
{}

/// While the run goes on, no reply of a client came before its request: the view has none that is
/// early.
pub fn replies_are_awaited()
    ensures { RepliesAreAwaited }
{}

/// A cancel of a key that may be asked for is at most 308 bytes as a frame, a farewell 28,928, and
/// those of all clients 1,851,392.
pub fn farewells_are_short()
    ensures cancel { CancelsAreShort }
    ensures of_a_cancel { longest_cancel ≡ 308 }
    ensures farewell { FarewellsAreShort }
    ensures of_a_farewell { longest_farewell ≡ 28928 }
    ensures of_all { longest_farewells ≡ 1851392 }
{}

/// A row adds at most 291,076 bytes to what waits for the server: one payload, and one farewell.
pub fn rows_add_little()
    ensures { RowsAddLittle }
{}

/// The rows of one mark of at most 65,536 bytes add at most 4,096,009 bytes to what waits for the
/// server, also if they were cut as memory ran out.
pub fn marks_add_little()
    ensures { MarksAddLittle }
{}

/// Where bytes are read and clients accepted only while less than 4,194,304 bytes wait for the
/// server, less than 8,388,608 bytes wait for it at every row.
pub fn server_queue_is_bounded()
    ensures { ServerQueueIsBounded }
{}

/// Over any wire, which reads and accepts only right after a wait for that, and where each wait
/// keeps what a run promises of it, less than 8,388,608 bytes wait for the server at every row.
pub fn runs_are_bounded()
    ensures { RunsAreBounded }
{}

/// Of a stream that is read on, at most 262,147 bytes are not cut yet.
pub fn rests_are_short()
    ensures { RestsAreShort }
{}
