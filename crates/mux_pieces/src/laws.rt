ghost use Rattle.mux_pieces.specs.Pieces.{PartsGiveAlike, JournalsGoOnAlike, CutsMakeNoDifference, ItemsMakeRows, SayingsAreOfBytes, ReceivedIsOfBytes, BytesMakeItems, BytesMakeRows};

/// A piece that comes in two parts, with a wait between, gives the items that it gives as a whole.
pub fn parts_give_alike()
    ensures { PartsGiveAlike }
{}

/// Journals in which the same bytes came from each stream, with the same items, stay so after the
/// same mark.
pub fn journals_go_on_alike()
    ensures { JournalsGoOnAlike }
{}

/// Journals that are the same but for waits and for where the pieces of a stream are cut make the
/// same rows, with the same picks and replies.
pub fn cuts_make_no_difference()
    ensures { CutsMakeNoDifference }
{}

/// The same items make the same rows, with the same picks and replies.
pub fn items_make_rows()
    ensures { ItemsMakeRows }
{}

/// Whatever pieces bytes came in, the items of each client send what all its bytes send, in that
/// order, and so do those of the server.
pub fn sayings_are_of_bytes()
    ensures clients { SayingsAreOfBytes }
    ensures server { ReceivedIsOfBytes }
{}

/// The same bytes of each stream, cut in any way and completing in the same order, make the same
/// items.
pub fn bytes_make_items()
    ensures { BytesMakeItems }
{}

/// The same bytes of each stream, cut in any way and completing in the same order, make the same
/// rows, with the same picks and replies.
pub fn bytes_make_rows()
    ensures { BytesMakeRows }
{}
