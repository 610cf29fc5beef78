//! What a caller needs to know of the log that a core represents: each function's contract is the
//! law.

ghost use Rattle.mux_core.specs.Laws.{CarriesPick, DownIsFree, IdleRowsStay};

/// Rows of what neither a client in proxy mode nor the server sends leave a core as it is.
pub fn idle_rows_stay()
    ensures { IdleRowsStay }
{}

/// What a row records for its client is nothing to a core.
pub fn down_is_free()
    ensures { DownIsFree }
{}

/// The number that a client's open or confirmation takes is the one that its row carries up.
pub fn taken_numbers_are_carried()
    ensures { CarriesPick }
{}
