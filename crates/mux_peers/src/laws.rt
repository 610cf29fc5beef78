//! What an engine needs to know of the pieces that it gives: each function's contract is the law.

ghost use Rattle.mux_peers.specs.Laws.{LossesAddForOne, OneMovesAll, PiecesOfAClient, PiecesOfTheServer};

/// A piece of a client's bytes makes the rows that the log has for it.
pub fn pieces_of_a_client()
    ensures { PiecesOfAClient }
{}

/// A piece of the server's bytes makes the rows that the log has for it.
pub fn pieces_of_the_server()
    ensures { PiecesOfTheServer }
{}

/// If one client goes on and the others stay, all of them represent the longer log.
pub fn one_moves_all()
    ensures { OneMovesAll }
{}

/// The row of a client whose stream is gone concerns it alone.
pub fn losses_add_for_one()
    ensures { LossesAddForOne }
{}
