//! What holds of talks over all bytes: each function's contract is the law.

ghost use Rattle.mux_client.specs.Laws.{TalksGrow, TalkOutcomesStay, EndsAreOutcomes};

/// Bytes that come later only add to a talk, what was decided stays, and an end decides it.
pub fn talks_with_a_master()
    ensures grow { TalksGrow }
    ensures stay { TalkOutcomesStay }
    ensures ends { EndsAreOutcomes }
{}
