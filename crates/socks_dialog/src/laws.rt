//! What holds of dialogs over all bytes: each function's contract is the law.

ghost use Rattle.socks_dialog.specs.Laws.{DialogOutcomesStay, RepliesStay, RepliesAreFew, DialogsEnd};

/// The outcome of a dialog doesn't change by the bytes that follow, and it has an outcome.
pub fn dialogs_of_a_stream()
    ensures outcome { DialogOutcomesStay }
    ensures replies { RepliesStay }
    ensures few { RepliesAreFew }
    ensures ends { DialogsEnd }
{}
