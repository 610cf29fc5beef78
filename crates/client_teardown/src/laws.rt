//! What is sent for lost clients, in the words of the history: each function's contract is the law.

ghost use Rattle.client_teardown.specs.Laws.{FarewellsAreTheHistorys, LateIsTheHistorys, TableIsLeft};

/// A farewell is what the history sends, wherever the tables represent its channels and its
/// forwardings, and the table represents what it leaves.
pub fn farewell_of_a_history()
    ensures sent { FarewellsAreTheHistorys }
    ensures left { TableIsLeft }
{}

/// A late message is answered as the history says.
pub fn late_messages_of_a_history()
    ensures { LateIsTheHistorys }
{}
