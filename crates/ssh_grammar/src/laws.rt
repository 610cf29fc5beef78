//! What the grammar promises, over all bytes: each function's contract is the law.

ghost use Rattle.ssh_grammar.specs.Laws.{MessagesAreSpelledSo, MessagesReadBack, NoPayloadForTwo, NumbersStand, RecipientIsReplaced, SenderIsReplaced, ControlsAreSpelledSo, ControlsReadBack, NoBodyForTwo, AnswersReadBack, NoBodyForTwoAnswers, CutIsLongest, NoOtherCut, CutsJoin, ParsesJoin, SentStays, ControlIsSent, ProxyIsSent, NothingMoreIsSent, ServerIsReceived};

/// What reads as a message is a payload of it, and each payload of it reads as it.
pub fn messages_and_their_payloads()
    ensures spelled { MessagesAreSpelledSo }
    ensures read_back { MessagesReadBack }
    ensures no_two { NoPayloadForTwo }
{}

/// The channel numbers stand at their places, and with one of them replaced in place a payload
/// reads as the same message but for that number.
pub fn channel_numbers_in_a_payload()
    ensures stand { NumbersStand }
    ensures recipient { RecipientIsReplaced }
    ensures sender { SenderIsReplaced }
{}

/// What reads as a control message is a body of it, and each body of it reads as it.
pub fn control_messages_and_their_bodies()
    ensures spelled { ControlsAreSpelledSo }
    ensures read_back { ControlsReadBack }
    ensures no_two { NoBodyForTwo }
{}

/// What a master sends reads as it.
pub fn answers_and_their_bodies()
    ensures read_back { AnswersReadBack }
    ensures no_two { NoBodyForTwoAnswers }
{}

/// A cut gives the longest list of valid frames, and pieces that come later only add to it.
pub fn frames_of_a_stream()
    ensures longest { CutIsLongest }
    ensures no_other { NoOtherCut }
    ensures join { CutsJoin }
{}

/// What a client sends by pieces is what it sends by all its bytes: control messages, and after the
/// one that begins the proxy payloads.
pub fn what_is_sent_by_bytes()
    ensures join { ParsesJoin }
    ensures stays { SentStays }
    ensures control { ControlIsSent }
    ensures proxy { ProxyIsSent }
    ensures nothing_more { NothingMoreIsSent }
    ensures server { ServerIsReceived }
{}
