//! How look-ups go on by one row, and what holds at every row of a right log: each function's
//! contract is the law.

ghost use Rattle.mux_history.specs.Laws.{OthersStay, LookUpsAreLocal, Locality, HeldGoesOn, AnswersOnlyGrow, AccountsGoOn, WrittenAddsUp, JournalsGiveRightLogs, NumbersAreApart, PicksAreTaken, RoomsNeverFall, OneIndexServes};
ghost use Rattle.mux_history.specs.Keys.{KeysAreRecordedApart};
ghost use Rattle.mux_history.specs.Wires.{WiresKeepTheLaw};
ghost use Rattle.mux_history.specs.Steps.{CurrentGoesOn, MattersGoOn, AskersGoOn, UnrepliedAreLocal, PendingGoesOn, TakesLeaveTheRest};

/// A row of another client leaves a client's rows as they were.
pub fn others_stay()
    ensures { OthersStay }
{}

/// A client's channels, forwardings and requests are those among all that are its own.
pub fn look_ups_are_local()
    ensures { LookUpsAreLocal }
{}

/// A client's row looks at nothing but the client's rows.
pub fn rows_are_local()
    ensures { Locality }
{}

/// The channels that are held go on by one row.
pub fn held_goes_on()
    ensures { HeldGoesOn }
{}

/// What a client was answered stays.
pub fn answers_only_grow()
    ensures { AnswersOnlyGrow }
{}

/// The rooms of a channel go on by one message.
pub fn accounts_go_on()
    ensures { AccountsGoOn }
{}

/// What a stream accepted and what waits for it make up what it is given.
pub fn written_adds_up()
    ensures { WrittenAddsUp }
{}

/// The log of a journal is right if its picks were fresh, and so is one that was cut as memory ran
/// out.
pub fn journals_give_right_logs()
    ensures { JournalsGiveRightLogs }
{}

/// At no row is a number held by two channels, nor one of the server's live in two.
pub fn numbers_are_apart()
    ensures { NumbersAreApart }
{}

/// The numbers that were used are the picks, in order.
pub fn picks_are_taken()
    ensures { PicksAreTaken }
{}

/// At no row was more carried in a channel than was granted, or more answered than was asked.
pub fn rooms_never_fall()
    ensures { RoomsNeverFall }
{}

/// A look-up among a client's channels by the server's number is the one among all channels.
pub fn one_index_serves()
    ensures { OneIndexServes }
{}

/// The forwardings that are asked or live go on by one row: of the client's rows nothing but the
/// places of its next request and of its next reply is looked at.
pub fn current_goes_on()
    ensures { CurrentGoesOn }
{}

/// How many clients have open matters goes on by one row: it changes where the matters of the row's
/// client open or close.
pub fn matters_go_on()
    ensures { MattersGoOn }
{}

/// The requests without a reply go on by one row: one that is sent joins at the end, a reply takes
/// the first.
pub fn askers_go_on()
    ensures { AskersGoOn }
{}

/// While the run goes on, a client's requests without a reply are those of all that are its own.
pub fn unreplied_are_local()
    ensures { UnrepliedAreLocal }
{}

/// What waits for each stream goes on by one row, which adds at the end and removes from the front.
pub fn pending_goes_on()
    ensures { PendingGoesOn }
{}

/// A take leaves its stream the rest of what waited, and the others what they had.
pub fn takes_leave_the_rest()
    ensures { TakesLeaveTheRest }
{}

/// What any wire records is a lawful journal, in which it reads and accepts only right after a wait
/// for that: each turn, each answer to a write and each close that its law allows keeps it so.
pub fn journals_of_wires_are_lawful()
    ensures { WiresKeepTheLaw }
{}

/// A key is identified by its kind, its bytes and its port; an address and a path never are the
/// same.
pub fn keys_are_recorded_apart()
    ensures { KeysAreRecordedApart }
{}
