ghost use Rattle.std.specs.Prelude.{◌≡◌, true, false, OnOk, OnErr};
ghost use Rattle.mux_history.specs.Summary.{Grants, Carries, Ends, Closes, Asks, Answers};
ghost use Rattle.mux_history.specs.Channels.{Channel, any_by, is_closes, is_confirmed};
ghost use Rattle.mux_history.specs.Ledger.{room};
ghost use Rattle.mux_history.specs.Laws.{with_act};
ghost use Rattle.ssh_grammar.specs.declared.side.Side.TheVariants.{Up};
ghost use Rattle.window_ledger.specs.Act.{summary_act_of};
ghost use Rattle.window_ledger.specs.Leaving.{is_account_over, ledger_after_close, left_state, has_sent_close};
ghost use Rattle.window_ledger.specs.Stands.{LedgerRepresents, IsSideBegun, Judges, LedgerGoesOn, IsConfirmed, AccountAddsUp, both_closed, is_open_confirmed};
ghost use Rattle.window_ledger.specs.Step.{judged, between, account_after, other_after, breach_in, state_after};

use crate::account::{Account, Speech, is_speech_closed};
use crate::act::Act;
use ssh_grammar::{Breach, Side};

/// How a channel stands.
#[derive(Clone, Copy, PartialEq, Eq)]
enum State {
    /// One side has opened it, with its own window and maximum; the other hasn't answered.
    Opened { by: Side, window: u32, maximum: u32 },
    /// Both sides may send.
    Confirmed { up: Account, down: Account },
}

// After an act, the account of its own direction and that of the other.
fn exchange(own: Account, other: Account, act: Act) -> Result<(Account, Account), Breach>
    ensures { result ≡ judged (between act own other) (account_after act own, other_after act other) }
{
    let own = own.says(act)?;
    let other = other.receives(act)?;
    Ok((own, other))
}

fn after(state: State, way: Side, act: Act) -> Result<State, Breach>
    ensures { result ≡ judged (breach_in way act state) (state_after way act state) }
{
    let State::Confirmed { up, down } = state else {
        return Err(Breach::NotOpen);
    };
    match way {
        Side::Up => {
            let (up, down) = exchange(up, down, act)?;
            Ok(State::Confirmed { up, down })
        }
        Side::Down => {
            let (down, up) = exchange(down, up, act)?;
            Ok(State::Confirmed { up, down })
        }
    }
}

// After the client's CLOSE, in a channel that is confirmed.
fn left(state: State) -> State
    ensures { result ≡ left_state state }
{
    match state {
        State::Opened { .. } => state,
        State::Confirmed { up, down } => State::Confirmed {
            up: Account {
                speech: Speech::Closed,
                ..up
            },
            down,
        },
    }
}

/// The account of one channel. `way` is the direction of a message.
#[derive(Clone, Copy, PartialEq, Eq)]
pub struct Ledger {
    state: State,
}

impl Ledger {
    /// A channel that a side has opened, with the window and the maximum that its OPEN carries.
    pub fn opened(by: Side, window: u32, max: u32) -> Ledger
        ensures stands { (x : Channel) → IsSideBegun by window max x → LedgerRepresents result x }
        ensures confirmed { is_open_confirmed result ≡ false }
    {
        Ledger {
            state: State::Opened {
                by,
                window,
                maximum: max,
            },
        }
    }

    /// Whether the open was confirmed.
    pub fn confirmed(&self) -> bool
        ensures test { result ≡ is_open_confirmed self.now }
        ensures exact { (x : Channel) → LedgerRepresents self.now x → result ≡ is_confirmed x }
    {
        match self.state {
            State::Opened { .. } => false,
            State::Confirmed { .. } => true,
        }
    }

    /// The other side's CONFIRMATION, with the window and the maximum that it carries.
    pub fn confirm(&mut self, window: u32, max: u32)
        requires { is_open_confirmed self.old ≡ false }
        ensures stands { IsConfirmed self.old self.new window max }
        ensures confirmed { is_open_confirmed self.new ≡ true }
    {
        let State::Opened {
            by,
            window: first,
            maximum,
        } = self.state
        else {
            unreachable!()
        };
        let to_opener = Account::new(first, maximum);
        let from_opener = Account::new(window, max);
        self.state = match by {
            Side::Up => State::Confirmed {
                up: from_opener,
                down: to_opener,
            },
            Side::Down => State::Confirmed {
                up: to_opener,
                down: from_opener,
            },
        };
    }

    /// Any of the messages below, for a caller that has distinguished them already. The master is
    /// such a one: of these seven calls it makes this one alone.
    pub fn take(&mut self, way: Side, act: Act) -> Result<(), Breach>
        ensures exact { Judges self.old way (summary_act_of act) result }
        ensures ok { OnOk result (LedgerGoesOn self.old self.new way (summary_act_of act)) }
        ensures unchanged { OnErr result (self.new ≡ self.old) }
        ensures confirmed { is_open_confirmed self.new ≡ is_open_confirmed self.old }
    {
        self.state = after(self.state, way, act)?;
        Ok(())
    }

    /// DATA or EXTENDED_DATA of `len` bytes (RFC 4254, section 5.2).
    pub fn data(&mut self, way: Side, len: u32) -> Result<(), Breach>
        ensures exact { Judges self.old way (Carries len) result }
        ensures ok { OnOk result (LedgerGoesOn self.old self.new way (Carries len)) }
        ensures unchanged { OnErr result (self.new ≡ self.old) }
        ensures confirmed { is_open_confirmed self.new ≡ is_open_confirmed self.old }
    {
        self.take(way, Act::Data(len))
    }

    /// WINDOW_ADJUST by `n` bytes: room for the other direction (RFC 4254, section 5.2).
    pub fn grant(&mut self, way: Side, n: u32) -> Result<(), Breach>
        ensures exact { Judges self.old way (Grants n) result }
        ensures ok { OnOk result (LedgerGoesOn self.old self.new way (Grants n)) }
        ensures unchanged { OnErr result (self.new ≡ self.old) }
        ensures confirmed { is_open_confirmed self.new ≡ is_open_confirmed self.old }
    {
        self.take(way, Act::Grant(n))
    }

    /// EOF (RFC 4254, section 5.3).
    pub fn eof(&mut self, way: Side) -> Result<(), Breach>
        ensures exact { Judges self.old way Ends result }
        ensures ok { OnOk result (LedgerGoesOn self.old self.new way Ends) }
        ensures unchanged { OnErr result (self.new ≡ self.old) }
        ensures confirmed { is_open_confirmed self.new ≡ is_open_confirmed self.old }
    {
        self.take(way, Act::Eof)
    }

    /// CLOSE (RFC 4254, section 5.3).
    pub fn close(&mut self, way: Side) -> Result<(), Breach>
        ensures exact { Judges self.old way Closes result }
        ensures ok { OnOk result (LedgerGoesOn self.old self.new way Closes) }
        ensures unchanged { OnErr result (self.new ≡ self.old) }
        ensures confirmed { is_open_confirmed self.new ≡ is_open_confirmed self.old }
    {
        self.take(way, Act::Close)
    }

    /// A channel request; `want` is whether it wants a reply (RFC 4254, section 5.4).
    pub fn request(&mut self, way: Side, want: bool) -> Result<(), Breach>
        ensures exact { Judges self.old way (Asks want) result }
        ensures ok { OnOk result (LedgerGoesOn self.old self.new way (Asks want)) }
        ensures unchanged { OnErr result (self.new ≡ self.old) }
        ensures confirmed { is_open_confirmed self.new ≡ is_open_confirmed self.old }
    {
        self.take(way, Act::Request(want))
    }

    /// SUCCESS or FAILURE of a channel request of the other direction (RFC 4254, section 5.4).
    pub fn reply(&mut self, way: Side) -> Result<(), Breach>
        ensures exact { Judges self.old way Answers result }
        ensures ok { OnOk result (LedgerGoesOn self.old self.new way Answers) }
        ensures unchanged { OnErr result (self.new ≡ self.old) }
        ensures confirmed { is_open_confirmed self.new ≡ is_open_confirmed self.old }
    {
        self.take(way, Act::Reply)
    }

    /// Whether both sides have sent CLOSE.
    pub fn closed(&self) -> bool
        ensures test { result ≡ is_account_over self.now }
        ensures exact { (x : Channel) → LedgerRepresents self.now x → result ≡ both_closed x }
    {
        match self.state {
            State::Opened { .. } => false,
            State::Confirmed { up, down } => is_speech_closed(up.speech)
                && is_speech_closed(down.speech),
        }
    }

    /// Whether the client has sent CLOSE.
    pub fn sent_close(&self) -> bool
        ensures test { result ≡ has_sent_close self.now }
        ensures exact { (x : Channel) → LedgerRepresents self.now x → result ≡ any_by Up is_closes x.acts }
    {
        match self.state {
            State::Opened { .. } => false,
            State::Confirmed { up, .. } => is_speech_closed(up.speech),
        }
    }

    /// What a client that is lost leaves: in a channel that is confirmed its CLOSE.
    pub fn left(self) -> Ledger
        ensures value { result ≡ ledger_after_close self }
        ensures closes { (x : Channel) → LedgerRepresents self x → is_open_confirmed self ≡ true
            → any_by Up is_closes x.acts ≡ false → LedgerRepresents result (with_act Up Closes x) }
        ensures again { (x : Channel) → LedgerRepresents self x → any_by Up is_closes x.acts ≡ true
            → LedgerRepresents result x }
        ensures opened { is_open_confirmed self ≡ false → result ≡ self }
    {
        Ledger {
            state: left(self.state),
        }
    }

    /// How many bytes of data the receiver of a direction accepts for now. Before the CONFIRMATION
    /// that is the opener's window towards the opener, and nothing the other way.
    pub fn room(&self, way: Side) -> u32
        ensures exact { (x : Channel) → LedgerRepresents self.now x → result ≡ room way x }
        // No room falls below zero: what is left and what was carried make up all that was granted.
        ensures sums { (x : Channel) → LedgerRepresents self.now x → AccountAddsUp result way x }
    {
        match (self.state, way) {
            (State::Confirmed { up, .. }, Side::Up) => up.room,
            (State::Confirmed { down, .. }, Side::Down) => down.room,
            (State::Opened { by, window, .. }, _) => { if by == way { 0 } else { window } }
        }
    }
}
