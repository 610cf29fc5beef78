ghost use Rattle.std.specs.Prelude.{◌≡◌, ◌∷◌, ◌++◌, ◌≤◌, ℕ, false, [], List, filter, length, take, OnOk, IfOk, IsSome, IsTrue, Ok};
ghost use Rattle.mux_outside.specs.OwnStreams.{is_one, is_finished, numbers_of};
ghost use Rattle.mux_outside.specs.declared.house.HouseReply.{HouseReply as TheReply};
ghost use Rattle.mux_outside.specs.House.{HouseState as TheState, Gave, GaveOr, IsBlank, IsFresh, OffersSame, recorded_more};
ghost use Rattle.mux_outside.specs.House.{ask_marks, known_after_ask, AnswerFits, answer_marks, known_after_answer, gives_none};
ghost use Rattle.mux_outside.specs.House.{SendsFits, sends_marks, sends_nothing, takes_marks};
ghost use Rattle.mux_outside.specs.House.{OrderFits, order_marks, known_after_order, HouseNumberFits, ordered_marks, known_after_ordered};
ghost use Rattle.mux_outside.specs.House.{OwnTurnFits, known_after_own_turn, has_waiting, queue_after_took};
ghost use Rattle.mux_outside.specs.HouseCalls.{HouseCall as TheCall, Begins, Receives, HandsOn, Takes, Turns, happening_of};
ghost use Rattle.mux_outside.specs.Greeting.{GreetsFirst};

use crate::order::Order;
use crate::own_turn::OwnTurn;
use crate::piece::Piece;
use crate::starts::Starts;
use crate::streams::Streams;
use ssh_fields::OutOfMemory;

/// What a client requests of the master's own forwardings (PROTOCOL.mux, MUX_C_OPEN_FWD and
/// MUX_C_CLOSE_FWD).
#[derive(Clone, Copy)]
pub struct FwdAsk<'a> {
    /// 1 for a local forwarding, 2 for a remote and 3 for a dynamic one.
    pub kind: u32,
    pub listen_host: &'a [u8],
    pub listen_port: u32,
    pub connect_host: &'a [u8],
    pub connect_port: u32,
}

/// The answer to a client's ask.
#[derive(Clone, Copy, PartialEq, Eq)]
pub enum HouseReply {
    /// It is done.
    Done,
    /// It is done, and the server chose this port.
    Port(u32),
    /// It is refused.
    Refused,
    /// It is answered later.
    Later,
}

/// What clients ask of the master's own forwardings.
pub trait Asks {
    /// The replies that may be given at once.
    ghost may: { TheReply → Type 0 };

    /// What is known of the forwarder.
    ghost state: { Self → TheState };

    /// Opens a forwarding for a client, or closes one where `opening` is false.
    fn ask(
        &mut self,
        client: u64,
        id: u32,
        opening: bool,
        what: &FwdAsk<'_>,
    ) -> Result<HouseReply, OutOfMemory>
        requires { (state self.old).known.ordering ≡ None }
        ensures may { IfOk result may }
        ensures gave { GaveOr result (ask_marks result client id opening what.now)
            (λ reply. known_after_ask reply client id opening) (state self.old) (state self.new) };
}

/// The master's own forwardings: a client of the connection that has no stream of its own, but
/// listeners and streams on this machine's side.
///
/// A call that finds no memory answers so, and then nothing but the room for what it recorded is
/// known of the forwarder.
pub trait House: Asks {
    /// It was never called.
    ghost fresh: { Self → Type 0 };

    /// `begin` alone was called.
    ghost begun: { Self → Type 0 };

    /// Whether there is a forwarder at all. Where there is none, it is only asked. The first piece
    /// that one sends is the greeting.
    fn present(&self) -> bool
        ensures present { result ≡ (Self.state self.now).known.present }
        ensures fresh { fresh self.now → IsFresh (Self.state self.now) }
        ensures begun { begun self.now
            → IsBlank (Self.state self.now).known (Self.state self.now).recorded }
        ensures greets { IsTrue (Self.state self.now).known.present → (calls : List TheCall)
            → (Self.state self.now).stands calls → GreetsFirst calls };

    /// Takes what is asked for at the start.
    fn begin(&mut self, starts: &Starts) -> Result<(), OutOfMemory>
        requires { fresh self.old }
        ensures begun { OnOk result (begun self.new) }
        ensures known { OnOk result
            ((Self.state self.new).known ≡ (Self.state self.old).known) }
        ensures must { OnOk result (IsTrue (Self.state self.old).known.present
            → (Self.state self.new).must ≡ starts.now.must) }
        ensures recorded { (Self.state self.new).recorded ≡ (Self.state self.old).recorded }
        ensures stands { OnOk result ((Self.state self.old).stands []
            → (Self.state self.new).stands (Begins starts.now ∷ [])) };

    /// The next reply to a request that was to get it later.
    fn answer(&mut self) -> Option<(u64, u32, HouseReply)>
        requires { (Self.state self.old).known.ordering ≡ None }
        ensures fits { AnswerFits result (Self.state self.old).known.asks }
        ensures exact { gives_none result ≡ (Self.state self.old).quiet.answers }
        ensures still { result ≡ None → OffersSame (Self.state self.old) (Self.state self.new) }
        ensures gave { Gave (answer_marks result) (known_after_answer result)
            (Self.state self.old) (Self.state self.new) };

    /// What it sends next as a client, if anything.
    fn says(&mut self, into: &mut Piece) -> Result<bool, OutOfMemory>
        requires { (Self.state self.old).known.ordering ≡ None }
        ensures fits { SendsFits result into.new }
        ensures exact { OnOk result (sends_nothing result ≡ (Self.state self.old).quiet.says) }
        ensures still { result ≡ Ok false
            → OffersSame (Self.state self.old) (Self.state self.new) }
        ensures gave { GaveOr result (sends_marks result into.new) (λ said known. known)
            (Self.state self.old) (Self.state self.new) };

    /// Takes what is written to it as a client.
    fn takes(&mut self, bytes: &[u8]) -> Result<(), OutOfMemory>
        requires { (Self.state self.old).known.ordering ≡ None }
        ensures known { OnOk result
            ((Self.state self.new).known ≡ (Self.state self.old).known) }
        ensures must { (Self.state self.new).must ≡ (Self.state self.old).must }
        ensures recorded { (Self.state self.new).recorded
            ≡ recorded_more (takes_marks result bytes.now) (Self.state self.old).recorded }
        ensures stands { OnOk result (HandsOn (Self.state self.old).stands
            (Self.state self.new).stands (Receives bytes.now ∷ [])) };

    /// What it orders next of the wire, if anything. After a Listen or a Connect its next call is
    /// `ordered`.
    fn order(&mut self) -> Option<Order>
        requires { (Self.state self.old).known.ordering ≡ None }
        ensures fits { OrderFits result (Self.state self.old).known }
        ensures exact { gives_none result ≡ (Self.state self.old).quiet.orders }
        ensures still { result ≡ None → OffersSame (Self.state self.old) (Self.state self.new) }
        ensures gave { Gave (order_marks result) (known_after_order result)
            (Self.state self.old) (Self.state self.new) };

    /// The number of what was ordered, and none where that failed.
    fn ordered(&mut self, number: Option<u64>)
        requires ordering { IsSome (Self.state self.old).known.ordering }
        requires fits { HouseNumberFits number (Self.state self.old).known }
        ensures gave { Gave (ordered_marks (Self.state self.old).known.ordering number)
            (known_after_ordered number) (Self.state self.old) (Self.state self.new) };

    /// What happened to one of its listeners or streams.
    fn turn(&mut self, t: OwnTurn<'_>) -> Result<(), OutOfMemory>
        requires ordering { (Self.state self.old).known.ordering ≡ None }
        requires fits { OwnTurnFits t (Self.state self.old).known (Self.state self.old).quiet }
        ensures known { OnOk result ((Self.state self.new).known
            ≡ known_after_own_turn t.entry (Self.state self.old).known) }
        ensures must { (Self.state self.new).must ≡ (Self.state self.old).must }
        ensures recorded { (Self.state self.new).recorded ≡ (Self.state self.old).recorded }
        ensures stands { OnOk result (HandsOn (Self.state self.old).stands
            (Self.state self.new).stands (Turns (happening_of t.entry) ∷ [])) };

    /// What waits for a stream.
    fn queue_of(&self, stream: u64) -> &[u8]
        ensures queue { result.now ≡ (Self.state self.now).queue stream }
        ensures own { is_one stream (Self.state self.now).known.streams ≡ false
            → result.now ≡ [] }
        ensures finished { IsTrue (is_finished stream (Self.state self.now).known.streams)
            → result.now ≡ [] };

    /// Adds those of its streams for which something waits, but for these that failed.
    fn list_waiting(&self, failed: &Streams, into: &mut Streams) -> Result<(), OutOfMemory>
        ensures { OnOk result (into.new ≡ into.old
            ++ filter (has_waiting (Self.state self.now).queue failed.now)
            (numbers_of (Self.state self.now).known.streams)) };

    /// A stream accepted so many bytes of what waits for it.
    fn took(&mut self, stream: u64, n: usize)
        requires ordering { (Self.state self.old).known.ordering ≡ None }
        requires fits { n ≤ length ((Self.state self.old).queue stream) }
        ensures known { (Self.state self.new).known ≡ (Self.state self.old).known }
        ensures queues { (t : ℕ) → (Self.state self.new).queue t
            ≡ queue_after_took stream n t ((Self.state self.old).queue t) }
        ensures must { (Self.state self.new).must ≡ (Self.state self.old).must }
        ensures recorded { (Self.state self.new).recorded ≡ (Self.state self.old).recorded }
        ensures stands { HandsOn (Self.state self.old).stands (Self.state self.new).stands
            (Takes stream (take n ((Self.state self.old).queue stream)) ∷ []) };

    /// The first of the forwardings asked for at the start that was refused, if any was.
    fn refused_start(&self) -> Option<usize>
        ensures { result ≡ (Self.state self.now).refused };

    /// Whether the run ends where one of them is refused.
    fn must(&self) -> bool
        ensures { result ≡ (Self.state self.now).must };
}
