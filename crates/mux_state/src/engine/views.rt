//! What an engine shows, and what is removed from it.

ghost use Rattle.std.specs.Prelude.{◌≡◌, ◌≤◌, ◌++◌, [], length, filter, List, ℕ, Bool, false, None};
ghost use Rattle.ssh_fields.specs.Fields.{AreBytes};
ghost use Rattle.mux_outside.specs.Streams.{among};
ghost use Rattle.mux_outside.specs.declared.mark.Mark.{Mark as TheMark};
ghost use Rattle.mux_outside.specs.declared.mark.Mark.TheVariants.{Takes};
ghost use Rattle.mux_outside.specs.declared.house.HouseReply.{HouseReply as TheReply};
ghost use Rattle.mux_history.specs.Rows.{losses};
ghost use Rattle.mux_history.specs.Log.{open_matters};
ghost use Rattle.mux_history.specs.Pending.{pending};
ghost use Rattle.mux_history.specs.Promises.{is_still_accepting, has_output};
ghost use Rattle.mux_history.specs.Journal.{IsLawful};
ghost use Rattle.mux_bounds.specs.Bounds.{longest_rest};
ghost use Rattle.mux_state.specs.Bounds.{QueueShort};
ghost use Rattle.mux_state.specs.Stands.{Closes, GoesAlone, IsFirstLost, RepresentsSoFar, log, not_closed};
ghost use Rattle.mux_state.specs.State.{closed_by, first_lost_client, queue_in, rest_in, took_and_listed, waiting_streams};

use super::Engine;
use crate::streams::*;
use mux_history::{Ended, Why};
use mux_outside::Streams;

impl Engine {
    /// The bytes that wait for a stream.
    pub fn queue_of(&self, stream: u64) -> &[u8]
        ensures exact { result.now ≡ queue_in self.now stream }
        ensures bytes { AreBytes result.now }
        ensures waits { (picked : List ℕ) (given : List TheReply) (marks : List TheMark)
            (closed : List ℕ) → RepresentsSoFar picked given self.now marks closed
            → among stream closed ≡ false → (picks : List ℕ) (replies : List TheReply)
            → result.now ≡ pending stream
            (log self.now (picked ++ picks) (given ++ replies) marks) }
        ensures bounded { (picked : List ℕ) (given : List TheReply) (marks : List TheMark)
            (closed : List ℕ) → RepresentsSoFar picked given self.now marks closed → IsLawful marks
            → among stream closed ≡ false
            → QueueShort picked given self.now marks stream result.now }
    {
        // Named first: what a name holds is known to be bytes.
        let bytes = self.do_queue_of(stream);
        bytes
    }

    pub(crate) fn do_queue_of(&self, stream: u64) -> &[u8]
        ensures { result.now ≡ queue_in self.now stream }
    {
        if stream == 0 {
            return self.up.front();
        }
        self.clients.queue_of(stream)
    }

    /// So many bytes that wait for a stream were accepted.
    pub fn took(&mut self, stream: u64, n: usize)
        requires { n ≤ length (queue_in self.old stream) }
        ensures exact { self.new ≡ took_and_listed self.old stream n }
        ensures stands { (bytes : List ℕ) (accepts : Bool) → length bytes ≡ n
            → GoesAlone self.old self.new (Takes stream bytes accepts) }
    {
        if take(&mut self.up, &mut self.clients, stream, n) {
            self.waiting.remove(stream);
        }
    }

    /// How many bytes that a stream gave are not cut yet: less than the longest frame has, and none
    /// at the end of the run.
    pub fn rest_of(&self, stream: u64) -> usize
        ensures exact { result ≡ length (rest_in self.now stream) }
        ensures short { (picked : List ℕ) (given : List TheReply) (marks : List TheMark)
            (closed : List ℕ) → RepresentsSoFar picked given self.now marks closed → result ≤ longest_rest }
    {
        if self.ended.is_some() {
            return 0;
        }
        if stream == 0 {
            return self.server.rest_len();
        }
        self.clients.rest_of(stream)
    }

    /// The streams for which bytes wait: the server's first, then the clients' in the order in
    /// which they came.
    pub fn waiting(&self) -> &Streams
        ensures exact { result.now ≡ self.now.waiting }
        ensures waits { (picked : List ℕ) (given : List TheReply) (marks : List TheMark)
            (closed : List ℕ) → RepresentsSoFar picked given self.now marks closed → (t : ℕ)
            → among t closed ≡ false → (picks : List ℕ) (replies : List TheReply)
            → among t result.now ≡ has_output
            (log self.now (picked ++ picks) (given ++ replies) marks) t }
        ensures listed { (picked : List ℕ) (given : List TheReply) (marks : List TheMark)
            (closed : List ℕ) → RepresentsSoFar picked given self.now marks closed
            → result.now ≡ waiting_streams self.now }
    {
        &self.waiting
    }

    /// Whether clients are to be accepted.
    pub fn listening(&self) -> bool
        ensures exact { result ≡ self.now.listening }
        ensures stands { (picked : List ℕ) (given : List TheReply) (marks : List TheMark)
            (closed : List ℕ) → RepresentsSoFar picked given self.now marks closed
            → (picks : List ℕ) (replies : List TheReply)
            → result ≡ is_still_accepting (log self.now (picked ++ picks) (given ++ replies) marks) }
    {
        self.listening
    }

    /// How the run ended, if it did.
    pub fn ended(&self) -> Option<Ended>
        ensures exact { result ≡ self.now.ended }
    {
        self.ended
    }

    /// How many clients have open matters, while the run goes on: channels, requests without a
    /// reply, forwardings, or a stream.
    pub fn open_matters(&self) -> u32
        ensures stands { (picked : List ℕ) (given : List TheReply) (marks : List TheMark)
            (closed : List ℕ) → RepresentsSoFar picked given self.now marks closed → self.now.ended ≡ None
            → (picks : List ℕ) (replies : List TheReply)
            → result ≡ open_matters (log self.now (picked ++ picks) (given ++ replies) marks) }
    {
        self.core.open_matters()
    }

    /// The client that was lost or refused first of those that were not closed, with the cause for
    /// which it was dropped, if it was.
    pub fn closing(&self) -> Option<(u64, Option<Why>)>
        ensures exact { result ≡ first_lost_client self.now.leaving }
        ensures stands { (picked : List ℕ) (given : List TheReply) (marks : List TheMark)
            (closed : List ℕ) → RepresentsSoFar picked given self.now marks closed
            → (picks : List ℕ) (replies : List TheReply)
            → result ≡ first_lost_client (filter (not_closed closed)
            (losses (log self.now (picked ++ picks) (given ++ replies) marks))) }
        ensures none { self.now.leaving ≡ [] → self.now.refused ≡ [] }
    {
        self.clients.closing()
    }

    /// The stream of the client that `closing` shows was closed: nothing waits for it any more.
    pub fn closed(&mut self, client: u64)
        requires { IsFirstLost client self.old.leaving }
        ensures exact { self.new ≡ closed_by self.old client }
        ensures stands { Closes self.old self.new client }
    {
        self.clients.close(client);
        self.refused.remove(client);
        self.waiting.remove(client);
    }
}
