ghost use Rattle.std.specs.Prelude.{◌≡◌, ◌≤◌, length, IfOk, IfSome, OnErr};
ghost use Rattle.ssh_fields.specs.Fields.{AreBytes};
ghost use Rattle.ssh_grammar.specs.declared.framing.Framing.TheVariants.{Proxy};
ghost use Rattle.ssh_grammar.specs.IsFrame.{IsContent};
ghost use Rattle.proxy_frames.specs.declared.queue.TheConstants.{LONGEST_PAYLOAD};
ghost use Rattle.conn_messages.specs.declared.write.TheConstants.{LONGEST_TEXT};
ghost use Rattle.mux_history.specs.Summary.{Confirmation, Fails, Within};
ghost use Rattle.window_ledger.specs.Act.{summary_act_of};
ghost use Rattle.mux_core.specs.Calls.{VerdictFits, SendsAs, CoreSendsOn, SendsSome, StartsOn};
ghost use Rattle.conn_messages.specs.Message.{opening_of};
ghost use Rattle.mux_core.specs.Opening.{fails_with, open_verdict};

use crate::reading::{Summary, read_summary};
use crate::state::{Core, are_bytes, confirmed_ledger, put_sender};
use crate::verdict::Verdict;
use channel_table::Refused;
use conn_messages::{Opening, open_failure};
use mux_history::Why;
use proxy_frames::Queue;
use ssh_fields::OutOfMemory;
use ssh_grammar::Side;
use ssh_grammar::numbers::*;
use window_ledger::{Act, Ledger};

// The answer to an open that fails.
fn refuse(sender: u32, reason: u32, text: &[u8]) -> Verdict
    requires { length text.now ≤ LONGEST_TEXT }
    ensures { result ≡ fails_with sender reason text.now }
{
    Verdict::Answer(open_failure(sender, reason, text))
}

impl Core {
    /// A client that is served sends a payload. A `Drop` changes nothing: the next call is `gone`,
    /// which completes the row.
    pub fn said(
        &mut self,
        client: u64,
        payload: &mut [u8],
        up: &mut Queue,
    ) -> Result<Verdict, OutOfMemory>
        requires { length payload.old ≤ LONGEST_PAYLOAD }
        ensures stands { IfOk result (λ v.
            CoreSendsOn self.old self.new client payload.old up.old up.new v) }
        ensures fits { IfOk result VerdictFits }
        ensures spare { up.old.spare ≤ up.new.spare }
        ensures policy { self.new.policy ≡ self.old.policy }
        ensures err { OnErr result (up.new ≡ up.old) }
    {
        are_bytes(payload);
        let (sender, window, maximum) = match read_summary(payload) {
            Err(bad) => return Ok(Verdict::Drop(Why::BadMessage(bad))),
            Ok(Summary::Transport { number: DISCONNECT }) => {
                return Ok(Verdict::Drop(Why::Disconnected));
            }
            Ok(Summary::Transport { .. }) => return Ok(Verdict::Silent),
            Ok(Summary::Succeeds { .. }) => {
                return Ok(Verdict::Drop(Why::Unasked {
                    number: REQUEST_SUCCESS,
                }));
            }
            Ok(Summary::Refuses) => {
                return Ok(Verdict::Drop(Why::Unasked {
                    number: REQUEST_FAILURE,
                }));
            }
            Ok(Summary::Requests { what, want }) => {
                return self.send_request(client, payload, what, want, up);
            }
            Ok(Summary::Fails { recipient }) => {
                return self.send_failure(client, payload, recipient, up);
            }
            Ok(Summary::Within { recipient, act }) => {
                return self.send_within(client, payload, recipient, act, up);
            }
            Ok(
                Summary::Confirmation {
                    recipient,
                    sender,
                    window,
                    maximum,
                },
            ) => {
                return self.send_confirmation(
                    client, payload, recipient, sender, window, maximum, up,
                );
            }
            Ok(
                Summary::Open {
                    what,
                    sender,
                    window,
                    maximum,
                },
            ) => {
                if let Some(verdict) = self.judge_open(client, sender, &what) {
                    return Ok(verdict);
                }
                (sender, window, maximum)
            }
        };
        self.start(client, payload, sender, window, maximum, up)
    }

    // ---- opens

    // The verdict on an open that isn't sent, whatever room there is.
    fn judge_open(&self, client: u64, sender: u32, what: &Opening<'_>) -> Option<Verdict>
        ensures exact { result ≡ open_verdict self.now client sender (opening_of what.now) }
        ensures fits { IfSome result VerdictFits }
    {
        if self.uses_own(client, sender) {
            return Some(Verdict::Drop(Why::OwnInUse { number: sender }));
        }
        let permitted = match what {
            Opening::Session => self.permits_sessions(),
            Opening::Direct(key) => self.permits_open(*key),
            Opening::Forwarded(_) | Opening::Other => {
                return Some(refuse(sender, UNKNOWN_CHANNEL_TYPE, b"unknown channel type"));
            }
        };
        if permitted {
            None
        } else {
            Some(refuse(sender, ADMINISTRATIVELY_PROHIBITED, b"not permitted"))
        }
    }

    // An open that may be sent, where the client has room for a channel.
    fn start(
        &mut self,
        client: u64,
        payload: &mut [u8],
        sender: u32,
        window: u32,
        maximum: u32,
        up: &mut Queue,
    ) -> Result<Verdict, OutOfMemory>
        requires content { IsContent Proxy payload.old }
        requires bytes { AreBytes payload.old }
        ensures stands { IfOk result (λ v.
            StartsOn self.old self.new client payload.old sender window maximum up.old up.new v) }
        ensures fits { IfOk result VerdictFits }
        ensures spare { up.new.spare ≡ up.old.spare }
        ensures policy { self.new.policy ≡ self.old.policy }
        ensures err { OnErr result (up.new ≡ up.old) }
    {
        let ledger = Ledger::opened(Side::Up, window, maximum);
        let number = match self.add_own(client, sender, ledger) {
            Ok(number) => number,
            Err(Refused::OutOfMemory) => return Err(OutOfMemory),
            Err(Refused::Full { .. }) => {
                return Ok(refuse(sender, RESOURCE_SHORTAGE, b"too many channels"));
            }
            Err(Refused::OwnInUse | Refused::RemoteInUse { .. }) => {
                return Ok(Verdict::Drop(Why::OwnInUse { number: sender }));
            }
        };
        put_sender(payload, number);
        up.push_payload(payload)?;
        Ok(Verdict::Sent)
    }

    // A client confirms a server's open.
    fn send_confirmation(
        &mut self,
        client: u64,
        payload: &mut [u8],
        remote: u32,
        sender: u32,
        window: u32,
        maximum: u32,
        up: &mut Queue,
    ) -> Result<Verdict, OutOfMemory>
        requires content { IsContent Proxy payload.old }
        requires bytes { AreBytes payload.old }
        ensures stands { IfOk result (λ v.
            SendsSome self.old self.new client payload.old
            (Confirmation remote sender window maximum) up.old up.new v) }
        ensures fits { IfOk result VerdictFits }
        ensures spare { up.new.spare ≡ up.old.spare }
        ensures policy { self.new.policy ≡ self.old.policy }
        ensures err { OnErr result (up.new ≡ up.old) }
    {
        let Some((number, ledger)) = self.waiting_for(client, remote) else {
            return Ok(Verdict::Drop(Why::NotYours { number: remote }));
        };
        if !self.name_own(number, sender)? {
            return Ok(Verdict::Drop(Why::OwnInUse { number: sender }));
        }
        put_sender(payload, number);
        up.push_payload(payload)?;
        self.set_ledger(number, confirmed_ledger(ledger, window, maximum));
        Ok(Verdict::Sent)
    }

    // A client refuses a server's open.
    fn send_failure(
        &mut self,
        client: u64,
        payload: &[u8],
        remote: u32,
        up: &mut Queue,
    ) -> Result<Verdict, OutOfMemory>
        requires { IsContent Proxy payload.now }
        ensures stands { IfOk result (λ v.
            SendsAs self.old self.new client payload.now (Within remote Fails) 0 up.old up.new v) }
        ensures fits { IfOk result VerdictFits }
        ensures spare { up.new.spare ≡ up.old.spare }
        ensures policy { self.new.policy ≡ self.old.policy }
        ensures err { OnErr result (up.new ≡ up.old) }
    {
        let Some((number, _)) = self.waiting_for(client, remote) else {
            return Ok(Verdict::Drop(Why::NotYours { number: remote }));
        };
        up.push_payload(payload)?;
        self.free(number);
        Ok(Verdict::Sent)
    }

    // What a client sends in a channel that both sides have confirmed.
    fn send_within(
        &mut self,
        client: u64,
        payload: &[u8],
        remote: u32,
        act: Act,
        up: &mut Queue,
    ) -> Result<Verdict, OutOfMemory>
        requires { IsContent Proxy payload.now }
        ensures stands { IfOk result (λ v.
            SendsAs self.old self.new client payload.now (Within remote (summary_act_of act)) 0
            up.old up.new v) }
        ensures fits { IfOk result VerdictFits }
        ensures spare { up.new.spare ≡ up.old.spare }
        ensures policy { self.new.policy ≡ self.old.policy }
        ensures err { OnErr result (up.new ≡ up.old) }
    {
        let Some((number, mut ledger)) = self.confirmed_for(client, remote) else {
            return Ok(Verdict::Drop(Why::NotYours { number: remote }));
        };
        if let Err(why) = ledger.take(Side::Up, act) {
            return Ok(Verdict::Drop(Why::Channel {
                number: remote,
                why,
            }));
        }
        up.push_payload(payload)?;
        self.put(number, ledger);
        Ok(Verdict::Sent)
    }
}
