ghost use Rattle.std.specs.Prelude.{◌≡◌, ◌+◌, ◌-◌, ◌≤◌, ◌++◌, length, min, take};
ghost use Rattle.ssh_fields.specs.Fields.{AreBytes};
ghost use Rattle.socks_dialog.specs.Replies.{granted_to, refused_to};
ghost use Rattle.socks_dialog.specs.State.{dialog_bytes, AreBytesWithin, new_dialog, dialog_pushed, step_of, dialog_stepped, HasConnect, GivesConnect, version_of, new_dialog_history, DialogRepresents, DialogGoesOn, and_dialog_bytes, and_step, IsNextStep, RestIs};

use crate::outcome::Outcome;
use crate::read::read;
use crate::replies::{granted_in, method_taken, refused_in};
use crate::step::DialogStep;
use ssh_fields::Small;
use std::marker::Model;

/// How many bytes a dialog has at most: SOCKS 4 with a user and a host of 255 bytes each.
pub const LONGEST_DIALOG: usize = 520;

/// A SOCKS dialog, by the bytes of it that came so far.
#[derive(Drop)]
pub struct Dialog {
    bytes: [u8; LONGEST_DIALOG],
    /// How many of them are the dialog's so far.
    kept: usize,
    /// Whether the reply to the client's methods was given.
    replied: bool,
}

impl Model for Dialog {
    ghost use Rattle.std.specs.Prelude.{◌≤◌, take};
    ghost use Rattle.socks_dialog.specs.State.{DialogState, count_given, AreBytesWithin};

    ghost Value = { DialogState };

    ghost view = { λ d. record { bytes = take d.kept d.bytes; given = count_given d.replied } };

    ghost invariant = { λ d. AreBytesWithin d.kept (take d.kept d.bytes) };
}

// Writes as many bytes as there is room for from a place on: where they end.
fn put(room: &mut [u8], at: usize, bytes: &[u8]) -> usize
    requires { at ≤ length room.old }
    ensures end { result ≡ at + min (length bytes.now) (length room.old - at) }
    ensures bytes { take result room.new ≡ take at room.old ++ take (result - at) bytes.now }
{
    let count = bytes.len().min(room.len() - at);
    let end = at + count;
    room[at..end].copy_from_slice(&bytes[..count]);
    end
}

// How many of the bytes are the dialog's.
fn count_in_dialog(bytes: &[u8]) -> usize
    ensures count { result ≡ length (dialog_bytes bytes.now) }
    ensures bytes { AreBytes bytes.now }
{
    bytes.len() - read(bytes).rest
}

// Writes more bytes after those of a dialog: how many of all are the dialog's.
fn put_behind(room: &mut [u8], kept: usize, bytes: &[u8]) -> usize
    requires room { length room.old ≡ LONGEST_DIALOG }
    requires within { AreBytesWithin kept (take kept room.old) }
    ensures exact { take result room.new ≡ dialog_bytes (take kept room.old ++ bytes.now) }
    ensures within { AreBytesWithin result (take result room.new) }
    ensures grows { kept ≤ result }
    ensures count { result ≤ kept + length bytes.now }
    ensures front { take result room.new ≡ take kept room.old ++ take (result - kept) bytes.now }
{
    let end = put(room, kept, bytes);
    count_in_dialog(&room[..end])
}

impl Dialog {
    /// A dialog of which no byte came.
    pub fn new() -> Dialog
        ensures exact { result ≡ new_dialog }
        ensures stands { DialogRepresents new_dialog_history result }
    {
        Dialog {
            bytes: [0; LONGEST_DIALOG],
            kept: 0,
            replied: false,
        }
    }

    // Keeps those of more bytes that belong to the dialog: how many they are.
    fn keep(&mut self, bytes: &[u8]) -> usize
        ensures exact { self.new ≡ dialog_pushed bytes.now self.old }
        ensures front { self.new.bytes ≡ self.old.bytes ++ take result bytes.now }
        ensures within { result ≤ length bytes.now }
    {
        let before = self.kept;
        self.kept = put_behind(&mut self.bytes, before, bytes);
        self.kept - before
    }

    /// More bytes of the client: how many of them belong to the dialog. The rest are data, which
    /// follow it.
    pub fn push(&mut self, bytes: &[u8]) -> usize
        ensures exact { self.new ≡ dialog_pushed bytes.now self.old }
        ensures front { self.new.bytes ≡ self.old.bytes ++ take result bytes.now }
        ensures within { result ≤ length bytes.now }
        ensures stands { DialogGoesOn self.old self.new (and_dialog_bytes bytes.now) }
        ensures rest { RestIs self.old bytes.now result }
        ensures connect { HasConnect self.old → HasConnect self.new }
    {
        self.keep(bytes)
    }

    // The next step, by the dialog's bytes.
    fn next(&mut self) -> DialogStep
        ensures exact { result ≡ step_of self.old }
        ensures given { self.new ≡ dialog_stepped self.old }
    {
        let reading = read(&self.bytes[..self.kept]);
        if reading.chosen && !self.replied {
            self.replied = true;
            return DialogStep::Reply(method_taken());
        }
        match reading.outcome {
            Outcome::Wants => DialogStep::More,
            Outcome::Connects { host, port } => DialogStep::Connect { host, port },
            Outcome::Breaks(reply) => DialogStep::Bad(reply),
        }
    }

    /// What the dialog does next. Each reply is given once.
    pub fn step(&mut self) -> DialogStep
        ensures exact { result ≡ step_of self.old }
        ensures given { self.new ≡ dialog_stepped self.old }
        ensures next { IsNextStep self.old result }
        ensures stands { DialogGoesOn self.old self.new (and_step result) }
        ensures connect { GivesConnect result → HasConnect self.new }
    {
        self.next()
    }

    /// The version that the client speaks: its first byte.
    pub fn version(&self) -> u8
        requires { HasConnect self.now }
        ensures { result ≡ version_of self.now }
    {
        self.bytes[0]
    }

    /// The reply where the end is reached.
    pub fn granted(&self) -> Small
        requires { HasConnect self.now }
        ensures { result ≡ granted_to (version_of self.now) }
    {
        granted_in(self.version())
    }

    /// The reply where it isn't, for a reason of an open failure (RFC 4254, section 5.1).
    pub fn refused(&self, reason: u32) -> Small
        requires { HasConnect self.now }
        ensures { result ≡ refused_to (version_of self.now) reason }
    {
        refused_in(self.version(), reason)
    }
}
