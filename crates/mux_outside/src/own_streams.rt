ghost use Rattle.std.specs.Prelude.{◌≡◌, [], ◌∷◌, ◌++◌, ◌-◌, length, take, IfOk, OnOk, OnErr};
ghost use Rattle.mux_outside.specs.OwnStreams.{new_stream, is_one, is_silent, is_finished, without_stream, with_pause, with_finish, with_end};
ghost use Rattle.mux_outside.specs.OwnStreams.{is_own, pause_one, finish_one, end_one};

use ssh_fields::OutOfMemory;
use std::alloc::Global;
use std::marker::Model;

/// The last number of a client. What is above it are the master's own streams and listeners.
pub const LAST_CLIENT: u64 = 0x7fff_ffff_ffff_ffff;

/// The last number of the master's own streams and listeners.
pub const LAST_OWN: u64 = 0xffff_ffff_ffff_fffe;

/// Whether a number is that of one of the master's own streams or listeners.
pub fn is_own(number: u64) -> bool
    ensures { result ≡ is_own number }
{
    number > LAST_CLIENT
}

/// One of the master's own streams that is open, and how it stands.
#[derive(Clone, Copy, PartialEq, Eq)]
pub struct OwnStream {
    pub number: u64,
    /// It gives neither bytes nor its end for now.
    pub paused: bool,
    /// It accepts no more bytes.
    pub finished: bool,
    /// It has given its end.
    pub ended: bool,
}

impl OwnStream {
    /// A stream as it is made.
    pub fn new(number: u64) -> OwnStream
        ensures { result ≡ new_stream number }
    {
        OwnStream {
            number,
            paused: false,
            finished: false,
            ended: false,
        }
    }
}

/// The master's own streams that are open, in the order in which they were made.
#[derive(Drop)]
pub struct OwnStreams {
    streams: Vec<OwnStream>,
}

impl Model for OwnStreams {
    ghost use Rattle.std.specs.Prelude.{List};
    ghost use Rattle.mux_outside.specs.declared.own_streams.OwnStream.{OwnStream as TheStream};

    ghost Value = { List TheStream };

    ghost view = { λ s. s.streams.items };
}

impl OwnStreams {
    /// No stream.
    pub fn new(alloc: Global) -> OwnStreams
        ensures { result ≡ [] }
    {
        OwnStreams {
            streams: Vec::new(alloc),
        }
    }

    /// These streams.
    pub fn copy(alloc: Global, streams: &[OwnStream]) -> Result<OwnStreams, OutOfMemory>
        ensures { IfOk result (λ copied. copied ≡ streams.now) }
    {
        let streams = Vec::from_slice(alloc, streams)?;
        Ok(OwnStreams { streams })
    }

    /// Adds a stream as it is made. An `Err` changes nothing.
    pub fn push(&mut self, number: u64) -> Result<(), OutOfMemory>
        ensures ok { OnOk result (self.new ≡ self.old ++ new_stream number ∷ []) }
        ensures err { OnErr result (self.new ≡ self.old) }
    {
        self.streams.push(OwnStream::new(number))?;
        Ok(())
    }

    /// Takes the last stream away. It allocates no memory, so a `push` can come before what may
    /// fail and be taken back.
    pub fn pop(&mut self)
        ensures { self.new ≡ take (length self.old - 1) self.old }
    {
        let _ = self.streams.pop();
    }

    /// Takes a stream away.
    pub fn remove(&mut self, number: u64)
        ensures { self.new ≡ without_stream number self.old }
    {
        self.streams.retain(|s| s.number != number);
    }

    /// A stream gives nothing for now, or gives again what comes.
    pub fn set_paused(&mut self, number: u64, paused: bool)
        ensures { self.new ≡ with_pause paused number self.old }
    {
        for stream in self.streams.iter_mut() {
            *stream = paused_one(*stream, number, paused);
        }
    }

    /// A stream accepts no more bytes.
    pub fn finish(&mut self, number: u64)
        ensures { self.new ≡ with_finish number self.old }
    {
        for stream in self.streams.iter_mut() {
            *stream = finished_one(*stream, number);
        }
    }

    /// A stream has given its end.
    pub fn end(&mut self, number: u64)
        ensures { self.new ≡ with_end number self.old }
    {
        for stream in self.streams.iter_mut() {
            *stream = ended_one(*stream, number);
        }
    }

    /// Whether the stream is one of them.
    pub fn contains(&self, number: u64) -> bool
        ensures { result ≡ is_one number self.now }
    {
        self.streams.iter().any(|s| s.number == number)
    }

    /// Whether the stream is one of them and gives nothing: it is paused, or has given its end.
    pub fn is_silent(&self, number: u64) -> bool
        ensures { result ≡ is_silent number self.now }
    {
        self.streams
            .iter()
            .any(|s| s.number == number && (s.paused || s.ended))
    }

    /// Whether the stream is one of them and accepts no more bytes.
    pub fn is_finished(&self, number: u64) -> bool
        ensures { result ≡ is_finished number self.now }
    {
        self.streams
            .iter()
            .any(|s| s.number == number && s.finished)
    }

    /// All of them.
    pub fn as_slice(&self) -> &[OwnStream]
        ensures { result.now ≡ self.now }
    {
        self.streams.as_slice()
    }
}

// One of them, which is paused or not from now on where it has this number.
fn paused_one(stream: OwnStream, number: u64, paused: bool) -> OwnStream
    ensures { result ≡ pause_one paused number stream }
{
    if stream.number == number {
        OwnStream { paused, ..stream }
    } else {
        stream
    }
}

// One of them, which is finished where it has this number.
fn finished_one(stream: OwnStream, number: u64) -> OwnStream
    ensures { result ≡ finish_one number stream }
{
    if stream.number == number {
        OwnStream {
            finished: true,
            ..stream
        }
    } else {
        stream
    }
}

// One of them, which has ended where it has this number.
fn ended_one(stream: OwnStream, number: u64) -> OwnStream
    ensures { result ≡ end_one number stream }
{
    if stream.number == number {
        OwnStream {
            ended: true,
            ..stream
        }
    } else {
        stream
    }
}
