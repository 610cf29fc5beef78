//! A look-up of a name, by a child that writes its addresses, so that no thread waits for it.
ghost use Rattle.std.specs.Prelude.{◌≡◌, [], IfOk, IsNone, OnOk, false, true};

use mio::net::UnixStream;
use mio::{Interest, Registry, Token};
use std::alloc::{AllocError, Global};
use std::io;
use std::io::{ErrorKind, Read};
use std::os::unix::net;
use std::time::{Duration, Instant};

// How many seconds a look-up may take.
const LOOKUP_SECONDS: u64 = 10;

// How many bytes of a look-up are read at once, how often at a look, and how many are kept.
const READ_BYTES: usize = 4096;

const MOST_READS: u32 = 16;

const MOST_BYTES: usize = 65_536;

/// A look-up under way.
#[derive(Drop)]
pub struct Lookup {
    pub name: Vec<u8>,
    /// what the child wrote
    pub heard: Vec<u8>,
    /// the system reported that it wrote
    pub noted: bool,
    pub over: bool,
    since: Instant,
    output: UnixStream,
}

impl Lookup {
    /// A look-up of a name, of which nothing is received so far. The system reports what its child
    /// writes under this number.
    pub fn new(
        alloc: Global,
        registry: &Registry,
        number: u64,
        name: &[u8],
        since: Instant,
        output: net::UnixStream,
    ) -> io::Result<Lookup>
        ensures name { IfOk result (λ lookup. lookup.name.items ≡ name.now) }
        ensures heard { IfOk result (λ lookup. lookup.heard.items ≡ []) }
        ensures noted { IfOk result (λ lookup. lookup.noted ≡ false) }
        ensures over { IfOk result (λ lookup. lookup.over ≡ false) }
        ensures since { IfOk result (λ lookup. lookup.since ≡ since) }
    {
        output.set_nonblocking(true)?;
        let mut output = UnixStream::from_std(output);
        registry.register(&mut output, Token(number as usize), Interest::READABLE)?;
        Ok(Lookup {
            name: Vec::from_slice(alloc, name)?,
            heard: Vec::new(alloc),
            noted: false,
            over: false,
            since,
            output,
        })
    }

    /// Goes on with it: it ends if it lasts too long, and then nothing that was received counts.
    pub fn go_on(&mut self, now: Option<Instant>) -> Result<(), AllocError>
        ensures name { self.new.name ≡ self.old.name }
        ensures late { OnOk result (IsNone now → self.new.over ≡ true) }
    {
        if self.noted {
            self.receive()?;
        }
        if !(self.over || is_within(LOOKUP_SECONDS, self.since, now)) {
            self.heard.clear();
            self.over = true;
        }
        Ok(())
    }

    // Reads what the child has written so far. It ends with the output, and where that is too long.
    fn receive(&mut self) -> Result<(), AllocError>
        ensures name { self.new.name ≡ self.old.name }
    {
        let mut room = [0; READ_BYTES];
        for _ in 0..MOST_READS {
            match self.output.read(&mut room) {
                Ok(count) if count > 0 && self.heard.len() < MOST_BYTES => {
                    self.heard.extend_from_slice(&room[..count])?;
                }
                Err(e) if e.kind() == ErrorKind::WouldBlock => {
                    self.noted = false;
                    return Ok(());
                }
                Err(e) if e.kind() == ErrorKind::Interrupted => {}
                _ => {
                    self.over = true;
                    return Ok(());
                }
            }
        }
        // More may wait, for the next look.
        Ok(())
    }
}

/// Whether so many seconds haven't passed. Without a clock they have.
pub fn is_within(seconds: u64, since: Instant, now: Option<Instant>) -> bool
    ensures { IsNone now → result ≡ false }
{
    match now {
        Some(now) => now.duration_since(since) < Duration::from_secs(seconds),
        None => false,
    }
}
