//! Names that are looked up, and the streams that connect to them.
ghost use Rattle.std.specs.Prelude.{◌≡◌, ◌≢◌, ◌<◌, ◌≤◌, ◌↔◌, ℕ, length, max, None, Ok, is_some, true, IfOk, IfSome, IsErr, IsNone, IsSome, IsSomeAnd, IsTrue, OnOk, nat_eq};
ghost use Rattle.mux_edge.specs.Targets.{IsBegunTo, IsNewTarget, IsTriedAddress, ReportsRows, ResolvesAt, has_addresses};
ghost use Rattle.indexmap.specs.IndexMap.{get, index_map_len};

use crate::lookup::{Lookup, is_within};
use crate::names::addresses_of;
use crate::socket::{TcpSocket, UnixSocket};
use crate::stream::Stream;
use crate::targets::Target;
use indexmap::IndexMap;
use mio::Registry;
use std::alloc::{AllocError, Global};
use std::io;
use std::io::ErrorKind;
use std::net::{IpAddr, Net};
use std::os::unix::net;
use std::time::Instant;

// For how many seconds the addresses of a name are kept, and of how many names.
const CACHE_SECONDS: u64 = 5;

const MOST_CACHED: usize = 256;

// The addresses of a name that was looked up.
#[derive(Drop)]
struct Resolved {
    name: Vec<u8>,
    addresses: Vec<IpAddr>,
    since: Instant,
}

/// What is known of a name to which a stream connects.
#[derive(Clone, Copy, PartialEq, Eq)]
pub enum Known {
    /// its addresses
    Addresses,
    /// a look-up of it is under way
    LookedUp,
    /// nothing: it is to be looked up
    Nothing,
}

/// The look-ups under way, the addresses that were found in the last seconds, and the streams
/// that connect to names. A look-up has the number of the stream that began it as the system's
/// token, which that stream has only once the look-up has ended. It ends with the last stream that
/// waits for it, so a number that is given again is no look-up's any more.
#[derive(Drop)]
pub struct Lookups {
    alloc: Global,
    running: IndexMap<u64, Lookup>,
    cache: Vec<Resolved>,
    targets: IndexMap<u64, Target>,
}

impl Lookups {
    /// Nothing is looked up, and nothing is known.
    pub fn new(alloc: Global) -> Lookups
        ensures running { index_map_len result.running ≡ 0 }
        ensures cache { length result.cache.items ≡ 0 }
        ensures targets { index_map_len result.targets ≡ 0 }
    {
        Lookups {
            alloc,
            running: IndexMap::new(alloc),
            cache: Vec::new(alloc),
            targets: IndexMap::new(alloc),
        }
    }

    /// Whether a look-up is under way.
    pub fn is_busy(&self) -> bool
        ensures { IsTrue result ↔ (0 < index_map_len self.now.running) }
    {
        !self.running.is_empty()
    }

    /// Notes that a look-up wrote something, where the number is that of one.
    pub fn note(&mut self, number: u64) -> bool
        ensures found { result ≡ is_some (get nat_eq self.old.running number) }
        ensures noted { result ≡ true
            → IsSomeAnd (get nat_eq self.new.running number) (λ lookup. lookup.noted ≡ true) }
    {
        match self.running.get_mut(&number) {
            Some(lookup) => {
                lookup.noted = true;
                true
            }
            None => false,
        }
    }

    /// Notes where a stream connects to: what is known of the name. After an `Err` the caller lets
    /// it `forget` the stream.
    pub fn begin(
        &mut self,
        number: u64,
        name: &[u8],
        port: u16,
        now: Instant,
    ) -> Result<Known, AllocError>
        ensures target { OnOk result (IsSomeAnd (get nat_eq self.new.targets number)
            (IsNewTarget name.now port)) }
        ensures known { IfOk result (λ known. IsSomeAnd (get nat_eq self.new.targets number)
            (λ target. is_some target.addresses ≡ has_addresses known)) }
        ensures running { self.new.running ≡ self.old.running }
    {
        self.cache.retain(|resolved| is_within(CACHE_SECONDS, resolved.since, Some(now)));
        let addresses = self.cached(name)?;
        let is_known = addresses.is_some();
        let target = Target {
            name: Vec::from_slice(self.alloc, name)?,
            port,
            addresses,
            tried: 0,
        };
        self.targets.insert(number, target).map_err(|_| AllocError)?;
        Ok(if is_known {
            Known::Addresses
        } else if self.lookup_of(name).is_some() {
            Known::LookedUp
        } else {
            Known::Nothing
        })
    }

    /// Begins a look-up under this number: what its child is to write to.
    pub fn start<N: Net>(
        &mut self,
        rt: &N,
        registry: &Registry,
        number: u64,
        name: &[u8],
        since: Instant,
    ) -> io::Result<net::UnixStream>
        ensures begun { OnOk result (IsSomeAnd (get nat_eq self.new.running number)
            (λ lookup. lookup.name.items ≡ name.now)) }
        ensures targets { self.new.targets ≡ self.old.targets }
    {
        let (ours, theirs) = net::UnixStream::pair(rt)?;
        let lookup = Lookup::new(self.alloc, registry, number, name, since, ours)?;
        self.running.insert(number, lookup).map_err(|_| AllocError)?;
        Ok(theirs)
    }

    /// Connects a stream to the next of its addresses, once they are known. `Err`: none is left.
    pub fn connect<N: Net, U: UnixSocket, T: TcpSocket>(
        &mut self,
        rt: &N,
        registry: &Registry,
        number: u64,
        stream: &mut Stream<U, T>,
    ) -> io::Result<()>
        ensures unknown { get nat_eq self.old.targets number ≡ None → IsErr result }
        ensures waits { IsSomeAnd (get nat_eq self.old.targets number)
            (λ target. IsNone target.addresses) → (result ≡ Ok tt) × (stream.new ≡ stream.old) }
        ensures connects { OnOk result (IfSome (get nat_eq self.old.targets number) (λ old.
            IsSome old.addresses → IsSomeAnd (get nat_eq self.new.targets number) (λ new.
            IsBegunTo U.keeps T.keeps T.target (IsTriedAddress old new) stream.new))) }
        ensures rest { ((n : ℕ) → n ≢ number
            → get nat_eq self.new.targets n ≡ get nat_eq self.old.targets n) }
        ensures running { self.new.running ≡ self.old.running }
    {
        let Some(target) = self.targets.get_mut(&number) else {
            return Err(io::Error::from(ErrorKind::NotFound));
        };
        if target.addresses.is_some() {
            *stream = target.connect(rt, registry, number)?;
        }
        Ok(())
    }

    /// Goes on with the look-ups. `now` is `None` where there is no clock.
    pub fn go_on(&mut self, now: Option<Instant>) -> Result<(), AllocError>
        ensures targets { self.new.targets ≡ self.old.targets }
    {
        for lookup in self.running.values_mut() {
            lookup.go_on(now)?;
        }
        Ok(())
    }

    /// Removes one look-up that has ended, and reports its addresses: its number, if there was one.
    pub fn end_one(&mut self, now: Option<Instant>) -> Result<Option<u64>, AllocError>
        ensures gone { IfOk result (λ over. IfSome over
            (λ number. get nat_eq self.new.running number ≡ None)) }
        ensures rows { IfOk result (λ over. IfSome over
            (λ number. IsSomeAnd (get nat_eq self.old.running number) (λ lookup. ReportsRows
            lookup.name.items lookup.heard.items self.old.targets self.new.targets))) }
        ensures none { IfOk result (λ over. IsNone over → self.new.targets ≡ self.old.targets) }
    {
        let over = self
            .running
            .iter()
            .find(|(_, lookup)| lookup.over)
            .map(|(number, _)| *number);
        let Some(number) = over else {
            return Ok(None);
        };
        let Some(Lookup { name, heard, .. }) = self.running.swap_remove(&number) else {
            return Ok(None);
        };
        self.report(name, heard.as_slice(), now)?;
        Ok(Some(number))
    }

    /// Forgets where a stream connects to: the number of the look-up that no other waits for, which
    /// ends with it.
    pub fn forget(&mut self, number: u64) -> Option<u64>
        ensures { get nat_eq self.new.targets number ≡ None }
    {
        let target = self.targets.swap_remove(&number)?;
        let name = target.name.as_slice();
        if self.targets.values().any(|other| other.awaits(name)) {
            return None;
        }
        let lookup = self.lookup_of(name)?;
        self.running.swap_remove(&lookup);
        Some(lookup)
    }
}

impl Lookups {
    // The addresses of a name that are known.
    fn cached(&self, name: &[u8]) -> Result<Option<Vec<IpAddr>>, AllocError> {
        match self
            .cache
            .iter()
            .find(|resolved| resolved.name.as_slice() == name)
        {
            Some(resolved) => Ok(Some(Vec::from_slice(self.alloc, resolved.addresses.as_slice())?)),
            None => Ok(None),
        }
    }

    // The number of the look-up of a name.
    fn lookup_of(&self, name: &[u8]) -> Option<u64> {
        self.running
            .iter()
            .find(|(_, lookup)| lookup.name.as_slice() == name)
            .map(|(number, _)| *number)
    }

    // Reports the addresses of a name, of which its look-up wrote this.
    fn report(
        &mut self,
        name: Vec<u8>,
        heard: &[u8],
        now: Option<Instant>,
    ) -> Result<(), AllocError>
        ensures rows { OnOk result
            (ReportsRows name.items heard.now self.old.targets self.new.targets) }
        ensures running { self.new.running ≡ self.old.running }
    {
        let addresses = addresses_of(self.alloc, heard)?;
        self.resolve(name.as_slice(), addresses.as_slice())?;
        match now {
            Some(since) => self.keep(name, addresses, since),
            None => Ok(()),
        }
    }

    // Gives the addresses of a name to the streams that wait for them.
    fn resolve(&mut self, name: &[u8], addresses: &[IpAddr]) -> Result<(), AllocError>
        ensures resolved { OnOk result ((n : ℕ) → ResolvesAt name.now addresses.now
            (get nat_eq self.old.targets n) (get nat_eq self.new.targets n)) }
        ensures running { self.new.running ≡ self.old.running }
        ensures cache { self.new.cache ≡ self.old.cache }
    {
        for index in 0..self.targets.len() {
            if let Some(target) = self.targets.get_index_mut(index) {
                target.resolve(self.alloc, name, addresses)?;
            }
        }
        Ok(())
    }

    // Keeps the addresses of a name for a while, if it has any and there is room.
    fn keep(
        &mut self,
        name: Vec<u8>,
        addresses: Vec<IpAddr>,
        since: Instant,
    ) -> Result<(), AllocError>
        ensures few { length self.new.cache.items ≤ max MOST_CACHED (length self.old.cache.items) }
        ensures targets { self.new.targets ≡ self.old.targets }
        ensures running { self.new.running ≡ self.old.running }
    {
        if !addresses.is_empty() && self.cache.len() < MOST_CACHED {
            self.cache
                .push(Resolved {
                    name,
                    addresses,
                    since,
                })
                .map_err(|_| AllocError)?;
        }
        Ok(())
    }
}
