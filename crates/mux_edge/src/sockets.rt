//! The sockets of a run, with the look-ups of names.
ghost use Rattle.std.specs.Prelude.{◌≡◌, ◌≢◌, None, OnOk, Some, nat_eq, true};
ghost use Rattle.indexmap.specs.IndexMap.{get};
ghost use Rattle.mux_outside.specs.declared.turn.Want.TheVariants.{WriteOnly};
ghost use Rattle.mux_edge.specs.Entries.{HasEntry, IsBlocked, Stands};
ghost use Rattle.mux_edge.specs.Names.{is_name};
ghost use Rattle.mux_edge.specs.Recorded.{LosesNone, ReportsLost};
ghost use Rattle.mux_edge.specs.Shares.{PassesOwn, holds_own};
ghost use Rattle.mux_edge.specs.Sockets.{FoundFits};
ghost use Rattle.mux_edge.specs.StreamTable.{StaysFew, Touches};
ghost use Rattle.mux_edge.specs.declared.numbers.StreamNumbers.{StreamNumbers};

use crate::children::Children;
use crate::closing::ClosingStreams;
use crate::lookups::{Known, Lookups};
use crate::numbers::StreamNumbers;
use crate::socket::{TcpSocket, UnixSocket};
use crate::stream::Stream;
use crate::table::StreamTable;
use crate::turns::failure_of;
use mux_outside::{Piece, Turn, Want, is_own};
use std::alloc::{AllocError, Global};
use std::io;
use std::net::Net;
use std::time::{Clock, Instant};

/// The sockets of a run, the names that are looked up to connect to them, the children that look
/// these up, and the streams of the master's own that were closed and are read on for a while.
#[derive(Drop)]
pub struct Sockets<C: Children + Drop, U: UnixSocket, T: TcpSocket> {
    pub table: StreamTable<U, T>,
    lookups: Lookups,
    children: C,
    closing: ClosingStreams<U, T>,
}

impl<C: Children + Drop, U: UnixSocket, T: TcpSocket> Sockets<C, U, T> {
    /// These sockets. Nothing is looked up.
    pub fn new(alloc: Global, table: StreamTable<U, T>, children: C) -> Sockets<C, U, T>
        ensures table { result.table ≡ table }
        ensures children { result.children ≡ children }
    {
        Sockets {
            table,
            lookups: Lookups::new(alloc),
            children,
            closing: ClosingStreams::new(alloc),
        }
    }

    /// Drops a stream. One of the master's own whose peer may still send is read on for a while.
    pub fn remove(&mut self, number: u64)
        ensures gone { get nat_eq self.new.table.entries number ≡ None }
        ensures apart { number ≢ 0 → self.new.table.outbox ≡ self.old.table.outbox }
        ensures rest { Touches number self.old.table self.new.table }
    {
        if let Some(lookup) = self.lookups.forget(number) {
            self.children.end(lookup);
        }
        if let Some(entry) = self.table.remove(number) {
            if is_own(number) {
                self.closing.add(entry);
            }
        }
    }

    /// What happens next. A turn is given for the writes of the waiting streams alone, or for all
    /// that can be read too; and for what was written, whatever is waited for. A client and a
    /// stream that is accepted get the given number; without one none is accepted.
    pub fn next<N: Net + Clock>(
        &mut self,
        rt: &N,
        waiting: &[u64],
        want: Want,
        numbers: StreamNumbers,
        into: &mut Piece,
    ) -> Turn
        ensures fits { FoundFits result numbers into.old into.new }
        ensures stands { Stands result self.new.table.entries }
        ensures bytes { ReportsLost U.remaining T.remaining U.contents T.contents (Some result) into.new self.old.table self.new.table }
        ensures few { StaysFew self.old.table self.new.table }
        ensures passes { holds_own waiting.now self.old.table.shares ≡ true → PassesOwn result }
        ensures fails { want ≡ WriteOnly → self.old.table.broken ≡ true → result ≡ Turn.Failed 0 }
        ensures listener { self.new.table.listener ≡ self.old.table.listener }
    {
        let holds_own = self.table.shares.holds_own(waiting);
        if self.table.fails_at_once(want) {
            return Turn::Failed(0);
        }
        for _ in 0..u64::MAX {
            let joins = numbers.own.is_some() && !self.table.joins_pause;
            let at = self
                .table
                .ready
                .first(waiting, want, numbers.client.is_some(), joins, holds_own);
            if self.table.ready.is_round_over(at) {
                if let Err(e) = self.look(rt, want, at.is_some()) {
                    return failure_of(&e);
                }
                continue;
            }
            let Some(ready) = self.table.ready.take(at) else {
                continue;
            };
            let lookups = &mut self.lookups;
            if let Some(turn) = self.table.go_on(rt, lookups, ready, numbers, into) {
                return turn;
            }
        }
        Turn::Failed(0)
    }

    // Notes what became ready, and waits for it where nothing is. A round begins.
    fn look<N: Clock>(&mut self, rt: &N, want: Want, some: bool) -> io::Result<()>
        ensures bytes { LosesNone U.remaining T.remaining U.contents T.contents self.old.table self.new.table }
        ensures few { StaysFew self.old.table self.new.table }
        ensures listener { self.new.table.listener ≡ self.old.table.listener }
    {
        let is_busy = self.lookups.is_busy() || self.children.is_busy() || self.closing.is_busy();
        self.table.look(&mut self.lookups, want, some, is_busy)?;
        read_on(rt, &mut self.closing, &mut self.table.spare);
        let is_one_over = look_up(rt, &mut self.lookups, &mut self.children)?;
        self.table.begin_round(is_one_over);
        Ok(())
    }
}

// Reads on what was closed, if anything was.
fn read_on<U: UnixSocket, T: TcpSocket, N: Clock>(
    rt: &N,
    closing: &mut ClosingStreams<U, T>,
    spare: &mut Piece,
) {
    if closing.is_busy() {
        closing.go_on(spare, Instant::now(rt).ok());
    }
}

// Goes on with the look-ups: whether one has ended.
fn look_up<C: Children + Drop, N: Clock>(
    rt: &N,
    lookups: &mut Lookups,
    children: &mut C,
) -> Result<bool, AllocError> {
    children.reap();
    if !lookups.is_busy() {
        return Ok(false);
    }
    let now = Instant::now(rt).ok();
    lookups.go_on(now)?;
    let mut is_one_over = false;
    for _ in 0..u64::MAX {
        let Some(number) = lookups.end_one(now)? else {
            break;
        };
        children.end(number);
        is_one_over = true;
    }
    Ok(is_one_over)
}

impl<C: Children + Drop, U: UnixSocket, T: TcpSocket> Sockets<C, U, T> {
    /// Begins to look up a name, to connect to it with a stream of this number.
    pub fn connect_by_name<N: Net + Clock>(
        &mut self,
        rt: &N,
        number: u64,
        name: &[u8],
        port: u16,
    ) -> io::Result<()>
        requires { is_name name.now ≡ true }
        ensures there { OnOk result (HasEntry number self.new.table.entries) }
        ensures waits { OnOk result (IsBlocked number self.new.table.entries) }
        ensures rest { Touches number self.old.table self.new.table }
    {
        self.table.add(number, Stream::Begun, true)?;
        match self.begin(rt, number, name, port) {
            Ok(is_known) => {
                if is_known {
                    self.table.meet_soon(number);
                }
                Ok(())
            }
            Err(e) => {
                self.remove(number);
                Err(e)
            }
        }
    }

    // Notes where a stream connects to, and looks the name up where no look-up of it is under way:
    // whether its addresses are known already. After an `Err` the caller drops the stream.
    fn begin<N: Net + Clock>(
        &mut self,
        rt: &N,
        number: u64,
        name: &[u8],
        port: u16,
    ) -> io::Result<bool>
        requires { is_name name.now ≡ true }
        ensures { self.new.table ≡ self.old.table }
    {
        let now = Instant::now(rt)?;
        let known = self.lookups.begin(number, name, port, now)?;
        if known == Known::Nothing {
            let registry = self.table.registry();
            let output = self.lookups.start(rt, registry, number, name, now)?;
            self.children.start(number, name, output)?;
        }
        Ok(known == Known::Addresses)
    }
}
