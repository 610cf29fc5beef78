//! What a running master is asked, by the words.
ghost use Rattle.std.specs.Prelude.{◌≡◌, IfOk, IsTrue, codes};
ghost use Rattle.std.specs.List.{list_any};
ghost use Rattle.conf_rules.specs.CommandLine.{is_forwarding};
ghost use Rattle.conf_rules.specs.declared.causes.Cause.TheVariants.{Value as BadValue};
ghost use Rattle.mux_client.specs.Requests.{MayAsk};
ghost use Rattle.ssh_mux.specs.Asks.{forward_key, forward_kind_of_key, asked_host_at, end_at, connect_at, start_ask};
ghost use Rattle.ssh_mux.specs.Asks.{key_ask, line_ask, asks_from, asks_for, forwards_for};
ghost use Rattle.ssh_mux.specs.Asks.{FindsAsks, NamesForwards};
ghost use Rattle.ssh_mux.specs.declared.ending.Ending.TheVariants as endings;

use crate::ending::Ending;
use conf_options::{End, Forward, Value, ValueError, read_value};
use conf_rules::{Asked, AskedLine, Cause, Key, MasterCommand};
use mux_client::Asks;
use mux_outside::{LONGEST_HOST, StartAsk, StartAsks};
use ssh_fields::{OutOfMemory, Text, Texts};
use std::alloc::Global;

/// An end of a forwarding as it is asked for.
#[derive(Drop)]
pub struct AskedEnd {
    pub host: Text,
    pub port: u32,
}

// The key of a forwarding that a letter names.
fn forward_key(keyword: &[u8]) -> Option<Key>
    ensures { result ≡ forward_key keyword.now }
{
    if keyword == b"localforward".as_slice() {
        return Some(Key::LocalForward);
    }
    if keyword == b"remoteforward".as_slice() {
        return Some(Key::RemoteForward);
    }
    if keyword == b"dynamicforward".as_slice() {
        return Some(Key::DynamicForward);
    }
    None
}

/// The kind of a forwarding: 1 for a local, 2 for a remote and 3 for a dynamic one.
pub fn forward_kind_of_key(key: Key) -> u32
    ensures { result ≡ forward_kind_of_key key }
{
    match key {
        Key::LocalForward => 1,
        Key::RemoteForward => 2,
        _ => 3,
    }
}

// A host with its port, unless it is too long; one that isn't named is empty.
fn asked_host_at(alloc: Global, host: Option<Text>, port: u16) -> Option<AskedEnd>
    ensures { result ≡ asked_host_at host port }
{
    let host = match host {
        None => Text::new(alloc),
        Some(host) => host,
    };
    if host.as_bytes().len() > LONGEST_HOST {
        return None;
    }
    Some(AskedEnd {
        host,
        port: u32::from(port),
    })
}

// An end; a path is none.
fn end_at(alloc: Global, end: End) -> Option<AskedEnd>
    ensures { result ≡ end_at end }
{
    match end {
        End::Path(_) => None,
        End::Port { host, port } => asked_host_at(alloc, host, port),
    }
}

// The end that is connected to: where there is none, an empty host and port 0.
fn connect_at(alloc: Global, connect: Option<End>) -> Option<AskedEnd>
    ensures { result ≡ connect_at connect }
{
    match connect {
        None => Some(AskedEnd {
            host: Text::new(alloc),
            port: 0,
        }),
        Some(end) => end_at(alloc, end),
    }
}

// The forwarding as it is asked for.
fn start_ask(alloc: Global, kind: u32, forward: Forward) -> Option<StartAsk>
    ensures { result ≡ start_ask kind forward }
{
    let listen = end_at(alloc, forward.listen)?;
    let connect = connect_at(alloc, forward.connect)?;
    Some(StartAsk {
        kind,
        listen_host: listen.host,
        listen_port: listen.port,
        connect_host: connect.host,
        connect_port: connect.port,
        path: false,
    })
}

// The refusal of a line of the command line.
fn refused(alloc: Global, word: u64, error: ValueError) -> Result<Ending, OutOfMemory>
    ensures { IfOk result (λ ending. ending
        ≡ endings.BadLine (codes "command line") word (BadValue error)) }
{
    Ok(Ending::BadLine {
        file: Text::copy(alloc, b"command line")?,
        line: word,
        cause: Cause::Value(error),
    })
}

// The forwarding of a line, by its key and its words.
fn key_ask(alloc: Global, word: u64, key: Key, words: &Texts) -> Result<StartAsk, Ending>
    ensures { FindsAsks result (key_ask word key words.now) }
{
    let forward = match read_value(alloc, key, b"", words) {
        Ok(Value::Forward(forward)) => forward,
        Ok(_) => return Err(refused(alloc, word, ValueError::BadForward)?),
        Err(ValueError::OutOfMemory) => return Err(Ending::NoMemory),
        Err(error) => return Err(refused(alloc, word, error)?),
    };
    match start_ask(alloc, forward_kind_of_key(key), forward) {
        Some(ask) => Ok(ask),
        None => Err(refused(alloc, word, ValueError::BadForward)?),
    }
}

// The forwarding of a line, where a letter names one.
fn line_ask(alloc: Global, line: &AskedLine) -> Result<Option<StartAsk>, Ending>
    ensures { FindsAsks result (line_ask line.now) }
{
    match line {
        AskedLine::Line { .. } => Ok(None),
        AskedLine::Parts {
            word,
            keyword,
            words,
        } => match forward_key(keyword.as_bytes()) {
            None => Ok(None),
            Some(key) => {
                let ask = key_ask(alloc, *word, key, words)?;
                Ok(Some(ask))
            }
        },
    }
}

// The forwardings that letters name, in the order of the words.
fn asks_from(alloc: Global, lines: &[AskedLine]) -> Result<StartAsks, Ending>
    ensures { FindsAsks result (asks_from lines.now) }
{
    let mut asks = StartAsks::new(alloc);
    for line in lines {
        if let Some(ask) = line_ask(alloc, line)? {
            asks.push(ask)?;
        }
    }
    Ok(asks)
}

// That forwardings are opened, or closed.
fn forwards_of(alloc: Global, asked: &Asked, opening: bool) -> Result<Asks, Ending>
    requires named { IsTrue (list_any is_forwarding asked.now.lines) }
    ensures exact { FindsAsks result (forwards_for asked.now opening) }
    ensures may { IfOk result MayAsk }
{
    let what = asks_from(alloc, asked.lines.as_slice())?;
    Ok(Asks::Forwards { opening, what })
}

/// What a running master is asked. The words of its forwardings are read as those of the
/// configuration are; the first that has no reading is refused as its line is there.
pub fn asks_of(alloc: Global, asked: &Asked, control: MasterCommand) -> Result<Asks, Ending>
    requires named { NamesForwards control asked.now.lines }
    ensures exact { FindsAsks result (asks_for asked.now control) }
    ensures may { IfOk result MayAsk }
{
    match control {
        MasterCommand::Check => Ok(Asks::Check),
        MasterCommand::Exit => Ok(Asks::Exit),
        MasterCommand::Stop => Ok(Asks::Stop),
        MasterCommand::Forward => forwards_of(alloc, asked, true),
        MasterCommand::Cancel => forwards_of(alloc, asked, false),
    }
}
