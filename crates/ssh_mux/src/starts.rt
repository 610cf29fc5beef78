//! What the master's own forwardings begin with, by the settings.
ghost use Rattle.std.specs.Prelude.{◌≡◌, ◌++◌, IfOk, OnOk};
ghost use Rattle.ssh_mux.specs.Starts.{connect_of, connects_path, asked_end_of, is_path_end, key_starts, no_end};
ghost use Rattle.ssh_mux.specs.Starts.{start_asks, asked_start_of, starts_for, value_starts};

use crate::asks::{AskedEnd, forward_kind_of_key};
use conf_options::{End, Forward, Key, Settings, Value};
use mux_outside::{ListenPermit, StartAsk, StartAsks, Starts};
use ssh_fields::{OutOfMemory, Text};
use std::alloc::Global;

// No end: an empty host and port 0.
fn no_end(alloc: Global) -> AskedEnd
    ensures { result ≡ no_end }
{
    AskedEnd {
        host: Text::new(alloc),
        port: 0,
    }
}

// The host and port of an end; a path has neither, and a host that isn't named is empty.
fn asked_end_of(alloc: Global, end: &End) -> Result<AskedEnd, OutOfMemory>
    ensures { IfOk result (λ asked. asked ≡ asked_end_of end.now) }
{
    match end {
        End::Path(_) => Ok(no_end(alloc)),
        End::Port { host, port } => {
            let host = match host {
                None => Text::new(alloc),
                Some(host) => Text::copy(alloc, host.as_bytes())?,
            };
            Ok(AskedEnd {
                host,
                port: u32::from(*port),
            })
        }
    }
}

// The same of the end that is connected to, which a dynamic forwarding hasn't.
fn connect_of(alloc: Global, connect: &Option<End>) -> Result<AskedEnd, OutOfMemory>
    ensures { IfOk result (λ asked. asked ≡ connect_of connect.now) }
{
    match connect {
        None => Ok(no_end(alloc)),
        Some(end) => asked_end_of(alloc, end),
    }
}

// Whether an end is a path.
fn is_path(end: &End) -> bool
    ensures { result ≡ is_path_end end.now }
{
    matches!(end, End::Path(_))
}

// Whether a path is connected to.
fn connects_path(connect: &Option<End>) -> bool
    ensures { result ≡ connects_path connect.now }
{
    match connect {
        None => false,
        Some(end) => is_path(end),
    }
}

// A forwarding as the settings ask for it.
fn asked_start_of(alloc: Global, kind: u32, forward: &Forward) -> Result<StartAsk, OutOfMemory>
    ensures { IfOk result (λ ask. ask ≡ asked_start_of kind forward.now) }
{
    let listen = asked_end_of(alloc, &forward.listen)?;
    let connect = connect_of(alloc, &forward.connect)?;
    Ok(StartAsk {
        kind,
        listen_host: listen.host,
        listen_port: listen.port,
        connect_host: connect.host,
        connect_port: connect.port,
        path: is_path(&forward.listen) || connects_path(&forward.connect),
    })
}

// Takes the forwarding of a value after the others.
fn add_start(
    alloc: Global,
    asks: &mut StartAsks,
    kind: u32,
    value: &Value,
) -> Result<(), OutOfMemory>
    ensures { OnOk result (asks.new ≡ asks.old ++ value_starts kind value.now) }
{
    match value {
        Value::Forward(forward) => {
            let ask = asked_start_of(alloc, kind, forward)?;
            asks.push(ask)
        }
        _ => Ok(()),
    }
}

// Takes the forwardings of a key after the others.
fn add_starts(
    alloc: Global,
    asks: &mut StartAsks,
    settings: &Settings,
    key: Key,
) -> Result<(), OutOfMemory>
    ensures { OnOk result (asks.new ≡ asks.old ++ key_starts key settings.now) }
{
    let given = settings.among(key);
    for (other, value) in given {
        if key.place() == other.place() {
            add_start(alloc, asks, forward_kind_of_key(key), value)?;
        }
    }
    Ok(())
}

// The forwardings that the settings ask for: local, remote and dynamic ones in this order, and none
// where all are cleared.
fn start_asks(alloc: Global, settings: &Settings) -> Result<StartAsks, OutOfMemory>
    ensures { IfOk result (λ asks. asks ≡ start_asks settings.now) }
{
    let mut asks = StartAsks::new(alloc);
    if settings.is_set(Key::ClearAllForwardings) {
        return Ok(asks);
    }
    add_starts(alloc, &mut asks, settings, Key::LocalForward)?;
    add_starts(alloc, &mut asks, settings, Key::RemoteForward)?;
    add_starts(alloc, &mut asks, settings, Key::DynamicForward)?;
    Ok(asks)
}

/// What the settings ask of the master's own forwardings, and where they may listen.
pub fn starts_of(
    alloc: Global,
    here: ListenPermit,
    settings: &Settings,
) -> Result<Starts, OutOfMemory>
    ensures exact { IfOk result (λ starts. starts ≡ starts_for here settings.now) }
{
    let asks = start_asks(alloc, settings)?;
    Ok(Starts {
        asks,
        gateway: settings.is_set(Key::GatewayPorts),
        must: settings.is_set(Key::ExitOnForwardFailure),
        here,
    })
}
