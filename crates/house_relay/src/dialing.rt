//! The SOCKS dialog before a relay.
ghost use Rattle.std.specs.Prelude.{◌≡◌, ◌≤◌, length, IfOk, OnOk};
ghost use Rattle.socks_dialog.specs.State.{HasConnect, GivesConnect, version_of};
ghost use Rattle.house_relay.specs.Dialing.{GivesAll, GaveSome, IsCame, IsDialogReading, AreBytesReceived, grant_of, dialog_refusal_of};
ghost use Rattle.proxy_frames.specs.Queued.{with_bytes};

use proxy_frames::Queue;
use socks_dialog::{Dialog, DialogStep, granted_in, refused_in};
use ssh_fields::{OutOfMemory, Small};

/// The outcome of a dialog by more bytes.
#[derive(Drop)]
pub enum Came {
    /// It wants more bytes.
    Nothing,
    /// It asks for a connection to this host and port, in this version.
    Connect { host: Small, port: u16, version: u8 },
    /// It broke.
    Fault,
}

/// What more bytes were to a dialog.
#[derive(Drop)]
pub struct DialogReceived {
    /// How many of them belong to it.
    pub count: usize,
    pub came: Came,
}

// The replies that a dialog gives now go into the queue; and its outcome then.
fn next(dialog: &mut Dialog, queue: &mut Queue) -> Result<DialogStep, OutOfMemory>
    ensures gives { IfOk result (λ step. GaveSome dialog.old
        → GivesAll dialog.old dialog.new step queue.old queue.new) }
    ensures connect { IfOk result (λ step. GivesConnect step → HasConnect dialog.new) }
{
    match dialog.step() {
        DialogStep::Reply(reply) => {
            queue.push_bytes(reply.as_bytes())?;
            Ok(dialog.step())
        }
        step => Ok(step),
    }
}

// The outcome of a dialog by this step. The reply to a fault goes into the queue.
fn came_by(step: DialogStep, dialog: &Dialog, queue: &mut Queue) -> Result<Came, OutOfMemory>
    requires { GivesConnect step → HasConnect dialog.now }
    ensures { IfOk result (λ came. IsCame step (version_of dialog.now) came queue.old queue.new) }
{
    match step {
        DialogStep::More | DialogStep::Reply(_) => Ok(Came::Nothing),
        DialogStep::Connect { host, port } => Ok(Came::Connect {
            host,
            port,
            version: dialog.version(),
        }),
        DialogStep::Bad(reply) => {
            queue.push_bytes(reply.as_bytes())?;
            Ok(Came::Fault)
        }
    }
}

/// More bytes of the client of a dialog, whose replies go into the queue.
pub fn receive(
    dialog: &mut Dialog,
    bytes: &[u8],
    queue: &mut Queue,
) -> Result<DialogReceived, OutOfMemory>
    ensures within { IfOk result (λ heard. heard.count ≤ length bytes.now) }
    ensures heard { IfOk result (λ heard. IsDialogReading dialog.old
        → AreBytesReceived dialog.old dialog.new bytes.now heard queue.old queue.new) }
{
    let count = dialog.push(bytes);
    let step = next(dialog, queue)?;
    let came = came_by(step, dialog, queue)?;
    Ok(DialogReceived { count, came })
}

/// A dialog of this version, if one waits, is sent the reply that its end is reached.
pub fn grant(version: Option<u8>, queue: &mut Queue) -> Result<(), OutOfMemory>
    ensures { OnOk result (queue.new ≡ with_bytes (grant_of version) queue.old) }
{
    match version {
        Some(version) => queue.push_bytes(granted_in(version).as_bytes()),
        None => queue.push_bytes(&[]),
    }
}

/// It is sent the reply that its end isn't reached, for a reason of an open failure (RFC 4254,
/// section 5.1).
pub fn refuse(version: Option<u8>, reason: u32, queue: &mut Queue) -> Result<(), OutOfMemory>
    ensures { OnOk result (queue.new ≡ with_bytes (dialog_refusal_of version reason) queue.old) }
{
    match version {
        Some(version) => queue.push_bytes(refused_in(version, reason).as_bytes()),
        None => queue.push_bytes(&[]),
    }
}
