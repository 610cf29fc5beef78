//! The control socket and its name in the file system.
ghost use Rattle.std.specs.Prelude.{◌≡◌, ◌≢◌, ◌∷◌, [], IfOk, None, OnErr, OnOk, Some, false, true};
ghost use Rattle.std.specs.String.{string_bytes};
ghost use Rattle.mux_sockets.specs.FileSteps.{FailsToListen, IsPrivate, IsUndone, RemovesOwn, steps_added, after, listening_steps, named_steps};
ghost use Rattle.mux_sockets.specs.FileSteps.FileStep.{Bound, Found, Linked, Listening, Made, Moded, Removed};

use crate::socket_files::{SocketFile, SocketFiles, SystemFiles};
use std::alloc::Global;
use std::io;
use std::os::unix::net::SocketAddr;

// Its owner alone may use the socket.
const OWNER_ONLY: u32 = 0o600;

// The bits of a mode that say who may use a file.
const WHO: u32 = 0o777;

// How many temporary names are tried, each with a digit of its own.
const TRIES: u32 = 16;

/// Where a control socket stands, and which file it is.
#[derive(Drop)]
pub struct ControlPlace {
    pub path: String,
    pub own: SocketFile,
}

/// The name of a control socket, which is removed when this is dropped, if it still names our
/// socket.
pub struct NamedSocket<F: SocketFiles> {
    files: F,
    place: ControlPlace,
}

/// The control socket of this machine.
pub type ControlSocket<R> = NamedSocket<SystemFiles<R>>;

impl<F: SocketFiles> Drop for NamedSocket<F> {
    fn drop(self) {
        let NamedSocket { mut files, place } = self;
        remove_own(&mut files, place.path.as_str(), place.own);
    }
}

impl<F: SocketFiles> NamedSocket<F> {
    /// A socket that has its name.
    pub fn new(files: F, place: ControlPlace) -> NamedSocket<F> {
        NamedSocket { files, place }
    }
}

// Removes the file at a path, if it is this one.
fn remove_own<F: SocketFiles>(files: &mut F, path: &str, own: SocketFile)
    ensures { RemovesOwn path.now own (F.recorded files.old) (F.recorded files.new) }
{
    if let Some(found) = files.find(path) {
        if found.dev == own.dev && found.ino == own.ino {
            files.remove(path);
        }
    }
}

/// A socket that listens, under a temporary name that no process knows yet. It goes by `publish` or
/// by `discard`, so that this name goes in any case.
pub struct Unnamed<S> {
    pub socket: S,
    pub name: String,
    pub own: SocketFile,
}

/// Listens under a temporary name beside the path.
pub fn listen_beside<F: SocketFiles>(
    files: &mut F,
    alloc: Global,
    path: &str,
) -> io::Result<Unnamed<F::Descriptor>>
    ensures name { IfOk result (λ unnamed. string_bytes unnamed.name ≢ path.now) }
    ensures private { IfOk result (λ unnamed. IsPrivate unnamed.own) }
    ensures steps { IfOk result (λ unnamed. F.recorded files.new
        ≡ steps_added (listening_steps (string_bytes unnamed.name) unnamed.own)
        (after (Found path.now None) (F.recorded files.old))) }
    ensures err { OnErr result (IsUndone (F.recorded files.old) (F.recorded files.new)) }
{
    let socket = private_socket(files, path)?;
    let name = bind_beside(files, alloc, &socket, path)?;
    match listen_at(files, name.as_str(), &socket) {
        Ok(own) => Ok(Unnamed { socket, name, own }),
        Err(e) => {
            files.remove(name.as_str());
            Err(e)
        }
    }
}

// Refuses a name that is too long or taken, before anything is done. `publish` refuses a taken one
// too.
fn refuse_taken<F: SocketFiles>(files: &mut F, path: &str) -> io::Result<()>
    ensures ok { OnOk result
        (F.recorded files.new ≡ after (Found path.now None) (F.recorded files.old)) }
    ensures err { OnErr result (IsUndone (F.recorded files.old) (F.recorded files.new)) }
{
    let _ = SocketAddr::from_pathname(path)?;
    match files.find(path) {
        Some(_) => Err(io::Error::from(io::ErrorKind::AlreadyExists)),
        None => Ok(()),
    }
}

// A socket without a name, of whose file its owner alone may make use, where the path is free.
fn private_socket<F: SocketFiles>(files: &mut F, path: &str) -> io::Result<F::Descriptor>
    ensures ok { OnOk result (F.recorded files.new
        ≡ steps_added (Moded 0o600 ∷ Made ∷ Found path.now None ∷ []) (F.recorded files.old)) }
    ensures err { OnErr result (IsUndone (F.recorded files.old) (F.recorded files.new)) }
{
    refuse_taken(files, path)?;
    let socket = files.make()?;
    files.set_mode(&socket, OWNER_ONLY)?;
    Ok(socket)
}

// Has a socket of this name listen: the file that it is. It fails where the umask took from its
// mode.
fn listen_at<F: SocketFiles>(
    files: &mut F,
    name: &str,
    socket: &F::Descriptor,
) -> io::Result<SocketFile>
    ensures private { IfOk result (λ own. IsPrivate own) }
    ensures steps { IfOk result (λ own. F.recorded files.new
        ≡ after (Found name.now (Some own)) (after Listening (F.recorded files.old))) }
    ensures err { OnErr result
        (FailsToListen name.now (F.recorded files.old) (F.recorded files.new)) }
{
    files.listen(socket)?;
    match files.find(name) {
        Some(own) if own.mode & WHO == OWNER_ONLY => Ok(own),
        _ => Err(io::Error::from(io::ErrorKind::Other)),
    }
}

// Binds a socket to the first temporary name beside the path that is free.
fn bind_beside<F: SocketFiles>(
    files: &mut F,
    alloc: Global,
    socket: &F::Descriptor,
    path: &str,
) -> io::Result<String>
    ensures name { IfOk result (λ name. string_bytes name ≢ path.now) }
    ensures steps { IfOk result (λ name. F.recorded files.new
        ≡ after (Bound (string_bytes name)) (F.recorded files.old)) }
    ensures err { OnErr result (F.recorded files.new ≡ F.recorded files.old) }
{
    let folder = folder_of(alloc, path)?;
    for number in 0..TRIES {
        let name = temporary_name(alloc, folder.as_str(), number)?;
        if name.as_str() != path && is_bound(files, socket, name.as_str())? {
            return Ok(name);
        }
    }
    Err(io::Error::from(io::ErrorKind::AddrInUse))
}

// The folder of a path, with its slash.
fn folder_of(alloc: Global, path: &str) -> io::Result<String> {
    match path.rsplit_once('/') {
        Some((folder, _)) => Ok(format!(in alloc; "{folder}/")?),
        None => Ok(String::new(alloc)),
    }
}

// Binds a socket to a name: whether that was free.
fn is_bound<F: SocketFiles>(files: &mut F, socket: &F::Descriptor, name: &str) -> io::Result<bool>
    ensures bound { IfOk result (λ is. is ≡ true
        → F.recorded files.new ≡ after (Bound name.now) (F.recorded files.old)) }
    ensures taken { IfOk result (λ is. is ≡ false → F.recorded files.new ≡ F.recorded files.old) }
    ensures err { OnErr result (F.recorded files.new ≡ F.recorded files.old) }
{
    match files.bind(socket, name) {
        Ok(()) => Ok(true),
        Err(e) if e.kind() == io::ErrorKind::AddrInUse => Ok(false),
        Err(e) => Err(e),
    }
}

// A temporary name in a folder: with the process's number, and shorter where that fits no address.
fn temporary_name(alloc: Global, folder: &str, number: u32) -> io::Result<String> {
    let long = long_name(alloc, folder, number)?;
    if fits_address(&long) {
        return Ok(long);
    }
    let hidden = hidden_name(alloc, folder, number)?;
    if fits_address(&hidden) {
        return Ok(hidden);
    }
    short_name(alloc, folder, number)
}

// Whether a name fits the address of a socket.
fn fits_address(name: &String) -> bool {
    SocketAddr::from_pathname(name.as_str()).is_ok()
}

fn long_name(alloc: Global, folder: &str, number: u32) -> io::Result<String> {
    let pid = libc::getpid();
    Ok(format!(in alloc; "{folder}.{pid}.{number}")?)
}

fn hidden_name(alloc: Global, folder: &str, number: u32) -> io::Result<String> {
    Ok(format!(in alloc; "{folder}.{number:x}")?)
}

fn short_name(alloc: Global, folder: &str, number: u32) -> io::Result<String> {
    Ok(format!(in alloc; "{folder}{number:x}")?)
}

impl<S: Drop> Unnamed<S> {
    /// Removes the temporary name.
    pub fn discard<F: SocketFiles>(self, files: &mut F)
        ensures { F.recorded files.new
            ≡ after (Removed (string_bytes self.name)) (F.recorded files.old) }
    {
        let Unnamed {
            socket,
            name,
            own: _,
        } = self;
        drop(socket);
        files.remove(name.as_str());
    }

    /// Gives the socket its name, which must be free, and removes the temporary one in any case.
    pub fn publish<F: SocketFiles>(
        self,
        files: &mut F,
        alloc: Global,
        path: &str,
    ) -> io::Result<(S, ControlPlace)>
        ensures socket { IfOk result (λ named. named.0 ≡ self.socket) }
        ensures path { IfOk result (λ named. string_bytes named.1.path ≡ path.now) }
        ensures own { IfOk result (λ named. named.1.own ≡ self.own) }
        ensures steps { OnOk result (F.recorded files.new
            ≡ steps_added (named_steps path.now (string_bytes self.name)) (F.recorded files.old)) }
        ensures err { OnErr result (F.recorded files.new
            ≡ after (Removed (string_bytes self.name)) (F.recorded files.old)) }
    {
        let Unnamed { socket, name, own } = self;
        let place = place_at(files, alloc, name.as_str(), path, own);
        files.remove(name.as_str());
        Ok((socket, place?))
    }
}

// Gives the file of a temporary name its name: where it then stands.
fn place_at<F: SocketFiles>(
    files: &mut F,
    alloc: Global,
    name: &str,
    path: &str,
    own: SocketFile,
) -> io::Result<ControlPlace>
    ensures path { IfOk result (λ place. string_bytes place.path ≡ path.now) }
    ensures own { IfOk result (λ place. place.own ≡ own) }
    ensures steps { OnOk result (F.recorded files.new
        ≡ after (Linked name.now path.now) (F.recorded files.old)) }
    ensures err { OnErr result (F.recorded files.new ≡ F.recorded files.old) }
{
    let place = ControlPlace {
        path: String::from_str(alloc, path)?,
        own,
    };
    files.link(name, path)?;
    Ok(place)
}
