//! What the name of a socket is made with: the file system, or one that records what is done.
ghost use Rattle.std.specs.Prelude.{◌≡◌, ℕ, List, Option, None, Some, OnErr, OnOk};
ghost use Rattle.mux_sockets.specs.FileSteps.{FileStep, after};
ghost use Rattle.mux_sockets.specs.FileSteps.FileStep.{Bound, Found, Linked, Listening, Made, Moded, Removed};

use libc::net::listen;
use std::fs::Files;
use std::net::Net;
use std::os::fd::{AsFd, AsRawFd, OwnedFd};
use std::os::unix::fs::MetadataExt;
use std::os::unix::net::SocketAddr;
use std::{fs, io};

// How many clients may wait to be accepted.
const BACKLOG: i32 = 128;

/// A file that was found under a name: which it is, and who may use it.
#[derive(Clone, Copy)]
pub struct SocketFile {
    pub dev: u64,
    pub ino: u64,
    pub mode: u32,
}

/// Sockets, and the names of their files. The system's record nothing; all that is proved of a
/// control socket holds of those that record.
pub trait SocketFiles: Drop {
    type Descriptor: Drop;

    // what was done, the newest first, where it is recorded
    ghost recorded: { Self → Option (List FileStep) } = { λ _. None };

    /// What stands at a path.
    fn find(&mut self, path: &str) -> Option<SocketFile>
        ensures { recorded self.new ≡ after (Found path.now result) (recorded self.old) };

    /// A socket without a name.
    fn make(&mut self) -> io::Result<Self::Descriptor>
        ensures ok { OnOk result (recorded self.new ≡ after Made (recorded self.old)) }
        ensures err { OnErr result (recorded self.new ≡ recorded self.old) };

    /// Gives a socket the mode that its file will have.
    fn set_mode(&mut self, socket: &Self::Descriptor, mode: u32) -> io::Result<()>
        ensures ok { OnOk result (recorded self.new ≡ after (Moded mode) (recorded self.old)) }
        ensures err { OnErr result (recorded self.new ≡ recorded self.old) };

    /// Makes a file for a socket, at a name that is free.
    fn bind(&mut self, socket: &Self::Descriptor, name: &str) -> io::Result<()>
        ensures ok { OnOk result (recorded self.new ≡ after (Bound name.now) (recorded self.old)) }
        ensures err { OnErr result (recorded self.new ≡ recorded self.old) };

    /// Has a socket listen.
    fn listen(&mut self, socket: &Self::Descriptor) -> io::Result<()>
        ensures ok { OnOk result (recorded self.new ≡ after Listening (recorded self.old)) }
        ensures err { OnErr result (recorded self.new ≡ recorded self.old) };

    /// Gives the file of a name a further one, which is free.
    fn link(&mut self, name: &str, path: &str) -> io::Result<()>
        ensures ok { OnOk result
            (recorded self.new ≡ after (Linked name.now path.now) (recorded self.old)) }
        ensures err { OnErr result (recorded self.new ≡ recorded self.old) };

    /// Removes a name.
    fn remove(&mut self, name: &str)
        ensures { recorded self.new ≡ after (Removed name.now) (recorded self.old) };
}

/// The file system of this machine.
#[derive(Drop)]
pub struct SystemFiles<R: Files + Net + Drop> {
    rt: R,
}

impl<R: Files + Net + Drop> SystemFiles<R> {
    pub fn new(rt: R) -> SystemFiles<R> {
        SystemFiles { rt }
    }
}

impl<R: Files + Net + Drop> SocketFiles for SystemFiles<R> {
    type Descriptor = OwnedFd;

    fn find(&mut self, path: &str) -> Option<SocketFile> {
        Some(file_of(fs::symlink_metadata(&self.rt, path).ok()?))
    }

    fn make(&mut self) -> io::Result<OwnedFd> {
        self.rt.unix_socket()
    }

    fn set_mode(&mut self, socket: &OwnedFd, mode: u32) -> io::Result<()> {
        done(libc::fchmod(socket.as_raw_fd(), mode))
    }

    fn bind(&mut self, socket: &OwnedFd, name: &str) -> io::Result<()> {
        self.rt
            .bind_unix(socket.as_fd(), &SocketAddr::from_pathname(name)?)
    }

    fn listen(&mut self, socket: &OwnedFd) -> io::Result<()> {
        done(listen(socket.as_raw_fd(), BACKLOG))
    }

    fn link(&mut self, name: &str, path: &str) -> io::Result<()> {
        fs::hard_link(&self.rt, name, path)
    }

    fn remove(&mut self, name: &str) {
        let _ = fs::remove_file(&self.rt, name);
    }
}

// What the system reports of a file.
fn file_of(found: fs::Metadata) -> SocketFile {
    SocketFile {
        dev: found.dev(),
        ino: found.ino(),
        mode: found.mode(),
    }
}

// A call of C that gives 0, or less where it failed.
fn done(status: i32) -> io::Result<()> {
    if status < 0 {
        return Err(io::Error::from(io::ErrorKind::Other));
    }
    Ok(())
}
