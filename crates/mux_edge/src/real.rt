//! Streams and their table over the sockets of the system.

use crate::sockets::Sockets;
use crate::stream::Stream;
use crate::table::StreamTable;
use mio::net::{TcpStream, UnixStream};

pub type RealStream = Stream<UnixStream, TcpStream>;

pub type RealTable = StreamTable<UnixStream, TcpStream>;

pub type RealSockets<C> = Sockets<C, UnixStream, TcpStream>;
