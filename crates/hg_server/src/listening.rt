//! Where a server takes its connections from: a port of the machine, or a socket in a folder.

use crate::wire::Guest;
use std::io;
use std::io::{Read, Write};
use std::net::{TcpListener, TcpStream};
use std::os::unix::net::{UnixListener, UnixStream};
use std::time::Duration;

/// How long a read waits before it is asked whether the client is waited for on, in seconds.
const TICK_SECONDS: u64 = 1;

/// How long one write of replies may wait with no byte taken, in seconds.
const WRITE_SECONDS: u64 = 30;

/// What clients connect to.
#[derive(Drop)]
pub enum Listener {
    /// A port.
    Port(TcpListener),
    /// A socket with a name in a folder.
    Socket(UnixListener),
}

/// A connection of a client.
#[derive(Drop)]
pub enum Connection {
    /// To a port.
    Port(TcpStream),
    /// To a socket in a folder.
    Socket(UnixStream),
}

impl Listener {
    /// The next connection that waits.
    pub(crate) fn accept(&self) -> io::Result<Guest<Connection>> {
        match self {
            Listener::Port(listener) => {
                let (stream, _) = listener.accept()?;
                Ok(Guest::new(Connection::Port(stream)))
            }
            Listener::Socket(listener) => {
                let (stream, _) = listener.accept()?;
                Ok(Guest::new(Connection::Socket(stream)))
            }
        }
    }

    /// Makes `accept` answer at once where no connection waits.
    pub(crate) fn answer_at_once(&self) -> io::Result<()> {
        match self {
            Listener::Port(listener) => listener.set_nonblocking(true),
            Listener::Socket(listener) => listener.set_nonblocking(true),
        }
    }
}

impl Connection {
    /// Makes it ready for a worker.
    pub(crate) fn prepare(&self) -> io::Result<()> {
        let tick = Some(Duration::from_secs(TICK_SECONDS));
        let most = Some(Duration::from_secs(WRITE_SECONDS));
        match self {
            Connection::Port(stream) => {
                stream.set_nodelay(true)?;
                stream.set_read_timeout(tick)?;
                stream.set_write_timeout(most)
            }
            Connection::Socket(stream) => {
                stream.set_read_timeout(tick)?;
                stream.set_write_timeout(most)
            }
        }
    }
}

impl Read for Connection {
    fn read(&mut self, buf: &mut [u8]) -> io::Result<usize> {
        match self {
            Connection::Port(stream) => stream.read(buf),
            Connection::Socket(stream) => stream.read(buf),
        }
    }
}

impl Write for Connection {
    fn write(&mut self, buf: &[u8]) -> io::Result<usize> {
        match self {
            Connection::Port(stream) => stream.write(buf),
            Connection::Socket(stream) => stream.write(buf),
        }
    }

    fn flush(&mut self) -> io::Result<()> {
        match self {
            Connection::Port(stream) => stream.flush(),
            Connection::Socket(stream) => stream.flush(),
        }
    }
}
