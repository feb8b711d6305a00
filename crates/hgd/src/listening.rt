//! What a server listens on: a port of 127.0.0.1, or the file `socket` in the directory of its store.

ghost use Rattle.std.specs.Prelude.{◌≡◌, ◌++◌, IfOk, codes, string_bytes};
ghost use Rattle.hgd.specs.Listening.{IsOfLoopback};

use hg_options::task::Place;
use hg_server::listening::Listener;
use std::io::ErrorKind;
use std::net::{Ipv4Addr, Net, SocketAddr, TcpListener, TcpStream};
use std::os::unix::fs::FileTypeExt;
use std::os::unix::net::UnixListener;
use std::rt::Files;
use std::string::String;
use std::{fs, io};

/// The socket in the directory of a store, as text for the system.
fn socket_path<R: AllocGlobal>(rt: &R, directory: &str) -> io::Result<String>
    ensures { IfOk result (λ path. string_bytes path ≡ directory.now ++ codes "/socket") }
{
    Ok(format!(in rt.alloc(); "{directory}/socket")?)
}

/// Removes the socket that a server left which was killed. Anything else that has its name stays, and is told.
fn remove_left<R: Files>(rt: &R, path: &str) -> io::Result<()> {
    match fs::symlink_metadata(rt, path) {
        Ok(found) if found.file_type().is_socket() => fs::remove_file(rt, path),
        Ok(_) => Err(io::Error::new(ErrorKind::AlreadyExists, "`socket` is no socket")),
        Err(error) if error.kind() == ErrorKind::NotFound => Ok(()),
        Err(error) => Err(error),
    }
}

/// Listens on the socket in the directory of a store, whose journal is locked: so no other server has it.
fn listen_in<R: Files + AllocGlobal + Net>(rt: &R, directory: &str) -> io::Result<Listener> {
    let path = socket_path(rt, directory)?;
    remove_left(rt, path.as_str())?;
    let listener = UnixListener::bind(rt, path.as_str())?;
    Ok(Listener::Socket(listener))
}

/// The address of a port of 127.0.0.1.
fn address_of(port: u16) -> SocketAddr
    ensures { IsOfLoopback port result }
{
    SocketAddr::from((Ipv4Addr::LOCALHOST, port))
}

/// Listens on a place.
pub(crate) fn listen_on<R: Files + AllocGlobal + Net<Listener = TcpListener, Stream = TcpStream>>(
    rt: &R,
    directory: &str,
    place: Place,
) -> io::Result<Listener> {
    match place {
        Place::Port { port } => {
            let listener = TcpListener::bind(rt, address_of(port))?;
            Ok(Listener::Port(listener))
        }
        Place::Socket => listen_in(rt, directory),
    }
}

/// Takes the name of what was listened on away, where it has one.
pub(crate) fn leave<R: Files + AllocGlobal>(rt: &R, directory: &str, place: Place) {
    match place {
        Place::Port { port: _ } => {}
        Place::Socket => {
            if let Ok(path) = socket_path(rt, directory) {
                let _ = fs::remove_file(rt, path.as_str());
            }
        }
    }
}
