//! Serving a drive on a port.

use crate::status::Status;
use gd_api::Drive;
use gd_json::Wire;
use gd_names::Text;
use gd_server::{SharedDrive, serve};
use gd_sockets::{Incoming, Threaded};
use gd_words::Serving;
use std::alloc::{AllocError, Global};
use std::io::{Eprint, Print};
use std::net::{Net, TcpListener, TcpStream};
use std::sync::Wait;
use std::thread::Threads;
use std::time::Clock;

/// How many items a list and a page of the feed have at most.
const PAGE: u64 = 200;

/// Where the links of a drive on this port begin.
fn wire(alloc: Global, port: u16) -> Result<Wire, AllocError> {
    let base = format!(in alloc; "http://127.0.0.1:{port}")?;
    Ok(Wire {
        base: Text::from_string(base),
    })
}

/// Serves an empty drive to those who connect to a listener.
fn serve_at<R: Threads + Wait + Clock + Copy + Drop + Send + 'static>(
    rt: &R,
    alloc: Global,
    listener: TcpListener,
    serving: Serving,
) -> Status {
    let Ok(wire) = wire(alloc, serving.port) else {
        return Status::Memory;
    };
    let Ok(drive) = Drive::new(alloc, PAGE) else {
        return Status::Memory;
    };
    let Ok(shared) = SharedDrive::new(alloc, drive) else {
        return Status::Memory;
    };
    let mut accept = Incoming::new(*rt, alloc, listener);
    let mut spawner = Threaded::new(*rt, alloc);
    let end = serve(
        rt,
        alloc,
        &mut accept,
        &wire,
        &shared,
        &mut spawner,
        serving.connections,
    );
    Status::of(end)
}

/// Listens on the port of the words, says so, and serves.
pub fn listen<
    R: Net<Listener = TcpListener, Stream = TcpStream>
        + Print
        + Eprint
        + Threads
        + Wait
        + Clock
        + Copy
        + Drop
        + Send
        + 'static,
>(rt: &R, alloc: Global, serving: Serving) -> Status {
    let port = serving.port;
    match TcpListener::bind(rt, ("127.0.0.1", port)) {
        Ok(listener) => {
            // what cannot be said keeps no one from being served
            let _ = println!(rt; "listening 127.0.0.1:{port}");
            serve_at(rt, alloc, listener, serving)
        }
        Err(error) => {
            let _ = eprintln!(rt; "error: 127.0.0.1:{port} cannot be listened on: {error}");
            Status::PortFault
        }
    }
}
