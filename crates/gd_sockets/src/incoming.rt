use crate::stream::Stream;
use gd_server::{Accept, AcceptFault};
use std::alloc::Global;
use std::io::ErrorKind;
use std::net::{TcpListener, TcpStream};
use std::time::{Clock, Duration};
use std::{io, thread};

/// How often accepting is tried before it counts as failed, and the pause between two tries: two minutes in all. Until
/// then the system may have room again, since a connection that is kept waiting is let go within one.
const TRIES: u32 = 1_200;

const PAUSE_MILLIS: u64 = 100;

/// The connections that come to a port.
#[derive(Drop)]
pub struct Incoming<C> {
    clock: C,
    alloc: Global,
    listener: TcpListener,
    given: u64,
    faults: u64,
}

impl<C: Clock> Incoming<C> {
    pub fn new(clock: C, alloc: Global, listener: TcpListener) -> Incoming<C> {
        Incoming {
            clock,
            alloc,
            listener,
            given: 0,
            faults: 0,
        }
    }

    /// Waits for a socket.
    fn socket(&self) -> Result<TcpStream, AcceptFault> {
        for _ in 0..TRIES {
            match self.listener.accept() {
                Ok((socket, _)) => return Ok(socket),
                Err(error) if is_passing(&error) => thread::sleep(
                    &self.clock,
                    Duration::from_millis(PAUSE_MILLIS),
                ),
                Err(_) => return Err(AcceptFault::Failed),
            }
        }
        Err(AcceptFault::Failed)
    }

    fn ends(&self) -> Result<(Stream, Stream), AcceptFault> {
        let socket = self.socket()?;
        match Stream::ends(self.alloc, socket) {
            Ok(ends) => Ok(ends),
            Err(_) => Err(AcceptFault::Memory),
        }
    }
}

/// Whether the listener may go on behind such an error: the peer was gone again, or the system has no room for now.
fn is_passing(error: &io::Error) -> bool {
    match error.kind() {
        ErrorKind::ConnectionAborted | ErrorKind::ConnectionReset | ErrorKind::OutOfMemory => true,
        // too many open files, in the system or in this process; no buffer space; a protocol error of the peer
        _ => matches!(error.raw_os_error(), Some(23 | 24 | 71 | 105)),
    }
}

impl<C: Clock> Accept for Incoming<C> {
    type I = Stream;

    type S = Stream;

    ghost given = { λ s. s.given };

    ghost faults = { λ s. s.faults };

    fn accept(&mut self) -> Result<(Stream, Stream), AcceptFault> {
        match self.ends() {
            Ok(ends) => {
                self.given = self.given.saturating_add(1);
                Ok(ends)
            }
            Err(fault) => {
                self.faults = self.faults.saturating_add(1);
                Err(fault)
            }
        }
    }
}
