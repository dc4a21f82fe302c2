ghost use Rattle.std.specs.Prelude.{None};

use gd_names::{Sink, SinkFault, Source, SourceFault};
use std::alloc::{AllocError, Global};
use std::io::{Read, Write};
use std::net::TcpStream;
use std::sync::Arc;
use std::time::Duration;

/// How long a peer may keep a connection waiting, with bytes to read or with room for bytes that are written.
const PATIENCE_SECONDS: u64 = 60;

/// One end of a connection. Both ends share the socket, which is closed when both are let go. They tell nothing of what
/// goes over it.
#[derive(Drop)]
pub struct Stream {
    socket: Arc<TcpStream>,
    faults: u64,
}

impl Stream {
    fn new(socket: Arc<TcpStream>) -> Stream {
        Stream { socket, faults: 0 }
    }

    /// Where bytes come from and where they go. A limit that the system does not set leaves the connection without it.
    pub fn ends(alloc: Global, socket: TcpStream) -> Result<(Stream, Stream), AllocError> {
        let patience = Duration::from_secs(PATIENCE_SECONDS);
        let _ = socket.set_nodelay(true);
        let _ = socket.set_read_timeout(Some(patience));
        let _ = socket.set_write_timeout(Some(patience));
        let socket = Arc::new(alloc, socket)?;
        let theirs = Arc::try_clone(&socket)?;
        Ok((Stream::new(socket), Stream::new(theirs)))
    }
}

impl Source for Stream {
    ghost left = { λ s. None };

    ghost faults = { λ s. s.faults };

    ghost goes = { λ x y. Unit {0} };

    ghost goes_refl = { λ x. tt };

    ghost goes_trans = { λ x y z first second. tt };

    fn read(&mut self, room: &mut [u8]) -> Result<usize, SourceFault> {
        let mut socket = &*self.socket;
        match socket.read(room) {
            Ok(count) => Ok(count),
            Err(_) => {
                self.faults = self.faults.saturating_add(1);
                Err(SourceFault::Failed)
            }
        }
    }
}

impl Sink for Stream {
    ghost written = { λ s. None };

    ghost faults = { λ s. s.faults };

    ghost goes = { λ x y. Unit {0} };

    ghost goes_refl = { λ x. tt };

    ghost goes_trans = { λ x y z first second. tt };

    fn write(&mut self, bytes: &[u8]) -> Result<(), SinkFault> {
        let mut socket = &*self.socket;
        match socket.write_all(bytes) {
            Ok(()) => Ok(()),
            Err(_) => {
                self.faults = self.faults.saturating_add(1);
                Err(SinkFault::Failed)
            }
        }
    }
}
