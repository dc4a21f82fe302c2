//! A drive that many connections share.
ghost use Rattle.std.specs.Prelude.{◌≡◌, ℕ};
ghost use Rattle.gd_names.specs.Streams.{Rose};
ghost use Rattle.gd_server.specs.Drives.{Asks, HasLog, IsAnswer, Shares};
ghost use Rattle.gd_server.specs.Serving.{Serves};

use crate::answering::Answers;
use crate::connection::converse;
use crate::end::ServeEnd;
use gd_api::Drive;
use gd_item::{Reply, Request};
use gd_json::Wire;
use gd_names::{NoMemory, Sink, Source};
use std::alloc::Global;
use std::sync::{Arc, Mutex, Wait};

/// A drive that stands for a log, whichever it is.
#[derive(Drop)]
struct Kept {
    drive: Drive,
    ghost has_log: { ∥ HasLog drive ∥₁ },
}

impl Kept {
    fn new(drive: Drive) -> Kept
        requires { ∥ HasLog drive ∥₁ }
    {
        Kept { drive }
    }

    fn handle(&mut self, request: &Request) -> Reply
        ensures asks { Asks self.old.drive self.new.drive request.now result }
        ensures answer { ∥ IsAnswer request.now result ∥₁ }
    {
        self.drive.handle(request)
    }
}

/// A drive that many connections share: one request at a time is answered.
#[derive(Drop)]
pub struct SharedDrive {
    inner: Arc<Mutex<Kept>>,
}

impl SharedDrive {
    pub fn new(alloc: Global, drive: Drive) -> Result<SharedDrive, NoMemory>
        requires { ∥ HasLog drive ∥₁ }
    {
        Ok(SharedDrive {
            inner: Arc::new(alloc, Mutex::new(Kept::new(drive)))?,
        })
    }

    /// The same drive once more.
    pub fn again(&self) -> Result<SharedDrive, NoMemory> {
        Ok(SharedDrive {
            inner: Arc::try_clone(&self.inner)?,
        })
    }

    /// Answers a request under the lock.
    pub fn handle<R: Wait>(&self, rt: &R, request: &Request) -> Reply
        ensures { ∥ IsAnswer request.now result ∥₁ }
    {
        self.inner.lock(rt).handle(request)
    }
}

/// A shared drive, with what may wait for its lock.
#[derive(Drop)]
struct Sharing<'a, R> {
    rt: &'a R,
    drive: &'a SharedDrive,
}

impl<'a, R: Wait> Answers for Sharing<'a, R> {
    ghost use Rattle.gd_server.specs.Drives.{IsAnswer};

    ghost asks = { λ before after request reply. ∥ IsAnswer request reply ∥₁ };

    fn ask(&mut self, request: &Request) -> Reply {
        self.drive.handle(self.rt, request)
    }
}

/// Serves a connection as `serve_connection` does, over a drive that others ask as well. May wait.
pub fn serve_shared<I: Source, S: Sink, R: Wait>(
    rt: &R,
    alloc: Global,
    source: &mut I,
    sink: &mut S,
    wire: &Wire,
    shared: &SharedDrive,
) -> ServeEnd
    ensures serves { Serves Shares wire.now.base (I.left source.old) (I.left source.new) tt tt (S.written sink.old) (S.written sink.new) result }
    ensures read { result ≡ ServeEnd.ReadFault → Rose (I.faults source.old) (I.faults source.new) }
    ensures write { result ≡ ServeEnd.WriteFault → Rose (S.faults sink.old) (S.faults sink.new) }
    ensures source { I.goes source.old source.new }
    ensures sink { S.goes sink.old sink.new }
{
    let mut sharing = Sharing { rt, drive: shared };
    converse(alloc, source, sink, wire, &mut sharing)
}
