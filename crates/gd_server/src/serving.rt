//! Connection after connection.
ghost use Rattle.std.specs.Prelude.{◌≡◌, ◌≢◌, ℕ, ◌+◌, ◌≤◌, Some, OnOk, OnErr, IsErrOf};
ghost use Rattle.gd_names.specs.Streams.{Rose};
ghost use Rattle.gd_server.specs.Counts.{risen, HandedOn};

use crate::end::ServeLoopEnd;
use crate::shared::{SharedDrive, serve_shared};
use crate::spawning::{Spawner, Task};
use gd_json::Wire;
use gd_names::{NoMemory, Sink, Source};
use std::alloc::Global;
use std::sync::Wait;
use thiserror::Error;

/// Why no connection was given.
#[derive(Clone, Copy, Debug, PartialEq, Eq, Error)]
pub enum AcceptFault {
    #[error("no connection was accepted")]
    Failed,
    #[error("out of memory")]
    Memory,
}

/// Where connections come from.
pub trait Accept {
    type I: Source + Drop + Send + 'static;

    type S: Sink + Drop + Send + 'static;

    /// How many connections were given, up to the last value of a u64.
    ghost given: { Self → ℕ };

    /// How often it has failed, up to the last value of a u64.
    ghost faults: { Self → ℕ };

    /// Waits for the next connection.
    fn accept(&mut self) -> Result<(Self::I, Self::S), AcceptFault>
        ensures given { OnOk result (given self.new ≡ risen 1 (given self.old)) }
        ensures not_given { OnErr result (given self.new ≡ given self.old) }
        ensures later { faults self.old ≤ faults self.new }
        ensures cause { IsErrOf result AcceptFault.Failed → Rose (faults self.old) (faults self.new) };
}

/// One connection to be served.
#[derive(Drop)]
pub struct Connection<R, I, S> {
    rt: R,
    alloc: Global,
    source: I,
    sink: S,
    wire: Wire,
    shared: SharedDrive,
}

impl<
    R: Wait + Drop + Send + 'static,
    I: Source + Drop + Send + 'static,
    S: Sink + Drop + Send + 'static,
> Task for Connection<R, I, S> {
    fn run(self) {
        let Connection {
            rt,
            alloc,
            mut source,
            mut sink,
            wire,
            shared,
        } = self;
        let _ = serve_shared(&rt, alloc, &mut source, &mut sink, &wire, &shared);
    }
}

/// The connection of these two streams, over the shared drive.
fn connect<R: Copy, I: Drop, S: Drop>(
    rt: &R,
    alloc: Global,
    streams: (I, S),
    wire: &Wire,
    shared: &SharedDrive,
) -> Result<Connection<R, I, S>, NoMemory> {
    let (source, sink) = streams;
    let wire = Wire {
        base: wire.base.clone()?,
    };
    let shared = shared.again()?;
    Ok(Connection {
        rt: *rt,
        alloc,
        source,
        sink,
        wire,
        shared,
    })
}

/// How many are left after one more, where there is a number.
fn one_less(left: Option<u64>) -> Option<u64>
    requires { left ≢ Some 0 }
    ensures { (k : ℕ) → result ≡ Some k → left ≡ Some (k + 1) }
{
    match left {
        Some(n) => Some(n - 1),
        None => None,
    }
}

fn serve_all<A: Accept, P: Spawner, R: Wait + Copy + Drop + Send + 'static>(
    rt: &R,
    alloc: Global,
    accept: &mut A,
    wire: &Wire,
    shared: &SharedDrive,
    spawner: &mut P,
    connections: Option<u64>,
) -> ServeLoopEnd
    ensures enough { result ≡ ServeLoopEnd.Enough → (n : ℕ) × (connections ≡ Some n) × HandedOn n (A.given accept.old) (A.given accept.new) (P.handed spawner.old) (P.handed spawner.new) }
    ensures fault { result ≡ ServeLoopEnd.AcceptFault → Rose (A.faults accept.old) (A.faults accept.new) × ((n : ℕ) × HandedOn n (A.given accept.old) (A.given accept.new) (P.handed spawner.old) (P.handed spawner.new)) }
{
    let mut left = connections;
    for _ in rt.forever() {
        if left == Some(0) {
            return ServeLoopEnd::Enough;
        }
        let streams = match accept.accept() {
            Ok(streams) => streams,
            Err(AcceptFault::Failed) => return ServeLoopEnd::AcceptFault,
            Err(AcceptFault::Memory) => return ServeLoopEnd::Memory,
        };
        let connection = match connect(rt, alloc, streams, wire, shared) {
            Ok(connection) => connection,
            Err(_) => return ServeLoopEnd::Memory,
        };
        match spawner.start(alloc, connection) {
            None => {}
            Some(connection) => connection.run(),
        }
        left = one_less(left);
    }
    unreachable!()
}

/// Serves so many connections, or all that come, each beside the others where the spawner can and else before the next.
/// Ends once all of them have ended. May wait.
pub fn serve<A: Accept, P: Spawner, R: Wait + Copy + Drop + Send + 'static>(
    rt: &R,
    alloc: Global,
    accept: &mut A,
    wire: &Wire,
    shared: &SharedDrive,
    spawner: &mut P,
    connections: Option<u64>,
) -> ServeLoopEnd
    ensures enough { result ≡ ServeLoopEnd.Enough → (n : ℕ) × (connections ≡ Some n) × HandedOn n (A.given accept.old) (A.given accept.new) (P.handed spawner.old) (P.handed spawner.new) }
    ensures fault { result ≡ ServeLoopEnd.AcceptFault → Rose (A.faults accept.old) (A.faults accept.new) × ((n : ℕ) × HandedOn n (A.given accept.old) (A.given accept.new) (P.handed spawner.old) (P.handed spawner.new)) }
{
    let end = serve_all(rt, alloc, accept, wire, shared, spawner, connections);
    spawner.wait();
    end
}
