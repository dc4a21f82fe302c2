//! Two connections in memory that wait for one another.
ghost use Rattle.std.specs.Prelude.{◌<◌, None};

use gd_api::Drive;
use gd_json::Wire;
use gd_names::{NoMemory, Sink, SinkFault, Source, SourceFault};
use gd_server::{Accept, AcceptFault, ServeLoopEnd, SharedDrive, serve};
use gd_sockets::Threaded;
use std::alloc::{AllocError, Global};
use std::sync::atomic::{AtomicU64, Ordering};
use std::sync::{Arc, Mutex, Wait};
use std::thread;
use std::thread::Threads;
use std::time::{Clock, Duration};

const QUESTION: &[u8] = b"GET /v1.0/me/drive/root HTTP/1.1\r\n\r\n";

/// How often each of the two sinks was written to.
#[derive(Drop)]
struct Turns {
    writes: [AtomicU64; 2],
}

/// A source that gives a request, waits until the other connection's sink was written to, and gives another.
#[derive(Drop)]
struct HeldSource<C> {
    clock: C,
    turns: Arc<Turns>,
    me: usize,
    given: u64,
    faults: u64,
    ghost one_of_two: { me < 2 },
}

impl<C: Clock> HeldSource<C> {
    fn other_was_answered(&self) -> bool {
        let other = 1 - self.me;
        for _ in 0..10_000u32 {
            if self.turns.writes[other].load(Ordering::SeqCst) > 0 {
                return true;
            }
            thread::sleep(&self.clock, Duration::from_millis(1));
        }
        false
    }
}

impl<C: Clock> Source for HeldSource<C> {
    ghost left = { λ s. None };

    ghost faults = { λ s. s.faults };

    ghost goes = { λ x y. Unit {0} };

    ghost goes_refl = { λ x. tt };

    ghost goes_trans = { λ x y z first second. tt };

    fn read(&mut self, room: &mut [u8]) -> Result<usize, SourceFault> {
        if self.given >= 2 || room.len() < QUESTION.len() {
            return Ok(0);
        }
        if self.given == 1 && !self.other_was_answered() {
            self.faults = self.faults.saturating_add(1);
            return Err(SourceFault::Failed);
        }
        self.given += 1;
        room[..QUESTION.len()].copy_from_slice(QUESTION);
        Ok(QUESTION.len())
    }
}

/// A sink that keeps its bytes where the test finds them.
#[derive(Drop)]
struct KeptSink<R> {
    rt: R,
    turns: Arc<Turns>,
    me: usize,
    bytes: Arc<Mutex<Vec<u8>>>,
    ghost one_of_two: { me < 2 },
}

impl<R: Wait> Sink for KeptSink<R> {
    ghost written = { λ s. None };

    ghost faults = { λ s. 0 };

    ghost goes = { λ x y. Unit {0} };

    ghost goes_refl = { λ x. tt };

    ghost goes_trans = { λ x y z first second. tt };

    fn write(&mut self, bytes: &[u8]) -> Result<(), SinkFault> {
        let kept = self.bytes.lock(&self.rt).extend_from_slice(bytes);
        if kept.is_err() {
            return Err(SinkFault::Memory);
        }
        self.turns.writes[self.me].fetch_add(1, Ordering::SeqCst);
        Ok(())
    }
}

/// Gives two connections, and then fails.
#[derive(Drop)]
struct Pair<R> {
    rt: R,
    turns: Arc<Turns>,
    first: Arc<Mutex<Vec<u8>>>,
    second: Arc<Mutex<Vec<u8>>>,
    given: u64,
    faults: u64,
}

impl<R: Wait + Clock + Copy> Pair<R> {
    fn new(rt: R, alloc: Global) -> Result<Pair<R>, AllocError> {
        let turns = Turns {
            writes: [AtomicU64::new(0), AtomicU64::new(0)],
        };
        Ok(Pair {
            rt,
            turns: Arc::new(alloc, turns)?,
            first: Arc::new(alloc, Mutex::new(Vec::new(alloc)))?,
            second: Arc::new(alloc, Mutex::new(Vec::new(alloc)))?,
            given: 0,
            faults: 0,
        })
    }

    fn take(&self) -> Option<(HeldSource<R>, KeptSink<R>)> {
        let (me, bytes) = match self.given {
            0 => (0, Arc::try_clone(&self.first).ok()?),
            1 => (1, Arc::try_clone(&self.second).ok()?),
            _ => return None,
        };
        let source = HeldSource {
            clock: self.rt,
            turns: Arc::try_clone(&self.turns).ok()?,
            me,
            given: 0,
            faults: 0,
        };
        let sink = KeptSink {
            rt: self.rt,
            turns: Arc::try_clone(&self.turns).ok()?,
            me,
            bytes,
        };
        Some((source, sink))
    }
}

impl<R: Wait + Clock + Copy + Drop + Send + Sync + 'static> Accept for Pair<R> {
    type I = HeldSource<R>;

    type S = KeptSink<R>;

    ghost given = { λ s. s.given };

    ghost faults = { λ s. s.faults };

    fn accept(&mut self) -> Result<(HeldSource<R>, KeptSink<R>), AcceptFault> {
        match self.take() {
            Some(ends) => {
                self.given = self.given.saturating_add(1);
                Ok(ends)
            }
            None => {
                self.faults = self.faults.saturating_add(1);
                Err(AcceptFault::Failed)
            }
        }
    }
}

fn shared_drive(alloc: Global) -> Result<SharedDrive, NoMemory> {
    let drive = Drive::new(alloc, 200)?;
    SharedDrive::new(alloc, drive)
}

fn count_of_replies(bytes: &[u8]) -> u64 {
    let mut count: u64 = 0;
    for window in bytes.windows(17) {
        if window == b"HTTP/1.1 200 OK\r\n".as_slice() {
            count = count.saturating_add(1);
        }
    }
    count
}

/// How the loop ended, and how many replies each connection got.
fn served<R: Threads + Wait + Clock + Copy + Drop + Send + Sync + 'static>(
    rt: R,
    alloc: Global,
    connections: Option<u64>,
) -> Result<(ServeLoopEnd, u64, u64), NoMemory> {
    let wire = Wire::read(alloc, b"http://127.0.0.1:8080");
    let Ok(wire) = wire else {
        return Err(NoMemory);
    };
    let shared = shared_drive(alloc)?;
    let mut pair = Pair::new(rt, alloc)?;
    let mut spawner = Threaded::new(rt, alloc);
    let end = serve(
        &rt,
        alloc,
        &mut pair,
        &wire,
        &shared,
        &mut spawner,
        connections,
    );
    let first = count_of_replies(pair.first.lock(&rt).as_slice());
    let second = count_of_replies(pair.second.lock(&rt).as_slice());
    Ok((end, first, second))
}

#[test]
fn both(rt: HostRuntime) {
    for (connections, end) in [
        (Some(2), ServeLoopEnd::Enough),
        (None, ServeLoopEnd::AcceptFault),
    ] {
        let served = served(rt, rt.alloc(), connections);
        assert!(rt; served == Ok((end, 2, 2)), "{connections:?}");
    }
}
