//! Tasks that run beside one another.
ghost use Rattle.std.specs.Prelude.{◌≡◌, ℕ};
ghost use Rattle.gd_server.specs.Counts.{risen};

use std::alloc::Global;
use std::sync::atomic::{AtomicU64, Ordering};
use std::sync::{Arc, Mutex, Wait};
use std::thread;
use std::thread::{JoinHandle, Threads};

/// Something that runs to its end, maybe beside others.
pub trait Task: Drop + Send + 'static {
    fn run(self);
}

/// A thread that was started for a task.
#[derive(Drop)]
pub struct Running {
    thread: JoinHandle<()>,
    ended: Arc<AtomicU64>,
}

impl Running {
    /// Whether its task has ended, so that joining it waits for no other.
    pub fn has_ended(&self) -> bool {
        self.ended.load(Ordering::SeqCst) > 0
    }

    /// Waits until it has ended.
    pub fn join<R: Threads>(self, rt: &R) {
        let Running { thread, ended } = self;
        thread.join(rt);
        drop(ended);
    }
}

/// Where tasks run. An instance says whether it can start threads, and keeps those that were started.
pub trait Spawner {
    type R: Threads + Wait + Copy + Send + 'static;

    /// How many tasks were handed on, up to the last value of a u64.
    ghost handed: { Self → ℕ };

    /// Counts a task that is handed on.
    fn note(&mut self)
        ensures { handed self.new ≡ risen 1 (handed self.old) };

    /// What starts threads, where there is such. Then there is room to keep one more.
    fn handle(&mut self) -> Option<Self::R>
        ensures { handed self.new ≡ handed self.old };

    /// Keeps a thread until it has ended or all are waited for.
    fn keep(&mut self, thread: Running)
        ensures { handed self.new ≡ handed self.old };

    /// Waits until all that was started has ended.
    fn wait(&mut self)
        ensures { handed self.new ≡ handed self.old };

    /// Starts a task beside the caller, or hands it back.
    final fn start<T: Task>(&mut self, alloc: Global, task: T) -> Option<T>
    where
        Self: Sized,
        ensures { handed self.new ≡ risen 1 (handed self.old) }
    {
        self.note();
        let rt = match self.handle() {
            Some(rt) => rt,
            None => return Some(task),
        };
        match start_thread(&rt, alloc, task) {
            Ok(thread) => {
                self.keep(thread);
                None
            }
            Err(task) => task,
        }
    }
}

/// Takes the task out of its place and runs it.
fn run_taken<T: Task, R: Wait>(rt: &R, place: &Mutex<Option<T>>, ended: &AtomicU64) {
    let task = place.lock(rt).take();
    if let Some(task) = task {
        task.run();
    }
    ended.store(1, Ordering::SeqCst);
}

/// Starts a thread for a task, which is handed back where none can be made.
fn start_thread<T: Task, R: Threads + Wait + Copy + Send + 'static>(
    rt: &R,
    alloc: Global,
    task: T,
) -> Result<Running, Option<T>> {
    let place = match Arc::new(alloc, Mutex::new(Some(task))) {
        Ok(place) => place,
        Err(refused) => return Err(refused.value.into_inner()),
    };
    let theirs = match Arc::try_clone(&place) {
        Ok(theirs) => theirs,
        Err(_) => return Err(place.lock(rt).take()),
    };
    let ended = match Arc::new(alloc, AtomicU64::new(0)) {
        Ok(ended) => ended,
        Err(_) => return Err(place.lock(rt).take()),
    };
    let ends = match Arc::try_clone(&ended) {
        Ok(ends) => ends,
        Err(_) => return Err(place.lock(rt).take()),
    };
    let on = *rt;
    match thread::spawn(rt, move || run_taken(&on, &theirs, &ends)) {
        Ok(thread) => Ok(Running { thread, ended }),
        Err(_) => Err(place.lock(rt).take()),
    }
}
