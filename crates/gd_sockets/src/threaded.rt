ghost use Rattle.std.specs.Prelude.{◌≡◌};

use gd_server::{Running, Spawner};
use std::alloc::Global;
use std::mem;
use std::sync::Wait;
use std::thread::Threads;

/// Runs each task on a thread of its own.
#[derive(Drop)]
pub struct Threaded<R> {
    rt: R,
    alloc: Global,
    running: Vec<Running>,
    handed: u64,
}

impl<R> Threaded<R> {
    pub fn new(rt: R, alloc: Global) -> Threaded<R> {
        Threaded {
            rt,
            alloc,
            running: Vec::new(alloc),
            handed: 0,
        }
    }
}

impl<R: Threads> Threaded<R> {
    /// Joins the threads that have ended, whose stacks are kept until then.
    fn let_go(&mut self)
        ensures { self.new.handed ≡ self.old.handed }
    {
        let mut at = 0;
        for _ in 0..self.running.len() {
            if at >= self.running.len() {
                return;
            }
            if self.running[at].has_ended() {
                self.running.swap_remove(at).join(&self.rt);
            } else {
                at += 1;
            }
        }
    }
}

impl<R: Threads + Wait + Copy + Drop + Send + 'static> Spawner for Threaded<R> {
    type R = R;

    ghost handed = { λ s. s.handed };

    fn note(&mut self) {
        self.handed = self.handed.saturating_add(1);
    }

    fn handle(&mut self) -> Option<R> {
        self.let_go();
        match self.running.try_reserve(1) {
            Ok(()) => Some(self.rt),
            Err(_) => None,
        }
    }

    fn keep(&mut self, thread: Running) {
        let _ = self.running.push(thread);
    }

    fn wait(&mut self) {
        let running = mem::replace(&mut self.running, Vec::new(self.alloc));
        for thread in running {
            thread.join(&self.rt);
        }
    }
}
