ghost use Rattle.std.specs.Prelude.{◌≡◌, None};

use gd_names::{Sink, SinkFault, Source, SourceFault};
use std::io::{Read, Write};

/// A source over a reader. It tells what the reader has left, where the reader does.
#[derive(Drop)]
pub struct Reading<R: Read + Drop> {
    inner: R,
    faults: u64,
}

impl<R: Read + Drop> Reading<R> {
    pub fn new(inner: R) -> Reading<R> {
        Reading { inner, faults: 0 }
    }
}

impl<R: Read + Drop> Source for Reading<R> {
    ghost left = { λ s. R.remaining s.inner };

    ghost faults = { λ s. s.faults };

    ghost goes = { λ x y. Unit {0} };

    ghost goes_refl = { λ x. tt };

    ghost goes_trans = { λ x y z first second. tt };

    fn read(&mut self, room: &mut [u8]) -> Result<usize, SourceFault> {
        match self.inner.read(room) {
            Ok(count) => Ok(count),
            Err(_) => {
                self.faults = self.faults.saturating_add(1);
                Err(SourceFault::Failed)
            }
        }
    }
}

/// A sink over a writer. It tells nothing of what was written.
#[derive(Drop)]
pub struct Writing<W: Write + Drop> {
    inner: W,
    faults: u64,
}

impl<W: Write + Drop> Writing<W> {
    pub fn new(inner: W) -> Writing<W> {
        Writing { inner, faults: 0 }
    }
}

impl<W: Write + Drop> Sink for Writing<W> {
    ghost written = { λ s. None };

    ghost faults = { λ s. s.faults };

    ghost goes = { λ x y. Unit {0} };

    ghost goes_refl = { λ x. tt };

    ghost goes_trans = { λ x y z first second. tt };

    fn write(&mut self, bytes: &[u8]) -> Result<(), SinkFault> {
        match self.inner.write_all(bytes) {
            Ok(()) => Ok(()),
            Err(_) => {
                self.faults = self.faults.saturating_add(1);
                Err(SinkFault::Failed)
            }
        }
    }
}
