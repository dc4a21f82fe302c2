ghost use Rattle.std.specs.Prelude.{◌≡◌, ℕ, List, [], Option, Some};

use crate::bytes::Bytes;
use crate::list::List;
use std::alloc::Global;
use thiserror::Error;

/// Why a write did not send all.
#[derive(Clone, Copy, Debug, PartialEq, Eq, Error)]
pub enum SinkFault {
    #[error("the sink failed")]
    Failed,
    #[error("out of memory")]
    Memory,
}

/// Where bytes go.
pub trait Sink {
    ghost use Rattle.gd_names.specs.Streams.{Writes, HasWriteCause};

    /// The bytes written, where they are told.
    ghost written: { Self → Option (List ℕ) };

    /// How often it has failed, up to the last value of a u64.
    ghost faults: { Self → ℕ };

    /// That one goes on to the other by calls. What that means is the instance's.
    ghost goes: { Self → Self → Type 0 };

    fn write(&mut self, bytes: &[u8]) -> Result<(), SinkFault>
        ensures bytes { Writes (written self.old) (written self.new) bytes.now result }
        ensures cause { HasWriteCause (faults self.old) (faults self.new) result }
        ensures goes { goes self.old self.new };

    ghost goes_refl: { (x : Self) → goes x x };

    ghost goes_trans: { (x y z : Self) → goes x y → goes y z → goes x z };
}

/// A sink into memory, that fails at the listed calls, counted from 1. A failing call writes nothing.
#[derive(Debug, Drop)]
pub struct MemorySink {
    bytes: Bytes,
    failing: List<u64>,
    calls: u64,
    faults: u64,
}

impl MemorySink {
    ghost use Rattle.gd_names.specs.Counts.{no_calls};
    ghost use Rattle.gd_names.specs.Memory.{written_of, write_faults_of, write_failing_of, write_counts_of};

    pub fn new(alloc: Global, failing: List<u64>) -> MemorySink
        ensures written { written_of result ≡ Some [] }
        ensures faults { write_faults_of result ≡ 0 }
        ensures failing { write_failing_of result ≡ failing }
        ensures counts { write_counts_of result ≡ no_calls }
    {
        MemorySink {
            bytes: Bytes::new(alloc),
            failing,
            calls: 0,
            faults: 0,
        }
    }

    /// The bytes written so far.
    pub fn written(&self) -> &Bytes
        ensures { written_of self.now ≡ Some result.now }
    {
        &self.bytes
    }
}

impl Sink for MemorySink {
    ghost use Rattle.gd_names.specs.Memory.{written_of, write_faults_of, write_fails, has_failed, WritesOn};
    ghost use Rattle.gd_names.specs.Streams.{Writes, HasWriteCause};
    ghost use Rattle.gd_names.specs.GoingOn.{writes_none, writes_then};

    ghost written = { λ s. written_of s };

    ghost faults = { λ s. write_faults_of s };

    ghost goes = { WritesOn };

    ghost goes_refl = { writes_none };

    ghost goes_trans = { writes_then };

    fn write(&mut self, bytes: &[u8]) -> Result<(), SinkFault>
        ensures bytes { Writes (written_of self.old) (written_of self.new) bytes.now result }
        ensures cause { HasWriteCause (write_faults_of self.old) (write_faults_of self.new) result }
        ensures goes { WritesOn self.old self.new }
        ensures fails { has_failed result ≡ write_fails self.old }
    {
        self.calls = self.calls.saturating_add(1);
        if self.failing.as_slice().contains(&self.calls) {
            self.faults = self.faults.saturating_add(1);
            return Err(SinkFault::Failed);
        }
        match self.bytes.push_slice(bytes) {
            Ok(()) => Ok(()),
            Err(_) => Err(SinkFault::Memory),
        }
    }
}
