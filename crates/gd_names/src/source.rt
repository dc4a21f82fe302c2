ghost use Rattle.std.specs.Prelude.{◌≡◌, ℕ, ◌<◌, ◌≤◌, List, length, is_err, Option, Some, IfOk};
ghost use Rattle.gd_names.specs.Counts.{no_calls, is_listed};

use crate::bytes::Bytes;
use crate::list::List;
use std::marker::Model;
use thiserror::Error;

/// Why a read gave no bytes.
#[derive(Clone, Copy, Debug, PartialEq, Eq, Error)]
pub enum SourceFault {
    #[error("the source failed")]
    Failed,
}

/// Where bytes come from.
pub trait Source {
    ghost use Rattle.gd_names.specs.Streams.{Reads, HasReadCause};

    /// The bytes left, where they are told.
    ghost left: { Self → Option (List ℕ) };

    /// How often it has failed, up to the last value of a u64.
    ghost faults: { Self → ℕ };

    /// That one goes on to the other by calls. What that means is the instance's.
    ghost goes: { Self → Self → Type 0 };

    /// Puts the next bytes into the room, and says how many. None for a room that is not empty is the end.
    fn read(&mut self, room: &mut [u8]) -> Result<usize, SourceFault>
        ensures within { IfOk result (λ n. n ≤ length room.new) }
        ensures bytes { Reads (left self.old) (left self.new) result room.new }
        ensures cause { HasReadCause (faults self.old) (faults self.new) result }
        ensures goes { goes self.old self.new };

    ghost goes_refl: { (x : Self) → goes x x };

    ghost goes_trans: { (x y z : Self) → goes x y → goes y z → goes x z };
}

/// A source over bytes in memory, that gives them piece by piece and fails at the listed calls, counted from 1.
#[derive(Debug, Drop)]
pub struct MemorySource {
    bytes: Bytes,
    at: usize,
    piece: usize,
    failing: List<u64>,
    calls: u64,
    faults: u64,
    ghost within: { at ≤ length bytes },
    ghost some_piece: { 0 < piece },
}

/// Whether the number is one of the list.
fn is_listed(numbers: &List<u64>, number: u64) -> bool
    ensures { result ≡ is_listed numbers.now number }
{
    numbers.as_slice().contains(&number)
}

impl MemorySource {
    ghost use Rattle.gd_names.specs.Memory.{left_of, read_faults_of, read_failing_of, read_piece_of, read_counts_of};

    pub fn new(bytes: Bytes, piece: usize, failing: List<u64>) -> MemorySource
        requires { 0 < piece }
        ensures left { left_of result ≡ Some bytes }
        ensures faults { read_faults_of result ≡ 0 }
        ensures failing { read_failing_of result ≡ failing }
        ensures piece { read_piece_of result ≡ piece }
        ensures counts { read_counts_of result ≡ no_calls }
    {
        MemorySource {
            bytes,
            at: 0,
            piece,
            failing,
            calls: 0,
            faults: 0,
        }
    }
}

impl Source for MemorySource {
    ghost use Rattle.gd_names.specs.Memory.{left_of, read_faults_of, read_fails, next_piece, ReadsOn};
    ghost use Rattle.gd_names.specs.Streams.{Reads, HasReadCause};
    ghost use Rattle.gd_names.specs.GoingOn.{reads_none, reads_then};

    ghost left = { λ s. left_of s };

    ghost faults = { λ s. read_faults_of s };

    ghost goes = { ReadsOn };

    ghost goes_refl = { reads_none };

    ghost goes_trans = { reads_then };

    fn read(&mut self, room: &mut [u8]) -> Result<usize, SourceFault>
        ensures within { IfOk result (λ n. n ≤ length room.new) }
        ensures bytes { Reads (left_of self.old) (left_of self.new) result room.new }
        ensures cause { HasReadCause (read_faults_of self.old) (read_faults_of self.new) result }
        ensures goes { ReadsOn self.old self.new }
        ensures fails { is_err result ≡ read_fails self.old }
        ensures piece { IfOk result (λ n. n ≡ next_piece self.old (length room.old)) }
    {
        self.calls = self.calls.saturating_add(1);
        if is_listed(&self.failing, self.calls) {
            self.faults = self.faults.saturating_add(1);
            return Err(SourceFault::Failed);
        }
        let rest = &self.bytes.as_slice()[self.at..];
        let count = rest.len().min(self.piece).min(room.len());
        room[..count].copy_from_slice(&rest[..count]);
        self.at += count;
        Ok(count)
    }
}
