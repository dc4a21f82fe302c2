ghost use Rattle.std.specs.Prelude.{◌≡◌, ◌≤◌, ◌<◌, [], length, Some, List, ℕ, IfOk, IsErrOf};
ghost use Rattle.gd_names.specs.Streams.{Rose};
ghost use Rattle.od_cli.specs.Replays.{most_bytes, IsTooLong};

use gd_names::{Bytes, Source};
use std::alloc::Global;

/// How many bytes a script may have.
const MOST_BYTES: usize = 8_388_608;

/// How many bytes are read at a time.
const ROOM: usize = 4096;

/// Why a source was not read to its end.
#[derive(Clone, Copy, Debug, PartialEq, Eq)]
pub enum ReadEnd {
    TooLong,
    Fault,
    Memory,
}

/// Reads a source to its end, at most so many bytes as a script may have.
pub fn read_all<I: Source>(alloc: Global, source: &mut I) -> Result<Bytes, ReadEnd>
    ensures all { IfOk result (λ text. (length text ≤ most_bytes) × ((left : List ℕ) → I.left source.old ≡ Some left → (text ≡ left) × (I.left source.new ≡ Some []))) }
    ensures long { IsErrOf result ReadEnd.TooLong → IsTooLong (I.left source.old) }
    ensures fault { IsErrOf result ReadEnd.Fault → Rose (I.faults source.old) (I.faults source.new) }
    ensures later { I.faults source.old ≤ I.faults source.new }
{
    let mut all = Vec::new(alloc);
    let mut room = [0u8; ROOM];
    while all.len() <= MOST_BYTES {
        let count = match source.read(&mut room) {
            Ok(count) => count,
            Err(_) => return Err(ReadEnd::Fault),
        };
        if count == 0 {
            return Ok(Bytes::from_vec(all));
        }
        let (piece, _) = room.split_at(count);
        match all.extend_from_slice(piece) {
            Ok(()) => {}
            Err(_) => return Err(ReadEnd::Memory),
        }
    }
    Err(ReadEnd::TooLong)
}
