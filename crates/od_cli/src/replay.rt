ghost use Rattle.std.specs.Prelude.{◌≡◌, ◌⊎◌, ℕ, false, IfOk, OnOk, IsErrOf};
ghost use Rattle.gd_names.specs.Streams.{Rose};
ghost use Rattle.od_cli.specs.Replays.{is_replay, IsShort, IsTooLong, Replays, TellsBadLine, WritesNothing, WritesPart, WritesPartOrNothing};

use crate::output::make_output;
use crate::read::read_all;
use crate::status::ReplayStatus;
use gd_names::{NoMemory, Sink, Source};
use od_words::{Command, UsageFault, read_words};
use std::alloc::Global;

/// Whether the words give the command.
fn is_command(alloc: Global, words: &[String]) -> Result<bool, NoMemory>
    ensures { IfOk result (λ is. is ≡ is_replay words.now) }
{
    match read_words(alloc, words) {
        Ok(
            Command::Replay {
                host: _,
                generate: None,
            },
        ) => Ok(true),
        Ok(_) => Ok(false),
        Err(UsageFault::Usage) => Ok(false),
        Err(UsageFault::Memory) => Err(NoMemory),
    }
}

/// Reads a script, plays it, and writes what it prints.
fn replay<I: Source, S: Sink>(
    alloc: Global,
    source: &mut I,
    sink: &mut S,
) -> Result<(), ReplayStatus>
    ensures replayed { OnOk result (Replays (I.left source.old) (I.left source.new) (S.written sink.old) (S.written sink.new)) }
    ensures not_replayed { IsErrOf result ReplayStatus.Replayed → ⊥ }
    ensures not_usage { IsErrOf result ReplayStatus.Usage → ⊥ }
    ensures bad_line { (number : ℕ) → IsErrOf result (ReplayStatus.BadLine number) → TellsBadLine number (I.left source.old) (I.left source.new) (S.written sink.old) (S.written sink.new) }
    ensures too_long { IsErrOf result ReplayStatus.TooLong → IsTooLong (I.left source.old) × WritesNothing (S.written sink.old) (S.written sink.new) }
    ensures read { IsErrOf result ReplayStatus.ReadFault → Rose (I.faults source.old) (I.faults source.new) × WritesNothing (S.written sink.old) (S.written sink.new) }
    ensures write { IsErrOf result ReplayStatus.WriteFault → Rose (S.faults sink.old) (S.faults sink.new) × IsShort (I.left source.old) × WritesPart (I.left source.old) (S.written sink.old) (S.written sink.new) }
    ensures memory { IsErrOf result ReplayStatus.Memory → WritesPartOrNothing (I.left source.old) (S.written sink.old) (S.written sink.new) }
{
    let text = read_all(alloc, source)?;
    let made = make_output(alloc, text.as_slice())?;
    sink.write(made.text.as_slice())?;
    match made.bad_line {
        None => Ok(()),
        Some(number) => Err(ReplayStatus::BadLine(number)),
    }
}

/// All that `odsync replay` does: reads a script to its end, plays it on a new drive, and writes what it prints.
/// Nothing is run where a line is no script line. The words are those after the program's name. The other commands and
/// a generated script are not run yet: their words are refused here.
pub fn replay_main<I: Source, S: Sink>(
    alloc: Global,
    words: &[String],
    source: &mut I,
    sink: &mut S,
) -> ReplayStatus
    ensures usage { result ≡ ReplayStatus.Usage → is_replay words.now ≡ false }
    ensures words { is_replay words.now ≡ false → ((result ≡ ReplayStatus.Usage) ⊎ (result ≡ ReplayStatus.Memory)) × (source.new ≡ source.old) × (sink.new ≡ sink.old) }
    ensures replayed { result ≡ ReplayStatus.Replayed → Replays (I.left source.old) (I.left source.new) (S.written sink.old) (S.written sink.new) }
    ensures bad_line { (number : ℕ) → result ≡ ReplayStatus.BadLine number → TellsBadLine number (I.left source.old) (I.left source.new) (S.written sink.old) (S.written sink.new) }
    ensures too_long { result ≡ ReplayStatus.TooLong → IsTooLong (I.left source.old) × WritesNothing (S.written sink.old) (S.written sink.new) }
    ensures read { result ≡ ReplayStatus.ReadFault → Rose (I.faults source.old) (I.faults source.new) × WritesNothing (S.written sink.old) (S.written sink.new) }
    ensures write { result ≡ ReplayStatus.WriteFault → Rose (S.faults sink.old) (S.faults sink.new) × IsShort (I.left source.old) × WritesPart (I.left source.old) (S.written sink.old) (S.written sink.new) }
    ensures memory { result ≡ ReplayStatus.Memory → WritesPartOrNothing (I.left source.old) (S.written sink.old) (S.written sink.new) }
{
    match is_command(alloc, words) {
        Ok(true) => {}
        Ok(false) => return ReplayStatus::Usage,
        Err(NoMemory) => return ReplayStatus::Memory,
    }
    match replay(alloc, source, sink) {
        Ok(()) => ReplayStatus::Replayed,
        Err(status) => status,
    }
}
