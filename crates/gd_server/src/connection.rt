//! One connection.
ghost use Rattle.std.specs.Prelude.{◌≡◌, ℕ, Bool, List};
ghost use Rattle.gd_names.specs.Streams.{Rose};
ghost use Rattle.gd_item.specs.declared.step.Step.{Step};
ghost use Rattle.gd_item.specs.declared.step.Who.{Who};
ghost use Rattle.gd_api.specs.Drives.{Stands};
ghost use Rattle.gd_server.specs.Drives.{Logs};
ghost use Rattle.gd_server.specs.Serving.{Serves};

use crate::answering::{Answers, answer, close, end_of};
use crate::end::ServeEnd;
use crate::inbox::Inbox;
use gd_api::Drive;
use gd_json::Wire;
use gd_names::{Sink, Source};
use std::alloc::Global;

/// How many messages of a connection are answered.
const MOST_MESSAGES: u32 = 100_000;

/// Answers each message in turn, whatever answers requests.
pub(crate) fn converse<I: Source, S: Sink, A: Answers>(
    alloc: Global,
    source: &mut I,
    sink: &mut S,
    wire: &Wire,
    answers: &mut A,
) -> ServeEnd
    ensures serves { Serves A.asks wire.now.base (I.left source.old) (I.left source.new) answers.old answers.new (S.written sink.old) (S.written sink.new) result }
    ensures read { result ≡ ServeEnd.ReadFault → Rose (I.faults source.old) (I.faults source.new) }
    ensures write { result ≡ ServeEnd.WriteFault → Rose (S.faults sink.old) (S.faults sink.new) }
    ensures source { I.goes source.old source.new }
    ensures sink { S.goes sink.old sink.new }
{
    let mut inbox = match Inbox::new(alloc, wire) {
        Ok(inbox) => inbox,
        Err(_) => return ServeEnd::Memory,
    };
    for answered in 0..MOST_MESSAGES {
        let message = match inbox.next(source) {
            Ok(message) => message,
            Err(end) => return close(alloc, sink, wire, end),
        };
        let closes = message.closes;
        match answer(alloc, sink, wire, answers, message) {
            Ok(()) => {}
            Err(fault) => return end_of(fault),
        }
        if closes {
            return ServeEnd::Ended;
        }
    }
    ServeEnd::Spent
}

/// Serves a connection to its end: each message that stands in what is read is answered in turn, in one write or, with
/// large bytes, in two. A batch and a version are answered as what is not there.
pub fn serve_connection<I: Source, S: Sink>(
    alloc: Global,
    source: &mut I,
    sink: &mut S,
    wire: &Wire,
    drive: &mut Drive,
) -> ServeEnd
    ensures serves { (who : Who) (heard : List Step → Bool) (log : List Step) → Stands drive.old log
        → (after : List Step) × Stands drive.new after
        × Serves (Logs who heard drive.old.size) wire.now.base (I.left source.old) (I.left source.new) log after (S.written sink.old) (S.written sink.new) result }
    ensures size { drive.new.size ≡ drive.old.size }
    ensures read { result ≡ ServeEnd.ReadFault → Rose (I.faults source.old) (I.faults source.new) }
    ensures write { result ≡ ServeEnd.WriteFault → Rose (S.faults sink.old) (S.faults sink.new) }
    ensures source { I.goes source.old source.new }
    ensures sink { S.goes sink.old sink.new }
{
    converse(alloc, source, sink, wire, drive)
}
