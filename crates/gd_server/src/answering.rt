//! Replies to messages.
ghost use Rattle.std.specs.Prelude.{◌≡◌, ◌≤◌, ◌⊎◌, ◌++◌, ℕ, List, IsErrOf};
ghost use Rattle.gd_names.specs.Streams.{Rose, Writes, HasWriteCause};
ghost use Rattle.gd_http.specs.WrittenReplies.{written_reply};
ghost use Rattle.gd_server.specs.Replies.{Says, refusal_of, last_text};
ghost use Rattle.gd_server.specs.Serving.{Replied, SentAt, end_of};

use crate::end::ServeEnd;
use crate::inbox::Message;
use gd_api::Drive;
use gd_http::{Incoming, MessageCause, write_content_head, write_reply};
use gd_item::{ErrorCode, Reply, Request};
use gd_json::Wire;
use gd_names::{Bytes, Sink, SinkFault};
use std::alloc::Global;

/// How many bytes are written at once with their head. More go behind it from where they are, since a copy of them
/// takes longer than a second write.
const MOST_JOINED: usize = 65_536;

/// What answers requests.
pub(crate) trait Answers {
    ghost use Rattle.gd_item.specs.declared.reply.Reply.{Reply};
    ghost use Rattle.gd_item.specs.declared.request.Request.{Request};

    /// That one goes on to the other by this request, with this reply.
    ghost asks: { Self → Self → Request → Reply → Type 0 };

    fn ask(&mut self, request: &Request) -> Reply
        ensures { asks self.old self.new request.now result };
}

impl Answers for Drive {
    ghost use Rattle.gd_server.specs.Drives.{Asks};

    ghost asks = { λ before after request reply. Asks before after request reply };

    fn ask(&mut self, request: &Request) -> Reply {
        self.handle(request)
    }
}

/// The reply to a message. Batches and versions are not served.
fn reply_to<A: Answers>(answers: &mut A, asks: &Incoming) -> Reply
    ensures { Says A.asks answers.old answers.new asks.now result }
{
    match asks {
        Incoming::Ask(request) => answers.ask(request),
        Incoming::Refuse { status, code } => Reply::Refused {
            status: *status,
            code: *code,
        },
        Incoming::Batch(_) | Incoming::Versions(_) | Incoming::Restore(_, _) => Reply::Refused {
            status: 404,
            code: ErrorCode::ItemNotFound,
        },
    }
}

/// Writes one text behind the other.
fn write_both<S: Sink>(sink: &mut S, first: &[u8], second: &[u8]) -> Result<(), SinkFault>
    ensures bytes { Writes (S.written sink.old) (S.written sink.new) (first.now ++ second.now) result }
    ensures cause { HasWriteCause (S.faults sink.old) (S.faults sink.new) result }
    ensures goes { S.goes sink.old sink.new }
{
    match sink.write(first) {
        Ok(()) => {}
        Err(fault) => return Err(fault),
    }
    match sink.write(second) {
        Ok(()) => Ok(()),
        Err(fault) => Err(fault),
    }
}

/// Sends bytes, in two writes.
fn send_bytes<S: Sink>(alloc: Global, sink: &mut S, bytes: &Bytes) -> Result<(), SinkFault>
    ensures bytes { (base : List ℕ) → Writes (S.written sink.old) (S.written sink.new) (written_reply base (Reply.Content bytes.now)) result }
    ensures cause { HasWriteCause (S.faults sink.old) (S.faults sink.new) result }
    ensures goes { S.goes sink.old sink.new }
{
    match write_content_head(alloc, bytes.as_slice()) {
        Ok(head) => write_both(sink, head.as_slice(), bytes.as_slice()),
        Err(_) => Err(SinkFault::Memory),
    }
}

/// Sends a reply, in one write.
fn send_whole<S: Sink>(
    alloc: Global,
    sink: &mut S,
    wire: &Wire,
    reply: &Reply,
) -> Result<(), SinkFault>
    ensures bytes { Writes (S.written sink.old) (S.written sink.new) (written_reply wire.now.base reply.now) result }
    ensures cause { HasWriteCause (S.faults sink.old) (S.faults sink.new) result }
    ensures goes { S.goes sink.old sink.new }
{
    match write_reply(alloc, reply, wire) {
        Ok(text) => sink.write(text.as_slice()),
        Err(_) => Err(SinkFault::Memory),
    }
}

/// Sends a reply, in one write but for large bytes.
fn send<S: Sink>(alloc: Global, sink: &mut S, wire: &Wire, reply: &Reply) -> Result<(), SinkFault>
    ensures bytes { Writes (S.written sink.old) (S.written sink.new) (written_reply wire.now.base reply.now) result }
    ensures cause { HasWriteCause (S.faults sink.old) (S.faults sink.new) result }
    ensures goes { S.goes sink.old sink.new }
{
    match reply {
        Reply::Content(bytes) if bytes.len() > MOST_JOINED => send_bytes(alloc, sink, bytes),
        _ => send_whole(alloc, sink, wire, reply),
    }
}

/// Replies to a message.
fn reply<S: Sink, A: Answers>(
    alloc: Global,
    sink: &mut S,
    wire: &Wire,
    answers: &mut A,
    asks: &Incoming,
) -> Result<(), SinkFault>
    ensures replied { Replied A.asks wire.now.base answers.old answers.new asks.now (S.written sink.old) (S.written sink.new) result }
    ensures cause { HasWriteCause (S.faults sink.old) (S.faults sink.new) result }
    ensures goes { S.goes sink.old sink.new }
{
    let reply = reply_to(answers, asks);
    send(alloc, sink, wire, &reply)
}

/// Answers a message, and lets it go.
pub(crate) fn answer<S: Sink, A: Answers>(
    alloc: Global,
    sink: &mut S,
    wire: &Wire,
    answers: &mut A,
    message: Message,
) -> Result<(), SinkFault>
    ensures replied { Replied A.asks wire.now.base answers.old answers.new message.asks (S.written sink.old) (S.written sink.new) result }
    ensures cause { HasWriteCause (S.faults sink.old) (S.faults sink.new) result }
    ensures goes { S.goes sink.old sink.new }
{
    let sent = reply(alloc, sink, wire, answers, &message.asks);
    drop(message);
    sent
}

/// The reply that refuses what is no message.
fn refusal_of(cause: MessageCause) -> Reply
    ensures { result ≡ refusal_of cause }
{
    let (status, code) = match cause {
        MessageCause::Head | MessageCause::Framing | MessageCause::Meaning => {
            (400, ErrorCode::InvalidRequest)
        }
        MessageCause::Coding => (501, ErrorCode::NotSupported),
        MessageCause::Body => (413, ErrorCode::InvalidRequest),
    };
    Reply::Refused { status, code }
}

/// How a connection ends whose sink failed.
pub(crate) fn end_of(fault: SinkFault) -> ServeEnd
    ensures { result ≡ end_of fault }
{
    match fault {
        SinkFault::Failed => ServeEnd::WriteFault,
        SinkFault::Memory => ServeEnd::Memory,
    }
}

/// Refuses what is no message.
fn refuse<S: Sink>(
    alloc: Global,
    sink: &mut S,
    wire: &Wire,
    cause: MessageCause,
) -> Result<(), SinkFault>
    ensures bytes { Writes (S.written sink.old) (S.written sink.new) (written_reply wire.now.base (refusal_of cause)) result }
    ensures cause { HasWriteCause (S.faults sink.old) (S.faults sink.new) result }
    ensures goes { S.goes sink.old sink.new }
{
    let refusal = refusal_of(cause);
    send(alloc, sink, wire, &refusal)
}

/// Ends a connection behind the last message: bytes that are no message are refused.
pub(crate) fn close<S: Sink>(alloc: Global, sink: &mut S, wire: &Wire, end: ServeEnd) -> ServeEnd
    ensures sent { SentAt result end (S.written sink.old) (S.written sink.new) (last_text wire.now.base end) }
    ensures later { S.faults sink.old ≤ S.faults sink.new }
    ensures write { result ≡ ServeEnd.WriteFault → (end ≡ ServeEnd.WriteFault) ⊎ Rose (S.faults sink.old) (S.faults sink.new) }
    ensures read { result ≡ ServeEnd.ReadFault → end ≡ ServeEnd.ReadFault }
    ensures goes { S.goes sink.old sink.new }
{
    match end {
        ServeEnd::BadMessage { place: _, cause } => match refuse(alloc, sink, wire, cause) {
            Ok(()) => end,
            Err(SinkFault::Failed) => ServeEnd::WriteFault,
            Err(SinkFault::Memory) => ServeEnd::Memory,
        },
        _ => end,
    }
}
