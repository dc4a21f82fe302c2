//! Replies out of a stream.
ghost use Rattle.std.specs.Prelude.{◌≡◌, ◌≤◌, Ok, IsErr, length};
ghost use Rattle.gd_frame.specs.Reading.{fresh};
ghost use Rattle.gd_frame.specs.declared.message.MessageCause.{MessageCause};
ghost use Rattle.gd_http.specs.HearingReplies.{HearsReply};

use crate::fault::ReplyFault;
use crate::reply::reply_from;
use gd_frame::{MessageCause, ReadState, ReadStep, ReplyFrames};
use gd_item::{Reply, RequestKind};
use gd_json::Wire;
use gd_names::NoMemory;
use std::alloc::Global;
use std::marker::Model;

/// How a reader ended at a whole reply.
#[derive(Clone, Copy, Debug, PartialEq, Eq)]
pub enum Ending {
    /// The reply answered no such request.
    Meaningless,
    /// Memory ran out.
    Spent,
}

/// Takes a stream of replies to requests of one kind in pieces, and tells what each says.
#[derive(Debug, Drop)]
pub struct ReplyReader {
    alloc: Global,
    frames: ReplyFrames,
    kind: RequestKind,
    wire: Wire,
    /// Where the message begins that is not whole yet.
    place: u64,
    end: Option<Ending>,
}

impl Model for ReplyReader {
    ghost use Rattle.gd_http.specs.HearingReplies.{Listening, ended};

    ghost Value = { Listening };

    ghost view = { λ r. record { base = r.wire.base; kind = r.kind; reading = record { held = r.frames.held; place = r.place; state = ended r.end r.frames.state } } };
}

impl ReplyReader {
    pub fn new(alloc: Global, kind: RequestKind, wire: Wire) -> Result<ReplyReader, NoMemory>
        ensures { result ≡ Ok (record { base = wire.base; kind = kind; reading = fresh }) }
    {
        Ok(ReplyReader {
            alloc,
            frames: ReplyFrames::new(alloc),
            kind,
            wire,
            place: 0,
            end: None,
        })
    }

    /// How many bytes are held of the message that is not whole yet. Takes no memory.
    pub fn held(&self) -> u64
        ensures is { result ≡ length self.now.reading.held }
        ensures most { result ≤ 67174400 }
    {
        self.frames.held()
    }

    /// Takes the next bytes of the stream. What a message left of a piece is fed again.
    pub fn feed(&mut self, piece: &[u8]) -> Result<ReadStep<Reply>, NoMemory>
        ensures open { self.old.reading.state ≡ ReadState.Open → HearsReply self.old piece.now result self.new.reading }
        ensures bad { (cause : MessageCause) → self.old.reading.state ≡ ReadState.Bad cause → (result ≡ Ok (ReadStep.Bad self.old.reading.place cause)) × (self.new ≡ self.old) }
        ensures spent { self.old.reading.state ≡ ReadState.Spent → IsErr result × (self.new ≡ self.old) }
    {
        match self.end {
            Some(Ending::Meaningless) => {
                return Ok(ReadStep::Bad {
                    place: self.place,
                    cause: MessageCause::Meaning,
                });
            }
            Some(Ending::Spent) => return Err(NoMemory),
            None => {}
        }
        let before = self.frames.held();
        match self.frames.feed(piece) {
            Ok(ReadStep::Need) => Ok(ReadStep::Need),
            Ok(ReadStep::Done(frame, used)) => {
                match reply_from(self.alloc, self.kind, frame, &self.wire) {
                    Ok(reply) => {
                        self.place = self
                            .place
                            .saturating_add(before.saturating_add(used as u64));
                        Ok(ReadStep::Done(reply, used))
                    }
                    Err(ReplyFault::Meaning) => {
                        self.end = Some(Ending::Meaningless);
                        Ok(ReadStep::Bad {
                            place: self.place,
                            cause: MessageCause::Meaning,
                        })
                    }
                    Err(ReplyFault::Memory) => {
                        self.end = Some(Ending::Spent);
                        Err(NoMemory)
                    }
                }
            }
            Ok(ReadStep::Bad { place: _, cause }) => Ok(ReadStep::Bad {
                place: self.place,
                cause,
            }),
            Err(e) => Err(e),
        }
    }
}
