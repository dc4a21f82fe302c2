//! Requests out of a stream.
ghost use Rattle.std.specs.Prelude.{◌≡◌, ◌≤◌, ◌==◌, Ok, IsErr, length};
ghost use Rattle.gd_frame.specs.declared.message.MessageCause.{MessageCause};
ghost use Rattle.gd_http.specs.Hearing.{fresh, RequestBytes, Hears};

use crate::closing::asks_to_close;
use crate::incoming::Incoming;
use crate::request::incoming_from;
use gd_frame::{ReadState, ReadStep, RequestFrames};
use gd_json::Wire;
use gd_names::NoMemory;
use std::alloc::Global;
use std::marker::Model;

/// Takes a stream of requests in pieces, and tells what each asks for.
#[derive(Debug, Drop)]
pub struct RequestReader {
    alloc: Global,
    frames: RequestFrames,
    wire: Wire,
    spent: bool,
    /// Whether the message that was given last asks to close.
    closes: bool,
}

impl Model for RequestReader {
    ghost use Rattle.gd_http.specs.Hearing.{Hearing, state_of};

    ghost Value = { Hearing };

    ghost view = { λ r. record { held = r.frames.held; place = r.frames.place; state = state_of r.spent r.frames.state; closes = r.closes } };
}

impl RequestReader {
    /// Requests name no links, so the wire plays no part yet.
    pub fn new(alloc: Global, wire: Wire) -> Result<RequestReader, NoMemory>
        ensures { result ≡ Ok fresh }
    {
        Ok(RequestReader {
            alloc,
            frames: RequestFrames::new(alloc),
            wire,
            spent: false,
            closes: false,
        })
    }

    /// How many bytes are held of the message that is not whole yet. Takes no memory.
    pub fn held(&self) -> u64
        ensures is { result ≡ length self.now.held }
        ensures most { result ≤ 67174400 }
    {
        self.frames.held()
    }

    /// Whether no byte of a message is held. Takes no memory.
    pub fn between(&self) -> bool
        ensures { result ≡ (length self.now.held == 0) }
    {
        self.frames.between()
    }

    /// Whether the message that was given last asks that the connection be closed after its reply; no while none was
    /// given. Takes no memory.
    pub fn closes(&self) -> bool
        ensures { result ≡ self.now.closes }
    {
        self.closes
    }

    /// Takes the next bytes of the stream. What a message left of a piece is fed again.
    pub fn feed(&mut self, piece: &[u8]) -> Result<ReadStep<Incoming>, NoMemory>
        ensures open { self.old.state ≡ ReadState.Open → Hears RequestBytes self.old piece.now result self.new }
        ensures bad { (cause : MessageCause) → self.old.state ≡ ReadState.Bad cause → (result ≡ Ok (ReadStep.Bad self.old.place cause)) × (self.new ≡ self.old) }
        ensures spent { self.old.state ≡ ReadState.Spent → IsErr result × (self.new ≡ self.old) }
    {
        if self.spent {
            return Err(NoMemory);
        }
        match self.frames.feed(piece) {
            Ok(ReadStep::Need) => Ok(ReadStep::Need),
            Ok(ReadStep::Done(frame, used)) => {
                let closes = asks_to_close(&frame);
                match incoming_from(self.alloc, frame) {
                    Ok(message) => {
                        self.closes = closes;
                        Ok(ReadStep::Done(message, used))
                    }
                    Err(e) => {
                        self.spent = true;
                        Err(e)
                    }
                }
            }
            Ok(ReadStep::Bad { place, cause }) => Ok(ReadStep::Bad { place, cause }),
            Err(e) => Err(e),
        }
    }
}
