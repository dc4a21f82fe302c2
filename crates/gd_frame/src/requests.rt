ghost use Rattle.std.specs.Prelude.{◌≡◌, ◌≤◌, ◌==◌, [], Ok, IsErr, length};
ghost use Rattle.gd_frame.specs.Syntax.{requests};
ghost use Rattle.gd_frame.specs.Frames.{IsRequest};
ghost use Rattle.gd_frame.specs.Scanning.{Holds};
ghost use Rattle.gd_frame.specs.Reading.{fresh};
ghost use Rattle.gd_frame.specs.Feeding.{Fed, Feeds};
ghost use Rattle.gd_frame.specs.Messages.{HasNoMessage};
ghost use Rattle.gd_frame.specs.declared.message.MessageCause.{MessageCause};

use crate::frame::{RequestFrame, request_of};
use crate::message::Kind;
use crate::spot::Spot;
use crate::step::{ReadState, ReadStep};
use crate::stream::{Phase, Taken, forget, take_piece};
use gd_names::NoMemory;
use std::alloc::Global;
use std::marker::Model;
use std::mem;

/// Takes a stream of requests in pieces, and gives them one after another.
#[derive(Debug, Drop)]
pub struct RequestFrames {
    alloc: Global,
    held: Vec<u8>,
    phase: Phase,
    place: u64,
    state: ReadState,
}

impl Model for RequestFrames {
    ghost use Rattle.gd_frame.specs.declared.message.Kind.TheVariants as Kind;
    ghost use Rattle.gd_frame.specs.Reading.{Reading};
    ghost use Rattle.gd_frame.specs.Scanning.{Holds};

    ghost Value = { Reading };

    ghost view = { λ r. record { held = r.held.items; place = r.place; state = r.state } };

    ghost invariant = { λ r. Holds Kind.Request r.held.items r.phase };
}

fn take_request(
    alloc: Global,
    place: u64,
    held: &mut Vec<u8>,
    phase: &mut Phase,
    piece: &[u8],
) -> Result<ReadStep<RequestFrame>, NoMemory>
    requires { Holds Kind.Request held.old.items phase.old }
    ensures fed { Fed requests IsRequest place held.old.items piece.now result held.new.items }
    ensures holds { Holds Kind.Request held.new.items phase.new }
{
    match take_piece(Kind::Request, held, *phase, piece) {
        Ok(Taken::Need(next)) => {
            *phase = next;
            Ok(ReadStep::Need)
        }
        Ok(Taken::Whole(end, used)) => {
            let whole = mem::replace(held, Vec::new(alloc));
            forget(held, phase);
            Ok(ReadStep::Done(request_of(alloc, whole, end)?, used))
        }
        Ok(Taken::Bad(cause)) => {
            forget(held, phase);
            Ok(ReadStep::Bad { place, cause })
        }
        Err(e) => {
            forget(held, phase);
            Err(e)
        }
    }
}

impl RequestFrames {
    pub fn new(alloc: Global) -> RequestFrames
        ensures { result ≡ fresh }
    {
        RequestFrames {
            alloc,
            held: Vec::new(alloc),
            phase: Phase::Head(Spot::Empty),
            place: 0,
            state: ReadState::Open,
        }
    }

    /// How many bytes are held of the message that is not whole yet.
    pub fn held(&self) -> u64
        ensures is { result ≡ length self.now.held }
        ensures most { result ≤ 67174400 }
    {
        self.held.as_slice().len() as u64
    }

    /// Whether no byte of a message is held.
    pub fn between(&self) -> bool
        ensures { result ≡ (length self.now.held == 0) }
    {
        self.held.as_slice().len() == 0
    }

    fn read_on(&mut self, piece: &[u8]) -> Result<ReadStep<RequestFrame>, NoMemory>
        requires { self.old.state ≡ ReadState.Open }
        ensures { Feeds requests IsRequest self.old piece.now result self.new }
    {
        let before = self.held.as_slice().len() as u64;
        let step = take_request(
            self.alloc,
            self.place,
            &mut self.held,
            &mut self.phase,
            piece,
        );
        match &step {
            Ok(ReadStep::Need) => {}
            Ok(ReadStep::Done(_, used)) => {
                self.place = self
                    .place
                    .saturating_add(before.saturating_add(*used as u64));
            }
            Ok(ReadStep::Bad { place: _, cause }) => self.state = ReadState::Bad(*cause),
            Err(_) => self.state = ReadState::Spent,
        }
        step
    }

    /// Takes the next bytes of the stream. What a message left of a piece is fed again.
    pub fn feed(&mut self, piece: &[u8]) -> Result<ReadStep<RequestFrame>, NoMemory>
        ensures unfinished { HasNoMessage requests self.old.held }
        ensures open { self.old.state ≡ ReadState.Open → Feeds requests IsRequest self.old piece.now result self.new }
        ensures bad { (cause : MessageCause) → self.old.state ≡ ReadState.Bad cause → (result ≡ Ok (ReadStep.Bad self.old.place cause)) × (self.new ≡ self.old) }
        ensures spent { self.old.state ≡ ReadState.Spent → IsErr result × (self.new ≡ self.old) }
    {
        match self.state {
            ReadState::Open => self.read_on(piece),
            ReadState::Bad(cause) => Ok(ReadStep::Bad {
                place: self.place,
                cause,
            }),
            ReadState::Spent => Err(NoMemory),
        }
    }
}
