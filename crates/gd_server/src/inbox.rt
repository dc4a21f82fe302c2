ghost use Rattle.std.specs.Prelude.{◌≡◌, ◌≤◌, ℕ, [], length, slice_range, IfOk, IfErr, OnErr, IsErrOf};
ghost use Rattle.gd_names.specs.Streams.{Rose};

use crate::end::ServeEnd;
use gd_frame::ReadState;
use gd_http::{Incoming, ReadStep, RequestReader};
use gd_json::Wire;
use gd_names::{NoMemory, Source, SourceFault};
use std::alloc::Global;

/// How many bytes are read at a time.
const ROOM: usize = 65_536;

/// A message of a connection.
#[derive(Debug, Drop)]
pub struct Message {
    pub asks: Incoming,
    /// Whether it asks that the connection be closed after its reply.
    pub closes: bool,
}

/// The bytes of a connection, from which messages are taken one by one.
#[derive(Drop)]
pub(crate) struct Inbox {
    reader: RequestReader,
    room: [u8; ROOM],
    /// What stands in the room from here and up to there has not been taken.
    from: usize,
    to: usize,
    ghost within: { from ≤ to },
    ghost filled: { to ≤ 65536 },
    ghost sized: { length room ≡ 65536 },
}

/// The part of a room from here and up to there.
fn part(room: &[u8], from: usize, to: usize) -> &[u8]
    requires within { from ≤ to }
    requires filled { to ≤ length room.now }
    ensures { result.now ≡ slice_range room.now from to }
{
    &room[from..to]
}

impl Inbox {
    ghost use Rattle.gd_server.specs.Inboxes.{unread, IsReady, Takes, Fills, FillsNot, Heard, Silent};

    pub(crate) fn new(alloc: Global, wire: &Wire) -> Result<Inbox, NoMemory>
        ensures { IfOk result (λ inbox. IsReady inbox.reader × (unread inbox ≡ []) × (inbox.reader.place ≡ 0)) }
    {
        let wire = Wire {
            base: wire.base.clone()?,
        };
        Ok(Inbox {
            reader: RequestReader::new(alloc, wire)?,
            room: [0; ROOM],
            from: 0,
            to: 0,
        })
    }

    /// Reads, unless something is unread. False is the end of the source.
    fn fill<I: Source>(&mut self, source: &mut I) -> Result<bool, SourceFault>
        ensures ok { IfOk result (Fills (I.left source.old) (I.left source.new) self.old self.new) }
        ensures err { OnErr result (FillsNot (I.left source.old) (I.left source.new) self.old self.new) }
        ensures later { I.faults source.old ≤ I.faults source.new }
        ensures cause { OnErr result (Rose (I.faults source.old) (I.faults source.new)) }
        ensures goes { I.goes source.old source.new }
    {
        if self.from < self.to {
            return Ok(true);
        }
        let count = source.read(&mut self.room)?;
        if count == 0 {
            return Ok(false);
        }
        self.from = 0;
        self.to = count;
        Ok(true)
    }

    /// Takes the next message out of what is unread, where one ends there.
    fn take(&mut self) -> Result<ReadStep<Message>, NoMemory>
        requires { self.old.reader.state ≡ ReadState.Open }
        ensures { Takes self.old result self.new }
    {
        let unread = part(&self.room, self.from, self.to);
        match self.reader.feed(unread) {
            Ok(ReadStep::Need) => {
                self.from = self.to;
                Ok(ReadStep::Need)
            }
            Ok(ReadStep::Done(asks, used)) => {
                self.from += used;
                let closes = self.reader.closes();
                Ok(ReadStep::Done(Message { asks, closes }, used))
            }
            Ok(ReadStep::Bad { place, cause }) => Ok(ReadStep::Bad { place, cause }),
            Err(e) => Err(e),
        }
    }

    /// Reads until a message is whole. What is unread behind it is kept.
    pub(crate) fn next<I: Source>(&mut self, source: &mut I) -> Result<Message, ServeEnd>
        requires { IsReady self.old.reader }
        ensures ok { IfOk result (Heard (I.left source.old) (I.left source.new) self.old self.new) }
        ensures err { IfErr result (Silent (I.left source.old) (I.left source.new) self.old) }
        ensures later { I.faults source.old ≤ I.faults source.new }
        ensures cause { IsErrOf result ServeEnd.ReadFault → Rose (I.faults source.old) (I.faults source.new) }
        ensures goes { I.goes source.old source.new }
    {
        for _ in 0..u64::MAX {
            match self.fill(source) {
                Ok(true) => {}
                Ok(false) => {
                    if self.reader.between() {
                        return Err(ServeEnd::Ended);
                    }
                    return Err(ServeEnd::Cut);
                }
                Err(_) => return Err(ServeEnd::ReadFault),
            }
            match self.take() {
                Ok(ReadStep::Need) => {}
                Ok(ReadStep::Done(message, _)) => return Ok(message),
                Ok(ReadStep::Bad { place, cause }) => {
                    return Err(ServeEnd::BadMessage { place, cause });
                }
                Err(_) => return Err(ServeEnd::Memory),
            }
        }
        Err(ServeEnd::Memory)
    }
}
