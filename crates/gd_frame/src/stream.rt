ghost use Rattle.std.specs.Prelude.{◌≡◌, []};
ghost use Rattle.gd_frame.specs.Scanning.{Holds, Takes};

use crate::head::{HeadScan, MAX_HEAD, scan};
use crate::message::{Kind, MessageCause};
use crate::spot::{Spot, is_known, spot_of};
use gd_names::NoMemory;

/// What is known of the bytes that are held: so a body's later pieces are appended, and the head is not read again for
/// each of its pieces.
#[derive(Clone, Copy, Debug, PartialEq, Eq)]
pub(crate) enum Phase {
    /// No head is whole yet, and the bytes end there.
    Head(Spot),
    /// A head of so many bytes is, and announces a body of so many.
    Body(usize, usize),
}

/// What a piece makes of the bytes that are held.
#[derive(Clone, Copy, Debug)]
pub(crate) enum Taken {
    Need(Phase),
    /// A message whose head has so many bytes, with so many bytes of the piece.
    Whole(usize, usize),
    Bad(MessageCause),
}

/// Takes a piece while nothing is held: of a piece with many messages the first alone is copied.
fn take_first(kind: Kind, held: &mut Vec<u8>, piece: &[u8]) -> Result<Taken, NoMemory>
    requires { held.old.items ≡ [] }
    ensures { Takes kind held.old.items piece.now result held.new.items }
{
    match scan(kind, piece) {
        HeadScan::Open => {
            held.extend_from_slice(piece)?;
            Ok(Taken::Need(Phase::Head(spot_of(kind, Spot::Empty, piece))))
        }
        HeadScan::Bad(cause) => Ok(Taken::Bad(cause)),
        HeadScan::Framed(end, body) => {
            if piece.len() - end < body {
                held.extend_from_slice(piece)?;
                return Ok(Taken::Need(Phase::Body(end, body)));
            }
            held.extend_from_slice(&piece[..end + body])?;
            Ok(Taken::Whole(end, end + body))
        }
    }
}

/// Takes a piece while no head is whole. While its bytes alone tell that the head is open, no other is looked at; when
/// they no longer do, one look at all of them decides.
fn take_head(kind: Kind, held: &mut Vec<u8>, at: Spot, piece: &[u8]) -> Result<Taken, NoMemory>
    requires { Holds kind held.old.items (Phase.Head at) }
    ensures { Takes kind held.old.items piece.now result held.new.items }
{
    let before = held.as_slice().len();
    held.extend_from_slice(piece)?;
    let total = held.as_slice().len();
    let spot = spot_of(kind, at, piece);
    if is_known(kind, spot) {
        if total < MAX_HEAD {
            return Ok(Taken::Need(Phase::Head(spot)));
        }
        return Ok(Taken::Bad(MessageCause::Head));
    }
    match scan(kind, held.as_slice()) {
        HeadScan::Open => unreachable!(),
        HeadScan::Bad(cause) => Ok(Taken::Bad(cause)),
        HeadScan::Framed(end, body) => {
            if total - end < body {
                return Ok(Taken::Need(Phase::Body(end, body)));
            }
            held.truncate(end + body);
            Ok(Taken::Whole(end, end + body - before))
        }
    }
}

/// Takes a piece of a body.
fn take_body(
    kind: Kind,
    held: &mut Vec<u8>,
    end: usize,
    body: usize,
    piece: &[u8],
) -> Result<Taken, NoMemory>
    requires { Holds kind held.old.items (Phase.Body end body) }
    ensures { Takes kind held.old.items piece.now result held.new.items }
{
    let lacks = end + body - held.as_slice().len();
    if piece.len() < lacks {
        held.extend_from_slice(piece)?;
        Ok(Taken::Need(Phase::Body(end, body)))
    } else {
        held.extend_from_slice(&piece[..lacks])?;
        Ok(Taken::Whole(end, lacks))
    }
}

/// Takes a piece of a message.
pub(crate) fn take_piece(
    kind: Kind,
    held: &mut Vec<u8>,
    phase: Phase,
    piece: &[u8],
) -> Result<Taken, NoMemory>
    requires { Holds kind held.old.items phase }
    ensures { Takes kind held.old.items piece.now result held.new.items }
{
    match phase {
        Phase::Head(_) if held.as_slice().is_empty() => take_first(kind, held, piece),
        Phase::Head(at) => take_head(kind, held, at, piece),
        Phase::Body(end, body) => take_body(kind, held, end, body, piece),
    }
}

/// Lets go what is held.
pub(crate) fn forget(held: &mut Vec<u8>, phase: &mut Phase)
    ensures nothing { held.new.items ≡ [] }
    ensures head { phase.new ≡ Phase.Head Spot.Empty }
{
    held.clear();
    *phase = Phase::Head(Spot::Empty);
}
