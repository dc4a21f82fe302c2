use crate::message::MessageCause;

/// Whether a reader goes on.
#[derive(Clone, Copy, Debug, PartialEq, Eq)]
pub enum ReadState {
    Open,
    Bad(MessageCause),
    /// Memory ran out.
    Spent,
}

/// What a piece of a stream gives.
#[derive(Debug, Drop)]
pub enum ReadStep<F> {
    /// The message is not whole yet.
    Need,
    /// A message, and how many bytes of the piece belong to it. The rest is fed again.
    Done(F, usize),
    /// No message, whatever follows; the place is that of its first byte in the stream.
    Bad { place: u64, cause: MessageCause },
}
