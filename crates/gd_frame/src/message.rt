/// The two kinds of messages.
#[derive(Clone, Copy, Debug, PartialEq, Eq)]
pub enum Kind {
    Request,
    Reply,
}

/// Why bytes are no message, in the order in which the causes count.
#[derive(Clone, Copy, Debug, PartialEq, Eq)]
pub enum MessageCause {
    /// No head, or one past 65,536 bytes or 64 headers.
    Head,
    /// A `Transfer-Encoding`.
    Coding,
    /// A `Content-Length` that comes twice, is no number, or lacks in a reply that needs one.
    Framing,
    /// A body past 67,108,864 bytes.
    Body,
    /// A whole reply that answers no such request; said by who reads what a reply means.
    Meaning,
}
