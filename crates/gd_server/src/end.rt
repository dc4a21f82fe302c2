use gd_http::MessageCause;

/// How a connection ended.
#[derive(Clone, Copy, Debug, PartialEq, Eq)]
pub enum ServeEnd {
    /// The source ended between messages, or a message asked to close.
    Ended,
    /// The source ended inside a message.
    Cut,
    /// No message stood there, whatever came after; its refusal was written.
    BadMessage { place: u64, cause: MessageCause },
    /// As many messages as a connection may have were answered.
    Spent,
    ReadFault,
    WriteFault,
    Memory,
}

/// How the loop over connections ended.
#[derive(Clone, Copy, Debug, PartialEq, Eq)]
pub enum ServeLoopEnd {
    /// As many connections as were asked for were served.
    Enough,
    AcceptFault,
    Memory,
}
