use thiserror::Error;

/// Why a whole reply gave nothing.
#[derive(Clone, Copy, Debug, PartialEq, Eq, Error)]
pub enum ReplyFault {
    #[error("the reply answers no such request")]
    Meaning,
    #[error("out of memory")]
    Memory,
}
