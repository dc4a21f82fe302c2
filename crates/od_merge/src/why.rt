/// Why an entry is held. A conflict without a copy name is asked for first, and then the others in this order.
#[derive(Clone, Copy, Debug, PartialEq, Eq)]
pub enum Why {
    /// A name of its path is refused.
    BadName,
    /// Its path is longer than an item's may be.
    PathTooLong,
    /// It is a file of more than 67,108,864 bytes.
    TooLarge,
    /// Another spelling of its path, or of that of a folder above it, has its place.
    CaseClash,
    /// A conflict for which no copy name is left.
    NoCopyName,
    /// The drive had no room for it.
    Quota,
}
