use gd_names::Bytes;

/// What came of a fragment.
#[derive(Debug, PartialEq, Eq, Drop)]
pub enum Progress {
    /// It was kept, and this byte is expected next.
    More(u64),
    /// It completes the file, whose bytes these are.
    Whole(Bytes),
}
