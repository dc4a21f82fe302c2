/// The calls of a folder.
#[derive(Clone, Copy, Debug, PartialEq, Eq)]
pub enum TreeCall {
    List,
    Read,
    MakeDir,
    RemoveDir,
    Place,
    Rename,
    SetAside,
    ReadAside,
    PutBack,
    Discard,
    Asides,
}
