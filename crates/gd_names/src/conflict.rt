use crate::exact::Exact;
use crate::text::Text;

/// What happens to a name that a sibling has already: `@microsoft.graph.conflictBehavior` of Microsoft Graph v1.0.
#[derive(Clone, Copy, Debug, PartialEq, Eq)]
pub enum Conflict {
    Fail,
    Replace,
    Rename,
}

impl Exact for Conflict {
    ghost use Rattle.std.proofs.Common.{rules};

    ghost exact = { Prim.search rules };
}

/// An item of the folder in which a name is wanted.
#[derive(Debug, Drop)]
pub struct Sibling {
    pub id: u64,
    pub name: Text,
    pub folder: bool,
}

/// How a wanted name is settled: under a name that is free, over the item of this number, or not at all.
#[derive(Debug, Drop)]
pub enum Settle {
    Free(Text),
    Over(u64),
    Refuse,
}
