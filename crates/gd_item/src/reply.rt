ghost use Rattle.std.specs.Prelude.{◌≡◌};

use crate::fault::ErrorCode;
use crate::id::ItemId;
use crate::item::Item;
use gd_names::{Bytes, Exact, List, Text};

/// The link at the end of a page: the token of the next page, or that of the next enumeration.
#[derive(Debug, PartialEq, Eq, Drop)]
pub enum PageLink {
    Next(Text),
    Delta(Text),
}

/// One page of the feed of changes.
#[derive(Debug, PartialEq, Eq, Drop)]
pub struct Page {
    pub items: List<Item>,
    pub link: PageLink,
}

/// How a client whose token is gone begins anew: it takes the drive's state over its own, or sends what it has.
#[derive(Clone, Copy, Debug, PartialEq, Eq)]
pub enum Resync {
    ApplyDifferences,
    UploadDifferences,
}

impl Exact for Resync {
    ghost use Rattle.std.proofs.Common.{rules};

    ghost exact = { Prim.search rules };
}

/// What a drive answers.
#[derive(Debug, PartialEq, Eq, Drop)]
pub enum Reply {
    /// The item that was made (201).
    Made(Item),
    /// The item that was asked for or changed (200).
    Is(Item),
    Listed {
        items: List<Item>,
        /// The name of the last item, where more follow.
        next: Option<Text>,
    },
    /// Nothing more to say (204).
    Done,
    /// Where the bytes are to be had (302).
    Found {
        id: ItemId,
        version: u64,
    },
    Content(Bytes),
    Session {
        session: u64,
        expected: u64,
    },
    Status {
        expected: u64,
    },
    /// The fragment was received, and this byte is expected next (202).
    More {
        expected: u64,
    },
    Page(Page),
    Gone(Resync),
    Refused {
        status: u16,
        code: ErrorCode,
    },
}
