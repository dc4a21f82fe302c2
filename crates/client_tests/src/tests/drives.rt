//! Drives of which nothing is told.
ghost use Rattle.std.specs.Prelude.{◌≡◌, true, IfOk};
ghost use Rattle.od_transfer.specs.Asking.{is_last_link, may_answer};

use gd_item::{ErrorCode, Item, ItemId, Kind, Page, PageLink, Reply, Request, Tag, digest_of};
use gd_names::{Bytes, List, NoMemory, Text};
use od_transfer::{AskFault, Carrier, Job, Outcome, Remote, carry_each};
use std::alloc::Global;

/// A drive without items. It lacks memory at its first requests.
#[derive(Debug, Drop)]
pub struct Empty {
    pub wanting: u64,
    pub answers: u64,
}

/// A drive with one file `a`.
#[derive(Debug, Drop)]
pub struct OneFile {
    pub answers: u64,
}

fn root(alloc: Global) -> Result<Item, NoMemory> {
    Ok(Item {
        id: ItemId(1),
        parent: None,
        parent_path: None,
        name: Text::from_str(alloc, "root")?,
        size: 0,
        etag: Tag(Text::from_str(alloc, "e1")?),
        ctag: None,
        kind: Kind::Folder { child_count: 0 },
    })
}

fn file(alloc: Global) -> Result<Item, NoMemory> {
    Ok(Item {
        id: ItemId(2),
        parent: Some(ItemId(1)),
        parent_path: None,
        name: Text::from_str(alloc, "a")?,
        size: 3,
        etag: Tag(Text::from_str(alloc, "e2")?),
        ctag: Some(Tag(Text::from_str(alloc, "c2")?)),
        kind: Kind::File {
            digest: digest_of(b"abc"),
        },
    })
}

fn last_page(alloc: Global) -> Result<Page, NoMemory>
    ensures { IfOk result (λ page. is_last_link page.link ≡ true) }
{
    let mut items = List::new(alloc);
    items.push(root(alloc)?)?;
    let link = PageLink::Delta(Text::from_str(alloc, "t1.1.1")?);
    Ok(Page { items, link })
}

fn file_page(alloc: Global) -> Result<Page, NoMemory>
    ensures { IfOk result (λ page. is_last_link page.link ≡ true) }
{
    let mut items = List::new(alloc);
    items.push(root(alloc)?)?;
    items.push(file(alloc)?)?;
    let link = PageLink::Delta(Text::from_str(alloc, "t1.2.2")?);
    Ok(Page { items, link })
}

fn empty_reply(alloc: Global, request: &Request, wanting: bool) -> Result<Reply, NoMemory>
    ensures { IfOk result (λ reply. may_answer request.now reply ≡ true) }
{
    if wanting {
        return Ok(Reply::Refused {
            status: 503,
            code: ErrorCode::GeneralException,
        });
    }
    match request {
        Request::Delta { .. } => Ok(Reply::Page(last_page(alloc)?)),
        _ => Ok(Reply::Refused {
            status: 404,
            code: ErrorCode::ItemNotFound,
        }),
    }
}

fn file_reply(alloc: Global, request: &Request) -> Result<Reply, NoMemory>
    ensures { IfOk result (λ reply. may_answer request.now reply ≡ true) }
{
    match request {
        Request::Delta { .. } => Ok(Reply::Page(file_page(alloc)?)),
        Request::Content { .. } => Ok(Reply::Found {
            id: ItemId(2),
            version: 2,
        }),
        Request::Download { .. } => Ok(Reply::Content(Bytes::from_slice(alloc, b"abc")?)),
        _ => Ok(Reply::Refused {
            status: 404,
            code: ErrorCode::ItemNotFound,
        }),
    }
}

impl Remote for Empty {
    ghost use Rattle.std.proofs.Common.{le_refl, le_trans};
    ghost use Rattle.std.specs.Prelude.{◌≤◌, None, false};

    ghost log = { λ r. None };

    ghost faults = { λ r. 0 };

    ghost answers = { λ r. r.answers };

    ghost in_row = { λ r. 0 };

    ghost undisturbed = { λ r. false };

    ghost goes = { λ x y. x.answers ≤ y.answers };

    ghost goes_refl = { λ x. le_refl x.answers };

    ghost goes_trans = { λ x y z first more. le_trans first more };

    ghost goes_later = { λ x y goes. (le_refl 0, goes) };

    fn ask(&mut self, alloc: Global, request: &Request) -> Result<Reply, AskFault> {
        match empty_reply(alloc, request, self.wanting > 0) {
            Ok(reply) => {
                self.wanting = self.wanting.saturating_sub(1);
                self.answers = self.answers.saturating_add(1);
                Ok(reply)
            }
            Err(NoMemory) => Err(AskFault::Memory),
        }
    }
}

impl Remote for OneFile {
    ghost use Rattle.std.proofs.Common.{le_refl, le_trans};
    ghost use Rattle.std.specs.Prelude.{◌≤◌, None, false};

    ghost log = { λ r. None };

    ghost faults = { λ r. 0 };

    ghost answers = { λ r. r.answers };

    ghost in_row = { λ r. 0 };

    ghost undisturbed = { λ r. false };

    ghost goes = { λ x y. x.answers ≤ y.answers };

    ghost goes_refl = { λ x. le_refl x.answers };

    ghost goes_trans = { λ x y z first more. le_trans first more };

    ghost goes_later = { λ x y goes. (le_refl 0, goes) };

    fn ask(&mut self, alloc: Global, request: &Request) -> Result<Reply, AskFault> {
        match file_reply(alloc, request) {
            Ok(reply) => {
                self.answers = self.answers.saturating_add(1);
                Ok(reply)
            }
            Err(NoMemory) => Err(AskFault::Memory),
        }
    }
}

impl Carrier for OneFile {
    fn carry(&mut self, alloc: Global, jobs: &List<Job>) -> Result<List<Outcome>, NoMemory> {
        carry_each(self, alloc, jobs)
    }
}
