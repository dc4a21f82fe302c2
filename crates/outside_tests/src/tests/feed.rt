//! Drives of which nothing is told, and that give changes.
ghost use Rattle.std.specs.Prelude.{◌≡◌, true, IfOk};
ghost use Rattle.gd_item.specs.Replies.{is_page_or_gone, may_answer};
ghost use Rattle.gd_item.specs.Requests.{kind_of};

use gd_item::{ErrorCode, Item, ItemId, Kind, Page, PageLink, Reply, Request, Resync, etag_of};
use gd_names::{Bytes, List, NoMemory, Text};
use od_remote::{AskFault, Remote};
use std::alloc::Global;

/// A drive with one folder that was put back from an older state. Its first answer is that the client send what it has, and
/// then it gives its changes in two pages.
#[derive(Debug, Drop)]
pub struct OneFolder {
    pub answers: u64,
}

fn folder(
    alloc: Global,
    number: u64,
    parent: Option<ItemId>,
    name: &str,
) -> Result<Item, NoMemory> {
    Ok(Item {
        id: ItemId(number),
        parent,
        parent_path: None,
        name: Text::from_str(alloc, name)?,
        size: 0,
        etag: etag_of(alloc, number)?,
        ctag: None,
        kind: Kind::Folder { child_count: 0 },
    })
}

fn page(alloc: Global, item: Item, link: PageLink) -> Result<Reply, NoMemory>
    ensures { IfOk result (λ reply. is_page_or_gone reply ≡ true) }
{
    let mut items = List::new(alloc);
    items.push(item)?;
    Ok(Reply::Page(Page { items, link }))
}

impl OneFolder {
    fn changes(&self, alloc: Global) -> Result<Reply, NoMemory>
        ensures { IfOk result (λ reply. is_page_or_gone reply ≡ true) }
    {
        let root = folder(alloc, 1, None, "root")?;
        let inside = folder(alloc, 2, Some(ItemId(1)), "a")?;
        match self.answers {
            0 => Ok(Reply::Gone(Resync::UploadDifferences)),
            1 => page(
                alloc,
                root,
                PageLink::Next(Text::from_str(alloc, "t2.1.2")?),
            ),
            _ => page(
                alloc,
                inside,
                PageLink::Delta(Text::from_str(alloc, "t2.2.2")?),
            ),
        }
    }

    fn reply_to(&self, alloc: Global, request: &Request) -> Result<Reply, NoMemory>
        ensures { IfOk result (λ reply. may_answer (kind_of request.now) reply ≡ true) }
    {
        match request {
            Request::Delta { .. } => self.changes(alloc),
            _ => Ok(Reply::Refused {
                status: 404,
                code: ErrorCode::ItemNotFound,
            }),
        }
    }
}

impl Remote for OneFolder {
    ghost use Rattle.std.proofs.Common.{le_refl, le_trans};
    ghost use Rattle.std.specs.Prelude.{◌≡◌, ◌≤◌, [], None};

    ghost log = { λ r. None };

    ghost counts = { λ r. record { faults = 0; answers = r.answers; in_row = 0; exchanges = None } };

    ghost reads = { λ r kind bytes reply. bytes ≡ [] };

    ghost goes = { λ x y. x.answers ≤ y.answers };

    fn ask(&mut self, alloc: Global, request: &Request) -> Result<Reply, AskFault> {
        match self.reply_to(alloc, request) {
            Ok(reply) => {
                self.answers = self.answers.saturating_add(1);
                Ok(reply)
            }
            Err(_) => Err(AskFault::Memory),
        }
    }

    ghost goes_refl = { λ x. le_refl x.answers };

    ghost goes_trans = { λ x y z first more. le_trans first more };

    ghost goes_later = { λ x y goes. record { faults = le_refl 0; answers = goes; exchanges = λ old at. absurd (cc at) } };

    ghost goes_reads = { λ x y goes. record { still = λ kind bytes reply read. read; back = λ kind bytes reply read. read } };
}

/// A plain drive with one file, of which it gives no digest, and that stays as it is.
#[derive(Debug, Drop)]
pub struct OneBareFile {
    pub answers: u64,
}

fn file(alloc: Global) -> Result<Item, NoMemory> {
    Ok(Item {
        id: ItemId(2),
        parent: Some(ItemId(1)),
        parent_path: None,
        name: Text::from_str(alloc, "f")?,
        size: 3,
        etag: etag_of(alloc, 2)?,
        ctag: None,
        kind: Kind::Bare,
    })
}

impl OneBareFile {
    fn changes(&self, alloc: Global) -> Result<Reply, NoMemory>
        ensures { IfOk result (λ reply. is_page_or_gone reply ≡ true) }
    {
        let mut items = List::new(alloc);
        if self.answers == 0 {
            items.push(folder(alloc, 1, None, "root")?)?;
            items.push(file(alloc)?)?;
        }
        let link = PageLink::Delta(Text::from_str(alloc, "t1.2.2")?);
        Ok(Reply::Page(Page { items, link }))
    }

    fn reply_to(&self, alloc: Global, request: &Request) -> Result<Reply, NoMemory>
        ensures { IfOk result (λ reply. may_answer (kind_of request.now) reply ≡ true) }
    {
        match request {
            Request::Delta { .. } => self.changes(alloc),
            Request::Content { .. } => Ok(Reply::Found {
                id: ItemId(2),
                version: 2,
            }),
            Request::Download { .. } => Ok(Reply::Content(Bytes::from_slice(alloc, b"abc")?)),
            _ => Ok(Reply::Refused {
                status: 404,
                code: ErrorCode::ItemNotFound,
            }),
        }
    }
}

impl Remote for OneBareFile {
    ghost use Rattle.std.proofs.Common.{le_refl, le_trans};
    ghost use Rattle.std.specs.Prelude.{◌≡◌, ◌≤◌, [], None};

    ghost log = { λ r. None };

    ghost counts = { λ r. record { faults = 0; answers = r.answers; in_row = 0; exchanges = None } };

    ghost reads = { λ r kind bytes reply. bytes ≡ [] };

    ghost goes = { λ x y. x.answers ≤ y.answers };

    fn ask(&mut self, alloc: Global, request: &Request) -> Result<Reply, AskFault> {
        match self.reply_to(alloc, request) {
            Ok(reply) => {
                self.answers = self.answers.saturating_add(1);
                Ok(reply)
            }
            Err(_) => Err(AskFault::Memory),
        }
    }

    ghost goes_refl = { λ x. le_refl x.answers };

    ghost goes_trans = { λ x y z first more. le_trans first more };

    ghost goes_later = { λ x y goes. record { faults = le_refl 0; answers = goes; exchanges = λ old at. absurd (cc at) } };

    ghost goes_reads = { λ x y goes. record { still = λ kind bytes reply read. read; back = λ kind bytes reply read. read } };
}
