//! The replies of a plain drive: their items without digests and content tags. Takes no memory.
ghost use Rattle.std.specs.Prelude.{◌≡◌, map};
ghost use Rattle.gd_item.specs.Answers.{bare_item as bare, bare_kind as kind_bare, bare_reply as reply_bare, shown};

use gd_item::{Item, Kind, Page, Reply};
use gd_names::List;

fn bare_kind(kind: Kind) -> Kind
    ensures { result ≡ kind_bare kind }
{
    match kind {
        Kind::Folder { child_count } => Kind::Folder { child_count },
        Kind::File { .. } => Kind::Bare,
        Kind::Bare => Kind::Bare,
        Kind::Deleted => Kind::Deleted,
    }
}

fn strip(item: &mut Item)
    ensures { item.new ≡ bare item.old }
{
    item.ctag = None;
    item.kind = bare_kind(item.kind);
}

fn strip_each(items: &mut [Item])
    ensures { items.new ≡ map bare items.old }
{
    for item in items.iter_mut() {
        strip(item);
    }
}

fn bare_item(item: Item) -> Item
    ensures { result ≡ bare item }
{
    let mut item = item;
    strip(&mut item);
    item
}

fn bare_items(items: List<Item>) -> List<Item>
    ensures { result ≡ map bare items }
{
    let mut all = items.into_vec();
    strip_each(all.as_mut_slice());
    List::from_vec(all)
}

fn bare_reply(reply: Reply) -> Reply
    ensures { result ≡ reply_bare reply }
{
    match reply {
        Reply::Made(item) => Reply::Made(bare_item(item)),
        Reply::Is(item) => Reply::Is(bare_item(item)),
        Reply::Listed { items, next } => Reply::Listed {
            items: bare_items(items),
            next,
        },
        Reply::Page(page) => Reply::Page(Page {
            items: bare_items(page.items),
            link: page.link,
        }),
        Reply::Done => Reply::Done,
        Reply::Found { id, version } => Reply::Found { id, version },
        Reply::Content(bytes) => Reply::Content(bytes),
        Reply::Session { session, expected } => Reply::Session { session, expected },
        Reply::Status { expected } => Reply::Status { expected },
        Reply::More { expected } => Reply::More { expected },
        Reply::Gone(resync) => Reply::Gone(resync),
        Reply::Refused { status, code } => Reply::Refused { status, code },
    }
}

/// A reply as a drive shows it that is plain or not.
pub fn show(plain: bool, reply: Reply) -> Reply
    ensures { result ≡ shown plain reply }
{
    if plain { bare_reply(reply) } else { reply }
}
