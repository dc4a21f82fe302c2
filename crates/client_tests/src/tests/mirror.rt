use gd_item::{Digest, Item, ItemId, Kind, Page, PageLink, Tag};
use gd_names::{List, NoMemory, Path, Text};
use od_mirror::{Mirror, MirrorView, PullFault, Taken};
use std::alloc::{AllocError, Global};
use std::test::Fail;

/// A record: its number, its parent's, its name, and `d` for a folder, `f` for a file, `b` for one without a digest or `x`
/// for a deleted item.
type Row = (u64, u64, &'static str, char);

fn record(alloc: Global, (number, parent, name, kind): Row) -> Result<Item, NoMemory> {
    let kind = match kind {
        'd' => Kind::Folder { child_count: 0 },
        'f' => Kind::File {
            digest: Digest([0; 32]),
        },
        'b' => Kind::Bare,
        _ => Kind::Deleted,
    };
    Ok(Item {
        id: ItemId(number),
        parent: if parent == 0 {
            None
        } else {
            Some(ItemId(parent))
        },
        parent_path: None,
        name: Text::from_str(alloc, name)?,
        size: 0,
        etag: Tag(Text::from_str(alloc, "e1")?),
        ctag: None,
        kind,
    })
}

fn page(alloc: Global, rows: &[Row], link: PageLink) -> Result<Page, NoMemory> {
    let mut items = List::new(alloc);
    for row in rows {
        items.push(record(alloc, *row)?)?;
    }
    Ok(Page { items, link })
}

fn pulled(alloc: Global, first: &[Row], second: &[Row]) -> Result<MirrorView, PullFault> {
    let mut mirror = Mirror::start(alloc, List::new(alloc), None);
    let next = PageLink::Next(Text::from_str(alloc, "t1.3.3.1")?);
    let _more = mirror.take_page(&page(alloc, first, next)?)?;
    let delta = PageLink::Delta(Text::from_str(alloc, "t1.3.3")?);
    match mirror.take_page(&page(alloc, second, delta)?)? {
        Taken::Last => mirror.finish(),
        Taken::More => Err(PullFault::Memory),
    }
}

fn write_path(text: &mut String, path: Path) -> Result<(), AllocError> {
    text.push_str(" ")?;
    for name in path.names() {
        text.push_str("/")?;
        text.push_str(name.as_str())?;
    }
    Ok(())
}

/// The token and the paths, or the fault, as a text.
fn told(alloc: Global, pull: Result<MirrorView, PullFault>) -> Result<String, NoMemory> {
    match pull {
        Ok(view) => {
            let mut text = String::from_str(alloc, view.token.as_str())?;
            for (path, _item) in view.paths(alloc)?.into_vec() {
                write_path(&mut text, path)?;
            }
            Ok(text)
        }
        Err(fault) => Ok(format!(in alloc; "{fault}")?),
    }
}

#[test]
fn pages_make_a_drive_or_name_the_least_fault(rt: HostRuntime) -> Result<(), Fail> {
    let root = (1, 0, "root", 'd');
    let folder = (2, 1, "d", 'd');
    let file = (3, 2, "a", 'f');
    for (name, first, second, want) in [
        (
            "one page",
            [root, folder, file],
            [root, folder, file],
            "t1.3.3 /d /d/a",
        ),
        (
            "the last record counts",
            [root, folder, file],
            [root, folder, (3, 1, "B", 'f')],
            "t1.3.3 /B /d",
        ),
        (
            "a deleted item is none",
            [root, folder, file],
            [root, folder, (3, 2, "", 'x')],
            "t1.3.3 /d",
        ),
        (
            "two below each other",
            [root, file, file],
            [root, (2, 3, "d", 'd'), (3, 2, "a", 'd')],
            "see item ItemId(2)",
        ),
        (
            "names that differ in case",
            [root, root, root],
            [root, (2, 1, "a", 'f'), (3, 1, "A", 'f')],
            "see item ItemId(3)",
        ),
        (
            "no root",
            [folder, folder, file],
            [folder, folder, file],
            "see item ItemId(1)",
        ),
        (
            "no root, and an item before it",
            [folder, folder, file],
            [folder, (0, 1, "z", 'f'), file],
            "see item ItemId(0)",
        ),
    ] {
        let text = told(rt.alloc(), pulled(rt.alloc(), &first, &second))?;
        assert!(rt; text.as_str().ends_with(want), "{name}: {text}");
    }
    Ok(())
}

#[test]
fn a_mirror_begins_where_it_stood(rt: HostRuntime) -> Result<(), Fail> {
    let mut items = List::new(rt.alloc());
    items.push(record(rt.alloc(), (1, 0, "root", 'd'))?)?;
    let token = Text::from_str(rt.alloc(), "t1.2.2")?;
    let mut mirror = Mirror::start(rt.alloc(), items, Some(token.clone()?));
    assert!(rt; mirror.token() == Some(&token));
    mirror.gone();
    assert!(rt; mirror.token() == None);
    Ok(())
}

/// The kind of the file 2 after a pull over it, whose eTag is `e1`, that gives it again without a digest.
fn kind_after(alloc: Global, etag: &str) -> Result<Kind, Fail> {
    let mut items = List::new(alloc);
    items.push(record(alloc, (1, 0, "root", 'd'))?)?;
    items.push(record(alloc, (2, 1, "a", 'f'))?)?;
    let mut mirror = Mirror::start(alloc, items, Some(Text::from_str(alloc, "t1.2.2")?));
    let mut bare = record(alloc, (2, 1, "a", 'b'))?;
    bare.etag = Tag(Text::from_str(alloc, etag)?);
    let mut records = List::new(alloc);
    records.push(bare)?;
    let link = PageLink::Delta(Text::from_str(alloc, "t1.3.2")?);
    match mirror.take_page(&Page {
        items: records,
        link,
    })? {
        Taken::Last => match mirror.finish()?.items.as_slice() {
            [_root, file] => Ok(file.kind),
            _ => Ok(Kind::Deleted),
        },
        Taken::More => Ok(Kind::Deleted),
    }
}

#[test]
fn a_digest_is_known_while_the_etag_stands(rt: HostRuntime) -> Result<(), Fail> {
    let digest = Digest([0; 32]);
    assert_eq!(rt; kind_after(rt.alloc(), "e1")?, Kind::File { digest });
    assert_eq!(rt; kind_after(rt.alloc(), "e2")?, Kind::Bare);
    Ok(())
}

/// A pull that goes on from a view, and whose last page is empty.
fn resumed(alloc: Global, view: MirrorView) -> Result<MirrorView, PullFault> {
    let mut mirror = Mirror::resume(alloc, view);
    let link = PageLink::Delta(Text::from_str(alloc, "t1.5.3")?);
    match mirror.take_page(&page(alloc, &[], link)?)? {
        Taken::Last => mirror.finish(),
        Taken::More => Err(PullFault::Memory),
    }
}

#[test]
fn a_pull_goes_on_from_a_view(rt: HostRuntime) -> Result<(), Fail> {
    let rows = [
        (1, 0, "root", 'd'),
        (2, 1, "a", 'd'),
        (3, 2, "b", 'd'),
        (4, 3, "f", 'f'),
    ];
    let view = pulled(rt.alloc(), &rows, &[(2, 1, "c", 'd')])?;
    let text = told(rt.alloc(), resumed(rt.alloc(), view))?;
    assert_eq!(rt; text.as_str(), "t1.5.3 /c /c/b /c/b/f");
    Ok(())
}

#[test]
fn a_digest_is_learned_where_the_etag_stands(rt: HostRuntime) -> Result<(), Fail> {
    let mut view = pulled(rt.alloc(), &[(1, 0, "root", 'd')], &[(2, 1, "a", 'b')])?;
    let one = Tag(Text::from_str(rt.alloc(), "e1")?);
    let two = Tag(Text::from_str(rt.alloc(), "e2")?);
    let digest = Digest([7; 32]);
    let bare = view.bare(rt.alloc())?;
    assert!(rt; matches!(bare.as_slice(), [(id, etag)] if *id == ItemId(2) && *etag == one));
    assert!(rt; !view.learn(rt.alloc(), ItemId(2), &two, digest));
    assert!(rt; view.learn(rt.alloc(), ItemId(2), &one, digest));
    assert!(rt; view.bare(rt.alloc())?.is_empty());
    Ok(())
}
