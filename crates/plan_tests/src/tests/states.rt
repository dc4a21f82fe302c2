//! A state as short tables, and a plan as a text.
use gd_item::{Digest, Item, ItemId, Kind, Tag};
use gd_names::{List, NoMemory, Path, Text};
use od_keeper::{Agreed, BaseRow};
use od_mirror::MirrorView;
use od_reconcile::{Down, Held, Node, Plan, Rename, Up, Why};
use od_synclist::{RuleFault, Rules};
use std::alloc::Global;

/// An entry of the folder, or what was agreed on at a path: 0 for a folder, or else the number of the bytes.
pub type Entry = (&'static str, u8);

/// An item of the drive: its number, that of its folder, its name, and 0 or the number of its bytes as above.
pub type Record = (u64, u64, &'static str, u8);

fn bytes(number: u8) -> Digest {
    Digest([number; 32])
}

fn path(alloc: Global, text: &str) -> Result<Path, NoMemory> {
    match Path::read(alloc, text.as_bytes()) {
        Ok(path) => Ok(path),
        Err(_) => Ok(Path::root(alloc)),
    }
}

pub fn paths(alloc: Global, texts: &[&'static str]) -> Result<List<Path>, NoMemory> {
    let mut list = List::new(alloc);
    for text in texts {
        list.push(path(alloc, *text)?)?;
    }
    Ok(list)
}

pub fn rows(alloc: Global, entries: &[Entry]) -> Result<List<BaseRow>, NoMemory> {
    let mut list = List::new(alloc);
    for entry in entries {
        let what = if entry.1 == 0 {
            Agreed::Folder
        } else {
            Agreed::File(bytes(entry.1))
        };
        list.push(BaseRow {
            path: path(alloc, entry.0)?,
            what,
            flight: None,
        })?;
    }
    Ok(list)
}

pub fn folder(alloc: Global, entries: &[Entry]) -> Result<List<(Path, Node)>, NoMemory> {
    let mut list = List::new(alloc);
    for entry in entries {
        let node = if entry.1 == 0 {
            Node::Folder
        } else {
            Node::File {
                size: 1,
                digest: Some(bytes(entry.1)),
            }
        };
        list.push((path(alloc, entry.0)?, node))?;
    }
    Ok(list)
}

fn item(alloc: Global, record: &Record) -> Result<Item, NoMemory> {
    let kind = if record.3 == 0 {
        Kind::Folder { child_count: 0 }
    } else {
        Kind::File {
            digest: bytes(record.3),
        }
    };
    Ok(Item {
        id: ItemId(record.0),
        parent: if record.1 == 0 {
            None
        } else {
            Some(ItemId(record.1))
        },
        parent_path: None,
        name: Text::from_str(alloc, record.2)?,
        size: 1,
        etag: Tag(Text::from_str(alloc, "e1")?),
        ctag: None,
        kind,
    })
}

/// The drive with these items below its root.
pub fn drive(alloc: Global, records: &[Record]) -> Result<MirrorView, NoMemory> {
    let mut items = List::new(alloc);
    items.push(item(alloc, &(1, 0, "root", 0))?)?;
    for record in records {
        items.push(item(alloc, record)?)?;
    }
    Ok(MirrorView {
        items,
        token: Text::from_str(alloc, "t1.1.1")?,
    })
}

pub fn rules(alloc: Global, text: &str) -> Result<Rules, RuleFault> {
    Rules::read(alloc, text.as_bytes())
}

fn add(alloc: Global, text: &mut String, word: &str, path: &Path) -> Result<(), NoMemory> {
    text.push_str(word)?;
    text.push_str(path.write(alloc)?.as_str())?;
    Ok(())
}

fn add_rename(alloc: Global, text: &mut String, rename: &Rename) -> Result<(), NoMemory> {
    add(alloc, text, "rename ", &rename.from)?;
    add(alloc, text, " ", &rename.to)?;
    text.push_str("; ")?;
    Ok(())
}

fn add_down(alloc: Global, text: &mut String, step: &Down) -> Result<(), NoMemory> {
    match step {
        Down::RemoveFile(path, _) => add(alloc, text, "remove ", path)?,
        Down::RemoveFolder(path) => add(alloc, text, "rmdir ", path)?,
        Down::MakeFolder(path) => add(alloc, text, "mkdir ", path)?,
        Down::Fetch { path, over, .. } => {
            let word = if over.is_some() { "replace " } else { "fetch " };
            add(alloc, text, word, path)?
        }
        Down::Move { from, to, .. } => {
            add(alloc, text, "move ", from)?;
            add(alloc, text, " ", to)?
        }
    }
    text.push_str("; ")?;
    Ok(())
}

fn add_up(alloc: Global, text: &mut String, step: &Up) -> Result<(), NoMemory> {
    match step {
        Up::Remove { path, .. } => add(alloc, text, "delete ", path)?,
        Up::MakeFolder(path) => add(alloc, text, "make ", path)?,
        Up::Send { path, over } => {
            let word = if over.is_some() {
                "overwrite "
            } else {
                "send "
            };
            add(alloc, text, word, path)?
        }
        Up::Move { from, to, .. } => {
            add(alloc, text, "patch ", from)?;
            add(alloc, text, " ", to)?
        }
    }
    text.push_str("; ")?;
    Ok(())
}

fn why(why: Why) -> &'static str {
    match why {
        Why::BadName => " BadName; ",
        Why::PathTooLong => " PathTooLong; ",
        Why::TooLarge => " TooLarge; ",
        Why::CaseClash => " CaseClash; ",
        Why::NoCopyName => " NoCopyName; ",
        Why::Quota => " Quota; ",
    }
}

fn add_held(alloc: Global, text: &mut String, held: &Held) -> Result<(), NoMemory> {
    add(alloc, text, "held ", &held.path)?;
    text.push_str(why(held.why))?;
    Ok(())
}

/// The plan's four lists, one after the other.
pub fn told(alloc: Global, plan: &Plan) -> Result<String, NoMemory> {
    let mut text = String::new(alloc);
    for rename in plan.renames.as_slice() {
        add_rename(alloc, &mut text, rename)?;
    }
    for step in plan.down.as_slice() {
        add_down(alloc, &mut text, step)?;
    }
    for step in plan.up.as_slice() {
        add_up(alloc, &mut text, step)?;
    }
    for held in plan.held.as_slice() {
        add_held(alloc, &mut text, held)?;
    }
    Ok(text)
}
