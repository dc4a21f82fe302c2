ghost use Rattle.std.specs.Prelude.{◌≡◌, ◌++◌, List, Some, codes, length, IfOk, IfErr, OnOk};
ghost use Rattle.std.specs.List.{flat_map};
ghost use Rattle.std.specs.Fmt.{decimal};
ghost use Rattle.gd_item.specs.Ids.{id_text};
ghost use Rattle.gd_item.specs.Inventory.{Effect, inventory};
ghost use Rattle.gd_item.specs.Versions.{content_at, version_at};
ghost use Rattle.od_cli.specs.Played.{content_line, content_text, refusal_line};
ghost use Rattle.od_cli.specs.Pulled.{item_line, shown_line, AreListed, IsFileAt, IsListed};
ghost use Rattle.od_cli.specs.Replays.{bad_line_text};
ghost use Rattle.od_cli.specs.Runs.{sync_text};
ghost use Rattle.od_cli.specs.Worlds.{Holds};

use crate::words::holds_plain;
use gd_item::{ErrorCode, Item, ItemId, Kind, StoreFault, digest_of};
use gd_names::{Bytes, NoMemory, Path};
use gd_store::Store;
use od_sync::SyncEnd;
use std::alloc::Global;

/// How many bytes a content may have that is shown.
const MOST_SHOWN: usize = 64;

/// The line of a refusal.
pub fn print_refusal(
    alloc: Global,
    out: &mut Bytes,
    status: u16,
    code: ErrorCode,
) -> Result<(), NoMemory>
    ensures { OnOk result (out.new ≡ out.old ++ refusal_line status code) }
{
    let code = code.as_str();
    let text = format!(in alloc; "other {status} {code}\n")?;
    out.push_slice(text.as_bytes())
}

/// A word and a number: the first line of a pull, and that of `drive`.
pub fn print_number(alloc: Global, out: &mut Bytes, word: &str, number: u64) -> Result<(), NoMemory>
    ensures { OnOk result (out.new ≡ out.old ++ (word.now ++ codes " " ++ decimal number ++ codes "\n")) }
{
    let text = format!(in alloc; "{word} {number}\n")?;
    out.push_slice(text.as_bytes())
}

/// The line that says which line is no script line.
pub fn print_bad_line(alloc: Global, out: &mut Bytes, number: u64) -> Result<(), NoMemory>
    ensures { OnOk result (out.new ≡ out.old ++ bad_line_text number) }
{
    let text = format!(in alloc; "line {number} is not a script line\n")?;
    out.push_slice(text.as_bytes())
}

/// The line of an item at its path.
fn print_item(alloc: Global, out: &mut Bytes, path: &Path, item: &Item) -> Result<(), NoMemory>
    ensures { OnOk result (out.new ≡ out.old ++ item_line (path.now, item.now)) }
{
    let path = path.write(alloc)?;
    let path = path.as_str();
    match item.kind {
        Kind::Folder { .. } => {
            let text = format!(in alloc; "{path}/\n")?;
            out.push_slice(text.as_bytes())
        }
        Kind::File { digest } => {
            let size = item.size;
            let digest = hex::encode(alloc, digest.0.as_slice())?;
            let digest = digest.as_str();
            let text = format!(in alloc; "{path} {size} {digest}\n")?;
            out.push_slice(text.as_bytes())
        }
        Kind::Bare => {
            let size = item.size;
            let text = format!(in alloc; "{path} {size}\n")?;
            out.push_slice(text.as_bytes())
        }
        Kind::Deleted => Ok(()),
    }
}

/// The lines of items at their paths.
pub fn print_items(alloc: Global, out: &mut Bytes, items: &[(Path, Item)]) -> Result<(), NoMemory>
    ensures { OnOk result (out.new ≡ out.old ++ flat_map item_line items.now) }
{
    for (path, item) in items {
        print_item(alloc, out, path, item)?;
    }
    Ok(())
}

/// A content in quotes where it is short and may stand there, and else its digest.
fn print_content(alloc: Global, out: &mut Bytes, bytes: &[u8]) -> Result<(), NoMemory>
    ensures { OnOk result (out.new ≡ out.old ++ content_text bytes.now) }
{
    if bytes.len() <= MOST_SHOWN && holds_plain(bytes) {
        out.push_slice(b"\"")?;
        out.push_slice(bytes)?;
        return out.push_slice(b"\"");
    }
    let digest = digest_of(bytes);
    let digest = hex::encode(alloc, digest.0.as_slice())?;
    out.push_slice(digest.as_bytes())
}

/// The line of a file at its path.
fn print_file(alloc: Global, out: &mut Bytes, path: &str, bytes: &[u8]) -> Result<(), NoMemory>
    ensures { OnOk result (out.new ≡ out.old ++ (path.now ++ codes " " ++ decimal (length bytes.now) ++ codes " " ++ content_text bytes.now ++ codes "\n")) }
{
    let size = bytes.len();
    let text = format!(in alloc; "{path} {size} ")?;
    out.push_slice(text.as_bytes())?;
    print_content(alloc, out, bytes)?;
    out.push_slice(b"\n")
}

/// The bytes that stand in a file, or why there are none: for want of memory alone, where it is a file.
fn read_bytes(store: &Store, id: ItemId) -> Result<Bytes, StoreFault>
    ensures found { IfOk result (λ bytes. (log : List Effect) → Holds store.now log → version_at id.0 (content_at id.0 (inventory log)) (inventory log) ≡ Some bytes) }
    ensures there { (log : List Effect) → Holds store.now log → IsFileAt (inventory log) id.0 → IfErr result (λ fault. fault ≡ StoreFault.Memory) }
{
    match store.content_number(id) {
        Ok(content) => store.version(id, content),
        Err(fault) => Err(fault),
    }
}

/// The bytes that stand in a file.
fn bytes_of(store: &Store, id: ItemId) -> Result<Bytes, NoMemory>
    requires { (log : List Effect) × Holds store.now log × IsFileAt (inventory log) id.0 }
    ensures { IfOk result (λ bytes. (log : List Effect) → Holds store.now log → version_at id.0 (content_at id.0 (inventory log)) (inventory log) ≡ Some bytes) }
{
    match read_bytes(store, id) {
        Ok(bytes) => Ok(bytes),
        Err(StoreFault::Memory) => Err(NoMemory),
        Err(_) => unreachable!(),
    }
}

/// The line of an item at its path, with its content if it is a file.
fn print_shown(
    alloc: Global,
    out: &mut Bytes,
    store: &Store,
    path: &Path,
    item: &Item,
) -> Result<(), NoMemory>
    requires { (log : List Effect) × Holds store.now log × IsListed (inventory log) item.now }
    ensures { OnOk result ((log : List Effect) → Holds store.now log → out.new ≡ out.old ++ shown_line (inventory log) (path.now, item.now)) }
{
    let path = path.write(alloc)?;
    let path = path.as_str();
    match item.kind {
        Kind::File { .. } => {
            let bytes = bytes_of(store, item.id)?;
            print_file(alloc, out, path, bytes.as_slice())
        }
        Kind::Folder { .. } => {
            let text = format!(in alloc; "{path}/\n")?;
            out.push_slice(text.as_bytes())
        }
        // a drive's own items have their digests, and live
        Kind::Bare => unreachable!(),
        Kind::Deleted => unreachable!(),
    }
}

/// The lines of items at their paths, with the contents that a store has.
pub fn print_contents(
    alloc: Global,
    out: &mut Bytes,
    store: &Store,
    items: &[(Path, Item)],
) -> Result<(), NoMemory>
    requires { (log : List Effect) × Holds store.now log × AreListed (inventory log) items.now }
    ensures { OnOk result ((log : List Effect) → Holds store.now log → out.new ≡ out.old ++ flat_map (shown_line (inventory log)) items.now) }
{
    for (path, item) in items {
        print_shown(alloc, out, store, path, item)?;
    }
    Ok(())
}

/// An entry of the folder at its path.
fn print_entry(
    alloc: Global,
    out: &mut Bytes,
    entry: &(Path, Option<Bytes>),
) -> Result<(), NoMemory>
    ensures { OnOk result (out.new ≡ out.old ++ content_line entry.now) }
{
    let path = entry.0.write(alloc)?;
    let path = path.as_str();
    match &entry.1 {
        Some(bytes) => print_file(alloc, out, path, bytes.as_slice()),
        None => {
            let text = format!(in alloc; "{path}/\n")?;
            out.push_slice(text.as_bytes())
        }
    }
}

/// What `local` prints of the entries of a folder.
pub fn print_folder(
    alloc: Global,
    out: &mut Bytes,
    entries: &[(Path, Option<Bytes>)],
) -> Result<(), NoMemory>
    ensures { OnOk result (out.new ≡ out.old ++ (codes "local\n" ++ flat_map content_line entries.now)) }
{
    out.push_slice(b"local\n")?;
    for entry in entries {
        print_entry(alloc, out, entry)?;
    }
    Ok(())
}

fn print_item_id(alloc: Global, out: &mut Bytes, id: &str) -> Result<(), NoMemory>
    ensures { OnOk result (out.new ≡ out.old ++ (codes "item " ++ id.now ++ codes "\nsync BadReply\n")) }
{
    let text = format!(in alloc; "item {id}\nsync BadReply\n")?;
    out.push_slice(text.as_bytes())
}

/// The lines of a sync that an item ended.
fn print_bad_pages(alloc: Global, out: &mut Bytes, id: ItemId) -> Result<(), NoMemory>
    ensures { OnOk result (out.new ≡ out.old ++ (codes "item " ++ id_text id.0 ++ codes "\nsync BadReply\n")) }
{
    let id = id.write(alloc)?;
    print_item_id(alloc, out, id.as_str())
}

/// The line, or lines, of a sync that ended so.
pub fn print_end(alloc: Global, out: &mut Bytes, end: SyncEnd) -> Result<(), NoMemory>
    ensures { OnOk result (out.new ≡ out.old ++ sync_text end) }
{
    match end {
        SyncEnd::Settled => out.push_slice(b"sync Settled\n"),
        SyncEnd::Unsettled => out.push_slice(b"sync Unsettled\n"),
        SyncEnd::LinkFault => out.push_slice(b"sync LinkFault\n"),
        SyncEnd::TreeFault => out.push_slice(b"sync TreeFault\n"),
        SyncEnd::KeeperFault => out.push_slice(b"sync KeeperFault\n"),
        SyncEnd::BadPages(id) => print_bad_pages(alloc, out, id),
        SyncEnd::Unserved => out.push_slice(b"sync Unserved\n"),
        SyncEnd::Memory => Ok(()),
    }
}
