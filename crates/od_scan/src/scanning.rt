ghost use Rattle.std.specs.Prelude.{◌≡◌, ◌<◌, ◌++◌, ◌∷◌, [], length, IfOk, OnOk};
ghost use Rattle.od_outside.specs.Running.{Runs};
ghost use Rattle.od_synclist.specs.Rules.{rules_of};
ghost use Rattle.od_scan.specs.Scans.{Always, ScanCause, ScanFact, ScannedBy, is_read};
ghost use Rattle.od_scan.specs.Visits.{BeginsBy, BeginsFact, FoundBy, ListedBy, RootFact, ShowsBy, VisitFact, VisitedBy, Visits, VisitsFile, VisitsFolder, file_at_turn, file_found, folder_found, listing_at, pushed, read_at, turn_of, turns};

use crate::stop::ScanStop;
use crate::waiting::Waiting;
use gd_item::digest_of;
use gd_names::{List, NoMemory, Path, Text};
use od_outside::Outside;
use od_reconcile::Node;
use od_synclist::Rules;
use od_tree::{Entry, TreeFault};
use std::alloc::{AllocError, Global};

/// How many bytes a file has at most that is read.
const MOST_BYTES: u64 = 67_108_864;

/// Whether a file is read.
fn is_read(rules: &Rules, at: &Path, size: u64) -> bool
    ensures { result ≡ is_read (rules_of rules.now) at.now size }
{
    rules.passes(at, false) && size <= MOST_BYTES
}

/// A file as it was read, and None where it is gone.
fn read_file<O: Outside>(
    alloc: Global,
    outside: &mut O,
    at: &Path,
) -> Result<Option<Node>, ScanStop>
    requires { 0 < length at.now }
    ensures { Runs O.seen Always (FoundBy at.now result) (ShowsBy (read_at at.now) (file_found at.now) result) (ScanCause result) outside.old outside.new }
{
    match outside.read(alloc, at) {
        Ok(bytes) => {
            let size = bytes.len() as u64;
            let digest = Some(digest_of(bytes.as_slice()));
            Ok(Some(Node::File { size, digest }))
        }
        Err(TreeFault::Missing) => Ok(None),
        Err(TreeFault::Failed) => Err(ScanStop::Failed),
        Err(TreeFault::Memory) => Err(ScanStop::Memory),
        Err(TreeFault::Taken) => unreachable!(),
        Err(TreeFault::NotEmpty) => unreachable!(),
    }
}

/// A file that was listed with this size: as it was read, if it is to be read.
fn look_at_file<O: Outside>(
    alloc: Global,
    outside: &mut O,
    rules: &Rules,
    at: &Path,
    size: u64,
) -> Result<Option<Node>, ScanStop>
    requires { 0 < length at.now }
    ensures { Runs O.seen Always (FoundBy at.now result) (ShowsBy (file_at_turn (rules_of rules.now) at.now size) (file_found at.now) result) (ScanCause result) outside.old outside.new }
{
    if is_read(rules, at, size) {
        read_file(alloc, outside, at)
    } else {
        Ok(Some(Node::File { size, digest: None }))
    }
}

/// The entries of a folder below the root, and None where it is gone.
fn look_at_folder<O: Outside>(
    alloc: Global,
    outside: &mut O,
    at: &Path,
) -> Result<Option<List<Entry>>, ScanStop>
    requires { 0 < length at.now }
    ensures { Runs O.seen Always (ListedBy at.now result) (ShowsBy (listing_at at.now) (folder_found at.now) result) (ScanCause result) outside.old outside.new }
{
    match outside.list(alloc, at) {
        Ok(entries) => Ok(Some(entries)),
        Err(TreeFault::Missing) => Ok(None),
        Err(TreeFault::Failed) => Err(ScanStop::Failed),
        Err(TreeFault::Memory) => Err(ScanStop::Memory),
        Err(TreeFault::Taken) => unreachable!(),
        Err(TreeFault::NotEmpty) => unreachable!(),
    }
}

/// The path of an entry of a folder.
fn path_in(folder: &Path, name: &Text) -> Result<Path, AllocError>
    ensures { IfOk result (λ path. path ≡ folder.now ++ name.now ∷ []) }
{
    let mut names = folder.clone()?.into_names();
    match names.push(name.clone()?) {
        Ok(()) => Ok(Path::from_names(names)),
        Err(_) => Err(AllocError),
    }
}

/// Lets the entries of a folder wait, the first of them on top.
fn push_entries(
    waiting: &mut Vec<Waiting>,
    folder: &Path,
    entries: &[Entry],
) -> Result<(), NoMemory>
    ensures { OnOk result (turns waiting.new.items ≡ pushed folder.now entries.now (turns waiting.old.items)) }
{
    let mut left = entries.len();
    while left > 0 {
        left -= 1;
        let entry = &entries[left];
        let path = path_in(folder, &entry.name)?;
        waiting.push(Waiting {
            path,
            folder: entry.folder,
            size: entry.size,
        })?;
    }
    Ok(())
}

/// Scans a file, if it is still there.
fn visit_file<O: Outside>(
    alloc: Global,
    outside: &mut O,
    rules: &Rules,
    at: Path,
    size: u64,
    found: &mut Vec<(Path, Node)>,
) -> Result<(), ScanStop>
    requires { 0 < length at }
    ensures { Runs O.seen Always (VisitedBy found.old.items found.new.items result) (VisitFact found.old.items found.new.items (VisitsFile (rules_of rules.now) at size found.old.items found.new.items) result) (ScanCause result) outside.old outside.new }
{
    let node = look_at_file(alloc, outside, rules, &at, size)?;
    match node {
        Some(node) => {
            found.push((at, node))?;
            Ok(())
        }
        None => Ok(()),
    }
}

/// Scans a folder, if it is still there, and lets its entries wait.
fn visit_folder<O: Outside>(
    alloc: Global,
    outside: &mut O,
    at: Path,
    waiting: &mut Vec<Waiting>,
    found: &mut Vec<(Path, Node)>,
) -> Result<(), ScanStop>
    requires { 0 < length at }
    ensures { Runs O.seen Always (VisitedBy found.old.items found.new.items result) (VisitFact found.old.items found.new.items (VisitsFolder at found.old.items found.new.items (turns waiting.old.items) (turns waiting.new.items)) result) (ScanCause result) outside.old outside.new }
{
    let entries = look_at_folder(alloc, outside, &at)?;
    match entries {
        Some(entries) => {
            push_entries(waiting, &at, entries.as_slice())?;
            found.push((at, Node::Folder))?;
            Ok(())
        }
        None => Ok(()),
    }
}

/// Scans an entry, if it is still there.
fn visit<O: Outside>(
    alloc: Global,
    outside: &mut O,
    rules: &Rules,
    next: Waiting,
    waiting: &mut Vec<Waiting>,
    found: &mut Vec<(Path, Node)>,
) -> Result<(), ScanStop>
    ensures { Runs O.seen Always (VisitedBy found.old.items found.new.items result) (VisitFact found.old.items found.new.items (Visits (rules_of rules.now) (turn_of next) found.old.items found.new.items (turns waiting.old.items) (turns waiting.new.items)) result) (ScanCause result) outside.old outside.new }
{
    let Waiting { path, folder, size } = next;
    if folder {
        visit_folder(alloc, outside, path, waiting, found)
    } else {
        visit_file(alloc, outside, rules, path, size, found)
    }
}

/// The entries of the root, which is always there.
fn list_root<O: Outside>(alloc: Global, outside: &mut O) -> Result<List<Entry>, ScanStop>
    ensures { Runs O.seen Always (BeginsBy result) (RootFact result) (ScanCause result) outside.old outside.new }
{
    let root = Path::root(alloc);
    match outside.list(alloc, &root) {
        Ok(entries) => Ok(entries),
        Err(TreeFault::Failed) => Err(ScanStop::Failed),
        Err(TreeFault::Memory) => Err(ScanStop::Memory),
        Err(TreeFault::Missing) => unreachable!(),
        Err(TreeFault::Taken) => unreachable!(),
        Err(TreeFault::NotEmpty) => unreachable!(),
    }
}

/// Lets the entries of the root wait.
fn begin<O: Outside>(
    alloc: Global,
    outside: &mut O,
    waiting: &mut Vec<Waiting>,
) -> Result<(), ScanStop>
    ensures { Runs O.seen Always (BeginsBy result) (BeginsFact (turns waiting.old.items) (turns waiting.new.items) result) (ScanCause result) outside.old outside.new }
{
    let entries = list_root(alloc, outside)?;
    let root = Path::root(alloc);
    push_entries(waiting, &root, entries.as_slice())?;
    Ok(())
}

/// All entries of the folder in order of path: a folder is listed when its turn comes, the root first, and a file is then
/// read if it passes the rules and was listed with 67,108,864 bytes at most. What is gone then is left out. A file that is
/// read has the number of its bytes and their digest, and any other the size with which it was listed.
pub fn scan<O: Outside>(
    alloc: Global,
    outside: &mut O,
    rules: &Rules,
) -> Result<List<(Path, Node)>, ScanStop>
    ensures { Runs O.seen Always (ScannedBy result) (ScanFact (rules_of rules.now) result) (ScanCause result) outside.old outside.new }
{
    let mut found = Vec::new(alloc);
    let mut waiting = Vec::new(alloc);
    begin(alloc, outside, &mut waiting)?;
    for _turn in 0..u64::MAX {
        match waiting.pop() {
            Some(next) => visit(alloc, outside, rules, next, &mut waiting, &mut found)?,
            None => return Ok(List::from_vec(found)),
        }
    }
    Err(ScanStop::Memory)
}
