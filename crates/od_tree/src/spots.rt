ghost use Rattle.std.specs.Prelude.{◌≡◌, ◌<◌, ℕ, ◌++◌, ◌∷◌, [], List, length, drop, slice_get, IfOk, OnOk, OnErr, MatchOption, Some, None};
ghost use Rattle.std.specs.List.{remove};
ghost use Rattle.od_tree.specs.Local.{Local, spot_at, moved_path, without_spot, without_from, moved_from, after_placed_edit};

use crate::edit::UserEdit;
use crate::local::{HeldFile, LocalFile, Spot};
use crate::look::{is_at, is_from};
use gd_names::{Bytes, List, NoMemory, Path, Text};
use std::alloc::Global;

/// The index of the first entry at a path.
fn index_at(spots: &[Spot], at: &[Text]) -> Option<usize>
    ensures left { MatchOption result (without_spot at.now spots.now ≡ spots.now) (λ i. (i < length spots.now) × (without_spot at.now spots.now ≡ remove spots.now i)) }
    ensures spot { MatchOption result (spot_at at.now spots.now ≡ None) (λ i. spot_at at.now spots.now ≡ slice_get spots.now i) }
{
    let mut index = 0;
    while index < spots.len() {
        if is_at(&spots[index], at) {
            return Some(index);
        }
        index += 1;
    }
    None
}

/// Puts an entry last, in place of the first one at a path.
fn put_spot(spots: &mut Vec<Spot>, at: &[Text], spot: Spot) -> Result<(), NoMemory>
    ensures ok { OnOk result (spots.new.items ≡ without_spot at.now spots.old.items ++ spot ∷ []) }
    ensures err { OnErr result (spots.new.items ≡ spots.old.items) }
{
    match index_at(spots.as_slice(), at) {
        Some(index) => {
            spots.push(spot)?;
            let _replaced = spots.remove(index);
            Ok(())
        }
        None => {
            spots.push(spot)?;
            Ok(())
        }
    }
}

/// Takes the first entry at a path out of the entries.
pub fn take_spot(spots: &mut Vec<Spot>, at: &[Text]) -> Option<Spot>
    ensures spot { result ≡ spot_at at.now spots.old.items }
    ensures left { spots.new.items ≡ without_spot at.now spots.old.items }
{
    match index_at(spots.as_slice(), at) {
        Some(index) => Some(spots.remove(index)),
        None => None,
    }
}

/// Removes all entries from a path on.
fn remove_from(spots: &mut Vec<Spot>, top: &[Text])
    ensures { spots.new.items ≡ without_from top.now spots.old.items }
{
    spots.retain(|spot| !is_from(top, spot.path.names()));
}

/// The names without the first so many.
fn names_after(names: &[Text], count: usize) -> &[Text]
    ensures { result.now ≡ drop count names.now }
{
    if count <= names.len() {
        &names[count..]
    } else {
        &names[names.len()..]
    }
}

fn push_names(names: &mut List<Text>, more: &[Text]) -> Result<(), NoMemory>
    ensures { OnOk result (names.new ≡ names.old ++ more.now) }
{
    for name in more {
        names.push(name.clone()?)?;
    }
    Ok(())
}

/// Where a path leads after a move.
fn moved_path(alloc: Global, from: &[Text], to: &[Text], path: &Path) -> Result<Path, NoMemory>
    ensures { IfOk result (λ moved. moved ≡ moved_path from.now to.now path.now) }
{
    if !is_from(from, path.names()) {
        return Ok(path.clone()?);
    }
    let mut names = List::new(alloc);
    push_names(&mut names, to)?;
    push_names(&mut names, names_after(path.names(), from.len()))?;
    Ok(Path::from_names(names))
}

/// Adds the entries of which those from a path on stand at another one.
pub fn push_moved(
    alloc: Global,
    moved: &mut Vec<Spot>,
    spots: &[Spot],
    from: &[Text],
    to: &[Text],
) -> Result<(), NoMemory>
    ensures { OnOk result (moved.new.items ≡ moved.old.items ++ moved_from from.now to.now spots.now) }
{
    for spot in spots {
        let path = moved_path(alloc, from, to, &spot.path)?;
        moved.push(Spot {
            path,
            file: spot.file.clone()?,
        })?;
    }
    Ok(())
}

fn moved_without(
    alloc: Global,
    spots: &[Spot],
    index: usize,
    from: &[Text],
    to: &[Text],
) -> Result<Vec<Spot>, NoMemory>
    requires { index < length spots.now }
    ensures { IfOk result (λ moved. moved.items ≡ moved_from from.now to.now (remove spots.now index)) }
{
    let mut moved = Vec::new(alloc);
    push_moved(alloc, &mut moved, &spots[..index], from, to)?;
    push_moved(alloc, &mut moved, &spots[index + 1..], from, to)?;
    Ok(moved)
}

/// The entries after a move, in which the first entry at the new path is replaced.
fn moved_spots(
    alloc: Global,
    spots: &[Spot],
    from: &[Text],
    to: &[Text],
) -> Result<Vec<Spot>, NoMemory>
    ensures { IfOk result (λ moved. moved.items ≡ moved_from from.now to.now (without_spot to.now spots.now)) }
{
    match index_at(spots, to) {
        Some(index) => moved_without(alloc, spots, index, from, to),
        None => {
            let mut moved = Vec::new(alloc);
            push_moved(alloc, &mut moved, spots, from, to)?;
            Ok(moved)
        }
    }
}

fn move_spots(
    alloc: Global,
    spots: &mut Vec<Spot>,
    from: &[Text],
    to: &[Text],
) -> Result<(), NoMemory>
    ensures ok { OnOk result (spots.new.items ≡ moved_from from.now to.now (without_spot to.now spots.old.items)) }
    ensures err { OnErr result (spots.new.items ≡ spots.old.items) }
{
    let moved = moved_spots(alloc, spots.as_slice(), from, to)?;
    *spots = moved;
    Ok(())
}

/// Adds a folder.
pub fn add_folder(spots: &mut Vec<Spot>, at: &Path) -> Result<(), NoMemory>
    ensures ok { OnOk result (spots.new.items ≡ spots.old.items ++ record { path = at.now; file = None } ∷ []) }
    ensures err { OnErr result (spots.new.items ≡ spots.old.items) }
{
    let path = at.clone()?;
    spots.push(Spot { path, file: None })?;
    Ok(())
}

fn write_file(spots: &mut Vec<Spot>, at: &Path, bytes: &Bytes, step: u64) -> Result<(), NoMemory>
    ensures ok { OnOk result (spots.new.items ≡ without_spot at.now spots.old.items ++ record { path = at.now; file = Some (record { bytes = bytes.now; origin = Some step }) } ∷ []) }
    ensures err { OnErr result (spots.new.items ≡ spots.old.items) }
{
    let file = LocalFile {
        bytes: bytes.clone()?,
        origin: Some(step),
    };
    let path = at.clone()?;
    put_spot(
        spots,
        at.names(),
        Spot {
            path,
            file: Some(file),
        },
    )
}

/// Makes a user's edit that has a place, and is this step of the log.
pub fn make_edit(
    alloc: Global,
    spots: &mut Vec<Spot>,
    edit: &UserEdit,
    step: u64,
) -> Result<(), NoMemory>
    ensures ok { OnOk result ((held : List HeldFile) → spots.new.items ≡ (after_placed_edit step (record { spots = spots.old.items; held = held }) edit.now).spots) }
    ensures err { OnErr result (spots.new.items ≡ spots.old.items) }
{
    match edit {
        UserEdit::Write(at, bytes) => write_file(spots, at, bytes, step),
        UserEdit::Remove(at) => {
            remove_from(spots, at.names());
            Ok(())
        }
        UserEdit::Move(from, to) => move_spots(alloc, spots, from.names(), to.names()),
        UserEdit::MakeFolder(at) => add_folder(spots, at),
    }
}
