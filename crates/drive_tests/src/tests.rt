mod compared;
mod drives;
mod files;
mod folders;
mod fragments;
mod items;
mod limits;
mod moves;
mod names;
mod openings;
mod plain;
mod reads;
mod requests;
mod sessions;
mod store;

use gd_item::{Condition, ItemId, Place};
use gd_names::{Conflict, Text};
use gd_store::Store;
use std::alloc::Global;
use std::test::Fail;

fn text(alloc: Global, bytes: &str) -> Result<Text, Fail> {
    Ok(Text::from_str(alloc, bytes)?)
}

/// No condition (`""`), or that the tag is this one.
fn condition(alloc: Global, tag: &str) -> Result<Condition, Fail> {
    if tag.is_empty() {
        Ok(Condition::Free)
    } else {
        Ok(Condition::Match(text(alloc, tag)?))
    }
}

/// So many letters `x` after a beginning.
fn long(alloc: Global, beginning: &str, length: usize) -> Result<Text, Fail> {
    let mut letters = String::from_str(alloc, beginning)?;
    for _ in 0..length {
        letters.push('x')?;
    }
    Ok(Text::from_string(letters))
}

/// Makes a folder under another one.
fn make(store: &mut Store, parent: u64, name: &Text) -> Result<(), Fail> {
    store.make_folder(ItemId(parent), name, Conflict::Fail)?;
    Ok(())
}

/// Puts a file of one byte under a folder.
fn put(store: &mut Store, parent: u64, name: Text) -> Result<(), Fail> {
    let place = Place::Under(ItemId(parent), name);
    store.put(&place, b"1", Conflict::Fail, &Condition::Free, 0)?;
    Ok(())
}

/// Folder 2 `/d`, file 3 `/f`, folder 4 of 250 letters, file 5 of 200 letters in 2, and folder 6 of 148 letters in 4,
/// whose path has 400 characters, the most that a path has.
fn filled(alloc: Global) -> Result<Store, Fail> {
    let mut store = Store::new(alloc)?;
    make(&mut store, 1, &text(alloc, "d")?)?;
    put(&mut store, 1, text(alloc, "f")?)?;
    make(&mut store, 1, &long(alloc, "", 250)?)?;
    put(&mut store, 2, long(alloc, "", 200)?)?;
    make(&mut store, 4, &long(alloc, "", 148)?)?;
    Ok(store)
}
