//! A drive's items written as plainly as can be: one list, which each call searches from its beginning.
use gd_item::{Condition, ItemId, Place, StoreFault, ctag_of, etag_of, matches};
use gd_names::{Conflict, Text, check_name, same_caseless, split_extension};
use std::alloc::Global;

/// How many characters a path has at most.
const MOST_CHARACTERS: usize = 400;

/// An item; the root is one of them.
#[derive(Debug, Drop)]
struct Entry {
    number: u64,
    parent: u64,
    name: Text,
    /// None for a folder.
    size: Option<u64>,
    change: u64,
    content: u64,
}

/// The items, the numbers of those that were removed with the change numbers of their removals, and the last item's
/// and the drive's number.
#[derive(Debug, Drop)]
pub struct PlainStore {
    alloc: Global,
    entries: Vec<Entry>,
    removed: Vec<(u64, u64)>,
    made: u64,
    number: u64,
    floor: u64,
}

impl PlainStore {
    pub fn new(alloc: Global) -> Result<PlainStore, StoreFault> {
        let mut entries = Vec::new(alloc);
        entries.push(Entry {
            number: 1,
            parent: 0,
            name: Text::from_str(alloc, "root")?,
            size: None,
            change: 1,
            content: 0,
        })?;
        Ok(PlainStore {
            alloc,
            entries,
            removed: Vec::new(alloc),
            made: 1,
            number: 1,
            floor: 0,
        })
    }

    pub fn number(&self) -> u64 {
        self.number
    }

    /// The number of the item that was made last.
    pub fn made(&self) -> u64 {
        self.made
    }

    fn at(&self, number: u64) -> Option<&Entry> {
        for entry in self.entries.as_slice() {
            if entry.number == number {
                return Some(entry);
            }
        }
        None
    }

    /// The number of the item of a folder that has the name, but for case, or 0.
    pub fn child(&self, parent: u64, name: &Text) -> u64 {
        for entry in self.entries.as_slice() {
            if entry.parent == parent && same_caseless(&entry.name, name) {
                return entry.number;
            }
        }
        0
    }

    /// How many characters the path of an item has.
    fn path_length(&self, number: u64) -> usize {
        let mut length: usize = 0;
        let mut at = number;
        for _ in 0..self.entries.len() {
            match self.at(at) {
                Some(entry) => {
                    if entry.number != 1 {
                        length = length.saturating_add(1).saturating_add(entry.name.len());
                    }
                    at = entry.parent;
                }
                None => return length,
            }
        }
        length
    }

    /// How many folders stand above an item.
    fn depth(&self, number: u64) -> u64 {
        let mut depth: u64 = 0;
        let mut at = number;
        for _ in 0..self.entries.len() {
            match self.at(at) {
                Some(entry) => {
                    depth = depth.saturating_add(1);
                    at = entry.parent;
                }
                None => return depth,
            }
        }
        depth
    }

    /// Whether an item is another one or stands below it.
    fn is_within(&self, number: u64, top: u64) -> bool {
        let mut at = number;
        for _ in 0..self.entries.len() {
            if at == top {
                return true;
            }
            match self.at(at) {
                Some(entry) => at = entry.parent,
                None => return false,
            }
        }
        false
    }

    fn need_folder(&self, number: u64) -> Result<(), StoreFault> {
        match self.at(number) {
            None => Err(StoreFault::NotFound),
            Some(entry) => {
                if entry.size.is_some() {
                    Err(StoreFault::NotFolder)
                } else {
                    Ok(())
                }
            }
        }
    }

    fn need_file(&self, number: u64) -> Result<(), StoreFault> {
        match self.at(number) {
            None => Err(StoreFault::NotFound),
            Some(entry) => {
                if entry.size.is_none() {
                    Err(StoreFault::NotFile)
                } else {
                    Ok(())
                }
            }
        }
    }

    fn need_name(&self, name: &Text) -> Result<(), StoreFault> {
        if check_name(name).is_err() {
            return Err(StoreFault::BadName);
        }
        Ok(())
    }

    /// A condition does not hold of an item that is not there.
    fn need_condition(&self, condition: &Condition, number: u64) -> Result<(), StoreFault> {
        if *condition == Condition::Free {
            return Ok(());
        }
        let Some(entry) = self.at(number) else {
            return Err(StoreFault::Modified);
        };
        let etag = etag_of(self.alloc, entry.change)?;
        let ctag = if entry.size.is_some() {
            Some(ctag_of(self.alloc, entry.content)?)
        } else {
            None
        };
        if matches(condition, &etag, ctag.as_ref()) {
            return Ok(());
        }
        Err(StoreFault::Modified)
    }

    /// The name with the least number that no other item of the folder has.
    fn free_name(&self, parent: u64, name: &Text, folder: bool) -> Result<Text, StoreFault> {
        let (stem, end) = split_extension(name, folder);
        for number in 1..100_000u64 {
            let numbered = Text::from_string(format!(in self.alloc; "{stem} {number}{end}")?);
            if self.child(parent, &numbered) == 0 {
                return Ok(numbered);
            }
        }
        Err(StoreFault::NameTaken)
    }

    /// The name that a new item gets, and the number of the file that is replaced instead, or 0.
    fn settle(
        &self,
        parent: u64,
        name: &Text,
        behaviour: Conflict,
        folder: bool,
    ) -> Result<(Text, u64), StoreFault> {
        let taken = self.child(parent, name);
        if taken == 0 {
            return Ok((name.clone()?, 0));
        }
        match behaviour {
            Conflict::Fail => Err(StoreFault::NameTaken),
            Conflict::Replace => {
                if folder || self.need_file(taken).is_err() {
                    return Err(StoreFault::NameTaken);
                }
                Ok((name.clone()?, taken))
            }
            Conflict::Rename => {
                let free = self.free_name(parent, name, folder)?;
                Ok((free, 0))
            }
        }
    }

    /// The drive's next change number.
    fn step(&mut self) -> u64 {
        self.number = self.number.saturating_add(1);
        self.number
    }

    fn add(&mut self, parent: u64, name: Text, size: Option<u64>) -> Result<u64, StoreFault> {
        let above = self.path_length(parent);
        if above.saturating_add(1).saturating_add(name.len()) > MOST_CHARACTERS {
            return Err(StoreFault::PathTooLong);
        }
        let change = self.step();
        self.made = self.made.saturating_add(1);
        self.entries.push(Entry {
            number: self.made,
            parent,
            name,
            size,
            change,
            content: change,
        })?;
        Ok(self.made)
    }

    fn replace(&mut self, number: u64, size: u64) {
        let change = self.step();
        for entry in self.entries.as_mut_slice() {
            if entry.number == number {
                entry.size = Some(size);
                entry.change = change;
                entry.content = change;
            }
        }
    }

    pub fn make_folder(
        &mut self,
        parent: u64,
        name: &Text,
        behaviour: Conflict,
    ) -> Result<u64, StoreFault> {
        self.need_folder(parent)?;
        self.need_name(name)?;
        let (name, _) = self.settle(parent, name, behaviour, true)?;
        self.add(parent, name, None)
    }

    fn put_over(
        &mut self,
        number: u64,
        size: u64,
        condition: &Condition,
    ) -> Result<(ItemId, bool), StoreFault> {
        self.need_file(number)?;
        self.need_condition(condition, number)?;
        self.replace(number, size);
        Ok((ItemId(number), false))
    }

    fn put_under(
        &mut self,
        parent: u64,
        name: &Text,
        size: u64,
        behaviour: Conflict,
        condition: &Condition,
    ) -> Result<(ItemId, bool), StoreFault> {
        self.need_folder(parent)?;
        self.need_name(name)?;
        self.need_condition(condition, self.child(parent, name))?;
        let (name, taken) = self.settle(parent, name, behaviour, false)?;
        if taken != 0 {
            self.replace(taken, size);
            return Ok((ItemId(taken), false));
        }
        let made = self.add(parent, name, Some(size))?;
        Ok((ItemId(made), true))
    }

    /// Puts so many bytes.
    pub fn put(
        &mut self,
        place: &Place,
        size: u64,
        behaviour: Conflict,
        condition: &Condition,
    ) -> Result<(ItemId, bool), StoreFault> {
        match place {
            Place::Over(id) => self.put_over(id.0, size, condition),
            Place::Under(id, name) => self.put_under(id.0, name, size, behaviour, condition),
        }
    }

    /// Whether a path would be too long if an item stood in a folder under a name.
    fn is_too_long(&self, number: u64, parent: u64, name: &Text) -> bool {
        let old = self.path_length(number);
        let new = self
            .path_length(parent)
            .saturating_add(1)
            .saturating_add(name.len());
        for entry in self.entries.as_slice() {
            if self.is_within(entry.number, number) {
                let below = self.path_length(entry.number).saturating_sub(old);
                if new.saturating_add(below) > MOST_CHARACTERS {
                    return true;
                }
            }
        }
        false
    }

    fn relocate(&mut self, number: u64, parent: u64, name: &Text) -> Result<(), StoreFault> {
        let change = self.step();
        for entry in self.entries.as_mut_slice() {
            if entry.number == number {
                entry.parent = parent;
                entry.name = name.clone()?;
                entry.change = change;
            }
        }
        Ok(())
    }

    /// Moves an item to a folder, or leaves it there (0), under a name.
    pub fn patch(
        &mut self,
        number: u64,
        name: &Text,
        parent: u64,
        condition: &Condition,
    ) -> Result<(), StoreFault> {
        let Some(entry) = self.at(number) else {
            return Err(StoreFault::NotFound);
        };
        let parent = if parent == 0 { entry.parent } else { parent };
        if number == 1 {
            return Err(StoreFault::Root);
        }
        self.need_name(name)?;
        self.need_folder(parent)?;
        self.need_condition(condition, number)?;
        if self.is_within(parent, number) {
            return Err(StoreFault::IntoItself);
        }
        let taken = self.child(parent, name);
        if taken != 0 && taken != number {
            return Err(StoreFault::NameTaken);
        }
        if self.is_too_long(number, parent, name) {
            return Err(StoreFault::PathTooLong);
        }
        self.relocate(number, parent, name)
    }

    /// The numbers of an item and of all below it, the deepest first.
    fn below(&self, number: u64) -> Result<Vec<u64>, StoreFault> {
        let mut order = Vec::new(self.alloc);
        let count = self.entries.len() as u64;
        for back in 0..count {
            for entry in self.entries.as_slice() {
                let depth = self.depth(entry.number);
                if self.is_within(entry.number, number) && depth == count - back {
                    order.push(entry.number)?;
                }
            }
        }
        Ok(order)
    }

    pub fn remove(&mut self, number: u64, condition: &Condition) -> Result<(), StoreFault> {
        if self.at(number).is_none() {
            return Err(StoreFault::NotFound);
        }
        if number == 1 {
            return Err(StoreFault::Root);
        }
        self.need_condition(condition, number)?;
        let order = self.below(number)?;
        for gone in order.as_slice() {
            let gone = *gone;
            let change = self.step();
            self.removed.push((gone, change))?;
            self.entries.retain(|entry| entry.number != gone);
        }
        Ok(())
    }

    pub fn expire(&mut self, number: u64) {
        self.floor = self.floor.max(number.min(self.number));
    }

    /// What is told of the item that a change touched last, or that it removed.
    fn told(&self, change: u64, forgotten: u64) -> Result<String, StoreFault> {
        for entry in self.entries.as_slice() {
            if entry.change == change {
                let (number, parent, name) = (entry.number, entry.parent, entry.name.as_str());
                return Ok(match entry.size {
                    Some(size) => format!(in self.alloc;
                        "{number} {name} in {parent} e{change}, {size} bytes\n"
                    )?,
                    None => format!(in self.alloc; "{number} {name}/ in {parent} e{change}\n")?,
                });
            }
        }
        for (number, removal) in self.removed.as_slice() {
            if *removal == change && change > forgotten {
                return Ok(format!(in self.alloc; "{number} removed e{change}\n")?);
            }
        }
        Ok(String::new(self.alloc))
    }

    /// The feed past a position and past a removal.
    pub fn feed(&self, position: u64, removed_after: u64) -> Result<String, StoreFault> {
        let forgotten = removed_after.max(self.floor);
        let mut all = String::new(self.alloc);
        for change in position..self.number {
            let line = self.told(change + 1, forgotten)?;
            all.push_str(line.as_str())?;
        }
        Ok(all)
    }
}
