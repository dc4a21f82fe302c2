ghost use Rattle.std.specs.Prelude.{◌≡◌, ◌<◌, length, IfOk};
ghost use Rattle.std.specs.Option.{option_copied, option_map};
ghost use Rattle.gd_names.specs.Numbered.{numbered};
ghost use Rattle.gd_names.specs.Settling.{sibling_named, settled, least_number, free_within};
ghost use Rattle.gd_item.specs.Refusals.{live_named, sibling_of, siblings_in};

use super::Index;
use gd_item::LiveItem;
use gd_names::{Conflict, NoMemory, Settle, Text, numbered_name};

impl Index {
    /// The item of a folder that has the name, but for case.
    pub fn named(&self, parent: u64, name: &Text) -> Option<&LiveItem>
        ensures item { option_copied result ≡ live_named parent name.now self.now }
        ensures sibling { option_map sibling_of (option_copied result) ≡ sibling_named name.now (siblings_in parent self.now) }
    {
        let Some(number) = self.child(parent, name) else {
            return None;
        };
        match self.rows.get(&number) {
            None => None,
            Some(row) => Some(&row.item),
        }
    }

    /// How a name is settled in a folder. No sibling is looked at but those that have the name or a numbered one.
    pub fn settle(
        &self,
        parent: u64,
        name: &Text,
        behaviour: Conflict,
        folder: bool,
    ) -> Result<Settle, NoMemory>
        requires { length self.now < 100000 }
        ensures { IfOk result (λ settle. settle ≡ settled behaviour (siblings_in parent self.now) name.now folder) }
    {
        match self.named(parent, name) {
            None => Ok(Settle::Free(name.clone()?)),
            Some(other) => match behaviour {
                Conflict::Fail => Ok(Settle::Refuse),
                Conflict::Replace if !folder && other.bytes.is_some() => {
                    Ok(Settle::Over(other.number))
                }
                Conflict::Replace => Ok(Settle::Refuse),
                Conflict::Rename => self.renamed(parent, name, folder),
            },
        }
    }

    /// The name with the least number that makes it free, where that is at most 255 bytes long.
    fn renamed(&self, parent: u64, name: &Text, folder: bool) -> Result<Settle, NoMemory>
        requires { length self.now < 100000 }
        ensures { IfOk result (λ settle. settle ≡ free_within (numbered name.now folder (least_number (siblings_in parent self.now) (siblings_in parent self.now) name.now folder 1))) }
    {
        let made = self.first_free(parent, name, folder)?;
        if made.len() <= 255 {
            Ok(Settle::Free(made))
        } else {
            Ok(Settle::Refuse)
        }
    }

    /// The name with the least number that makes it free.
    fn first_free(&self, parent: u64, name: &Text, folder: bool) -> Result<Text, NoMemory>
        requires { length self.now < 100000 }
        ensures { IfOk result (λ made. made ≡ numbered name.now folder (least_number (siblings_in parent self.now) (siblings_in parent self.now) name.now folder 1)) }
    {
        let count = self.len();
        for before in 0..count {
            let made = numbered_name(self.alloc, name, folder, before + 1)?;
            if self.child(parent, &made).is_none() {
                return Ok(made);
            }
        }
        let last = numbered_name(self.alloc, name, folder, count + 1)?;
        Ok(last)
    }
}
