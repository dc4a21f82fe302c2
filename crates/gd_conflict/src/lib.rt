//! How a wanted name is settled among the items of its folder, for each `conflictBehavior` of Microsoft Graph.
#![tactic(auto)]

ghost use Rattle.std.specs.Prelude.{◌≡◌, ◌<◌, length, IfOk};
ghost use Rattle.std.specs.Option.{option_copied};
ghost use Rattle.gd_names.specs.Settling.{sibling_named, settled};

pub mod instances;
pub mod laws;
mod rename;
#[cfg(test)]
mod tests;

use crate::rename::renamed;
pub use gd_names::{Conflict, Settle, Sibling};
use gd_names::{List, NoMemory, Text, same_caseless};
use std::alloc::Global;

/// How the name is settled: free as it is where no sibling has it, but for case; else as the behaviour says.
pub fn settle(
    alloc: Global,
    behaviour: Conflict,
    siblings: &List<Sibling>,
    name: &Text,
    folder: bool,
) -> Result<Settle, NoMemory>
    requires { length siblings.now < 100000 }
    ensures { IfOk result (λ settle. settle ≡ settled behaviour siblings.now name.now folder) }
{
    match sibling_named(siblings.as_slice(), name) {
        None => Ok(Settle::Free(name.clone()?)),
        Some(other) => match behaviour {
            Conflict::Fail => Ok(Settle::Refuse),
            Conflict::Replace if !folder && !other.folder => Ok(Settle::Over(other.id)),
            Conflict::Replace => Ok(Settle::Refuse),
            Conflict::Rename => renamed(alloc, siblings.as_slice(), name, folder),
        },
    }
}

/// The first sibling that has the name, but for case.
fn sibling_named<'a>(siblings: &'a [Sibling], name: &Text) -> Option<&'a Sibling>
    ensures { option_copied result ≡ sibling_named name.now siblings.now }
{
    siblings
        .iter()
        .find(|sibling| same_caseless(&sibling.name, name))
}
