//! What a change writes, as a list that contracts can name.
ghost use Rattle.std.specs.Prelude.{◌≡◌, [], ◌∷◌, ◌++◌, None, Some, IfOk, OnOk, IsErrOf};
ghost use Rattle.od_database.specs.Writes.{collected, more, whole_writes, gone_write, put_write, dropped_write, row_write, writes_of};

use crate::agreement::{AgreementRow, spelled};
use crate::entry::EntryRow;
use crate::fault::DatabaseFault;
use crate::number::{digest_text, integer_of};
use gd_item::{Item, ItemId};
use gd_names::{List, NoMemory, Path, Text};
use od_keeper::{BaseRow, Change};
use std::alloc::Global;

/// One step of a change. A row that is put stands in place of the one that has its key.
#[derive(Debug, PartialEq, Eq, Drop)]
pub enum Write {
    /// Empties the tables, but for the version.
    Reset,
    /// The digest of the rules file, in hexadecimal digits.
    Rules(Text),
    Token(Text),
    /// Removes the row of this id.
    Gone(i64),
    Put(EntryRow),
    /// Removes the row of this path.
    Dropped(Text),
    Row(AgreementRow),
}

fn push_whole(writes: &mut Vec<Write>, alloc: Global, change: &Change) -> Result<(), NoMemory>
    ensures { OnOk result (writes.new.items ≡ writes.old.items ++ whole_writes change.now) }
{
    if change.reset {
        writes.push(Write::Reset)?;
    }
    if let Some(digest) = &change.rules {
        let text = digest_text(alloc, digest)?;
        writes.push(Write::Rules(text))?;
    }
    if let Some(token) = &change.token {
        let text = token.clone()?;
        writes.push(Write::Token(text))?;
    }
    Ok(())
}

fn push_gone(writes: &mut Vec<Write>, ids: &[ItemId]) -> Result<(), DatabaseFault>
    ensures ok { OnOk result (more (Some writes.old.items) (collected gone_write ids.now) ≡ Some writes.new.items) }
    ensures refused { IsErrOf result DatabaseFault.NoImage → more (Some writes.old.items) (collected gone_write ids.now) ≡ None }
    ensures taken { IsErrOf result DatabaseFault.Refused → ⊥ }
{
    for id in ids {
        match integer_of(id.0) {
            Some(number) => writes.push(Write::Gone(number))?,
            None => return Err(DatabaseFault::NoImage),
        }
    }
    Ok(())
}

fn push_put(writes: &mut Vec<Write>, alloc: Global, items: &[Item]) -> Result<(), DatabaseFault>
    ensures ok { OnOk result (more (Some writes.old.items) (collected put_write items.now) ≡ Some writes.new.items) }
    ensures refused { IsErrOf result DatabaseFault.NoImage → more (Some writes.old.items) (collected put_write items.now) ≡ None }
    ensures taken { IsErrOf result DatabaseFault.Refused → ⊥ }
{
    for item in items {
        let row = EntryRow::of(alloc, item)?;
        writes.push(Write::Put(row))?;
    }
    Ok(())
}

fn push_dropped(writes: &mut Vec<Write>, alloc: Global, paths: &[Path]) -> Result<(), DatabaseFault>
    ensures ok { OnOk result (more (Some writes.old.items) (collected dropped_write paths.now) ≡ Some writes.new.items) }
    ensures refused { IsErrOf result DatabaseFault.NoImage → more (Some writes.old.items) (collected dropped_write paths.now) ≡ None }
    ensures taken { IsErrOf result DatabaseFault.Refused → ⊥ }
{
    for path in paths {
        let text = spelled(alloc, path)?;
        writes.push(Write::Dropped(text))?;
    }
    Ok(())
}

fn push_rows(writes: &mut Vec<Write>, alloc: Global, rows: &[BaseRow]) -> Result<(), DatabaseFault>
    ensures ok { OnOk result (more (Some writes.old.items) (collected row_write rows.now) ≡ Some writes.new.items) }
    ensures refused { IsErrOf result DatabaseFault.NoImage → more (Some writes.old.items) (collected row_write rows.now) ≡ None }
    ensures taken { IsErrOf result DatabaseFault.Refused → ⊥ }
{
    for base in rows {
        let row = AgreementRow::of(alloc, base)?;
        writes.push(Write::Row(row))?;
    }
    Ok(())
}

/// All that the change writes. Refused where a number does not fit an INTEGER, for a deleted item, and where the text of
/// a path is not read back as that path.
pub fn writes_of(alloc: Global, change: &Change) -> Result<List<Write>, DatabaseFault>
    ensures ok { IfOk result (λ writes. writes_of change.now ≡ Some writes) }
    ensures refused { IsErrOf result DatabaseFault.NoImage → writes_of change.now ≡ None }
    ensures taken { IsErrOf result DatabaseFault.Refused → ⊥ }
{
    let mut writes = Vec::new(alloc);
    push_whole(&mut writes, alloc, change)?;
    push_gone(&mut writes, change.gone.as_slice())?;
    push_put(&mut writes, alloc, change.put.as_slice())?;
    push_dropped(&mut writes, alloc, change.dropped.as_slice())?;
    push_rows(&mut writes, alloc, change.rows.as_slice())?;
    Ok(List::from_vec(writes))
}
