ghost use Rattle.std.specs.Prelude.{◌≡◌, ◌++◌, map, filter, IfOk, OnOk};
ghost use Rattle.std.specs.Option.{option_copied};
ghost use Rattle.gd_item.specs.Inventory.{version_of};
ghost use Rattle.gd_item.specs.Versions.{replaced_bytes as bytes_replaced, file_version, info_of};
ghost use Rattle.gd_laws.specs.Given.{is_version_of};

use gd_item::{LiveItem, Version, VersionInfo};
use gd_names::{Bytes, NoMemory};
use std::alloc::Global;

/// The bytes of an item's replaced version.
fn replaced_bytes(replaced: &[Version], number: u64, content: u64) -> Option<&Bytes>
    ensures { option_copied result ≡ bytes_replaced number content replaced.now }
{
    for version in replaced {
        if version.item == number && version.content == content {
            return Some(&version.bytes);
        }
    }
    None
}

/// The bytes of a version of an item: those that stand in it, or replaced ones. A folder has none.
pub fn version_bytes<'a>(
    item: &'a LiveItem,
    replaced: &'a [Version],
    content: u64,
) -> Option<&'a Bytes>
    ensures { option_copied result ≡ file_version content replaced.now item.now item.now.bytes }
{
    match &item.bytes {
        None => None,
        Some(bytes) => {
            if item.content == content {
                Some(bytes)
            } else {
                replaced_bytes(replaced, item.number, content)
            }
        }
    }
}

/// The replaced versions of an item, the oldest first.
pub fn version_infos(
    alloc: Global,
    replaced: &[Version],
    number: u64,
) -> Result<Vec<VersionInfo>, NoMemory>
    ensures { IfOk result (λ infos. infos.items ≡ map info_of (filter (is_version_of number) replaced.now)) }
{
    let mut infos = Vec::new(alloc);
    for version in replaced {
        if version.item == number {
            infos.push(VersionInfo {
                version: version.content,
                size: version.bytes.as_slice().len() as u64,
            })?;
        }
    }
    Ok(infos)
}

/// Puts the version that stands in an item behind the others, if the item is there and a file.
pub fn push_version(infos: &mut Vec<VersionInfo>, item: Option<&LiveItem>) -> Result<(), NoMemory>
    ensures { OnOk result (infos.new.items ≡ infos.old.items ++ map info_of (version_of (option_copied item.entry))) }
{
    let Some(item) = item else {
        return Ok(());
    };
    match &item.bytes {
        None => {}
        Some(bytes) => infos.push(VersionInfo {
            version: item.content,
            size: bytes.as_slice().len() as u64,
        })?,
    }
    Ok(())
}
