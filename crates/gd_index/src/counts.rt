// How many children each folder has. A folder without any has no count.
ghost use Rattle.std.specs.Prelude.{◌≡◌, ◌+◌, ◌<◌, ◌^◌, OnOk, OnErr};
ghost use Rattle.gd_index.specs.Counted.{count_at, CountsMore, CountsLess};

use gd_names::NoMemory;
use std::collections::BTreeMap;

/// The count of a folder.
pub fn count_of(counts: &BTreeMap<u64, u64>, folder: u64) -> u64
    ensures { result ≡ count_at counts.now.entries folder }
{
    match counts.get(&folder) {
        None => 0,
        Some(count) => *count,
    }
}

/// Counts one child more.
pub fn count_more(counts: &mut BTreeMap<u64, u64>, folder: u64) -> Result<(), NoMemory>
    requires { count_at counts.old.entries folder + 1 < 2 ^ 64 }
    ensures ok { OnOk result (CountsMore folder counts.old.entries counts.new.entries) }
    ensures err { OnErr result (counts.new.entries ≡ counts.old.entries) }
{
    let count = count_of(counts, folder);
    counts.insert(folder, count + 1)?;
    Ok(())
}

/// Counts one child less. Takes no memory.
pub fn count_less(counts: &mut BTreeMap<u64, u64>, folder: u64)
    ensures { CountsLess folder counts.old.entries counts.new.entries }
{
    let count = count_of(counts, folder);
    if count <= 1 {
        counts.remove(&folder);
        return;
    }
    match counts.insert(folder, count - 1) {
        Ok(_) => {}
        // A count that is there is written in its place.
        Err(_) => unreachable!(),
    }
}
