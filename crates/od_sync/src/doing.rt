ghost use Rattle.std.specs.Prelude.{◌≡◌, ◌<◌, ◌≤◌, ℕ, List, [], ◌∷◌, Some, cond, filter, take, length, sum_by, IfOk, OnOk};
ghost use Rattle.std.specs.List.{All, AllZip};
ghost use Rattle.std.specs.Option.{option_copied, option_to_list};
ghost use Rattle.gd_item.specs.Records.{digest_record};
ghost use Rattle.od_sync.specs.Doing.{AreRowsOf, GivesRows, IsBroughtTo, IsFetchFit, IsFileAt, IsFolderOf, Makes, MakesAll, NoFile, NoFolder, PlacesAll, PlacesThese, is_below_any, is_tried, most_bytes, most_jobs, placed_row};
ghost use Rattle.od_sync.specs.Making.{MakesNext, MakesOne, PlacesFetched, PlacesOne, bytes_of};
ghost use Rattle.od_sync.specs.Scans.{HasFolderCause};
ghost use Rattle.od_tree.specs.Undisturbed.{Undisturbed};

use crate::agreeing::push_if_some;
use crate::planning::Fetching;
use crate::scanning::FolderFault;
use gd_names::{Bytes, List, Path};
use od_keeper::{Agreed, BaseRow};
use od_transfer::Outcome;
use od_tree::{Tree, TreeFault};
use std::alloc::{AllocError, Global};

/// How many bytes a file has at most that is fetched, which is also how many the files of a batch have together.
const MOST_BYTES: u64 = 67_108_864;

/// How many files a batch has at most.
const MOST_JOBS: usize = 16;

/// Whether a path is one of some paths or below one.
fn is_below_any(tops: &[Path], path: &Path) -> bool
    ensures { result ≡ is_below_any tops.now path.now }
{
    for top in tops {
        if path.names().starts_with(top.names()) {
            return true;
        }
    }
    false
}

/// Makes a folder, and says whether it could be made.
fn make_folder<T: Tree>(tree: &mut T, folder: &Path) -> Result<bool, FolderFault>
    requires { 0 < length folder.now }
    ensures log { Makes (IsFolderOf (folder.now ∷ [])) NoFile (T.log tree.old) (T.log tree.new) }
    ensures made { IfOk result (λ made. MakesOne folder.now (T.log tree.old) (T.log tree.new) made) }
    ensures cause { HasFolderCause (T.faults tree.old) (T.faults tree.new) result }
    ensures undisturbed { Undisturbed (T.undisturbed tree.old) (T.undisturbed tree.new) (T.faults tree.old) (T.faults tree.new) (T.log tree.old) (T.log tree.new) }
{
    match tree.make_dir(folder) {
        Ok(()) => Ok(true),
        Err(TreeFault::Taken) => Ok(false),
        Err(TreeFault::Missing) => Ok(false),
        Err(TreeFault::NotEmpty) => unreachable!(),
        Err(TreeFault::Failed) => Err(FolderFault::Failed),
        Err(TreeFault::Memory) => Err(FolderFault::Memory),
    }
}

/// Makes a folder, unless it is below one that could not be made, and notes it if it cannot be made either.
fn make_next<T: Tree>(
    tree: &mut T,
    barred: &mut List<Path>,
    folder: &Path,
) -> Result<(), FolderFault>
    requires { 0 < length folder.now }
    ensures log { Makes (IsFolderOf (folder.now ∷ [])) NoFile (T.log tree.old) (T.log tree.new) }
    ensures made { OnOk result (MakesNext folder.now barred.old barred.new (T.log tree.old) (T.log tree.new)) }
    ensures cause { HasFolderCause (T.faults tree.old) (T.faults tree.new) result }
    ensures undisturbed { Undisturbed (T.undisturbed tree.old) (T.undisturbed tree.new) (T.faults tree.old) (T.faults tree.new) (T.log tree.old) (T.log tree.new) }
{
    if is_below_any(barred.as_slice(), folder) {
        return Ok(());
    }
    if !make_folder(tree, folder)? {
        barred.push(folder.clone()?)?;
    }
    Ok(())
}

/// Makes folders in their order, and gives those that could not be made. What is below one of these is left out.
pub fn make_folders<T: Tree>(
    alloc: Global,
    tree: &mut T,
    folders: &[Path],
) -> Result<List<Path>, FolderFault>
    requires { All (λ folder. 0 < length folder) folders.now }
    ensures log { Makes (IsFolderOf folders.now) NoFile (T.log tree.old) (T.log tree.new) }
    ensures made { IfOk result (λ barred. MakesAll folders.now (T.log tree.old) (T.log tree.new) barred) }
    ensures cause { HasFolderCause (T.faults tree.old) (T.faults tree.new) result }
    ensures undisturbed { Undisturbed (T.undisturbed tree.old) (T.undisturbed tree.new) (T.faults tree.old) (T.faults tree.new) (T.log tree.old) (T.log tree.new) }
{
    let mut barred = List::new(alloc);
    for folder in folders {
        make_next(tree, &mut barred, folder)?;
    }
    Ok(barred)
}

/// Places a file, and says whether it could be placed.
fn place_file<T: Tree>(tree: &mut T, path: &Path, bytes: &[u8]) -> Result<bool, FolderFault>
    requires { 0 < length path.now }
    ensures log { Makes NoFolder (IsFileAt path.now (Some bytes.now)) (T.log tree.old) (T.log tree.new) }
    ensures placed { IfOk result (λ placed. PlacesOne (path.now, bytes.now) (T.log tree.old) (T.log tree.new) placed) }
    ensures just { IfOk result (λ placed. PlacesThese (cond placed ((path.now, bytes.now) ∷ []) []) (T.log tree.old) (T.log tree.new)) }
    ensures cause { HasFolderCause (T.faults tree.old) (T.faults tree.new) result }
    ensures undisturbed { Undisturbed (T.undisturbed tree.old) (T.undisturbed tree.new) (T.faults tree.old) (T.faults tree.new) (T.log tree.old) (T.log tree.new) }
{
    match tree.place(path, bytes) {
        Ok(()) => Ok(true),
        Err(TreeFault::Taken) => Ok(false), // nothing is overwritten
        Err(TreeFault::Missing) => Ok(false),
        Err(TreeFault::NotEmpty) => unreachable!(),
        Err(TreeFault::Failed) => Err(FolderFault::Failed),
        Err(TreeFault::Memory) => Err(FolderFault::Memory),
    }
}

/// The row of a file that was placed.
fn placed_row(fetch: &Fetching) -> Result<BaseRow, AllocError>
    ensures { IfOk result (λ row. row ≡ placed_row fetch.now) }
{
    Ok(BaseRow {
        path: fetch.path.clone()?,
        what: Agreed::File(fetch.digest),
        flight: None,
    })
}

/// The bytes that came of a job, if any came.
fn bytes_of(outcome: &Outcome) -> Option<&Bytes>
    ensures { option_copied result ≡ bytes_of outcome.now }
{
    match outcome {
        Outcome::Fetched(bytes) => Some(bytes),
        Outcome::Changed => None,
        Outcome::Refused(_) => None,
        Outcome::Lost => None,
    }
}

/// Places the bytes of a fetch, if bytes came, and gives the row if they could be placed.
fn place_fetched<T: Tree>(
    tree: &mut T,
    fetch: &Fetching,
    fetched: Option<&Bytes>,
) -> Result<Option<BaseRow>, FolderFault>
    requires below { 0 < length fetch.now.path }
    requires fit { (bytes : List ℕ) → option_copied fetched ≡ Some bytes → digest_record bytes ≡ fetch.now.digest }
    ensures log { Makes NoFolder (IsFileAt fetch.now.path (option_copied fetched.entry)) (T.log tree.old) (T.log tree.new) }
    ensures placed { OnOk result (PlacesFetched fetch.now (option_copied fetched.entry) (T.log tree.old) (T.log tree.new)) }
    ensures rows { IfOk result (λ row. GivesRows (option_to_list row) (T.log tree.old) (T.log tree.new)) }
    ensures accepted { IfOk result (λ row. AreRowsOf (fetch.now ∷ []) (option_to_list row)) }
    ensures cause { HasFolderCause (T.faults tree.old) (T.faults tree.new) result }
    ensures undisturbed { Undisturbed (T.undisturbed tree.old) (T.undisturbed tree.new) (T.faults tree.old) (T.faults tree.new) (T.log tree.old) (T.log tree.new) }
{
    match fetched {
        Some(bytes) => {
            if place_file(tree, &fetch.path, bytes.as_slice())? {
                Ok(Some(placed_row(fetch)?))
            } else {
                Ok(None)
            }
        }
        None => Ok(None),
    }
}

/// Places the files of a batch that were fetched, and gives the rows of those that could be placed.
pub fn place_files<T: Tree>(
    alloc: Global,
    tree: &mut T,
    batch: &[Fetching],
    outcomes: &[Outcome],
) -> Result<List<BaseRow>, FolderFault>
    requires same { length batch.now ≡ length outcomes.now }
    requires below { All (λ fetch. 0 < length fetch.path) batch.now }
    requires fits { AllZip IsFetchFit batch.now outcomes.now }
    ensures log { Makes NoFolder (IsBroughtTo batch.now outcomes.now) (T.log tree.old) (T.log tree.new) }
    ensures placed { OnOk result (PlacesAll batch.now outcomes.now (T.log tree.old) (T.log tree.new)) }
    ensures rows { IfOk result (λ rows. GivesRows rows (T.log tree.old) (T.log tree.new)) }
    ensures accepted { IfOk result (λ rows. AreRowsOf batch.now rows) }
    ensures cause { HasFolderCause (T.faults tree.old) (T.faults tree.new) result }
    ensures undisturbed { Undisturbed (T.undisturbed tree.old) (T.undisturbed tree.new) (T.faults tree.old) (T.faults tree.new) (T.log tree.old) (T.log tree.new) }
{
    let mut rows = List::new(alloc);
    for (at, fetch) in batch.iter().enumerate() {
        let row = place_fetched(tree, fetch, bytes_of(&outcomes[at]))?;
        push_if_some(&mut rows, row)?;
    }
    Ok(rows)
}

fn is_tried(barred: &[Path], fetch: &Fetching) -> bool
    ensures { result ≡ is_tried barred.now fetch.now }
{
    !is_below_any(barred, &fetch.path) && fetch.size <= MOST_BYTES && 0 < fetch.id.0
}

/// The fetches that are tried: those that are not below a folder that could not be made, not too large, and of an item
/// that can be asked for.
pub fn tried_fetches(fetches: List<Fetching>, barred: &[Path]) -> List<Fetching>
    ensures { result ≡ filter (is_tried barred.now) fetches }
{
    let mut tried = fetches.into_vec();
    tried.retain(|fetch| is_tried(barred, fetch));
    List::from_vec(tried)
}

/// How many of the first fetches go together.
pub fn batch_length(fetches: &[Fetching]) -> usize
    requires some { 0 < length fetches.now }
    requires light { All (λ fetch. fetch.size ≤ most_bytes) fetches.now }
    ensures some { 0 < result }
    ensures few { result ≤ most_jobs }
    ensures within { result ≤ length fetches.now }
    ensures light { sum_by (λ fetch. fetch.size) (take result fetches.now) ≤ most_bytes }
{
    let mut count = 0;
    let mut total = 0;
    while count < MOST_JOBS && count < fetches.len() {
        let size = fetches[count].size;
        if size > MOST_BYTES - total {
            return count;
        }
        total += size;
        count += 1;
    }
    count
}
