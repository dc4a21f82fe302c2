ghost use Rattle.std.specs.Prelude.{◌≡◌, ◌<◌, ◌≤◌, true, [], map, length, IfOk, IfErr, OnErr, OnOk};
ghost use Rattle.std.specs.List.{All, AllZip};
ghost use Rattle.gd_item.specs.Steps.{accepted_by};
ghost use Rattle.od_keeper.specs.Images.{by_path, put_all};
ghost use Rattle.od_keeper.specs.Keeping.{HasKeeperCause, Stay};
ghost use Rattle.od_keeper.specs.Sound.{IsSound};
ghost use Rattle.od_keeper.specs.Undisturbed as keeper_alone;
ghost use Rattle.od_transfer.specs.Asking.{Grows};
ghost use Rattle.od_transfer.specs.Fits.{IsTransfer};
ghost use Rattle.od_transfer.specs.Undisturbed as remote_alone;
ghost use Rattle.od_tree.specs.Undisturbed as tree_alone;
ghost use Rattle.od_sync.specs.Batches.{BringsFiles, CommitsRows, Fetches, FetchesFiles, Stops, change_of_rows};
ghost use Rattle.od_sync.specs.Doing.{AreAcceptedFetches, AreRowsOf, GivesRows, IsFetchFit, IsFetchOf, IsFolderOf, Makes, NoFolder, PutsRows, job_of, most_bytes};
ghost use Rattle.od_sync.specs.Ends.{HasStopCause, counts};
ghost use Rattle.od_sync.specs.Scans.{HasFolderCause};
ghost use Rattle.od_sync.specs.Serving.{KeepsToken, Leaves};
ghost use Rattle.od_sync.specs.Syncing.{Does, Goes, IsDoStop};

use crate::committing::commit;
use crate::doing::{batch_length, make_folders, place_files, tried_fetches};
use crate::ends::SyncStop;
use crate::planning::{Fetching, Plan};
use crate::scanning::FolderFault;
use gd_names::{List, NoMemory};
use od_keeper::{BaseRow, Change, Image, Keeper, KeeperFault};
use od_transfer::{Carrier, Job, Outcome};
use od_tree::Tree;
use std::alloc::Global;

/// The jobs of a batch.
fn jobs_of(alloc: Global, batch: &[Fetching]) -> Result<List<Job>, NoMemory>
    ensures { IfOk result (λ jobs. jobs ≡ map job_of batch.now) }
{
    let mut jobs = List::new(alloc);
    for fetch in batch {
        jobs.push(Job::Fetch {
            id: fetch.id,
            digest: fetch.digest,
            size: fetch.size,
        })?;
    }
    Ok(jobs)
}

/// Fetches the files of a batch.
fn carry_batch<R: Carrier>(
    alloc: Global,
    remote: &mut R,
    batch: &[Fetching],
) -> Result<List<Outcome>, NoMemory>
    requires { All (λ fetch. 0 < fetch.id.0) batch.now }
    ensures same { IfOk result (λ outcomes. length batch.now ≡ length outcomes) }
    ensures fits { IfOk result (λ outcomes. AllZip IsFetchFit batch.now outcomes) }
    ensures log { Grows IsTransfer (R.log remote.old) (R.log remote.new) }
    ensures brings { IfOk result (λ outcomes. BringsFiles batch.now outcomes (R.faults remote.old) (R.faults remote.new) (R.log remote.old) (R.log remote.new)) }
    ensures faults_later { R.faults remote.old ≤ R.faults remote.new }
    ensures answers_later { R.answers remote.old ≤ R.answers remote.new }
    ensures remote_alone { remote_alone.Undisturbed (R.undisturbed remote.old) (R.undisturbed remote.new) (R.log remote.old) (R.log remote.new) }
    ensures no_faults { R.undisturbed remote.old ≡ true → R.faults remote.new ≡ R.faults remote.old }
{
    let jobs = jobs_of(alloc, batch)?;
    match remote.carry(alloc, &jobs) {
        Ok(outcomes) => Ok(outcomes),
        Err(fault) => Err(fault),
    }
}

/// Fetches the files of a batch and places them, and gives the rows of those that could be placed.
fn fetch_files<R: Carrier, T: Tree>(
    alloc: Global,
    remote: &mut R,
    tree: &mut T,
    batch: &[Fetching],
) -> Result<List<BaseRow>, FolderFault>
    requires below { All (λ fetch. 0 < length fetch.path) batch.now }
    requires written { All (λ fetch. 0 < fetch.id.0) batch.now }
    ensures requests { Grows IsTransfer (R.log remote.old) (R.log remote.new) }
    ensures steps { Makes NoFolder (IsFetchOf batch.now) (T.log tree.old) (T.log tree.new) }
    ensures fetches { OnOk result (FetchesFiles batch.now (R.faults remote.old) (R.faults remote.new) (R.log remote.old) (R.log remote.new) (T.log tree.old) (T.log tree.new)) }
    ensures accepted { IfOk result (λ rows. AreRowsOf batch.now rows) }
    ensures rows { IfOk result (λ rows. GivesRows rows (T.log tree.old) (T.log tree.new)) }
    ensures faults_later { R.faults remote.old ≤ R.faults remote.new }
    ensures answers_later { R.answers remote.old ≤ R.answers remote.new }
    ensures cause { HasFolderCause (T.faults tree.old) (T.faults tree.new) result }
    ensures remote_alone { remote_alone.Undisturbed (R.undisturbed remote.old) (R.undisturbed remote.new) (R.log remote.old) (R.log remote.new) }
    ensures no_faults { R.undisturbed remote.old ≡ true → R.faults remote.new ≡ R.faults remote.old }
    ensures tree_alone { tree_alone.Undisturbed (T.undisturbed tree.old) (T.undisturbed tree.new) (T.faults tree.old) (T.faults tree.new) (T.log tree.old) (T.log tree.new) }
{
    let outcomes = carry_batch(alloc, remote, batch)?;
    match place_files(alloc, tree, batch, outcomes.as_slice()) {
        Ok(rows) => Ok(rows),
        Err(fault) => Err(fault),
    }
}

/// The change with rows alone.
fn change_of_rows(alloc: Global, rows: List<BaseRow>) -> Change
    ensures { result ≡ change_of_rows rows }
{
    Change {
        reset: false,
        rules: None,
        token: None,
        gone: List::new(alloc),
        put: List::new(alloc),
        dropped: List::new(alloc),
        rows,
    }
}

/// Commits rows, if there are any, and gives the image with them.
fn commit_rows<K: Keeper>(
    alloc: Global,
    keeper: &mut K,
    image: Image,
    rows: List<BaseRow>,
) -> Result<Image, KeeperFault>
    ensures commits { IfOk result (λ next. CommitsRows image rows next (K.images keeper.old) (K.images keeper.new)) }
    ensures rows { IfOk result (λ next. next ≡ record image { rows = put_all by_path rows image.rows }) }
    ensures tokens { KeepsToken image (K.images keeper.old) (K.images keeper.new) }
    ensures stays { OnErr result (Stay (K.images keeper.old) (K.images keeper.new)) }
    ensures cause { HasKeeperCause (K.faults keeper.old) (K.faults keeper.new) result }
    ensures alone { keeper_alone.Undisturbed (K.undisturbed keeper.old) (K.undisturbed keeper.new) (K.faults keeper.old) (K.faults keeper.new) }
{
    if rows.is_empty() {
        return Ok(image);
    }
    let change = change_of_rows(alloc, rows);
    match commit(alloc, keeper, &image, &change) {
        Ok(next) => Ok(next),
        Err(fault) => Err(fault),
    }
}

/// Fetches the files of a batch, places them, and commits the rows of those that could be placed. Gives the image then.
fn fetch_batch<R: Carrier, T: Tree, K: Keeper>(
    alloc: Global,
    remote: &mut R,
    tree: &mut T,
    keeper: &mut K,
    image: Image,
    batch: &[Fetching],
) -> Result<Image, SyncStop>
    requires below { All (λ fetch. 0 < length fetch.path) batch.now }
    requires written { All (λ fetch. 0 < fetch.id.0) batch.now }
    ensures fetches { IfOk result (λ next. Fetches image batch.now next (R.faults remote.old) (R.faults remote.new) (R.log remote.old) (R.log remote.new) (T.log tree.old) (T.log tree.new) (K.images keeper.old) (K.images keeper.new)) }
    ensures steps { Makes NoFolder (IsFetchOf batch.now) (T.log tree.old) (T.log tree.new) }
    ensures stops { OnErr result (Stops image [] (R.log remote.old) (R.log remote.new) (T.log tree.old) (T.log tree.new) (K.images keeper.old) (K.images keeper.new)) }
    ensures rows { IfOk result (λ next. PutsRows image next (T.log tree.old) (T.log tree.new)) }
    ensures only { IfErr result IsDoStop }
    ensures requests { Grows IsTransfer (R.log remote.old) (R.log remote.new) }
    ensures tokens { KeepsToken image (K.images keeper.old) (K.images keeper.new) }
    ensures last { IfOk result (λ next. Leaves image next (K.images keeper.old) (K.images keeper.new)) }
    ensures cause { HasStopCause
        (counts (R.faults remote.old) (R.answers remote.old) (R.in_row remote.old) (T.faults tree.old) (K.faults keeper.old))
        (counts (R.faults remote.new) (R.answers remote.new) (R.in_row remote.new) (T.faults tree.new) (K.faults keeper.new)) result }
    ensures remote_alone { remote_alone.Undisturbed (R.undisturbed remote.old) (R.undisturbed remote.new) (R.log remote.old) (R.log remote.new) }
    ensures no_faults { R.undisturbed remote.old ≡ true → R.faults remote.new ≡ R.faults remote.old }
    ensures tree_alone { tree_alone.Undisturbed (T.undisturbed tree.old) (T.undisturbed tree.new) (T.faults tree.old) (T.faults tree.new) (T.log tree.old) (T.log tree.new) }
    ensures keeper_alone { keeper_alone.Undisturbed (K.undisturbed keeper.old) (K.undisturbed keeper.new) (K.faults keeper.old) (K.faults keeper.new) }
{
    let rows = fetch_files(alloc, remote, tree, batch)?;
    let next = commit_rows(alloc, keeper, image, rows)?;
    Ok(next)
}

/// Fetches and places files batch by batch. Gives the image that was committed last.
fn fetch_all<R: Carrier, T: Tree, K: Keeper>(
    alloc: Global,
    remote: &mut R,
    tree: &mut T,
    keeper: &mut K,
    image: Image,
    fetches: &[Fetching],
) -> Result<Image, SyncStop>
    requires below { All (λ fetch. 0 < length fetch.path) fetches.now }
    requires light { All (λ fetch. fetch.size ≤ most_bytes) fetches.now }
    requires written { All (λ fetch. 0 < fetch.id.0) fetches.now }
    ensures fetches { IfOk result (λ next. Fetches image fetches.now next (R.faults remote.old) (R.faults remote.new) (R.log remote.old) (R.log remote.new) (T.log tree.old) (T.log tree.new) (K.images keeper.old) (K.images keeper.new)) }
    ensures steps { Makes NoFolder (IsFetchOf fetches.now) (T.log tree.old) (T.log tree.new) }
    ensures stops { Stops image fetches.now (R.log remote.old) (R.log remote.new) (T.log tree.old) (T.log tree.new) (K.images keeper.old) (K.images keeper.new) }
    ensures rows { IfOk result (λ next. PutsRows image next (T.log tree.old) (T.log tree.new)) }
    ensures only { IfErr result IsDoStop }
    ensures requests { Grows IsTransfer (R.log remote.old) (R.log remote.new) }
    ensures tokens { KeepsToken image (K.images keeper.old) (K.images keeper.new) }
    ensures last { IfOk result (λ next. Leaves image next (K.images keeper.old) (K.images keeper.new)) }
    ensures cause { HasStopCause
        (counts (R.faults remote.old) (R.answers remote.old) (R.in_row remote.old) (T.faults tree.old) (K.faults keeper.old))
        (counts (R.faults remote.new) (R.answers remote.new) (R.in_row remote.new) (T.faults tree.new) (K.faults keeper.new)) result }
    ensures remote_alone { remote_alone.Undisturbed (R.undisturbed remote.old) (R.undisturbed remote.new) (R.log remote.old) (R.log remote.new) }
    ensures no_faults { R.undisturbed remote.old ≡ true → R.faults remote.new ≡ R.faults remote.old }
    ensures tree_alone { tree_alone.Undisturbed (T.undisturbed tree.old) (T.undisturbed tree.new) (T.faults tree.old) (T.faults tree.new) (T.log tree.old) (T.log tree.new) }
    ensures keeper_alone { keeper_alone.Undisturbed (K.undisturbed keeper.old) (K.undisturbed keeper.new) (K.faults keeper.old) (K.faults keeper.new) }
{
    let mut last = image;
    let mut left = fetches;
    while !left.is_empty() {
        let (batch, rest) = left.split_at(batch_length(left));
        last = fetch_batch(alloc, remote, tree, keeper, last, batch)?;
        left = rest;
    }
    Ok(last)
}

/// Does a plan: makes its folders, then fetches its files batch by batch and places them; the rows of a batch are committed
/// after it. Gives the image that was committed last.
pub fn do_plan<R: Carrier, T: Tree, K: Keeper>(
    alloc: Global,
    remote: &mut R,
    tree: &mut T,
    keeper: &mut K,
    image: Image,
    plan: Plan,
) -> Result<Image, SyncStop>
    requires folders { All (λ folder. 0 < length folder) plan.folders }
    requires fetches { All (λ fetch. 0 < length fetch.path) plan.fetches }
    ensures goes { Goes (λ drive. IsSound image drive × AreAcceptedFetches (accepted_by drive) plan.fetches) image (R.log remote.old) (R.log remote.new) (T.log tree.old) (T.log tree.new) (K.images keeper.old) (K.images keeper.new) }
    ensures does { IfOk result (λ next. Does image plan next (R.faults remote.old) (R.faults remote.new) (R.log remote.old) (R.log remote.new) (T.log tree.old) (T.log tree.new) (K.images keeper.old) (K.images keeper.new)) }
    ensures steps { Makes (IsFolderOf plan.folders) (IsFetchOf plan.fetches) (T.log tree.old) (T.log tree.new) }
    ensures rows { IfOk result (λ next. PutsRows image next (T.log tree.old) (T.log tree.new)) }
    ensures stops { IfErr result IsDoStop }
    ensures requests { Grows IsTransfer (R.log remote.old) (R.log remote.new) }
    ensures tokens { KeepsToken image (K.images keeper.old) (K.images keeper.new) }
    ensures last { IfOk result (λ next. Leaves image next (K.images keeper.old) (K.images keeper.new)) }
    ensures cause { HasStopCause
        (counts (R.faults remote.old) (R.answers remote.old) (R.in_row remote.old) (T.faults tree.old) (K.faults keeper.old))
        (counts (R.faults remote.new) (R.answers remote.new) (R.in_row remote.new) (T.faults tree.new) (K.faults keeper.new)) result }
    ensures remote_alone { remote_alone.Undisturbed (R.undisturbed remote.old) (R.undisturbed remote.new) (R.log remote.old) (R.log remote.new) }
    ensures no_faults { R.undisturbed remote.old ≡ true → R.faults remote.new ≡ R.faults remote.old }
    ensures tree_alone { tree_alone.Undisturbed (T.undisturbed tree.old) (T.undisturbed tree.new) (T.faults tree.old) (T.faults tree.new) (T.log tree.old) (T.log tree.new) }
    ensures keeper_alone { keeper_alone.Undisturbed (K.undisturbed keeper.old) (K.undisturbed keeper.new) (K.faults keeper.old) (K.faults keeper.new) }
{
    let Plan { folders, fetches } = plan;
    let barred = make_folders(alloc, tree, folders.as_slice())?;
    let tried = tried_fetches(fetches, barred.as_slice());
    match fetch_all(alloc, remote, tree, keeper, image, tried.as_slice()) {
        Ok(next) => Ok(next),
        Err(stop) => Err(stop),
    }
}
