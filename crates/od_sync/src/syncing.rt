ghost use Rattle.std.specs.Prelude.{◌≡◌, true};
ghost use Rattle.od_keeper.specs.Undisturbed as keeper_alone;
ghost use Rattle.od_transfer.specs.Undisturbed as remote_alone;
ghost use Rattle.od_tree.specs.Undisturbed as tree_alone;
ghost use Rattle.od_sync.specs.Ends.{HasCause, counts};
ghost use Rattle.od_sync.specs.Rounds.{AllAlone, HasRunCause, RunsAll, end_of};
ghost use Rattle.od_sync.specs.Serving.{ServesAll};
ghost use Rattle.od_sync.specs.Syncs.{StartsServable, SyncsTold};

use crate::ends::{SyncEnd, SyncStop};
use crate::rounds::three_rounds;
use od_keeper::Keeper;
use od_transfer::Carrier;
use od_tree::Tree;
use std::alloc::Global;

/// Up to three rounds from the kept image on. Says whether both sides are the same.
fn run<R: Carrier, T: Tree, K: Keeper>(
    alloc: Global,
    remote: &mut R,
    tree: &mut T,
    keeper: &mut K,
) -> Result<bool, SyncStop>
    ensures runs { RunsAll 3 (R.faults remote.old) (R.faults remote.new) (R.log remote.old) (R.log remote.new) (T.log tree.old) (T.log tree.new) (K.images keeper.old) (K.images keeper.new) result }
    ensures serves { ServesAll (R.log remote.old) (R.log remote.new) (K.images keeper.old) (K.images keeper.new) }
    ensures cause { HasRunCause 3
        (counts (R.faults remote.old) (R.answers remote.old) (R.in_row remote.old) (T.faults tree.old) (K.faults keeper.old))
        (counts (R.faults remote.new) (R.answers remote.new) (R.in_row remote.new) (T.faults tree.new) (K.faults keeper.new)) result }
    ensures alone { AllAlone (R.undisturbed remote.old) (R.undisturbed remote.new) (R.log remote.old) (R.log remote.new)
        (T.undisturbed tree.old) (T.undisturbed tree.new) (T.faults tree.old) (T.faults tree.new) (T.log tree.old) (T.log tree.new)
        (K.undisturbed keeper.old) (K.undisturbed keeper.new) (K.faults keeper.old) (K.faults keeper.new) }
    ensures no_faults { R.undisturbed remote.old ≡ true → StartsServable (R.log remote.old) (K.images keeper.old) → R.faults remote.new ≡ R.faults remote.old }
{
    let image = match keeper.load(alloc) {
        Ok(image) => image,
        Err(fault) => return Err(SyncStop::from(fault)),
    };
    match three_rounds(alloc, remote, tree, keeper, image) {
        Ok(settled) => Ok(settled),
        Err(stop) => Err(stop),
    }
}

fn end_of(settled: Result<bool, SyncStop>) -> SyncEnd
    ensures { result ≡ end_of settled }
{
    match settled {
        Ok(true) => SyncEnd::Settled,
        Ok(false) => SyncEnd::Unsettled,
        Err(stop) => stop.end(),
    }
}

/// Makes the local folder the same as the drive, as far as that can be done by making folders and placing files at free
/// paths: up to three rounds, each of which looks at both sides and, unless it is the third, then does what is wanted.
pub fn sync_now<R: Carrier, T: Tree, K: Keeper>(
    alloc: Global,
    remote: &mut R,
    tree: &mut T,
    keeper: &mut K,
) -> SyncEnd
    ensures told { SyncsTold
        (counts (R.faults remote.old) (R.answers remote.old) (R.in_row remote.old) (T.faults tree.old) (K.faults keeper.old))
        (counts (R.faults remote.new) (R.answers remote.new) (R.in_row remote.new) (T.faults tree.new) (K.faults keeper.new))
        (R.log remote.old) (R.log remote.new) (T.log tree.old) (T.log tree.new) (K.images keeper.old) (K.images keeper.new) result }
    ensures causes { HasCause
        (counts (R.faults remote.old) (R.answers remote.old) (R.in_row remote.old) (T.faults tree.old) (K.faults keeper.old))
        (counts (R.faults remote.new) (R.answers remote.new) (R.in_row remote.new) (T.faults tree.new) (K.faults keeper.new)) result }
    ensures remote_alone { remote_alone.Undisturbed (R.undisturbed remote.old) (R.undisturbed remote.new) (R.log remote.old) (R.log remote.new) }
    ensures no_faults { R.undisturbed remote.old ≡ true → StartsServable (R.log remote.old) (K.images keeper.old) → R.faults remote.new ≡ R.faults remote.old }
    ensures tree_alone { tree_alone.Undisturbed (T.undisturbed tree.old) (T.undisturbed tree.new) (T.faults tree.old) (T.faults tree.new) (T.log tree.old) (T.log tree.new) }
    ensures keeper_alone { keeper_alone.Undisturbed (K.undisturbed keeper.old) (K.undisturbed keeper.new) (K.faults keeper.old) (K.faults keeper.new) }
{
    let settled = run(alloc, remote, tree, keeper);
    end_of(settled)
}
