ghost use Rattle.std.specs.Prelude.{◌≡◌, ◌+◌, ◌<◌, length, Some, IfOk};

use gd_item::{Reply, Request};
use gd_names::{Bytes, List, Path};
use od_keeper::{Change, Image, KeeperFault};
use od_remote::{AskFault, ServeFault};
use od_tree::{Aside, Entry, TreeFault};
use std::alloc::Global;

/// A drive, a folder and a keeper, as one.
pub trait Outside {
    ghost use Rattle.gd_item.specs.Requests.{kind_of};
    ghost use Rattle.gd_item.specs.declared.request.RequestKind.TheVariants.{Delta};
    ghost use Rattle.od_outside.specs.Asks.{AgainCause, AreSpent, AreUnheard, AskCause, DoesAsked, DoesServed, ServeCause};
    ghost use Rattle.od_outside.specs.Calls.{AreOthers, Calls};
    ghost use Rattle.od_outside.specs.Seeing.{AreLaws, Seen};
    ghost use Rattle.od_outside.specs.Works.{DoesCommit, DoesLoad, DoesWork, IsDone, KeepCause, WorkCause};
    ghost use Rattle.od_tree.specs.Holding.{NotFromRoot, asides_of, bytes_held};
    ghost use Rattle.od_tree.specs.Listing.{entries_in};
    ghost use Rattle.od_tree.specs.Local.{bytes_in, file_at, greatest_number, held_at};
    ghost use Rattle.od_tree.specs.declared.step.TreeOp.TheVariants as op;

    /// What proofs see of it.
    ghost seen: { Seen Self };

    /// Sends one request.
    fn ask(&mut self, alloc: Global, request: &Request) -> Result<Reply, AskFault>
        ensures { Calls seen AreOthers (DoesAsked request.now result) (AskCause request.now result) self.old self.new };

    /// Sends a request until a reply comes, three times at most.
    fn ask_again(&mut self, alloc: Global, request: &Request) -> Result<Reply, AskFault>
        ensures { Calls seen (AreUnheard request.now) (DoesAsked request.now result) (AgainCause request.now result) self.old self.new };

    /// Sends a request for changes until a reply comes other than that the drive lacks memory, three times at most.
    fn ask_until_served(&mut self, alloc: Global, request: &Request) -> Result<Reply, ServeFault>
        requires { kind_of request.now ≡ Delta }
        ensures { Calls seen (AreSpent request.now result) (DoesServed request.now result) (ServeCause request.now result) self.old self.new };

    /// The entries of a folder in order of name.
    fn list(&mut self, alloc: Global, at: &Path) -> Result<List<Entry>, TreeFault>
        ensures { Calls seen AreOthers (DoesWork (op.List at.now) (λ local entries. entries ≡ entries_in at.now local.spots) result) (WorkCause (op.List at.now) result) self.old self.new };

    /// The bytes that stand in a file at one moment.
    fn read(&mut self, alloc: Global, at: &Path) -> Result<Bytes, TreeFault>
        requires { 0 < length at.now }
        ensures { Calls seen AreOthers (DoesWork (op.Read at.now) (λ local bytes. bytes_in (file_at at.now local.spots) ≡ Some bytes) result) (WorkCause (op.Read at.now) result) self.old self.new };

    /// Makes an empty folder.
    fn make_dir(&mut self, at: &Path) -> Result<(), TreeFault>
        requires { 0 < length at.now }
        ensures { Calls seen AreOthers (DoesWork (op.MakeDir at.now) IsDone result) (WorkCause (op.MakeDir at.now) result) self.old self.new };

    /// Makes a file.
    fn place(&mut self, at: &Path, bytes: &[u8]) -> Result<(), TreeFault>
        requires { 0 < length at.now }
        ensures { Calls seen AreOthers (DoesWork (op.Place at.now bytes.now) IsDone result) (WorkCause (op.Place at.now bytes.now) result) self.old self.new };

    /// Removes an empty folder.
    fn remove_dir(&mut self, at: &Path) -> Result<(), TreeFault>
        requires { 0 < length at.now }
        ensures { Calls seen AreOthers (DoesWork (op.RemoveDir at.now) IsDone result) (WorkCause (op.RemoveDir at.now) result) self.old self.new };

    /// Moves an entry and all below it to a free path.
    fn rename(&mut self, from: &Path, to: &Path) -> Result<(), TreeFault>
        requires from { 0 < length from.now }
        requires to { 0 < length to.now }
        ensures { Calls seen AreOthers (DoesWork (op.Rename from.now to.now) IsDone result) (WorkCause (op.Rename from.now to.now) result) self.old self.new };

    /// Takes a file into holding, and gives the number under which it is held.
    fn set_aside(&mut self, at: &Path) -> Result<u64, TreeFault>
        requires { 0 < length at.now }
        ensures { Calls seen AreOthers (DoesWork (op.SetAside at.now) (λ local number. number ≡ greatest_number local.held + 1) result) (WorkCause (op.SetAside at.now) result) self.old self.new };

    /// The bytes of a held file.
    fn read_aside(&mut self, alloc: Global, aside: u64) -> Result<Bytes, TreeFault>
        ensures { Calls seen AreOthers (DoesWork (op.ReadAside aside) (λ local bytes. bytes_held (held_at aside local.held) ≡ Some bytes) result) (WorkCause (op.ReadAside aside) result) self.old self.new };

    /// Moves a held file to a free path.
    fn put_back(&mut self, aside: u64, to: &Path) -> Result<(), TreeFault>
        requires { 0 < length to.now }
        ensures { Calls seen AreOthers (DoesWork (op.PutBack aside to.now) IsDone result) (WorkCause (op.PutBack aside to.now) result) self.old self.new };

    /// Drops a held file.
    fn discard(&mut self, aside: u64) -> Result<(), TreeFault>
        ensures { Calls seen AreOthers (DoesWork (op.Discard aside) IsDone result) (WorkCause (op.Discard aside) result) self.old self.new };

    /// All held files in order of number.
    fn asides(&mut self, alloc: Global) -> Result<List<Aside>, TreeFault>
        ensures calls { Calls seen AreOthers (DoesWork op.Asides (λ local asides. asides ≡ asides_of local.held) result) (WorkCause op.Asides result) self.old self.new }
        ensures from { IfOk result NotFromRoot };

    /// The image that was committed last, and at first the empty one.
    fn load(&mut self, alloc: Global) -> Result<Image, KeeperFault>
        ensures { Calls seen AreOthers (DoesLoad result) (KeepCause result) self.old self.new };

    /// Applies a change to the last image, whole or not at all.
    fn commit(&mut self, change: &Change) -> Result<(), KeeperFault>
        ensures { Calls seen AreOthers (DoesCommit change.now result) (KeepCause result) self.old self.new };

    ghost laws: { AreLaws seen };
}
