ghost use Rattle.std.specs.Prelude.{◌≡◌, ℕ, ◌+◌, ◌<◌, ◌≤◌, Bool, List, length, Option, Some, IfOk};

use crate::aside::Aside;
use crate::entry::Entry;
use crate::fault::TreeFault;
use gd_names::{Bytes, List, Path};
use std::alloc::Global;

/// The synchronised folder and its holding folder. No call overwrites. Only a listing may be asked of the root.
pub trait Tree {
    ghost use Rattle.od_tree.specs.Calls.{Calls, HasTreeCause};
    ghost use Rattle.od_tree.specs.Holding.{NotFromRoot, asides_of, bytes_held};
    ghost use Rattle.od_tree.specs.Listing.{entries_in};
    ghost use Rattle.od_tree.specs.Local.{file_at, held_at, greatest_number, bytes_in};
    ghost use Rattle.od_tree.specs.Undisturbed.{Undisturbed};
    ghost use Rattle.od_tree.specs.declared.step.LocalStep.{LocalStep};
    ghost use Rattle.od_tree.specs.declared.step.TreeOp.TheVariants as op;

    /// What the user and the client did, where it is told.
    ghost log: { Self → Option (List LocalStep) };

    /// How often it has failed, up to the last value of a u64.
    ghost faults: { Self → ℕ };

    /// Whether the user leaves the folder alone from now on, and no call fails.
    ghost undisturbed: { Self → Bool };

    /// That one goes on to the other by calls. What more that means is the instance's.
    ghost goes: { Self → Self → Type 0 };

    /// The entries of a folder in order of name.
    fn list(&mut self, alloc: Global, at: &Path) -> Result<List<Entry>, TreeFault>
        ensures log { Calls (op.List at.now) (λ local entries. entries ≡ entries_in at.now local.spots) (log self.old) (log self.new) result }
        ensures cause { HasTreeCause (op.List at.now) (faults self.old) (faults self.new) result }
        ensures undisturbed { Undisturbed (undisturbed self.old) (undisturbed self.new) (faults self.old) (faults self.new) (log self.old) (log self.new) }
        ensures goes { goes self.old self.new };

    /// The bytes that stand in a file at one moment.
    fn read(&mut self, alloc: Global, at: &Path) -> Result<Bytes, TreeFault>
        requires { 0 < length at.now }
        ensures log { Calls (op.Read at.now) (λ local bytes. bytes_in (file_at at.now local.spots) ≡ Some bytes) (log self.old) (log self.new) result }
        ensures cause { HasTreeCause (op.Read at.now) (faults self.old) (faults self.new) result }
        ensures undisturbed { Undisturbed (undisturbed self.old) (undisturbed self.new) (faults self.old) (faults self.new) (log self.old) (log self.new) }
        ensures goes { goes self.old self.new };

    /// Makes an empty folder.
    fn make_dir(&mut self, at: &Path) -> Result<(), TreeFault>
        requires { 0 < length at.now }
        ensures log { Calls (op.MakeDir at.now) (λ _ _. Unit {0}) (log self.old) (log self.new) result }
        ensures cause { HasTreeCause (op.MakeDir at.now) (faults self.old) (faults self.new) result }
        ensures undisturbed { Undisturbed (undisturbed self.old) (undisturbed self.new) (faults self.old) (faults self.new) (log self.old) (log self.new) }
        ensures goes { goes self.old self.new };

    /// Removes an empty folder.
    fn remove_dir(&mut self, at: &Path) -> Result<(), TreeFault>
        requires { 0 < length at.now }
        ensures log { Calls (op.RemoveDir at.now) (λ _ _. Unit {0}) (log self.old) (log self.new) result }
        ensures cause { HasTreeCause (op.RemoveDir at.now) (faults self.old) (faults self.new) result }
        ensures undisturbed { Undisturbed (undisturbed self.old) (undisturbed self.new) (faults self.old) (faults self.new) (log self.old) (log self.new) }
        ensures goes { goes self.old self.new };

    /// Makes a file.
    fn place(&mut self, at: &Path, bytes: &[u8]) -> Result<(), TreeFault>
        requires { 0 < length at.now }
        ensures log { Calls (op.Place at.now bytes.now) (λ _ _. Unit {0}) (log self.old) (log self.new) result }
        ensures cause { HasTreeCause (op.Place at.now bytes.now) (faults self.old) (faults self.new) result }
        ensures undisturbed { Undisturbed (undisturbed self.old) (undisturbed self.new) (faults self.old) (faults self.new) (log self.old) (log self.new) }
        ensures goes { goes self.old self.new };

    /// Moves an entry and all below it to a free path.
    fn rename(&mut self, from: &Path, to: &Path) -> Result<(), TreeFault>
        requires from { 0 < length from.now }
        requires to { 0 < length to.now }
        ensures log { Calls (op.Rename from.now to.now) (λ _ _. Unit {0}) (log self.old) (log self.new) result }
        ensures cause { HasTreeCause (op.Rename from.now to.now) (faults self.old) (faults self.new) result }
        ensures undisturbed { Undisturbed (undisturbed self.old) (undisturbed self.new) (faults self.old) (faults self.new) (log self.old) (log self.new) }
        ensures goes { goes self.old self.new };

    /// Takes a file into holding, and gives the number under which it is held.
    fn set_aside(&mut self, at: &Path) -> Result<u64, TreeFault>
        requires { 0 < length at.now }
        ensures log { Calls (op.SetAside at.now) (λ local number. number ≡ greatest_number local.held + 1) (log self.old) (log self.new) result }
        ensures cause { HasTreeCause (op.SetAside at.now) (faults self.old) (faults self.new) result }
        ensures undisturbed { Undisturbed (undisturbed self.old) (undisturbed self.new) (faults self.old) (faults self.new) (log self.old) (log self.new) }
        ensures goes { goes self.old self.new };

    /// The bytes of a held file.
    fn read_aside(&mut self, alloc: Global, aside: u64) -> Result<Bytes, TreeFault>
        ensures log { Calls (op.ReadAside aside) (λ local bytes. bytes_held (held_at aside local.held) ≡ Some bytes) (log self.old) (log self.new) result }
        ensures cause { HasTreeCause (op.ReadAside aside) (faults self.old) (faults self.new) result }
        ensures undisturbed { Undisturbed (undisturbed self.old) (undisturbed self.new) (faults self.old) (faults self.new) (log self.old) (log self.new) }
        ensures goes { goes self.old self.new };

    /// Moves a held file to a free path.
    fn put_back(&mut self, aside: u64, to: &Path) -> Result<(), TreeFault>
        requires { 0 < length to.now }
        ensures log { Calls (op.PutBack aside to.now) (λ _ _. Unit {0}) (log self.old) (log self.new) result }
        ensures cause { HasTreeCause (op.PutBack aside to.now) (faults self.old) (faults self.new) result }
        ensures undisturbed { Undisturbed (undisturbed self.old) (undisturbed self.new) (faults self.old) (faults self.new) (log self.old) (log self.new) }
        ensures goes { goes self.old self.new };

    /// Drops a held file.
    fn discard(&mut self, aside: u64) -> Result<(), TreeFault>
        ensures log { Calls (op.Discard aside) (λ _ _. Unit {0}) (log self.old) (log self.new) result }
        ensures cause { HasTreeCause (op.Discard aside) (faults self.old) (faults self.new) result }
        ensures undisturbed { Undisturbed (undisturbed self.old) (undisturbed self.new) (faults self.old) (faults self.new) (log self.old) (log self.new) }
        ensures goes { goes self.old self.new };

    /// All held files in order of number.
    fn asides(&mut self, alloc: Global) -> Result<List<Aside>, TreeFault>
        ensures log { Calls op.Asides (λ local asides. asides ≡ asides_of local.held) (log self.old) (log self.new) result }
        ensures cause { HasTreeCause op.Asides (faults self.old) (faults self.new) result }
        ensures undisturbed { Undisturbed (undisturbed self.old) (undisturbed self.new) (faults self.old) (faults self.new) (log self.old) (log self.new) }
        ensures goes { goes self.old self.new }
        ensures from { IfOk result NotFromRoot };

    ghost goes_refl: { (x : Self) → goes x x };

    ghost goes_trans: { (x y z : Self) → goes x y → goes y z → goes x z };

    ghost goes_later: { (x y : Self) → goes x y → faults x ≤ faults y };
}
