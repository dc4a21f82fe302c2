ghost use Rattle.std.specs.Prelude.{◌≡◌, ◌+◌, ◌≤◌, [], ◌∷◌, ◌++◌, length, cond, true, None, Some, IfOk, OnOk, OnErr};
ghost use Rattle.od_tree.specs.Doing.{Does};
ghost use Rattle.od_tree.specs.Holding.{NotFromRoot, asides_of, bytes_held};
ghost use Rattle.od_tree.specs.Listing.{entries_in};
ghost use Rattle.od_tree.specs.Local.{local_of, file_at, held_at, greatest_number, bytes_in, has_place, op_refusal};

use crate::aside::Aside;
use crate::doing::do_op;
use crate::edit::UserEdit;
use crate::entry::Entry;
use crate::fault::TreeFault;
use crate::held::{asides_of, greatest_number, held_at};
use crate::listing::entries_in;
use crate::local::{HeldFile, Spot};
use crate::look::{file_at, has_place};
use crate::refusing::op_refusal;
use crate::spots::make_edit;
use crate::step::{LocalStep, TreeOp};
use gd_names::{Bytes, List, NoMemory, Path};
use std::alloc::Global;
use std::marker::Model;

/// A folder beside its log. Contracts see the log.
#[derive(Debug, Drop)]
pub struct Folder {
    alloc: Global,
    steps: Vec<LocalStep>,
    spots: Vec<Spot>,
    held: Vec<HeldFile>,
}

impl Model for Folder {
    ghost use Rattle.std.specs.Prelude.{◌≡◌, List};
    ghost use Rattle.od_tree.specs.declared.step.LocalStep.{LocalStep};

    ghost Value = { List LocalStep };

    ghost use Rattle.od_tree.specs.Local.{local_of};

    ghost view = { λ f. f.steps.items };

    ghost invariant = { λ f. local_of f.steps.items ≡ record { spots = f.spots.items; held = f.held.items } };
}

impl Folder {
    pub fn new(alloc: Global) -> Folder
        ensures { result ≡ [] }
    {
        Folder {
            alloc,
            steps: Vec::new(alloc),
            spots: Vec::new(alloc),
            held: Vec::new(alloc),
        }
    }

    pub fn spots(&self) -> &[Spot]
        ensures { result.now ≡ (local_of self.now).spots }
    {
        self.spots.as_slice()
    }

    pub fn held(&self) -> &[HeldFile]
        ensures { result.now ≡ (local_of self.now).held }
    {
        self.held.as_slice()
    }

    /// Makes room for so many steps.
    pub fn reserve(&mut self, steps: usize) -> Result<(), NoMemory>
        ensures { self.new ≡ self.old }
    {
        self.steps.reserve(steps)?;
        Ok(())
    }

    /// Makes a user's edit where it has a place, and says whether it has one.
    pub fn user(&mut self, edit: &UserEdit) -> Result<bool, NoMemory>
        ensures ok { IfOk result (λ placed. (placed ≡ has_place (local_of self.old) edit.now) × (self.new ≡ cond placed (self.old ++ LocalStep.User edit.now ∷ []) self.old)) }
        ensures err { OnErr result (self.new ≡ self.old) }
    {
        if !self.has_place(edit) {
            return Ok(false);
        }
        self.make(edit)?;
        Ok(true)
    }

    fn has_place(&self, edit: &UserEdit) -> bool
        ensures { result ≡ has_place (local_of self.now) edit.now }
    {
        has_place(self.spots.as_slice(), edit)
    }

    fn make(&mut self, edit: &UserEdit) -> Result<(), NoMemory>
        requires { has_place (local_of self.old) edit.now ≡ true }
        ensures ok { OnOk result (self.new ≡ self.old ++ LocalStep.User edit.now ∷ []) }
        ensures err { OnErr result (self.new ≡ self.old) }
    {
        let step = LocalStep::User(edit.clone()?);
        self.steps.reserve(1)?;
        let number = self.steps.as_slice().len() as u64;
        make_edit(self.alloc, &mut self.spots, edit, number)?;
        self.steps.push_reserved(step);
        Ok(())
    }

    fn refusal(&self, call: &TreeOp) -> Option<TreeFault>
        ensures { result ≡ op_refusal (local_of self.now) call.now }
    {
        op_refusal(self.spots.as_slice(), self.held.as_slice(), call)
    }

    /// Adds an operation that is not refused.
    fn add(&mut self, call: TreeOp) -> Result<(), NoMemory>
        requires { op_refusal (local_of self.old) call ≡ None }
        ensures ok { OnOk result (self.new ≡ self.old ++ LocalStep.Op call ∷ []) }
        ensures err { OnErr result (self.new ≡ self.old) }
    {
        self.steps.reserve(1)?;
        do_op(self.alloc, &mut self.spots, &mut self.held, &call)?;
        self.steps.push_reserved(LocalStep::Op(call));
        Ok(())
    }

    /// Does an operation, unless it is refused.
    fn does(&mut self, call: TreeOp) -> Result<(), TreeFault>
        ensures { Does call (λ _ _. Unit {0}) self.old self.new result }
    {
        match self.refusal(&call) {
            Some(fault) => Err(fault),
            None => {
                self.add(call)?;
                Ok(())
            }
        }
    }

    pub fn list(&mut self, alloc: Global, at: &Path) -> Result<List<Entry>, TreeFault>
        ensures { Does (TreeOp.List at.now) (λ local entries. entries ≡ entries_in at.now local.spots) self.old self.new result }
    {
        let entries = entries_in(alloc, self.spots(), at.names())?;
        self.does(TreeOp::List(at.clone()?))?;
        Ok(entries)
    }

    pub fn read(&mut self, alloc: Global, at: &Path) -> Result<Bytes, TreeFault>
        ensures { Does (TreeOp.Read at.now) (λ local bytes. bytes_in (file_at at.now local.spots) ≡ Some bytes) self.old self.new result }
    {
        let bytes = match file_at(self.spots(), at.names()) {
            Some(file) => Bytes::from_slice(alloc, file.bytes.as_slice())?,
            None => return Err(TreeFault::Missing),
        };
        self.does(TreeOp::Read(at.clone()?))?;
        Ok(bytes)
    }

    pub fn make_dir(&mut self, at: &Path) -> Result<(), TreeFault>
        ensures { Does (TreeOp.MakeDir at.now) (λ _ _. Unit {0}) self.old self.new result }
    {
        self.does(TreeOp::MakeDir(at.clone()?))?;
        Ok(())
    }

    pub fn remove_dir(&mut self, at: &Path) -> Result<(), TreeFault>
        ensures { Does (TreeOp.RemoveDir at.now) (λ _ _. Unit {0}) self.old self.new result }
    {
        self.does(TreeOp::RemoveDir(at.clone()?))?;
        Ok(())
    }

    pub fn place(&mut self, at: &Path, bytes: &[u8]) -> Result<(), TreeFault>
        ensures { Does (TreeOp.Place at.now bytes.now) (λ _ _. Unit {0}) self.old self.new result }
    {
        let bytes = Bytes::from_slice(self.alloc, bytes)?;
        self.does(TreeOp::Place(at.clone()?, bytes))?;
        Ok(())
    }

    pub fn rename(&mut self, from: &Path, to: &Path) -> Result<(), TreeFault>
        ensures { Does (TreeOp.Rename from.now to.now) (λ _ _. Unit {0}) self.old self.new result }
    {
        self.does(TreeOp::Rename(from.clone()?, to.clone()?))?;
        Ok(())
    }

    /// The number under which the next file is held.
    fn next_number(&self) -> u64
        ensures { result ≡ greatest_number (local_of self.now).held + 1 }
    {
        number_after(self.steps.as_slice(), self.held.as_slice())
    }

    pub fn set_aside(&mut self, at: &Path) -> Result<u64, TreeFault>
        ensures { Does (TreeOp.SetAside at.now) (λ local number. number ≡ greatest_number local.held + 1) self.old self.new result }
    {
        let number = self.next_number();
        self.does(TreeOp::SetAside(at.clone()?))?;
        Ok(number)
    }

    pub fn read_aside(&mut self, alloc: Global, aside: u64) -> Result<Bytes, TreeFault>
        ensures { Does (TreeOp.ReadAside aside) (λ local bytes. bytes_held (held_at aside local.held) ≡ Some bytes) self.old self.new result }
    {
        let bytes = match held_at(self.held(), aside) {
            Some(held) => Bytes::from_slice(alloc, held.file.bytes.as_slice())?,
            None => return Err(TreeFault::Missing),
        };
        self.does(TreeOp::ReadAside(aside))?;
        Ok(bytes)
    }

    pub fn put_back(&mut self, aside: u64, to: &Path) -> Result<(), TreeFault>
        ensures { Does (TreeOp.PutBack aside to.now) (λ _ _. Unit {0}) self.old self.new result }
    {
        self.does(TreeOp::PutBack(aside, to.clone()?))?;
        Ok(())
    }

    pub fn discard(&mut self, aside: u64) -> Result<(), TreeFault>
        ensures { Does (TreeOp.Discard aside) (λ _ _. Unit {0}) self.old self.new result }
    {
        self.does(TreeOp::Discard(aside))?;
        Ok(())
    }

    pub fn asides(&mut self, alloc: Global) -> Result<List<Aside>, TreeFault>
        ensures does { Does TreeOp.Asides (λ local asides. asides ≡ asides_of local.held) self.old self.new result }
        ensures from { IfOk result NotFromRoot }
    {
        let asides = asides_of(alloc, self.held())?;
        self.does(TreeOp::Asides)?;
        Ok(asides)
    }
}

/// The number after the greatest one. Each step adds at most 1 to that.
fn number_after(steps: &[LocalStep], held: &[HeldFile]) -> u64
    requires { greatest_number held.now ≤ length steps.now }
    ensures { result ≡ greatest_number held.now + 1 }
{
    greatest_number(held) + 1
}
