ghost use Rattle.std.specs.Prelude.{◌≡◌, ◌⊎◌, ◌≤◌, ◌<◌, true, false, List, [], ◌∷◌, ◌++◌, cond, Some, OnOk, OnErr, IfOk, IfErr, IsErrOf};
ghost use Rattle.gd_names.specs.Streams.{Rose};
ghost use Rattle.od_tree.specs.Doing.{Begins};
ghost use Rattle.od_tree.specs.GoingOn.{Begun, FirstMade, fails_next, failed_by, next_call};
ghost use Rattle.od_tree.specs.Memory.{is_empty};
ghost use Rattle.od_tree.specs.Tied.{kind_of, is_call, is_listed, is_stopped, with_due, with_tied};

use crate::aside::Aside;
use crate::call::TreeCall;
use crate::edit::UserEdit;
use crate::entry::Entry;
use crate::fault::TreeFault;
use crate::folder::Folder;
use crate::held::files_of;
use crate::listing::tree_of;
use crate::step::LocalStep;
use crate::tree::Tree;
use gd_names::{Bytes, List, NoMemory, Path};
use std::alloc::Global;

/// A folder in memory. Edits of the user are tied to the k-th call of a kind, counted from 1, and are made right before
/// it; an edit without a place is left out. A call that is listed as failing does nothing beside, and is counted as a failure
/// also where memory is wanting for its edits. So are the call of a stop, and every call of any kind from then on.
#[derive(Debug, Drop)]
pub struct MemoryTree {
    folder: Folder,
    edits: List<(TreeCall, u64, UserEdit)>,
    failing: List<(TreeCall, u64)>,
    stops: List<(TreeCall, u64)>,
    calls: [u64; 11],
    faults: u64,
}

impl MemoryTree {
    ghost use Rattle.od_tree.specs.Local.{local_of, local_tree, has_place};
    ghost use Rattle.od_tree.specs.Holding.{files_of};
    ghost use Rattle.od_tree.specs.Memory.{log_of, faults_of, edits_of, failing_of, stops_of, calls_of, no_calls};

    pub fn new(
        alloc: Global,
        edits: List<(TreeCall, u64, UserEdit)>,
        failing: List<(TreeCall, u64)>,
    ) -> MemoryTree
        ensures log { log_of result ≡ Some [] }
        ensures faults { faults_of result ≡ 0 }
        ensures edits { edits_of result ≡ edits }
        ensures failing { failing_of result ≡ failing }
        ensures stops { stops_of result ≡ [] }
        ensures calls { calls_of result ≡ no_calls }
    {
        MemoryTree {
            folder: Folder::new(alloc),
            edits,
            failing,
            stops: List::new(alloc),
            calls: [0; 11],
            faults: 0,
        }
    }

    /// Ties other edits and failures to the calls, which are counted anew. From the first stop that is reached on every call
    /// fails.
    pub fn arm(
        &mut self,
        edits: List<(TreeCall, u64, UserEdit)>,
        failing: List<(TreeCall, u64)>,
        stops: List<(TreeCall, u64)>,
    )
        ensures log { log_of self.new ≡ log_of self.old }
        ensures faults { faults_of self.new ≡ faults_of self.old }
        ensures edits { edits_of self.new ≡ edits }
        ensures failing { failing_of self.new ≡ failing }
        ensures stops { stops_of self.new ≡ stops }
        ensures calls { calls_of self.new ≡ no_calls }
    {
        self.edits = edits;
        self.failing = failing;
        self.stops = stops;
        self.calls = [0; 11];
    }

    /// The tree in order of path, with None for a folder. This is no step of the log.
    pub fn entries(&self, alloc: Global) -> Result<List<(Path, Option<Bytes>)>, NoMemory>
        ensures { (log : List LocalStep) → log_of self.now ≡ Some log → IfOk result (λ entries. entries ≡ local_tree log) }
    {
        tree_of(alloc, self.folder.spots())
    }

    /// The held files in order of number, with their bytes. This is no step of the log.
    pub fn held(&self, alloc: Global) -> Result<List<(Aside, Bytes)>, NoMemory>
        ensures { (log : List LocalStep) → log_of self.now ≡ Some log → IfOk result (λ files. files ≡ files_of (local_of log).held) }
    {
        files_of(alloc, self.folder.held())
    }

    /// Makes a user's edit, and says whether it has a place.
    pub fn user(&mut self, edit: &UserEdit) -> Result<bool, NoMemory>
        ensures ok { (log : List LocalStep) → log_of self.old ≡ Some log
            → IfOk result (λ placed. (placed ≡ has_place (local_of log) edit.now) × (log_of self.new ≡ Some (cond placed (log ++ LocalStep.User edit.now ∷ []) log))) }
        ensures err { OnErr result (log_of self.new ≡ log_of self.old) }
        ensures faults { faults_of self.new ≡ faults_of self.old }
        ensures edits { edits_of self.new ≡ edits_of self.old }
        ensures failing { failing_of self.new ≡ failing_of self.old }
        ensures stops { stops_of self.new ≡ stops_of self.old }
        ensures calls { calls_of self.new ≡ calls_of self.old }
    {
        self.folder.user(edit)
    }

    /// Counts a call, makes the edits that are tied to it, and fails where it is listed.
    fn begin(&mut self, call: TreeCall) -> Result<(), TreeFault>
        ensures log { Begins self.old.folder self.new.folder }
        ensures later { self.old.faults ≤ self.new.faults }
        ensures failed { IsErrOf result TreeFault.Failed → Rose self.old.faults self.new.faults }
        ensures kinds { IfErr result (λ fault. (fault ≡ TreeFault.Failed) ⊎ (fault ≡ TreeFault.Memory)) }
        ensures begun { Begun (kind_of call) self.old self.new }
        ensures tied { OnOk result (self.new.folder ≡ with_tied self.old.folder self.old.edits (kind_of call) (next_call (kind_of call) self.old)) }
        ensures passes { OnOk result (fails_next (kind_of call) self.old ≡ false) }
        ensures alone { is_empty self.old.edits ≡ true → self.new.folder ≡ self.old.folder }
        ensures no_faults { is_empty self.old.failing ≡ true → is_empty self.old.stops ≡ true → self.new.faults ≡ self.old.faults }
    {
        let kind = kind_of(call);
        let number = self.calls[kind].saturating_add(1);
        self.calls[kind] = number;
        let fails = is_listed(self.failing.as_slice(), kind, number)
            || is_stopped(self.stops.as_slice(), &self.calls);
        self.faults = failed_by(fails, self.faults);
        make_edits(&mut self.folder, self.edits.as_slice(), kind, number)?;
        if fails {
            return Err(TreeFault::Failed);
        }
        Ok(())
    }
}

/// The count of failures after a call.
fn failed_by(fails: bool, faults: u64) -> u64
    ensures value { result ≡ failed_by fails faults }
    ensures later { faults ≤ result }
    ensures rose { fails ≡ true → Rose faults result }
{
    if fails {
        faults.saturating_add(1)
    } else {
        faults
    }
}

/// A number of its own for each kind of call.
fn kind_of(call: TreeCall) -> usize
    ensures value { result ≡ kind_of call }
    ensures bound { result < 11 }
{
    match call {
        TreeCall::List => 0,
        TreeCall::Read => 1,
        TreeCall::MakeDir => 2,
        TreeCall::RemoveDir => 3,
        TreeCall::Place => 4,
        TreeCall::Rename => 5,
        TreeCall::SetAside => 6,
        TreeCall::ReadAside => 7,
        TreeCall::PutBack => 8,
        TreeCall::Discard => 9,
        TreeCall::Asides => 10,
    }
}

fn is_call(tied: TreeCall, at: u64, kind: usize, number: u64) -> bool
    ensures { result ≡ is_call tied at kind number }
{
    kind_of(tied) == kind && at == number
}

fn is_listed(failing: &[(TreeCall, u64)], kind: usize, number: u64) -> bool
    ensures { result ≡ is_listed failing.now kind number }
{
    for (call, at) in failing {
        if is_call(*call, *at, kind, number) {
            return true;
        }
    }
    false
}

/// Whether the calls have reached a stop.
fn is_stopped(stops: &[(TreeCall, u64)], calls: &[u64; 11]) -> bool
    ensures { result ≡ is_stopped stops.now calls.now }
{
    for (call, at) in stops {
        if *at <= calls[kind_of(*call)] {
            return true;
        }
    }
    false
}

/// Makes the edits that are tied to a call, after room for all its steps.
fn make_edits(
    folder: &mut Folder,
    edits: &[(TreeCall, u64, UserEdit)],
    kind: usize,
    number: u64,
) -> Result<(), NoMemory>
    ensures log { Begins folder.old folder.new }
    ensures first { FirstMade edits.now kind number folder.old folder.new }
    ensures tied { OnOk result (folder.new ≡ with_tied folder.old edits.now kind number) }
    ensures alone { is_empty edits.now ≡ true → folder.new ≡ folder.old }
{
    folder.reserve(edits.len() + 1)?;
    for (call, at, edit) in edits {
        make_due(folder, is_call(*call, *at, kind, number), edit)?;
    }
    Ok(())
}

fn make_due(folder: &mut Folder, due: bool, edit: &UserEdit) -> Result<(), NoMemory>
    ensures log { Begins folder.old folder.new }
    ensures due { OnOk result (folder.new ≡ with_due folder.old due edit.now) }
    ensures err { OnErr result (folder.new ≡ folder.old) }
{
    if !due {
        return Ok(());
    }
    let _has_place = folder.user(edit)?;
    Ok(())
}

impl Tree for MemoryTree {
    ghost use Rattle.od_tree.specs.GoingOn.{GoesOn, goes_none, goes_then, goes_later};
    ghost use Rattle.od_tree.specs.Memory.{log_of, faults_of, is_undisturbed};

    ghost log = { λ t. log_of t };

    ghost faults = { λ t. faults_of t };

    ghost undisturbed = { λ t. is_undisturbed t };

    ghost goes = { GoesOn };

    ghost goes_refl = { goes_none };

    ghost goes_trans = { goes_then };

    ghost goes_later = { goes_later };

    fn list(&mut self, alloc: Global, at: &Path) -> Result<List<Entry>, TreeFault> {
        self.begin(TreeCall::List)?;
        match self.folder.list(alloc, at) {
            Ok(entries) => Ok(entries),
            Err(fault) => Err(fault),
        }
    }

    fn read(&mut self, alloc: Global, at: &Path) -> Result<Bytes, TreeFault> {
        self.begin(TreeCall::Read)?;
        match self.folder.read(alloc, at) {
            Ok(bytes) => Ok(bytes),
            Err(fault) => Err(fault),
        }
    }

    fn make_dir(&mut self, at: &Path) -> Result<(), TreeFault> {
        self.begin(TreeCall::MakeDir)?;
        match self.folder.make_dir(at) {
            Ok(()) => Ok(()),
            Err(fault) => Err(fault),
        }
    }

    fn remove_dir(&mut self, at: &Path) -> Result<(), TreeFault> {
        self.begin(TreeCall::RemoveDir)?;
        match self.folder.remove_dir(at) {
            Ok(()) => Ok(()),
            Err(fault) => Err(fault),
        }
    }

    fn place(&mut self, at: &Path, bytes: &[u8]) -> Result<(), TreeFault> {
        self.begin(TreeCall::Place)?;
        match self.folder.place(at, bytes) {
            Ok(()) => Ok(()),
            Err(fault) => Err(fault),
        }
    }

    fn rename(&mut self, from: &Path, to: &Path) -> Result<(), TreeFault> {
        self.begin(TreeCall::Rename)?;
        match self.folder.rename(from, to) {
            Ok(()) => Ok(()),
            Err(fault) => Err(fault),
        }
    }

    fn set_aside(&mut self, at: &Path) -> Result<u64, TreeFault> {
        self.begin(TreeCall::SetAside)?;
        match self.folder.set_aside(at) {
            Ok(number) => Ok(number),
            Err(fault) => Err(fault),
        }
    }

    fn read_aside(&mut self, alloc: Global, aside: u64) -> Result<Bytes, TreeFault> {
        self.begin(TreeCall::ReadAside)?;
        match self.folder.read_aside(alloc, aside) {
            Ok(bytes) => Ok(bytes),
            Err(fault) => Err(fault),
        }
    }

    fn put_back(&mut self, aside: u64, to: &Path) -> Result<(), TreeFault> {
        self.begin(TreeCall::PutBack)?;
        match self.folder.put_back(aside, to) {
            Ok(()) => Ok(()),
            Err(fault) => Err(fault),
        }
    }

    fn discard(&mut self, aside: u64) -> Result<(), TreeFault> {
        self.begin(TreeCall::Discard)?;
        match self.folder.discard(aside) {
            Ok(()) => Ok(()),
            Err(fault) => Err(fault),
        }
    }

    fn asides(&mut self, alloc: Global) -> Result<List<Aside>, TreeFault> {
        self.begin(TreeCall::Asides)?;
        match self.folder.asides(alloc) {
            Ok(asides) => Ok(asides),
            Err(fault) => Err(fault),
        }
    }
}
