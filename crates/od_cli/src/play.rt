ghost use Rattle.std.specs.Prelude.{◌≡◌, ◌≢◌, ◌≤◌, ◌++◌, ◌∷◌, ◌&&◌, [], false, true, List, Some, IfOk, OnOk};
ghost use Rattle.gd_item.specs.Answers.{unserved};
ghost use Rattle.od_tree.specs.Memory as tree;
ghost use Rattle.od_tree.specs.declared.step.LocalStep.{LocalStep};
ghost use Rattle.od_cli.specs.Played.{content_bytes, reply_text};
ghost use Rattle.od_cli.specs.Following.{are_allowed, can_follow, is_allowed};
ghost use Rattle.od_cli.specs.Plays.{IsAsked, Plays, is_change};
ghost use Rattle.od_cli.specs.Runs as runs;
ghost use Rattle.od_cli.specs.RunStates.{PlaysTo, StandsFor};
ghost use Rattle.od_cli.specs.Worlds.{is_plain_event};

use crate::counting::{print_requests, steps_after};
use crate::line::{Content, Line};
use crate::print::{print_end, print_folder, print_refusal};
use crate::pull::{print_drive, print_pull};
use crate::world::{PAGE_SIZE, World};
use gd_item::{Address, Condition, DriveEvent, ErrorCode, Reply, Request, Step, split_last};
use gd_names::{Bytes, Conflict, List, NoMemory, Path};
use od_keeper::MemoryKeeper;
use od_sync::{SyncEnd, sync_now};
use od_tree::MemoryTree;
use std::alloc::Global;

/// The bytes of a content.
fn make_bytes(alloc: Global, content: &Content) -> Result<Bytes, NoMemory>
    ensures { IfOk result (λ bytes. bytes ≡ content_bytes content.now) }
{
    match content {
        Content::Text(bytes) => Ok(bytes.clone()?),
        Content::Fill(count, byte) => {
            let filled = vec![in alloc; *byte; *count as usize]?;
            Ok(Bytes::from_vec(filled))
        }
    }
}

/// Prints a reply, if it is a refusal.
fn print_reply(alloc: Global, out: &mut Bytes, reply: &Reply) -> Result<(), NoMemory>
    ensures { OnOk result (out.new ≡ out.old ++ reply_text reply.now) }
{
    match reply {
        Reply::Refused { status, code } => print_refusal(alloc, out, *status, *code),
        _ => Ok(()),
    }
}

/// Another client asks the drive, and its refusal is printed.
fn ask(alloc: Global, world: &mut World, out: &mut Bytes, request: Request) -> Result<(), NoMemory>
    requires { is_change request ≡ true }
    ensures { OnOk result (IsAsked world.old world.new out.old out.new request) }
{
    let reply = world.other(request)?;
    print_reply(alloc, out, &reply)
}

/// Another client puts a file at a path.
fn put(
    alloc: Global,
    world: &mut World,
    out: &mut Bytes,
    path: &Path,
    content: &Content,
) -> Result<(), NoMemory>
    ensures { OnOk result (Plays world.old world.new out.old out.new (Line.OtherPut path.now content.now)) }
{
    let bytes = make_bytes(alloc, content)?;
    let path = path.clone()?;
    let request = Request::Put {
        at: Address::ByPath(path),
        bytes,
        behaviour: Conflict::Replace,
        condition: Condition::Free,
    };
    ask(alloc, world, out, request)
}

/// Another client makes a folder at a path.
fn make_folder(
    alloc: Global,
    world: &mut World,
    out: &mut Bytes,
    path: &Path,
) -> Result<(), NoMemory>
    ensures { OnOk result (Plays world.old world.new out.old out.new (Line.OtherMakeFolder path.now)) }
{
    let (above, name) = split_last(alloc, path)?;
    let request = Request::MakeFolder {
        at: Address::ByPath(above),
        name,
        behaviour: Conflict::Fail,
    };
    ask(alloc, world, out, request)
}

/// Another client moves an item to a path, whose folder may be missing.
fn move_item(
    alloc: Global,
    world: &mut World,
    out: &mut Bytes,
    from: &Path,
    to: &Path,
) -> Result<(), NoMemory>
    ensures { OnOk result (Plays world.old world.new out.old out.new (Line.OtherMove from.now to.now)) }
{
    let (above, name) = split_last(alloc, to)?;
    let path = from.clone()?;
    match world.store().by_path(&above) {
        None => print_refusal(alloc, out, 404, ErrorCode::ItemNotFound),
        Some(parent) => {
            let request = Request::Patch {
                at: Address::ByPath(path),
                name: Some(name),
                parent: Some(parent),
                condition: Condition::Free,
            };
            ask(alloc, world, out, request)
        }
    }
}

/// Another client removes what stands at a path.
fn remove(alloc: Global, world: &mut World, out: &mut Bytes, path: &Path) -> Result<(), NoMemory>
    ensures { OnOk result (Plays world.old world.new out.old out.new (Line.OtherRemove path.now)) }
{
    let path = path.clone()?;
    let request = Request::Delete {
        at: Address::ByPath(path),
        condition: Condition::Free,
    };
    ask(alloc, world, out, request)
}

/// The drive, the folder and the keeper of a run, how many steps of the drive's log earlier `requests` lines told, and whether this
/// client can follow what befell the drive.
#[derive(Debug, Drop)]
struct Run {
    world: World,
    folder: MemoryTree,
    keeper: MemoryKeeper,
    counted: usize,
    followed: bool,
}

impl Run {
    /// A new drive, an empty folder and an empty keeper.
    fn new(alloc: Global) -> Result<Run, NoMemory>
        ensures { IfOk result (λ run. StandsFor run.world run.folder run.keeper run.counted run.followed runs.new_run) }
    {
        let world = World::new(alloc)?;
        Ok(Run {
            world,
            folder: MemoryTree::new(alloc, List::new(alloc), List::new(alloc)),
            keeper: MemoryKeeper::new(alloc, List::new(alloc)),
            counted: 0,
            followed: true,
        })
    }

    /// Syncs the folder with the drive, and prints how that ended.
    fn sync(&mut self, alloc: Global, out: &mut Bytes) -> Result<(), NoMemory>
        requires { self.old.followed ≡ true }
        ensures followed { self.new.followed ≡ self.old.followed }
        ensures plays { OnOk result ((value : runs.Run) → StandsFor self.old.world self.old.folder self.old.keeper self.old.counted self.old.followed value
            → PlaysTo self.new.world self.new.folder self.new.keeper self.new.counted self.new.followed value Line.Sync out.old out.new) }
    {
        let end = sync_now(alloc, &mut self.world, &mut self.folder, &mut self.keeper);
        // A sync does not tell that it leaves this as it was.
        self.world.set_page(PAGE_SIZE);
        match end {
            SyncEnd::Memory => Err(NoMemory),
            end => print_end(alloc, out, end),
        }
    }

    /// Prints the folder's tree.
    fn print_local(&self, alloc: Global, out: &mut Bytes) -> Result<(), NoMemory>
        ensures { OnOk result ((local : List LocalStep) → tree.log_of self.now.folder ≡ Some local → out.new ≡ out.old ++ runs.local_text local) }
    {
        let entries = self.folder.entries(alloc)?;
        print_folder(alloc, out, entries.as_slice())
    }

    /// Something happens to the drive.
    fn event(&mut self, event: DriveEvent, followed: bool) -> Result<(), NoMemory>
        requires { is_plain_event event ≡ false }
        ensures { OnOk result ((self.new.world ≡ record self.old.world { log = self.old.world.log ++ Step.Event event ∷ [] }) × (self.new.folder ≡ self.old.folder) × (self.new.keeper ≡ self.old.keeper)
            × (self.new.counted ≡ self.old.counted) × (self.new.followed ≡ (followed && self.old.followed))) }
    {
        self.world.event(event)?;
        self.followed = followed && self.followed;
        Ok(())
    }

    /// Changes how many items a page of the drive has at most.
    fn set_page(&mut self, size: u64) -> Result<(), NoMemory>
        requires above { 1 ≤ size }
        requires below { size ≤ 200 }
        ensures { OnOk result ((self.new.world ≡ record self.old.world { size = size }) × (self.new.folder ≡ self.old.folder) × (self.new.keeper ≡ self.old.keeper)
            × (self.new.counted ≡ self.old.counted) × (self.new.followed ≡ false)) }
    {
        self.world.set_page(size);
        self.followed = false;
        Ok(())
    }

    /// Plays one line.
    fn play(&mut self, alloc: Global, out: &mut Bytes, line: &Line) -> Result<(), NoMemory>
        requires { is_allowed self.old.followed line.now ≡ true }
        ensures followed { OnOk result (self.new.followed ≡ (can_follow line.now && self.old.followed)) }
        ensures plays { OnOk result ((value : runs.Run) → StandsFor self.old.world self.old.folder self.old.keeper self.old.counted self.old.followed value
            → PlaysTo self.new.world self.new.folder self.new.keeper self.new.counted self.new.followed value line.now out.old out.new) }
    {
        match line {
            Line::OtherPut(path, content) => put(alloc, &mut self.world, out, path, content),
            Line::OtherMakeFolder(path) => make_folder(alloc, &mut self.world, out, path),
            Line::OtherMove(from, to) => move_item(alloc, &mut self.world, out, from, to),
            Line::OtherRemove(path) => remove(alloc, &mut self.world, out, path),
            Line::Expire(number) => self.event(DriveEvent::Expire(*number), false),
            Line::Restore => self.event(DriveEvent::Restore, false),
            Line::EndSession(session) => self.event(DriveEvent::EndSession(*session), true),
            Line::Page(size) => self.set_page(*size),
            Line::Pull => print_pull(alloc, &mut self.world, out),
            Line::Drive => print_drive(alloc, &self.world, out),
            Line::Sync => self.sync(alloc, out),
            Line::Local => self.print_local(alloc, out),
            Line::Requests => {
                print_requests(alloc, out, steps_after(self.world.log(), self.counted))?;
                self.counted = self.world.log().len();
                Ok(())
            }
        }
    }
}

/// Plays the lines on a new drive and an empty folder, and gives what they print.
pub fn play(alloc: Global, lines: &[Line]) -> Result<Bytes, NoMemory>
    requires { are_allowed true lines.now ≡ true }
    ensures { IfOk result (λ text. runs.Played lines.now text) }
{
    let mut run = Run::new(alloc)?;
    let mut out = Bytes::new(alloc);
    for line in lines {
        run.play(alloc, &mut out, line)?;
    }
    Ok(out)
}
