ghost use Rattle.std.specs.Prelude.{◌≡◌, ◌++◌, [], false, List, None, OnOk, IfOk};
ghost use Rattle.std.specs.Map.{values_of};
ghost use Rattle.gd_item.specs.Inventory.{Effect, inventory};
ghost use Rattle.gd_item.specs.Steps.{state_of, held_by};
ghost use Rattle.gd_item.specs.declared.step.Step.{Step};
ghost use Rattle.od_cli.specs.Played.{drive_text, pulled_text};
ghost use Rattle.od_cli.specs.Plays.{Plays};
ghost use Rattle.od_cli.specs.Pulled.{whole_items, IsWhole};
ghost use Rattle.od_cli.specs.Pulling.{HasAll, IsUnderway, Takes, TakesPages};
ghost use Rattle.od_cli.specs.Worlds.{Holds};
ghost use Rattle.od_mirror.specs.Pulled.{begun, with_records, paths_of, taken_of};

use crate::line::Line;
use crate::print::{print_contents, print_items, print_number};
use crate::world::{World, copy_token};
use gd_item::{Item, Page, PageLink, Reply, Request};
use gd_names::{Bytes, List, NoMemory, Path, Text};
use gd_store::Store;
use od_mirror::{Mirror, MirrorView, PullFault, Taken};
use std::alloc::Global;

/// How many replies a pull takes at most.
const MOST_REPLIES: u64 = 4096;

/// What a client has that took the one page of a fresh enumeration.
fn view_of(alloc: Global, page: &Page) -> Result<MirrorView, NoMemory>
    requires { IsWhole page.now }
    ensures { IfOk result (λ view. view.items ≡ values_of (with_records [] page.now.items)) }
{
    let mut mirror = Mirror::start(alloc, List::new(alloc), None);
    match mirror.take_page(page)? {
        Taken::Last => {}
        Taken::More => unreachable!(),
    }
    match mirror.finish() {
        Ok(view) => Ok(view),
        Err(PullFault::BadPages(_)) => unreachable!(),
        Err(PullFault::Memory) => Err(NoMemory),
    }
}

/// The items of such a page, each at its path, in order of path.
fn paths_in(alloc: Global, page: &Page) -> Result<List<(Path, Item)>, NoMemory>
    requires { IsWhole page.now }
    ensures { IfOk result (λ paths. paths ≡ paths_of (values_of (with_records [] page.now.items))) }
{
    let view = view_of(alloc, page)?;
    let paths = view.paths(alloc)?;
    Ok(paths)
}

/// Takes the reply to one more request of a pull by another client.
fn take_reply(world: &mut World, mirror: &mut Mirror) -> Result<Taken, NoMemory>
    requires { IsUnderway (state_of world.old.log) mirror.old }
    ensures { IfOk result (λ taken. Takes world.old world.new mirror.old mirror.new taken) }
{
    let token = copy_token(mirror.token())?;
    let reply = world.other(Request::Delta { token })?;
    match reply {
        Reply::Page(page) => {
            let taken = mirror.take_page(&page)?;
            Ok(taken)
        }
        Reply::Gone(_) => {
            mirror.gone();
            Ok(Taken::More)
        }
        _ => unreachable!(),
    }
}

/// Asks the drive for all that lives, page by page, as another client; whether the last page came before the replies were
/// too many.
fn take_pages(world: &mut World, mirror: &mut Mirror) -> Result<bool, NoMemory>
    requires { mirror.old ≡ begun [] None }
    ensures { IfOk result (λ ended. TakesPages world.old world.new mirror.new ended) }
{
    let mut left = MOST_REPLIES;
    while 0 < left {
        left -= 1;
        let taken = take_reply(world, mirror)?;
        match taken {
            Taken::Last => return Ok(true),
            Taken::More => {}
        }
    }
    Ok(false)
}

/// The items of a pull that has ended, each at its path, in order of path.
fn paths_pulled(alloc: Global, mirror: Mirror) -> Result<List<(Path, Item)>, NoMemory>
    requires { (log : List Step) × HasAll (state_of log) mirror × ((state_of log).plain ≡ false) }
    ensures { IfOk result (λ paths. paths ≡ paths_of (values_of mirror.items)) }
{
    match mirror.finish() {
        Ok(view) => {
            let paths = view.paths(alloc)?;
            Ok(paths)
        }
        Err(PullFault::BadPages(_)) => unreachable!(),
        Err(PullFault::Memory) => Err(NoMemory),
    }
}

/// What a pull prints that has ended.
fn print_pulled(
    alloc: Global,
    out: &mut Bytes,
    store: &Store,
    mirror: Mirror,
) -> Result<(), NoMemory>
    requires { (log : List Step) × HasAll (state_of log) mirror × ((state_of log).plain ≡ false) × Holds store.now (state_of log).effects }
    ensures { OnOk result ((log : List Step) → HasAll (state_of log) mirror → (state_of log).plain ≡ false → Holds store.now (state_of log).effects
        → out.new ≡ out.old ++ pulled_text (held_by log)) }
{
    let paths = paths_pulled(alloc, mirror)?;
    print_number(alloc, out, "pull", store.number())?;
    print_items(alloc, out, paths.as_slice())
}

/// A fresh pull by another client, without a database, and what it prints.
pub fn print_pull(alloc: Global, world: &mut World, out: &mut Bytes) -> Result<(), NoMemory>
    ensures { OnOk result (Plays world.old world.new out.old out.new Line.Pull) }
{
    let mut mirror = Mirror::start(alloc, List::new(alloc), None);
    let ended = take_pages(world, &mut mirror)?;
    if ended {
        print_pulled(alloc, out, world.store(), mirror)
    } else {
        out.push_slice(b"pull Endless\n")
    }
}
/// The one page of a fresh enumeration, from the drive's own store; its link is of no use.
fn make_page(alloc: Global, store: &Store) -> Result<Page, NoMemory>
    ensures items { IfOk result (λ page. (log : List Effect) → Holds store.now log → page.items ≡ whole_items (inventory log)) }
    ensures last { IfOk result (λ page. taken_of page.link ≡ Taken.Last) }
{
    let number = store.number();
    let (items, more) = store.changed_after(0, number, u64::MAX)?;
    if more.is_some() {
        // No list has more records.
        unreachable!();
    }
    let token = Text::from_str(alloc, "")?;
    Ok(Page {
        items,
        link: PageLink::Delta(token),
    })
}

/// The drive's change number, and its tree with contents.
fn print_store(alloc: Global, store: &Store, out: &mut Bytes) -> Result<(), NoMemory>
    requires { (log : List Effect) × Holds store.now log }
    ensures { OnOk result ((log : List Effect) → Holds store.now log → out.new ≡ out.old ++ drive_text (inventory log)) }
{
    let page = make_page(alloc, store)?;
    let paths = paths_in(alloc, &page)?;
    print_number(alloc, out, "drive", store.number())?;
    print_contents(alloc, out, store, paths.as_slice())
}

/// What `drive` prints.
pub fn print_drive(alloc: Global, world: &World, out: &mut Bytes) -> Result<(), NoMemory>
    ensures { OnOk result (Plays world.now world.now out.old out.new Line.Drive) }
{
    print_store(alloc, world.store(), out)
}
