ghost use Rattle.std.specs.Prelude.{◌≡◌, IfOk};
ghost use Rattle.std.specs.List.{AllByRecursion};
ghost use Rattle.od_mirror.specs.Climbs.{Rise};
ghost use Rattle.od_mirror.specs.Pulled.{AllFit, nodes};
ghost use Rattle.od_outside.specs.Running.{Runs};
ghost use Rattle.od_pull.specs.Digests.{AreLearnedBy, HasForm, HasNumber, HaveNumbers, IsLearnedBy, IsLook, IsReplyBy, StillBy, StillCause, with_learned};
ghost use Rattle.od_pull.specs.Pulls.{BaseBy, BeginsPull, PullCause, PulledBy};

use crate::pulling::pull_over;
use crate::stop::PullStop;
use gd_item::{Address, Digest, Item, ItemId, Reply, Request, Tag, digest_of};
use gd_names::{List, Text};
use od_mirror::{Mirror, MirrorView};
use od_outside::Outside;
use std::alloc::Global;

/// A file as it was pulled, and the digest of its bytes.
#[derive(Debug, Drop)]
pub struct Learned {
    pub id: ItemId,
    pub etag: Tag,
    pub digest: Digest,
}

/// Sends a request that only looks.
fn ask<O: Outside>(alloc: Global, outside: &mut O, request: &Request) -> Result<Reply, PullStop>
    requires { IsLook request.now }
    ensures { Runs O.seen (HasForm request.now) (StillBy result) (IsReplyBy request.now result) (StillCause result) outside.old outside.new }
{
    let reply = outside.ask_again(alloc, request)?;
    Ok(reply)
}

/// The digest of a file's bytes, if the drive gives them.
fn learn_digest<O: Outside>(
    alloc: Global,
    outside: &mut O,
    id: ItemId,
) -> Result<Option<Digest>, PullStop>
    ensures { Runs O.seen (HasNumber id) (StillBy result) (IsLearnedBy id result) (StillCause result) outside.old outside.new }
{
    let content = Request::Content {
        at: Address::Id(id),
    };
    let version = match ask(alloc, outside, &content)? {
        Reply::Found { id: _, version } => version,
        _ => return Ok(None),
    };
    match ask(alloc, outside, &Request::Download { id, version })? {
        Reply::Content(bytes) => Ok(Some(digest_of(bytes.as_slice()))),
        _ => Ok(None),
    }
}

/// The digests that the drive gives of files, one file after the other.
fn learn_digests<O: Outside>(
    alloc: Global,
    outside: &mut O,
    bare: &[(ItemId, Tag)],
) -> Result<List<Learned>, PullStop>
    ensures { Runs O.seen (HaveNumbers bare.now) (StillBy result) (AreLearnedBy bare.now result) (StillCause result) outside.old outside.new }
{
    let mut learned = List::new(alloc);
    for file in bare {
        match learn_digest(alloc, outside, file.0)? {
            Some(digest) => learned.push(Learned {
                id: file.0,
                etag: file.1.clone()?,
                digest,
            })?,
            None => {}
        }
    }
    Ok(learned)
}

/// Each file of the view that still has its eTag gets the digest that was learned of it. Takes no memory.
fn take_learned(alloc: Global, view: &mut MirrorView, learned: &[Learned])
    ensures items { view.new.items ≡ with_learned learned.now view.old.items }
    ensures token { view.new.token ≡ view.old.token }
{
    for one in learned {
        let _unknown = view.learn(alloc, one.id, &one.etag, one.digest);
    }
}

/// Pulls as `pull` does. Where the drive gives files without digests, it asks for the bytes of each, pulls once more, and
/// takes the digests of those that are still the same. Where the drive refuses one, or it changed, it stays without.
pub fn pull_with_digests<O: Outside>(
    alloc: Global,
    outside: &mut O,
    items: List<Item>,
    token: Option<Text>,
) -> Result<MirrorView, PullStop>
    ensures pulls { Runs O.seen (BeginsPull items token) (PulledBy result) (BaseBy result) (PullCause result) outside.old outside.new }
    ensures fit { IfOk result (λ view. AllFit (nodes view.items)) }
    ensures rise { IfOk result (λ view. Rise (nodes view.items)) }
{
    let view = pull_over(alloc, outside, Mirror::start(alloc, items, token))?;
    let bare = view.bare(alloc)?;
    if bare.as_slice().is_empty() {
        return Ok(view);
    }
    let learned = learn_digests(alloc, outside, bare.as_slice())?;
    let mut view = pull_over(alloc, outside, Mirror::resume(alloc, view))?;
    take_learned(alloc, &mut view, learned.as_slice());
    Ok(view)
}
