ghost use Rattle.std.specs.Prelude.{◌≡◌, ℕ, true, IfOk, IsErrOf};
ghost use Rattle.std.specs.Map.{values_of};
ghost use Rattle.gd_item.specs.Ids.{item_id};
ghost use Rattle.gd_item.specs.declared.request.Request.TheVariants.{Delta};
ghost use Rattle.od_mirror.specs.Pulled.{after_page, nodes, AllFit, IsLeastBad, IsView};
ghost use Rattle.od_transfer.specs.Asking.{is_last_link};
ghost use Rattle.od_transfer.specs.Undisturbed.{Undisturbed, MayBeServed};
ghost use Rattle.od_sync.specs.Deltas.{AsksDelta};
ghost use Rattle.od_sync.specs.Pulls.{Pulls, StopsBad, StopsUnserved, HasPullCause};

use crate::delta::{DeltaFault, ask_delta};
use gd_item::{Item, ItemId, Page};
use gd_names::{List, NoMemory, Text};
use od_mirror::{Mirror, MirrorView, PullFault};
use od_transfer::Remote;
use std::alloc::Global;
use thiserror::Error;

/// Why a pull has no view of the drive.
#[derive(Clone, Copy, Debug, PartialEq, Eq, Error)]
pub enum PullStop {
    #[error("three sends had no reply")]
    LinkFault,
    #[error("the drive lacks memory")]
    Unserved,
    /// The least item that does not fit.
    #[error("the pages make no drive: see item {0:?}")]
    BadPages(ItemId),
    #[error("out of memory")]
    Memory,
}

impl From<NoMemory> for PullStop {
    ghost use Rattle.od_sync.specs.declared.pulling.PullStop.TheVariants.{Memory};

    ghost from_gives = { λ _ stop. stop ≡ Memory };

    fn from(_error: NoMemory) -> PullStop {
        PullStop::Memory
    }
}

/// A copy of the token of the next request.
fn next_token(mirror: &Mirror) -> Result<Option<Text>, NoMemory>
    ensures { IfOk result (λ token. token ≡ mirror.now.token) }
{
    match mirror.token() {
        Some(token) => Ok(Some(token.clone()?)),
        None => Ok(None),
    }
}

/// The view after a last page.
fn view_after(mut mirror: Mirror, page: &Page) -> Result<MirrorView, PullFault>
    requires { is_last_link page.now.link ≡ true }
    ensures ok { IfOk result (λ view. IsView (after_page mirror page.now) view) }
    ensures bad { (n : ℕ) → IsErrOf result (PullFault.BadPages (item_id n)) → IsLeastBad (nodes (values_of (after_page mirror page.now).items)) n }
{
    let _taken = mirror.take_page(page)?;
    match mirror.finish() {
        Ok(view) => Ok(view),
        Err(fault) => Err(fault),
    }
}

/// Pulls the drive over the kept items and their token, in one last page.
pub fn pull<R: Remote>(
    remote: &mut R,
    alloc: Global,
    items: List<Item>,
    token: Option<Text>,
) -> Result<MirrorView, PullStop>
    ensures pulled { IfOk result (λ view. Pulls items token (R.log remote.old) (R.log remote.new) view) }
    ensures fit { IfOk result (λ view. AllFit (nodes view.items)) }
    ensures bad { (n : ℕ) → IsErrOf result (PullStop.BadPages (item_id n)) → StopsBad items token (R.log remote.old) (R.log remote.new) n }
    ensures unserved { IsErrOf result PullStop.Unserved → StopsUnserved token (R.log remote.old) (R.log remote.new) }
    ensures asks { AsksDelta (IsErrOf result PullStop.Memory) token (R.log remote.old) (R.log remote.new) }
    ensures cause { HasPullCause (R.faults remote.old) (R.faults remote.new) (R.answers remote.old) (R.answers remote.new) (R.in_row remote.new) result }
    ensures undisturbed { Undisturbed (R.undisturbed remote.old) (R.undisturbed remote.new) (R.log remote.old) (R.log remote.new) }
    ensures no_faults { R.undisturbed remote.old ≡ true → MayBeServed (Delta token) (R.log remote.old) → R.faults remote.new ≡ R.faults remote.old }
{
    let mirror = Mirror::start(alloc, items, token);
    let asked = next_token(&mirror)?;
    let page = match ask_delta(remote, alloc, asked) {
        Ok(page) => page,
        Err(DeltaFault::LinkFault) => return Err(PullStop::LinkFault),
        Err(DeltaFault::Unserved) => return Err(PullStop::Unserved),
        Err(DeltaFault::Memory) => return Err(PullStop::Memory),
    };
    match view_after(mirror, &page) {
        Ok(view) => Ok(view),
        Err(PullFault::BadPages(id)) => Err(PullStop::BadPages(id)),
        Err(PullFault::Memory) => Err(PullStop::Memory),
    }
}
