ghost use Rattle.std.specs.Prelude.{◌≡◌, ◌<◌, IfOk};
ghost use Rattle.std.specs.Option.{option_copied};
ghost use Rattle.gd_item.specs.Answers.{delta_reply};
ghost use Rattle.gd_item.specs.Pages.{asked};
ghost use Rattle.gd_item.specs.Sessions.{State};
ghost use Rattle.gd_store.specs.Stands.{Stands};

use gd_delta::{DeltaFault, page};
use gd_item::{ErrorCode, Reply};
use gd_names::{NoMemory, Text};
use gd_store::Store;
use std::alloc::Global;

/// What a token asks for, or all that lives where none is given.
pub fn delta(
    alloc: Global,
    store: &Store,
    token: Option<&Text>,
    size: u64,
) -> Result<Reply, NoMemory>
    requires { 0 < size }
    ensures { IfOk result (λ reply. (state : State) → Stands store.now state.effects state.epoch state.floor
        → reply ≡ delta_reply state size (asked state (option_copied token.entry))) }
{
    match page(alloc, store, token, size) {
        Ok(page) => Ok(Reply::Page(page)),
        Err(DeltaFault::BadToken) => Ok(Reply::Refused {
            status: 400,
            code: ErrorCode::InvalidRequest,
        }),
        Err(DeltaFault::Gone(resync)) => Ok(Reply::Gone(resync)),
        Err(DeltaFault::Memory) => Err(NoMemory),
    }
}
