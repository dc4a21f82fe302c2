ghost use Rattle.std.specs.Prelude.{◌≡◌, ◌<◌, ◌≤◌, ◌-◌, ◌^◌, max, true, None, IfOk};
ghost use Rattle.gd_item.specs.Pages.{page_link as link_of, page_past as page_from, latest_page as newest_page};
ghost use Rattle.gd_item.specs.Sessions.{State};
ghost use Rattle.gd_delta.specs.Served.{is_last};
ghost use Rattle.gd_store.specs.Stands.{Stands};

use crate::token::write_token;
use gd_item::{Page, PageLink, Resync, Token};
use gd_names::{List, NoMemory, Text};
use gd_store::Store;
use std::alloc::Global;
use thiserror::Error;

/// Why there is no page for a token.
#[derive(Clone, Copy, Debug, PartialEq, Eq, Error)]
pub enum DeltaFault {
    #[error("the token is none of this drive")]
    BadToken,
    #[error("the token is gone")]
    Gone(Resync),
    #[error("out of memory")]
    Memory,
}

impl From<NoMemory> for DeltaFault {
    ghost use Rattle.gd_delta.specs.declared.pages.DeltaFault.TheVariants.{Memory};

    ghost from_gives = { λ _ fault. fault ≡ Memory };

    fn from(_error: NoMemory) -> DeltaFault {
        DeltaFault::Memory
    }
}

/// The link at the end of a page: past the last record that was sent where more follow, and else past all of now.
fn page_link(
    alloc: Global,
    epoch: u64,
    start: u64,
    number: u64,
    last: Option<u64>,
) -> Result<PageLink, NoMemory>
    ensures link { IfOk result (λ link. link ≡ link_of epoch start number last) }
    ensures last { last ≡ None → IfOk result (λ link. is_last link ≡ true) }
{
    match last {
        None => {
            let position = number;
            let text = write_token(
                alloc,
                &Token {
                    epoch,
                    position,
                    start,
                },
            )?;
            Ok(PageLink::Delta(text))
        }
        Some(position) => {
            let text = write_token(
                alloc,
                &Token {
                    epoch,
                    position,
                    start,
                },
            )?;
            Ok(PageLink::Next(text))
        }
    }
}

/// The page past a position with the removals past a start, of which one has reached the store's floor.
pub fn page_past(
    alloc: Global,
    store: &Store,
    position: u64,
    start: u64,
    size: u64,
) -> Result<Page, NoMemory>
    requires { 0 < size }
    ensures last { size ≡ 2 ^ 64 - 1 → IfOk result (λ page. is_last page.link ≡ true) }
    ensures page { IfOk result (λ page. (state : State) → Stands store.now state.effects state.epoch state.floor → state.floor ≤ max position start → page ≡ page_from state position start size) }
{
    let (items, last) = store.changed_after(position, start, size)?;
    let link = page_link(alloc, store.epoch(), start, store.number(), last)?;
    Ok(Page { items, link })
}

/// The page without records.
pub fn latest_page(alloc: Global, store: &Store) -> Result<Page, NoMemory>
    ensures last { IfOk result (λ page. is_last page.link ≡ true) }
    ensures page { IfOk result (λ page. (state : State) → Stands store.now state.effects state.epoch state.floor → page ≡ newest_page state) }
{
    let number = store.number();
    let link = page_link(alloc, store.epoch(), number, number, None)?;
    Ok(Page {
        items: List::new(alloc),
        link,
    })
}
