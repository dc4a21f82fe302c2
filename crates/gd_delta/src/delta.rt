ghost use Rattle.std.specs.Prelude.{◌≡◌, ◌<◌, ◌||◌, ◌-◌, ◌^◌, true, nat_lt, Some, IfOk};
ghost use Rattle.std.specs.Option.{option_copied};
ghost use Rattle.gd_item.specs.Pages.{asked, asked_by_token};
ghost use Rattle.gd_item.specs.Sessions.{State};
ghost use Rattle.gd_delta.specs.Served.{answer_to, is_last, Serves};
ghost use Rattle.gd_store.specs.Stands.{Stands};

use crate::pages::{DeltaFault, latest_page, page_past};
use crate::token::read_token;
use gd_item::{Page, Resync, Token};
use gd_names::Text;
use gd_store::Store;
use std::alloc::Global;

/// Whether a token is ahead of a drive's number.
fn is_ahead(number: u64, token: &Token) -> bool
    ensures { result ≡ (nat_lt number token.now.position || nat_lt number token.now.start) }
{
    number < token.position || number < token.start
}

/// The page for a token, or why there is none: it is of another epoch, ahead of the drive, or too old.
fn page_for(alloc: Global, store: &Store, token: &Token, size: u64) -> Result<Page, DeltaFault>
    requires { 0 < size }
    ensures last { size ≡ 2 ^ 64 - 1 → IfOk result (λ page. is_last page.link ≡ true) }
    ensures answer { (state : State) → Stands store.now state.effects state.epoch state.floor → Serves (answer_to state size (asked_by_token state (Some token.now))) result }
{
    let number = store.number();
    if token.epoch != store.epoch() {
        return Err(DeltaFault::Gone(Resync::UploadDifferences));
    }
    if is_ahead(number, token) {
        return Err(DeltaFault::BadToken);
    }
    if token.position.max(token.start) < store.floor() {
        return Err(DeltaFault::Gone(Resync::ApplyDifferences));
    }
    let page = page_past(alloc, store, token.position, token.start, size)?;
    Ok(page)
}

/// The page of the feed that a text asks for, of at most so many records: past the token that it spells, or for
/// `latest` nothing but a link. Where there is no text it is the first page of all that lives. Of the greatest size a
/// page is the last one, since no list has more records.
pub fn page(
    alloc: Global,
    store: &Store,
    token: Option<&Text>,
    size: u64,
) -> Result<Page, DeltaFault>
    requires { 0 < size }
    ensures last { size ≡ 2 ^ 64 - 1 → IfOk result (λ page. is_last page.link ≡ true) }
    ensures answer { (state : State) → Stands store.now state.effects state.epoch state.floor → Serves (answer_to state size (asked state (option_copied token.entry))) result }
{
    let Some(text) = token else {
        let page = page_past(alloc, store, 0, store.number(), size)?;
        return Ok(page);
    };
    if text.as_str() == "latest" {
        let page = latest_page(alloc, store)?;
        return Ok(page);
    }
    match read_token(text.as_bytes()) {
        Some(token) => page_for(alloc, store, &token, size),
        None => Err(DeltaFault::BadToken),
    }
}
