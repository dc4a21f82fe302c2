//! What the query of a request says.
ghost use Rattle.std.specs.Prelude.{◌≡◌};
ghost use Rattle.gd_json.specs.Changes.{behaviour_of};
ghost use Rattle.gd_target.specs.Faults.{Gives};
ghost use Rattle.gd_target.specs.Queries.{shown};
ghost use Rattle.gd_http.specs.Asking.{behaviour_in, behaviour_at, name_in, after_at, text_in, token_at};

use crate::header::text_of;
use gd_names::{Conflict, EscapeFault, Text, unescape_segment};
use gd_target::{QueryMember, RequestFault, query_value};
use std::alloc::Global;

#[tactic(auto, unfolding(gd_json::specs::Changes::behaviour_of))]
fn behaviour_of(text: &[u8]) -> Option<Conflict>
    ensures { result ≡ behaviour_of text.now }
{
    if text == b"fail".as_slice() {
        Some(Conflict::Fail)
    } else if text == b"replace".as_slice() {
        Some(Conflict::Replace)
    } else if text == b"rename".as_slice() {
        Some(Conflict::Rename)
    } else {
        None
    }
}

fn behaviour_in(value: Option<&[u8]>) -> Result<Conflict, RequestFault>
    ensures { Gives (λ x. x) result (behaviour_in (shown value.entry)) }
{
    match value {
        None => Ok(Conflict::Replace),
        Some(text) => behaviour_of(text).ok_or(RequestFault::Invalid),
    }
}

/// What becomes of a name that is taken. A put without a word on it replaces.
#[tactic(auto, unfolding(crate::specs::Asking::behaviour_at))]
pub fn behaviour_at(query: Option<&[u8]>) -> Result<Conflict, RequestFault>
    ensures { Gives (λ x. x) result (behaviour_at (shown query.entry)) }
{
    let value = query_value(QueryMember::Behaviour, query)?;
    behaviour_in(value)
}

fn name_in(alloc: Global, value: Option<&[u8]>) -> Result<Option<Text>, RequestFault>
    ensures { Gives (λ x. x) result (name_in (shown value.entry)) }
{
    match value {
        None => Ok(None),
        Some(segment) => match unescape_segment(alloc, segment) {
            Ok(name) => Ok(Some(name)),
            Err(EscapeFault::BadEscape) => Err(RequestFault::Invalid),
            Err(EscapeFault::Memory) => Err(RequestFault::Memory),
        },
    }
}

/// The name after which a list of children goes on.
#[tactic(auto, unfolding(crate::specs::Asking::after_at))]
pub fn after_at(alloc: Global, query: Option<&[u8]>) -> Result<Option<Text>, RequestFault>
    ensures { Gives (λ x. x) result (after_at (shown query.entry)) }
{
    let value = query_value(QueryMember::SkipToken, query)?;
    name_in(alloc, value)
}

fn text_in(alloc: Global, value: Option<&[u8]>) -> Result<Option<Text>, RequestFault>
    ensures { Gives (λ x. x) result (text_in (shown value.entry)) }
{
    match value {
        None => Ok(None),
        Some(value) => {
            let text = text_of(alloc, value)?;
            Ok(Some(text))
        }
    }
}

/// The token of the feed of changes, whatever it is.
#[tactic(auto, unfolding(crate::specs::Asking::token_at))]
pub fn token_at(alloc: Global, query: Option<&[u8]>) -> Result<Option<Text>, RequestFault>
    ensures { Gives (λ x. x) result (token_at (shown query.entry)) }
{
    let value = query_value(QueryMember::Token, query)?;
    text_in(alloc, value)
}
