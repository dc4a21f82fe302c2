//! The members of a query.
ghost use Rattle.std.specs.Prelude.{◌≡◌, ℕ, List, Some, Err, IfOk, IfErr, option_map};
ghost use Rattle.std.specs.List.{cons_option};
ghost use Rattle.gd_target.specs.Cuts.{cut};
ghost use Rattle.gd_target.specs.Faults.{Gives};
ghost use Rattle.gd_target.specs.Queries.{shown, once, value_in, query_values};

use crate::cuts::{cut, past};
use crate::fault::RequestFault;

/// A member that some request has.
#[derive(Clone, Copy, Debug, PartialEq, Eq)]
pub enum QueryMember {
    /// `@microsoft.graph.conflictBehavior`
    Behaviour,
    /// `$skiptoken`
    SkipToken,
    /// `token`
    Token,
}

/// The value, where the part is one of this member.
#[tactic(auto, unfolding(crate::specs::Queries::value_in))]
fn value_in<'t>(member: QueryMember, part: &'t [u8]) -> Option<&'t [u8]>
    ensures { shown result ≡ value_in member part.now }
{
    match member {
        QueryMember::Behaviour => {
            match past(b"@microsoft.graph.conflictBehavior=", part) {
                Some(value) => Some(value),
                None => past(b"%40microsoft.graph.conflictBehavior=", part),
            }
        }
        QueryMember::SkipToken => past(b"$skiptoken=", part),
        QueryMember::Token => past(b"token=", part),
    }
}

/// The query of a target.
pub fn query_of(target: &[u8]) -> Option<&[u8]>
    ensures { shown result ≡ (cut 63 target.now).1 }
{
    let (_, query) = cut(target, b'?');
    query
}

/// One value more, of which there may be one in all.
pub fn one_more<'t>(
    found: Option<&'t [u8]>,
    value: Option<&'t [u8]>,
) -> Result<Option<&'t [u8]>, RequestFault>
    ensures ok { IfOk result (λ o. (others : List (List ℕ)) → once (cons_option (shown found.entry) (cons_option (shown value.entry) others)) ≡ once (cons_option (shown o) others)) }
    ensures err { IfErr result (λ e. (e ≡ RequestFault.Invalid) × ((others : List (List ℕ)) → once (cons_option (shown found.entry) (cons_option (shown value.entry) others)) ≡ Err RequestFault.Invalid)) }
{
    match (found, value) {
        (Some(_), Some(_)) => Err(RequestFault::Invalid),
        (None, Some(value)) => Ok(Some(value)),
        (found, None) => Ok(found),
    }
}

fn value_among<'t>(member: QueryMember, query: &'t [u8]) -> Result<Option<&'t [u8]>, RequestFault>
    ensures { Gives shown result (once (query_values member (Some query.now))) }
{
    let mut found = None;
    let mut rest = query;
    'parts: loop {
        let (part, others) = cut(rest, b'&');
        found = one_more(found, value_in(member, part))?;
        let Some(after) = others else {
            return Ok(found);
        };
        rest = after;
    }
}

/// The one value that a query has for a member, if any.
pub fn query_value<'t>(
    member: QueryMember,
    query: Option<&'t [u8]>,
) -> Result<Option<&'t [u8]>, RequestFault>
    ensures { Gives shown result (once (query_values member (shown query.entry))) }
{
    match query {
        Some(query) => value_among(member, query),
        None => Ok(None),
    }
}
