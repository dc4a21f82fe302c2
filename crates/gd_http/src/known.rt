//! What the types say of the numbers of requests and replies: it takes no step.
ghost use Rattle.std.specs.Prelude.{◌<◌, ◌^◌};
ghost use Rattle.gd_item.specs.Written.{IfGiven};
ghost use Rattle.gd_target.specs.Asked.{IsKnownId, IsKnownAddress, IsKnown};
ghost use Rattle.gd_http.specs.Sending.{IsKnownReply};

use gd_item::{Address, ItemId, Reply, Request};

pub fn known_number(number: u64)
    ensures { number < 2 ^ 64 }
{}

pub fn known_id(id: ItemId)
    ensures { IsKnownId id }
{
    known_number(id.0);
}

fn known_parent(parent: Option<ItemId>)
    ensures { IfGiven IsKnownId parent }
{
    match parent {
        Some(id) => known_id(id),
        None => {}
    }
}

fn known_address(at: &Address)
    ensures { IsKnownAddress at.now }
{
    match at {
        Address::Id(id) | Address::Child(id, _) => known_id(*id),
        Address::ByPath(_) => {}
    }
}

pub fn known_request(request: &Request)
    ensures { IsKnown request.now }
{
    match request {
        Request::Get { at }
        | Request::Children { at, .. }
        | Request::MakeFolder { at, .. }
        | Request::Put { at, .. }
        | Request::Delete { at, .. }
        | Request::Content { at }
        | Request::OpenSession { at, .. } => known_address(at),
        Request::Patch { at, parent, .. } => {
            known_address(at);
            known_parent(*parent);
        }
        Request::Download { id, version } => {
            known_id(*id);
            known_number(*version);
        }
        Request::Fragment {
            session,
            first,
            last,
            total,
            ..
        } => {
            known_number(*session);
            known_number(*first);
            known_number(*last);
            known_number(*total);
        }
        Request::SessionStatus { session }
        | Request::CancelSession { session }
        | Request::Finish { session } => known_number(*session),
        Request::Delta { .. } => {}
    }
}

pub fn known_reply(reply: &Reply)
    ensures { IsKnownReply reply.now }
{
    match reply {
        Reply::Found { id, version } => {
            known_id(*id);
            known_number(*version);
        }
        _ => {}
    }
}
