//! What requests about upload sessions do.
ghost use Rattle.std.specs.Prelude.{◌≡◌, ◌≢◌, ◌+◌, ◌-◌, ℕ, List, ◌∷◌, [], length, IfOk, OnOk, OnErr, Some, false};
ghost use Rattle.gd_item.specs.Answers.{about, status_reply};
ghost use Rattle.gd_item.specs.Inventory.{Effect, inventory};
ghost use Rattle.gd_item.specs.Refused.{at_target, but_quota, is_unlike, not_living};
ghost use Rattle.gd_item.specs.Refusals.{put_refusal, put_effect};
ghost use Rattle.gd_item.specs.Sessions.{Session, session_at, held_bytes, without_session};
ghost use Rattle.gd_item.specs.Steps.{opened};
ghost use Rattle.gd_item.specs.Targets.{place_of, name_in, name_in_path};
ghost use Rattle.gd_store.specs.Stands.{Stands, Answers};
ghost use Rattle.gd_upload.specs.Stands.{Stands as Live, Answers as Begins, given_unless, begin_fault, filled_in};
ghost use Rattle.gd_api.specs.Drives.{is_refusal};
ghost use Rattle.gd_api.specs.Replies.{Steps};
ghost use Rattle.std.specs.Option.{option_copied};

use crate::steps::put_in;
use crate::target::find_place;
use gd_item::{Address, Condition, Place, Reply, SessionFault, StoreFault};
use gd_names::{Conflict, Path, Text};
use gd_store::Store;
use gd_upload::Sessions;
use std::alloc::Global;

/// Whether a name is another one than the last of a path.
fn is_unlike_last(name: &Text, path: &Path) -> bool
    ensures { result ≡ is_unlike (Some name.now) (name_in_path path.now) }
{
    let [.., last] = path.names() else {
        return false;
    };
    *name != *last
}

/// Whether a name is given that is another one than the address spells.
pub fn is_other_name(at: &Address, name: Option<&Text>) -> bool
    ensures { result ≡ is_unlike (option_copied name.entry) (name_in at.now) }
{
    let Some(name) = name else {
        return false;
    };
    match at {
        Address::Id(_) => false,
        Address::ByPath(path) => is_unlike_last(name, path),
        Address::Child(_, spelt) => *name != *spelt,
    }
}

/// Where an address puts a file, if a put of it would not be refused but for its size.
pub fn find_allowed(
    alloc: Global,
    store: &Store,
    at: &Address,
    behaviour: Conflict,
    condition: &Condition,
) -> Result<Place, StoreFault>
    ensures { (log : List Effect) (epoch floor : ℕ) → Stands store.now log epoch floor
        → Answers (at_target (λ place. but_quota (put_refusal (inventory log) place [] behaviour condition.now 0)) (place_of (inventory log) at.now)) result
        (λ place. place_of (inventory log) at.now ≡ Some place) }
{
    match find_place(alloc, store, at)? {
        Some(place) => {
            store.may_put(&place, behaviour, condition)?;
            Ok(place)
        }
        None => Err(StoreFault::NotFound),
    }
}

/// Begins a session.
pub fn begin(
    sessions: &mut Sessions,
    place: Place,
    behaviour: Conflict,
    condition: &Condition,
    defer: bool,
) -> Result<Reply, SessionFault>
    ensures answer { (list : List Session) (openers : ℕ) → Live sessions.old list openers
        → Begins (begin_fault list openers) result
        (λ reply. (reply ≡ Reply.Session (openers + 1) 0) × Live sessions.new (opened (openers + 1) (Some place) behaviour condition.now defer list) (openers + 1)) }
    ensures kept { OnErr result (sessions.new ≡ sessions.old) }
    ensures served { IfOk result (λ reply. is_refusal reply ≡ false) }
{
    let Ok(condition) = condition.clone() else {
        return Err(SessionFault::Memory);
    };
    let session = sessions.begin(place, behaviour, condition, defer)?;
    Ok(Reply::Session {
        session,
        expected: 0,
    })
}

/// How many bytes of a session came. Takes no memory.
pub fn status(sessions: &Sessions, session: u64) -> Result<Reply, SessionFault>
    ensures { (list : List Session) (openers : ℕ) → Live sessions.now list openers
        → result ≡ given_unless (not_living (session_at session list)) (about status_reply (session_at session list)) }
{
    match sessions.status(session) {
        Ok(expected) => Ok(Reply::Status { expected }),
        Err(fault) => Err(fault),
    }
}

/// Ends a session that lives. Takes no memory.
pub fn cancel(sessions: &mut Sessions, session: u64) -> Result<Reply, SessionFault>
    ensures answer { (list : List Session) (openers : ℕ) → Live sessions.old list openers → result ≡ given_unless (not_living (session_at session list)) Reply.Done }
    ensures ok { (list : List Session) (openers : ℕ) → Live sessions.old list openers → OnOk result (Live sessions.new (without_session session list) openers) }
    ensures err { OnErr result (sessions.new ≡ sessions.old) }
    ensures served { IfOk result (λ reply. is_refusal reply ≡ false) }
{
    match sessions.cancel(session) {
        Ok(()) => Ok(Reply::Done),
        Err(fault) => Err(fault),
    }
}

/// How many bytes the other sessions hold. Takes no memory.
fn others(sessions: &Sessions, session: u64) -> u64
    ensures { (list : List Session) (openers : ℕ) → Live sessions.now list openers → result ≡ held_bytes list - length (filled_in (session_at session list)) }
{
    match sessions.status(session) {
        Ok(count) => sessions.held_bytes().saturating_sub(count),
        Err(_) => sessions.held_bytes(),
    }
}

/// Makes the file of a session of these bytes, and ends the session.
pub fn commit(
    store: &mut Store,
    sessions: &mut Sessions,
    session: u64,
    bytes: &[u8],
) -> Result<Reply, StoreFault>
    ensures answer { (log : List Effect) (epoch floor : ℕ) (list : List Session) (openers : ℕ) (upload : Session) → Stands store.old log epoch floor → Live sessions.old list openers
        → session_at session list ≡ Some upload
        → Answers (put_refusal (inventory log) upload.place bytes.now upload.behaviour upload.condition (held_bytes list - length upload.filled)) result
        (λ reply. Steps store.new epoch floor log (put_effect (inventory log) upload.place bytes.now upload.behaviour ∷ []) reply × Live sessions.new (without_session session list) openers) }
    ensures kept { OnErr result ((store.new ≡ store.old) × (sessions.new ≡ sessions.old)) }
    ensures served { IfOk result (λ reply. is_refusal reply ≡ false) }
{
    let others = others(sessions, session);
    let Some(target) = sessions.target(session) else {
        return Err(StoreFault::NotFound);
    };
    let reply = put_in(
        store,
        &target.place,
        bytes,
        target.behaviour,
        &target.condition,
        others,
    )?;
    sessions.end(session);
    Ok(reply)
}
