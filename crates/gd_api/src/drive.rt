ghost use Rattle.std.specs.Prelude.{◌≡◌, ℕ, ◌≤◌, ◌∷◌, ◌++◌, ◌&&◌, is_none, true, List, [], IfOk};
ghost use Rattle.gd_item.specs.Answers.{answer, unserved as unserved_reply};
ghost use Rattle.gd_item.specs.Refusals.{file_refusal as not_file};
ghost use Rattle.gd_item.specs.Steps.{state_of, held_by, accepted_by};
ghost use Rattle.gd_item.specs.Versions.{versions_of};
ghost use Rattle.gd_item.specs.declared.step.Step.{Step};
ghost use Rattle.gd_store.specs.Stands.{Answers};
ghost use Rattle.gd_api.specs.Drives.{Serves, Handles, takes_no_memory, is_refusal};
ghost use Rattle.gd_api.specs.Replies.{reply_of, session_reply_of, whole_answer};

mod changing;
mod events;
mod reading;
mod uploading;

use crate::bare::show;
use gd_item::{
    DriveEvent, ErrorCode, ItemId, Reply, Request, SessionFault, StoreFault, VersionInfo,
};
use gd_names::{List, NoMemory};
use gd_store::Store;
use gd_upload::Sessions;
use std::alloc::Global;
use std::marker::Model;

/// A drive over a store, with its upload sessions.
#[derive(Debug, Drop)]
pub struct Drive {
    alloc: Global,
    store: Store,
    sessions: Sessions,
    size: u64,
    /// Whether replies give neither digests nor content tags.
    plain: bool,
}

impl Model for Drive {
    ghost use Rattle.gd_api.specs.Drives.{DriveValue, IsPageSize};

    ghost Value = { DriveValue };

    ghost view = { λ d. record { store = d.store; sessions = d.sessions; size = d.size; plain = d.plain } };

    ghost invariant = { λ d. IsPageSize d.size };
}

/// The reply that a call's result makes.
fn make_reply(done: Result<Reply, StoreFault>) -> Reply
    ensures { result ≡ reply_of done }
{
    match done {
        Ok(reply) => reply,
        Err(fault) => Reply::Refused {
            status: fault.status(),
            code: fault.code(),
        },
    }
}

/// The same of a call about sessions.
fn make_session_reply(done: Result<Reply, SessionFault>) -> Reply
    ensures { result ≡ session_reply_of done }
{
    match done {
        Ok(reply) => reply,
        Err(fault) => Reply::Refused {
            status: fault.status(),
            code: fault.code(),
        },
    }
}

/// The reply of a drive that lacks memory.
fn unserved() -> Reply
    ensures { result ≡ unserved_reply }
{
    Reply::Refused {
        status: 503,
        code: ErrorCode::GeneralException,
    }
}

impl Drive {
    ghost use Rattle.gd_api.specs.Drives.{Stands};

    /// A drive with its root alone; a list and a page have at most `page` items, from 1 to 200.
    pub fn new(alloc: Global, page: u64) -> Result<Drive, NoMemory>
        requires above { 1 ≤ page }
        requires below { page ≤ 200 }
        ensures { IfOk result (λ drive. Stands drive [] × (drive.size ≡ page)) }
    {
        let store = Store::new(alloc)?;
        Ok(Drive {
            alloc,
            store,
            sessions: Sessions::new(alloc),
            size: page,
            plain: false,
        })
    }

    /// Answers a request. Where memory is wanting the drive is left as it was.
    pub fn handle(&mut self, request: &Request) -> Reply
        ensures answer { (log : List Step) → Stands self.old log → Handles self.old self.new log request.now result }
        ensures served { (log : List Step) → Stands self.old log → takes_no_memory request.now ≡ true → result ≡ answer (state_of log) self.old.size request.now }
        ensures refusal { is_refusal result ≡ true → self.new ≡ self.old }
        ensures size { self.new.size ≡ self.old.size }
    {
        let plain = self.is_plain();
        let reply = self.answer(request);
        show(plain, reply)
    }

    /// Something happens to the drive without a request. Takes no memory.
    pub fn event(&mut self, event: DriveEvent)
        ensures stands { (log : List Step) → Stands self.old log → Stands self.new (log ++ Step.Event event ∷ []) }
        ensures size { self.new.size ≡ self.old.size }
    {
        match event {
            DriveEvent::Expire(number) => self.expire(number),
            DriveEvent::Restore => self.restore(),
            DriveEvent::EndSession(session) => self.end_session(session),
            DriveEvent::Plain => self.become_plain(),
        }
    }

    /// Changes how many items a list or a page has at most, to a number from 1 to 200.
    pub fn set_page(&mut self, page: u64)
        requires above { 1 ≤ page }
        requires below { page ≤ 200 }
        ensures size { self.new ≡ record { store = self.old.store; sessions = self.old.sessions; size = page; plain = self.old.plain } }
        ensures stands { (log : List Step) → Stands self.old log → Stands self.new log }
    {
        self.size = page;
    }

    /// The store of the log for which the drive stands.
    pub fn store(&self) -> &Store
        ensures { result.now ≡ self.now.store }
    {
        &self.store
    }

    /// The versions of a living file that the drive accepted, the newest first.
    pub fn versions(&self, id: ItemId) -> Result<List<VersionInfo>, StoreFault>
        ensures { (log : List Step) → Stands self.now log
            → Answers (not_file (held_by log) id.0) result (λ found. found ≡ versions_of id.0 (accepted_by log)) }
    {
        self.store.versions(id)
    }

    fn is_plain(&self) -> bool
        ensures { result ≡ self.now.plain }
    {
        self.plain
    }

    /// Answers a request, as if the drive were not plain.
    fn answer(&mut self, request: &Request) -> Reply
        ensures answer { (log : List Step) → Stands self.old log
            → Serves self.old self.new log request.now result (whole_answer (state_of log) self.old.size request.now) }
        ensures served { (log : List Step) → Stands self.old log → takes_no_memory request.now ≡ true → result ≡ whole_answer (state_of log) self.old.size request.now }
        ensures refusal { is_refusal result ≡ true → self.new ≡ self.old }
        ensures size { self.new.size ≡ self.old.size }
    {
        match request {
            Request::Get { at } => self.get(at),
            Request::Children { at, after } => self.children(at, after),
            Request::MakeFolder {
                at,
                name,
                behaviour,
            } => self.make_folder(at, name, *behaviour),
            Request::Put {
                at,
                bytes,
                behaviour,
                condition,
            } => { self.put(at, bytes, *behaviour, condition) }
            Request::Patch {
                at,
                name,
                parent,
                condition,
            } => { self.patch(at, name, *parent, condition) }
            Request::Delete { at, condition } => self.delete(at, condition),
            Request::Content { at } => self.content(at),
            Request::Download { id, version } => self.download(*id, *version),
            Request::Delta { token } => self.delta(token),
            Request::OpenSession {
                at,
                name,
                behaviour,
                condition,
                defer,
            } => { self.open_session(at, name, *behaviour, condition, *defer) }
            Request::Fragment {
                session,
                first,
                last,
                total,
                bytes,
            } => { self.fragment(*session, *first, *last, *total, bytes) }
            Request::SessionStatus { session } => self.session_status(*session),
            Request::CancelSession { session } => self.cancel_session(*session),
            Request::Finish { session } => self.finish(*session),
        }
    }
}
