ghost use Rattle.std.specs.Prelude.{◌≡◌, ◌≤◌, ◌<◌, [], ◌∷◌, ◌++◌, true, false, None, IfOk, OnOk, IsErrOf};
ghost use Rattle.std.specs.Option.{option_copied};
ghost use Rattle.gd_item.specs.Answers.{answer};
ghost use Rattle.gd_item.specs.Sound.{IsItemMap};
ghost use Rattle.gd_item.specs.Steps.{state_of};
ghost use Rattle.od_transfer.specs.Undisturbed.{is_servable};
ghost use Rattle.od_cli.specs.Worlds.{page_size, heard, is_about_session, is_delta, is_plain_event, is_want_of_memory, unheard, with_other, Holds, IsOwnReply};

use gd_api::Drive;
use gd_delta::{DeltaFault, page};
use gd_item::{DriveEvent, Reply, Request, Step, Who};
use gd_names::{List, NoMemory, Text};
use gd_store::Store;
use od_transfer::{AskFault, Carrier, Job, Outcome, Remote, carry_each};
use std::alloc::Global;
use std::marker::Model;

/// How many items a list of a new drive has at most.
pub const PAGE_SIZE: u64 = 200;

/// A drive in memory with its log, which other clients and this one ask. For this client changes come in one page, however many
/// they are, and there is no reply where the drive does not serve a token, and to requests about upload sessions.
#[derive(Debug, Drop)]
pub struct World {
    drive: Drive,
    log: Vec<Step>,
    faults: u64,
    answers: u64,
    in_row: u64,
}

impl Model for World {
    ghost use Rattle.od_cli.specs.Worlds.{WorldValue, IsDriveOf};

    ghost Value = { WorldValue };

    ghost view = { λ w. record { log = w.log.items; size = w.drive.size; faults = w.faults; answers = w.answers; in_row = w.in_row } };

    ghost invariant = { λ w. IsDriveOf w.drive w.log.items };
}

impl World {
    /// A drive with its root alone.
    pub fn new(alloc: Global) -> Result<World, NoMemory>
        ensures { IfOk result (λ world. world ≡ record { log = []; size = page_size; faults = 0; answers = 0; in_row = 0 }) }
    {
        let drive = Drive::new(alloc, PAGE_SIZE)?;
        Ok(World {
            drive,
            log: Vec::new(alloc),
            faults: 0,
            answers: 0,
            in_row: 0,
        })
    }

    /// The store of the drive.
    pub fn store(&self) -> &Store
        ensures holds { Holds result.now (state_of self.now.log).effects }
        ensures whole { (state_of self.now.log).plain ≡ false }
    {
        self.drive.store()
    }

    /// The drive's log.
    pub fn log(&self) -> &[Step]
        ensures { result.now ≡ self.now.log }
    {
        self.log.as_slice()
    }

    /// Another client asks the drive.
    pub fn other(&mut self, request: Request) -> Result<Reply, NoMemory>
        ensures reply { IfOk result (λ reply. reply ≡ answer (state_of self.old.log) self.old.size request) }
        ensures log { IfOk result (λ reply. self.new ≡ record self.old { log = with_other self.old.log request }) }
        ensures size { 0 < self.old.size }
    {
        self.log.reserve(1)?;
        let reply = self.drive.handle(&request);
        if is_want_of_memory(&reply) {
            return Err(NoMemory);
        }
        self.log.push_reserved(heard_step(Who::Other, request));
        Ok(reply)
    }

    /// Counts a request that has no reply.
    fn fail(&mut self) -> AskFault
        ensures fault { result ≡ AskFault.Failed }
        ensures counted { self.new ≡ unheard self.old }
        ensures later { self.old.faults ≤ self.new.faults }
    {
        self.faults = self.faults.saturating_add(1);
        self.in_row = self.in_row.saturating_add(1);
        AskFault::Failed
    }

    /// Something happens to the drive without a request; it does not become plain.
    pub fn event(&mut self, event: DriveEvent) -> Result<(), NoMemory>
        requires { is_plain_event event ≡ false }
        ensures { OnOk result (self.new ≡ record self.old { log = self.old.log ++ Step.Event event ∷ [] }) }
    {
        self.log.reserve(1)?;
        self.drive.event(event);
        self.log.push_reserved(Step::Event(event));
        Ok(())
    }

    /// Changes how many items a list of the drive has at most, to a number from 1 to 200.
    pub fn set_page(&mut self, size: u64)
        requires above { 1 ≤ size }
        requires below { size ≤ 200 }
        ensures { self.new ≡ record self.old { size = size } }
    {
        self.drive.set_page(size);
    }

    /// This client asks for changes.
    fn own_delta(&mut self, alloc: Global, token: &Option<Text>) -> Result<Reply, AskFault>
        ensures ok { IfOk result (λ reply. IsOwnReply (state_of self.old.log) (Request.Delta token.now) reply × (self.new ≡ heard self.old (Request.Delta token.now))) }
        ensures failed { IsErrOf result AskFault.Failed → (is_servable (state_of self.old.log) (Request.Delta token.now) ≡ false) × (self.new ≡ unheard self.old) }
        ensures memory { IsErrOf result AskFault.Memory → self.new ≡ self.old }
        ensures faults { self.old.faults ≤ self.new.faults }
        ensures answers { self.old.answers ≤ self.new.answers }
    {
        let Ok(sent) = copy_token(token.as_ref()) else {
            return Err(AskFault::Memory);
        };
        match self.log.reserve(1) {
            Ok(()) => {}
            Err(_) => return Err(AskFault::Memory),
        }
        match page(alloc, self.drive.store(), token.as_ref(), u64::MAX) {
            Ok(page) => {
                let request = Request::Delta { token: sent };
                self.log.push_reserved(heard_step(Who::Own, request));
                self.answers = self.answers.saturating_add(1);
                self.in_row = 0;
                Ok(Reply::Page(page))
            }
            Err(DeltaFault::Memory) => Err(AskFault::Memory),
            Err(DeltaFault::BadToken) => Err(self.fail()),
            Err(DeltaFault::Gone(_)) => Err(self.fail()),
        }
    }

    /// This client asks for something else.
    fn own_other(&mut self, request: &Request) -> Result<Reply, AskFault>
        requires { is_delta request.now ≡ false }
        ensures ok { IfOk result (λ reply. IsOwnReply (state_of self.old.log) request.now reply × (self.new ≡ heard self.old request.now)) }
        ensures failed { IsErrOf result AskFault.Failed → (is_servable (state_of self.old.log) request.now ≡ false) × (self.new ≡ unheard self.old) }
        ensures memory { IsErrOf result AskFault.Memory → self.new ≡ self.old }
        ensures faults { self.old.faults ≤ self.new.faults }
        ensures answers { self.old.answers ≤ self.new.answers }
    {
        if is_about_session(request) {
            return Err(self.fail());
        }
        let Ok(sent) = request.clone() else {
            return Err(AskFault::Memory);
        };
        match self.log.reserve(1) {
            Ok(()) => {}
            Err(_) => return Err(AskFault::Memory),
        }
        let reply = self.drive.handle(request);
        if is_want_of_memory(&reply) {
            return Err(AskFault::Memory);
        }
        self.log.push_reserved(heard_step(Who::Own, sent));
        self.answers = self.answers.saturating_add(1);
        self.in_row = 0;
        Ok(reply)
    }

    /// This client asks the drive.
    fn own(&mut self, alloc: Global, request: &Request) -> Result<Reply, AskFault>
        ensures ok { IfOk result (λ reply. IsOwnReply (state_of self.old.log) request.now reply × (self.new ≡ heard self.old request.now)) }
        ensures failed { IsErrOf result AskFault.Failed → (is_servable (state_of self.old.log) request.now ≡ false) × (self.new ≡ unheard self.old) }
        ensures memory { IsErrOf result AskFault.Memory → self.new ≡ self.old }
        ensures faults { self.old.faults ≤ self.new.faults }
        ensures answers { self.old.answers ≤ self.new.answers }
    {
        match request {
            Request::Delta { token } => self.own_delta(alloc, token),
            _ => self.own_other(request),
        }
    }
}

/// A copy of a token that may be there.
pub fn copy_token(token: Option<&Text>) -> Result<Option<Text>, NoMemory>
    ensures { IfOk result (λ copy. copy ≡ option_copied token.entry) }
{
    match token {
        Some(text) => Ok(Some(text.clone()?)),
        None => Ok(None),
    }
}

/// A request that was served, and whose reply was heard.
fn heard_step(who: Who, request: Request) -> Step
    ensures { result ≡ Step.Ask who request true true }
{
    Step::Ask {
        who,
        request,
        served: true,
        heard: true,
    }
}

/// Whether a request is one about an upload session.
fn is_about_session(request: &Request) -> bool
    ensures { result ≡ is_about_session request.now }
{
    match request {
        Request::OpenSession { .. } => true,
        Request::Fragment { .. } => true,
        Request::SessionStatus { .. } => true,
        Request::CancelSession { .. } => true,
        Request::Finish { .. } => true,
        _ => false,
    }
}

/// Whether a reply says that memory is wanting.
fn is_want_of_memory(reply: &Reply) -> bool
    ensures { result ≡ is_want_of_memory reply.now }
{
    match reply {
        Reply::Refused { status, code: _ } => *status == 503,
        _ => false,
    }
}

impl Remote for World {
    ghost use Rattle.std.specs.Prelude.{Some, true};
    ghost use Rattle.od_cli.specs.GoingOn.{GoesOn, world_stays, world_further, world_later};

    ghost log = { λ w. Some w.log };

    ghost faults = { λ w. w.faults };

    ghost answers = { λ w. w.answers };

    ghost in_row = { λ w. w.in_row };

    ghost undisturbed = { λ w. true };

    ghost goes = { GoesOn };

    ghost goes_refl = { world_stays };

    ghost goes_trans = { world_further };

    ghost goes_later = { world_later };

    fn ask(&mut self, alloc: Global, request: &Request) -> Result<Reply, AskFault> {
        match self.own(alloc, request) {
            Ok(reply) => Ok(reply),
            Err(fault) => Err(fault),
        }
    }
}

impl Carrier for World {
    fn carry(&mut self, alloc: Global, jobs: &List<Job>) -> Result<List<Outcome>, NoMemory> {
        carry_each(self, alloc, jobs)
    }
}
