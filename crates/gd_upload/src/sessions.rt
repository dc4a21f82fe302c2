ghost use Rattle.std.specs.Prelude.{◌≡◌, ℕ, List, ◌+◌, ◌<◌, ◌≤◌, ◌++◌, [], length, IfOk, OnOk, OnErr, None, Some, Err, nat_lt, nat_le, ◌-◌, ◌^◌, ◌||◌, cond};
ghost use Rattle.std.specs.Option.{option_copied, option_map};
ghost use Rattle.gd_item.specs.Refused.{not_living};
ghost use Rattle.gd_item.specs.Sessions.{Session, session_at, held_bytes as bytes_held, fragment_fault, finish_fault, is_completed, with_fragment, without_session};
ghost use Rattle.gd_item.specs.Steps.{opened};
ghost use Rattle.gd_upload.specs.Stands.{Stands, Answers, Received, begin_fault, given_unless, filled_in, target_in};

use crate::append::append;
use crate::open::OpenSession;
use crate::progress::Progress;
use crate::target::Target;
use gd_item::{Condition, Place, SessionFault};
use gd_names::{Bytes, Conflict, NoMemory};
use std::alloc::Global;
use std::marker::Model;

/// How many sessions may live.
const MOST_SESSIONS: usize = 1000;

/// How many bytes a drive may hold, those of its sessions among them.
const MOST_BYTES: u64 = 536_870_912;

/// The upload sessions of a drive.
#[derive(Debug, Drop)]
pub struct Sessions {
    alloc: Global,
    living: Vec<OpenSession>,
    begun: u64,
}

impl Model for Sessions {
    ghost use Rattle.gd_upload.specs.Stands.{SessionsValue, IsWithin};

    ghost Value = { SessionsValue };

    ghost view = { λ s. record { living = s.living.items; begun = s.begun } };

    ghost invariant = { λ s. IsWithin s.living.items s.begun };
}

impl Sessions {
    /// No session lives, and none was begun.
    pub fn new(alloc: Global) -> Sessions
        ensures { Stands result [] 0 }
    {
        Sessions {
            alloc,
            living: Vec::new(alloc),
            begun: 0,
        }
    }

    /// Begins a session, whose number no session had before.
    pub fn begin(
        &mut self,
        place: Place,
        behaviour: Conflict,
        condition: Condition,
        defer: bool,
    ) -> Result<u64, SessionFault>
        ensures answer { (sessions : List Session) (openers : ℕ) → Stands self.old sessions openers
            → Answers (begin_fault sessions openers) result
            (λ number. (number ≡ openers + 1) × Stands self.new (opened (openers + 1) (Some place) behaviour condition defer sessions) (openers + 1)) }
        ensures kept { OnErr result (self.new ≡ self.old) }
    {
        if self.has_many() {
            return Err(SessionFault::Many);
        }
        let target = Target {
            place,
            behaviour,
            condition,
            defer,
        };
        let number = self.add(target)?;
        Ok(number)
    }

    /// How many bytes all living sessions hold. Takes no memory.
    pub fn held_bytes(&self) -> u64
        ensures { (sessions : List Session) (openers : ℕ) → Stands self.now sessions openers → result ≡ bytes_held sessions }
    {
        self.bytes()
    }

    /// How many bytes of a session came. Takes no memory.
    pub fn status(&self, session: u64) -> Result<u64, SessionFault>
        ensures { (sessions : List Session) (openers : ℕ) → Stands self.now sessions openers
            → result ≡ given_unless (not_living (session_at session sessions)) (length (filled_in (session_at session sessions))) }
    {
        match self.find(session) {
            Some(found) => Ok(found.count()),
            None => Err(SessionFault::NoSession),
        }
    }

    /// Where the file of a session is put. Takes no memory.
    pub fn target(&self, session: u64) -> Option<&Target>
        ensures { (sessions : List Session) (openers : ℕ) → Stands self.now sessions openers
            → option_copied result ≡ option_map target_in (session_at session sessions) }
    {
        match self.find(session) {
            Some(found) => Some(found.target()),
            None => None,
        }
    }

    /// Takes a fragment, the bytes `first` to `last` of `total`. The drive keeps so many other bytes. A fragment that
    /// completes the file is not kept: the caller makes the file, and then ends the session.
    pub fn fragment(
        &mut self,
        session: u64,
        first: u64,
        last: u64,
        total: u64,
        bytes: &[u8],
        kept_bytes: u64,
    ) -> Result<Progress, SessionFault>
        ensures answer { (sessions : List Session) (openers : ℕ) → Stands self.old sessions openers
            → Answers (fragment_fault kept_bytes sessions (session_at session sessions) first last total bytes.now) result
            (Received self.old self.new sessions openers session last total bytes.now) }
        ensures kept { OnErr result (self.new ≡ self.old) }
    {
        match self.fault(session, first, last, total, bytes, kept_bytes) {
            Some(fault) => return Err(fault),
            None => {}
        }
        match self.whole(session, last, total, bytes)? {
            Some(all) => Ok(Progress::Whole(all)),
            None => {
                self.keep(session, total, bytes)?;
                Ok(Progress::More(self.count(session)))
            }
        }
    }

    /// All bytes of a deferred session, which stays.
    pub fn finish(&self, session: u64) -> Result<Bytes, SessionFault>
        ensures { (sessions : List Session) (openers : ℕ) → Stands self.now sessions openers
            → Answers (finish_fault (session_at session sessions)) result (λ bytes. bytes ≡ filled_in (session_at session sessions)) }
    {
        match self.find(session) {
            Some(found) => self.finished(found),
            None => Err(SessionFault::NoSession),
        }
    }

    /// Ends a session that lives. Takes no memory.
    pub fn cancel(&mut self, session: u64) -> Result<(), SessionFault>
        ensures answer { (sessions : List Session) (openers : ℕ) → Stands self.old sessions openers → result ≡ given_unless (not_living (session_at session sessions)) tt }
        ensures ok { (sessions : List Session) (openers : ℕ) → Stands self.old sessions openers → OnOk result (Stands self.new (without_session session sessions) openers) }
        ensures err { OnErr result (self.new ≡ self.old) }
    {
        if self.find(session).is_none() {
            return Err(SessionFault::NoSession);
        }
        self.end(session);
        Ok(())
    }

    /// Ends a session, if it lives. Takes no memory.
    pub fn end(&mut self, session: u64)
        ensures { (sessions : List Session) (openers : ℕ) → Stands self.old sessions openers → Stands self.new (without_session session sessions) openers }
    {
        self.remove(session);
    }

    /// Whether no session can be begun.
    fn has_many(&self) -> bool
        ensures { result ≡ (nat_le 1000 (length self.now.living) || nat_le (2 ^ 64 - 1) self.now.begun) }
    {
        self.living.len() >= MOST_SESSIONS || self.begun == u64::MAX
    }

    /// Adds a session, and gives its number.
    fn add(&mut self, target: Target) -> Result<u64, SessionFault>
        requires few { length self.old.living < 1000 }
        requires fits { self.old.begun + 1 < 2 ^ 64 }
        ensures ok { IfOk result (λ number. (number ≡ self.old.begun + 1)
            × (self.new ≡ record { living = opened (self.old.begun + 1) (Some target.place) target.behaviour target.condition target.defer self.old.living; begun = self.old.begun + 1 })) }
        ensures err { OnErr result (self.new ≡ self.old) }
        ensures memory { OnErr result (result ≡ Err SessionFault.Memory) }
    {
        let number = self.begun + 1;
        match self
            .living
            .push(OpenSession::new(self.alloc, number, target))
        {
            Ok(()) => {
                self.begun = number;
                Ok(number)
            }
            Err(_) => Err(SessionFault::Memory),
        }
    }

    /// How many bytes the sessions hold.
    fn bytes(&self) -> u64
        ensures { result ≡ bytes_held self.now.living }
    {
        let mut held = 0;
        for session in self.living.as_slice() {
            held += session.count();
        }
        held
    }

    /// The session of a number.
    fn find(&self, session: u64) -> Option<&OpenSession>
        ensures { option_copied result ≡ session_at session self.now.living }
    {
        self.living.iter().find(|other| other.number() == session)
    }

    /// Whether so many more bytes would pass the limit.
    fn is_full(&self, kept_bytes: u64, count: u64) -> bool
        ensures { result ≡ nat_lt 536870912 (kept_bytes + bytes_held self.now.living + count) }
    {
        kept_bytes
            .saturating_add(self.bytes())
            .saturating_add(count)
            > MOST_BYTES
    }

    /// Why a fragment is refused.
    fn fault(
        &self,
        session: u64,
        first: u64,
        last: u64,
        total: u64,
        bytes: &[u8],
        kept_bytes: u64,
    ) -> Option<SessionFault>
        ensures { result ≡ fragment_fault kept_bytes self.now.living (session_at session self.now.living) first last total bytes.now }
    {
        let count = bytes.len() as u64;
        let full = self.is_full(kept_bytes, count);
        match self.find(session) {
            Some(found) => found.fault(first, last, total, count, full),
            None => Some(SessionFault::NoSession),
        }
    }

    /// All bytes of the file that a fragment completes.
    fn whole(
        &self,
        session: u64,
        last: u64,
        total: u64,
        bytes: &[u8],
    ) -> Result<Option<Bytes>, SessionFault>
        requires { last < total }
        ensures memory { OnErr result (result ≡ Err SessionFault.Memory) }
        ensures whole { IfOk result (λ whole. whole ≡ cond (is_completed (session_at session self.now.living) last total)
            (Some (filled_in (session_at session self.now.living) ++ bytes.now)) None) }
    {
        let Some(found) = self.find(session) else {
            return Ok(None);
        };
        if !found.completes(last, total) {
            return Ok(None);
        }
        match found.joined(self.alloc, bytes) {
            Ok(all) => Ok(Some(all)),
            Err(NoMemory) => Err(SessionFault::Memory),
        }
    }

    /// Keeps the bytes of a fragment.
    fn keep(&mut self, session: u64, total: u64, bytes: &[u8]) -> Result<(), SessionFault>
        requires { bytes_held self.old.living + length bytes.now ≤ 536870912 }
        ensures ok { OnOk result (self.new ≡ record { living = with_fragment session total bytes.now self.old.living; begun = self.old.begun }) }
        ensures err { OnErr result (self.new ≡ self.old) }
        ensures memory { OnErr result (result ≡ Err SessionFault.Memory) }
    {
        match append(self.living.as_mut_slice(), session, total, bytes) {
            Ok(()) => Ok(()),
            Err(NoMemory) => Err(SessionFault::Memory),
        }
    }

    /// How many bytes of a session came, none where it does not live.
    fn count(&self, session: u64) -> u64
        ensures { result ≡ length (filled_in (session_at session self.now.living)) }
    {
        match self.find(session) {
            Some(found) => found.count(),
            None => 0,
        }
    }

    /// All bytes of a session, if it is deferred and they came.
    fn finished(&self, found: &OpenSession) -> Result<Bytes, SessionFault>
        ensures { Answers (finish_fault (Some found.now)) result (λ bytes. bytes ≡ found.now.filled) }
    {
        match found.unfinished() {
            Some(fault) => Err(fault),
            None => {
                match found.joined(self.alloc, &[]) {
                    Ok(all) => Ok(all),
                    Err(NoMemory) => Err(SessionFault::Memory),
                }
            }
        }
    }

    /// Takes out the session of a number.
    fn remove(&mut self, session: u64)
        ensures { self.new ≡ record { living = without_session session self.old.living; begun = self.old.begun } }
    {
        self.living.retain(|other| other.number() != session);
    }
}
