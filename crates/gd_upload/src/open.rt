ghost use Rattle.std.specs.Prelude.{◌≡◌, ℕ, List, ◌+◌, ◌-◌, ◌<◌, ◌%◌, ◌++◌, [], length, IfOk, OnOk, OnErr, None, Some, nat_eq, nat_lt, nat_le, not, ◌||◌, ◌&&◌};
ghost use Rattle.gd_item.specs.Sessions.{Session, held_bytes, session_fragment_fault, is_last, is_other_total, is_filled, completes_file, finish_fault};
ghost use Rattle.gd_upload.specs.Stands.{target_in};

use crate::target::Target;
use gd_item::SessionFault;
use gd_names::{Bytes, NoMemory};
use std::alloc::Global;
use std::marker::Model;

/// The length of a file and of one fragment, above which neither is taken; every fragment but the last is a multiple
/// of the unit.
const MOST_TOTAL: u64 = 67_108_864;

const LARGE_FRAGMENT: u64 = 62_914_560;

const UNIT: u64 = 327_680;

/// A session that lives.
#[derive(Debug, Drop)]
pub struct OpenSession {
    number: u64,
    target: Target,
    /// The whole length, once a fragment said it.
    total: Option<u64>,
    filled: Bytes,
}

impl Model for OpenSession {
    ghost use Rattle.gd_item.specs.Sessions.{Session};

    ghost Value = { Session };

    ghost view = { λ s. record { number = s.number; place = s.target.place; behaviour = s.target.behaviour; condition = s.target.condition; defer = s.target.defer; total = s.total; filled = s.filled } };
}

/// Whether a range is none of the file, or not that of so many bytes.
fn is_wrong_range(first: u64, last: u64, total: u64, count: u64) -> bool
    ensures { result ≡ (nat_lt last first || nat_le total last || not (nat_eq (last - first + 1) count)) }
{
    last < first || total <= last || last - first + 1 != count
}

/// Whether a fragment that is not the last one is no multiple of the unit.
fn is_odd_part(last: u64, total: u64, count: u64) -> bool
    requires { last < total }
    ensures { result ≡ (not (is_last last total) && not (nat_eq (count % 327680) 0)) }
{
    last + 1 != total && count % UNIT != 0
}

impl OpenSession {
    pub fn new(alloc: Global, number: u64, target: Target) -> OpenSession
        ensures number { result.number ≡ number }
        ensures target { target_in result ≡ target }
        ensures total { result.total ≡ None }
        ensures filled { result.filled ≡ [] }
    {
        OpenSession {
            number,
            target,
            total: None,
            filled: Bytes::new(alloc),
        }
    }

    pub fn number(&self) -> u64
        ensures { result ≡ self.now.number }
    {
        self.number
    }

    /// How many bytes came.
    pub fn count(&self) -> u64
        ensures { result ≡ length self.now.filled }
    {
        self.filled.len() as u64
    }

    pub fn target(&self) -> &Target
        ensures { result.now ≡ target_in self.now }
    {
        &self.target
    }

    /// Whether the first fragment said another whole length.
    fn has_other_total(&self, total: u64) -> bool
        ensures { result ≡ is_other_total self.now.total total }
    {
        match self.total {
            None => false,
            Some(first) => first != total,
        }
    }

    /// Whether the last byte of the file is this one, and the file is made with it.
    pub fn completes(&self, last: u64, total: u64) -> bool
        requires { last < total }
        ensures { result ≡ completes_file self.now last total }
    {
        last + 1 == total && !self.target.defer
    }

    /// Why a fragment is refused, where it is known whether it would fill the drive.
    pub fn fault(
        &self,
        first: u64,
        last: u64,
        total: u64,
        count: u64,
        full: bool,
    ) -> Option<SessionFault>
        ensures { (kept : ℕ) (sessions : List Session) (bytes : List ℕ) → length bytes ≡ count → full ≡ nat_lt 536870912 (kept + held_bytes sessions + length bytes)
            → result ≡ session_fragment_fault kept sessions self.now first last total bytes }
    {
        if self.has_other_total(total) {
            Some(SessionFault::Total)
        } else if is_wrong_range(first, last, total, count) {
            Some(SessionFault::Form)
        } else if count >= LARGE_FRAGMENT || total > MOST_TOTAL {
            Some(SessionFault::TooLarge)
        } else if first != self.count() {
            Some(SessionFault::Range(self.count()))
        } else if is_odd_part(last, total, count) {
            Some(SessionFault::Multiple)
        } else if full {
            Some(SessionFault::Quota)
        } else {
            None
        }
    }

    /// Whether all bytes came.
    fn is_complete(&self) -> bool
        ensures { result ≡ is_filled self.now.total (length self.now.filled) }
    {
        match self.total {
            None => false,
            Some(total) => self.count() == total,
        }
    }

    /// Why the session is not finished.
    pub fn unfinished(&self) -> Option<SessionFault>
        ensures { result ≡ finish_fault (Some self.now) }
    {
        if !self.target.defer || !self.is_complete() {
            Some(SessionFault::Form)
        } else {
            None
        }
    }

    /// All bytes, with those of a last fragment.
    pub fn joined(&self, alloc: Global, bytes: &[u8]) -> Result<Bytes, NoMemory>
        ensures { IfOk result (λ all. all ≡ self.now.filled ++ bytes.now) }
    {
        let filled = self.filled.as_slice();
        let mut all = Vec::with_capacity(alloc, filled.len() + bytes.len())?;
        all.extend_from_slice(filled)?;
        all.extend_from_slice(bytes)?;
        Ok(Bytes::from_vec(all))
    }

    /// Keeps the bytes of a fragment.
    pub fn append(&mut self, total: u64, bytes: &[u8]) -> Result<(), NoMemory>
        ensures ok { OnOk result (self.new ≡ record self.old { total = Some total; filled = self.old.filled ++ bytes.now }) }
        ensures err { OnErr result (self.new ≡ self.old) }
    {
        self.filled.push_slice(bytes)?;
        self.total = Some(total);
        Ok(())
    }
}
