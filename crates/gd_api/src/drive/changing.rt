ghost use Rattle.std.specs.Prelude.{◌≡◌, List, true, ◌&&◌, is_none};
ghost use Rattle.gd_item.specs.Steps.{state_of};
ghost use Rattle.gd_item.specs.declared.step.Step.{Step};
ghost use Rattle.gd_api.specs.Drives.{Serves, is_refusal};
ghost use Rattle.gd_api.specs.Replies.{whole_answer};

use crate::drive::{Drive, make_reply};
use crate::steps;
use gd_item::{Address, Condition, ErrorCode, ItemId, Reply, Request};
use gd_names::{Bytes, Conflict, Text};

/// How many bytes a file has at most that is put at once.
const MOST_PUT: usize = 4_194_304;

/// Whether a move has neither a name nor a folder.
fn is_empty_patch(name: &Option<Text>, parent: Option<ItemId>) -> bool
    ensures { result ≡ (is_none name.now && is_none parent) }
{
    name.is_none() && parent.is_none()
}

impl Drive {
    ghost use Rattle.gd_api.specs.Drives.{Stands};

    pub(super) fn make_folder(&mut self, at: &Address, name: &Text, behaviour: Conflict) -> Reply
        ensures answer { (log : List Step) → Stands self.old log
            → Serves self.old self.new log (Request.MakeFolder at.now name.now behaviour) result
            (whole_answer (state_of log) self.old.size (Request.MakeFolder at.now name.now behaviour)) }
        ensures refusal { is_refusal result ≡ true → self.new ≡ self.old }
        ensures size { self.new.size ≡ self.old.size }
    {
        make_reply(steps::make_folder(&mut self.store, at, name, behaviour))
    }

    pub(super) fn put(
        &mut self,
        at: &Address,
        bytes: &Bytes,
        behaviour: Conflict,
        condition: &Condition,
    ) -> Reply
        ensures answer { (log : List Step) → Stands self.old log
            → Serves self.old self.new log (Request.Put at.now bytes.now behaviour condition.now) result
            (whole_answer (state_of log) self.old.size (Request.Put at.now bytes.now behaviour condition.now)) }
        ensures refusal { is_refusal result ≡ true → self.new ≡ self.old }
        ensures size { self.new.size ≡ self.old.size }
    {
        if bytes.len() > MOST_PUT {
            return Reply::Refused {
                status: 413,
                code: ErrorCode::InvalidRequest,
            };
        }
        make_reply(steps::put(
            self.alloc,
            &mut self.store,
            at,
            bytes.as_slice(),
            behaviour,
            condition,
            self.sessions.held_bytes(),
        ))
    }

    pub(super) fn patch(
        &mut self,
        at: &Address,
        name: &Option<Text>,
        parent: Option<ItemId>,
        condition: &Condition,
    ) -> Reply
        ensures answer { (log : List Step) → Stands self.old log
            → Serves self.old self.new log (Request.Patch at.now name.now parent condition.now) result
            (whole_answer (state_of log) self.old.size (Request.Patch at.now name.now parent condition.now)) }
        ensures refusal { is_refusal result ≡ true → self.new ≡ self.old }
        ensures size { self.new.size ≡ self.old.size }
    {
        if is_empty_patch(name, parent) {
            return Reply::Refused {
                status: 400,
                code: ErrorCode::InvalidRequest,
            };
        }
        make_reply(steps::patch(&mut self.store, at, name.as_ref(), parent, condition))
    }

    pub(super) fn delete(&mut self, at: &Address, condition: &Condition) -> Reply
        ensures answer { (log : List Step) → Stands self.old log
            → Serves self.old self.new log (Request.Delete at.now condition.now) result (whole_answer (state_of log) self.old.size (Request.Delete at.now condition.now)) }
        ensures refusal { is_refusal result ≡ true → self.new ≡ self.old }
        ensures size { self.new.size ≡ self.old.size }
    {
        make_reply(steps::remove(&mut self.store, at, condition))
    }
}
