ghost use Rattle.std.specs.Prelude.{◌≡◌, List, true};
ghost use Rattle.gd_item.specs.Steps.{state_of};
ghost use Rattle.gd_item.specs.declared.step.Step.{Step};
ghost use Rattle.gd_api.specs.Drives.{Serves, is_refusal};
ghost use Rattle.gd_api.specs.Replies.{whole_answer};

use crate::drive::{Drive, make_reply, make_session_reply};
use crate::uploads;
use gd_item::{Address, Condition, ErrorCode, Reply, Request};
use gd_names::{Bytes, Conflict, Text};
use gd_upload::Progress;

impl Drive {
    ghost use Rattle.gd_api.specs.Drives.{Stands};

    pub(super) fn open_session(
        &mut self,
        at: &Address,
        name: &Option<Text>,
        behaviour: Conflict,
        condition: &Condition,
        defer: bool,
    ) -> Reply
        ensures answer { (log : List Step) → Stands self.old log
            → Serves self.old self.new log (Request.OpenSession at.now name.now behaviour condition.now defer) result
            (whole_answer (state_of log) self.old.size (Request.OpenSession at.now name.now behaviour condition.now defer)) }
        ensures refusal { is_refusal result ≡ true → self.new ≡ self.old }
        ensures size { self.new.size ≡ self.old.size }
    {
        if uploads::is_other_name(at, name.as_ref()) {
            return Reply::Refused {
                status: 400,
                code: ErrorCode::InvalidRequest,
            };
        }
        match uploads::find_allowed(self.alloc, &self.store, at, behaviour, condition) {
            Ok(place) => {
                make_session_reply(uploads::begin(
                    &mut self.sessions,
                    place,
                    behaviour,
                    condition,
                    defer,
                ))
            }
            Err(fault) => make_reply(Err(fault)),
        }
    }

    pub(super) fn fragment(
        &mut self,
        session: u64,
        first: u64,
        last: u64,
        total: u64,
        bytes: &Bytes,
    ) -> Reply
        ensures answer { (log : List Step) → Stands self.old log
            → Serves self.old self.new log (Request.Fragment session first last total bytes.now) result
            (whole_answer (state_of log) self.old.size (Request.Fragment session first last total bytes.now)) }
        ensures refusal { is_refusal result ≡ true → self.new ≡ self.old }
        ensures size { self.new.size ≡ self.old.size }
    {
        let kept = self.store.kept_bytes();
        match self
            .sessions
            .fragment(session, first, last, total, bytes.as_slice(), kept)
        {
            Ok(Progress::More(expected)) => Reply::More { expected },
            Ok(Progress::Whole(all)) => {
                make_reply(uploads::commit(
                    &mut self.store,
                    &mut self.sessions,
                    session,
                    all.as_slice(),
                ))
            }
            Err(fault) => make_session_reply(Err(fault)),
        }
    }

    pub(super) fn session_status(&self, session: u64) -> Reply
        ensures answer { (log : List Step) → Stands self.now log
            → Serves self.now self.now log (Request.SessionStatus session) result (whole_answer (state_of log) self.now.size (Request.SessionStatus session)) }
        ensures served { (log : List Step) → Stands self.now log → result ≡ whole_answer (state_of log) self.now.size (Request.SessionStatus session) }
    {
        make_session_reply(uploads::status(&self.sessions, session))
    }

    pub(super) fn cancel_session(&mut self, session: u64) -> Reply
        ensures answer { (log : List Step) → Stands self.old log
            → Serves self.old self.new log (Request.CancelSession session) result (whole_answer (state_of log) self.old.size (Request.CancelSession session)) }
        ensures served { (log : List Step) → Stands self.old log → result ≡ whole_answer (state_of log) self.old.size (Request.CancelSession session) }
        ensures refusal { is_refusal result ≡ true → self.new ≡ self.old }
        ensures size { self.new.size ≡ self.old.size }
    {
        make_session_reply(uploads::cancel(&mut self.sessions, session))
    }

    pub(super) fn finish(&mut self, session: u64) -> Reply
        ensures answer { (log : List Step) → Stands self.old log
            → Serves self.old self.new log (Request.Finish session) result (whole_answer (state_of log) self.old.size (Request.Finish session)) }
        ensures refusal { is_refusal result ≡ true → self.new ≡ self.old }
        ensures size { self.new.size ≡ self.old.size }
    {
        match self.sessions.finish(session) {
            Ok(all) => {
                make_reply(uploads::commit(
                    &mut self.store,
                    &mut self.sessions,
                    session,
                    all.as_slice(),
                ))
            }
            Err(fault) => make_session_reply(Err(fault)),
        }
    }
}
