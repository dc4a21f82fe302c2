ghost use Rattle.std.specs.Prelude.{◌≡◌, List, ◌++◌, ◌∷◌, []};
ghost use Rattle.gd_item.specs.declared.step.Step.{Step};
ghost use Rattle.gd_item.specs.declared.step.Step.TheVariants.{Event};
ghost use Rattle.gd_item.specs.declared.step.DriveEvent.TheVariants as event;

use crate::drive::Drive;

impl Drive {
    ghost use Rattle.gd_api.specs.Drives.{Stands};

    /// Tokens below a change number are no longer served.
    pub(super) fn expire(&mut self, number: u64)
        ensures stands { (log : List Step) → Stands self.old log → Stands self.new (log ++ Event (event.Expire number) ∷ []) }
        ensures size { self.new.size ≡ self.old.size }
    {
        self.store.expire(number);
    }

    /// No token of before is served.
    pub(super) fn restore(&mut self)
        ensures stands { (log : List Step) → Stands self.old log → Stands self.new (log ++ Event event.Restore ∷ []) }
        ensures size { self.new.size ≡ self.old.size }
    {
        self.store.restore();
    }

    /// A session ends, if it lives.
    pub(super) fn end_session(&mut self, session: u64)
        ensures stands { (log : List Step) → Stands self.old log → Stands self.new (log ++ Event (event.EndSession session) ∷ []) }
        ensures size { self.new.size ≡ self.old.size }
    {
        self.sessions.end(session);
    }

    /// Replies give neither digests nor content tags from now on.
    pub(super) fn become_plain(&mut self)
        ensures stands { (log : List Step) → Stands self.old log → Stands self.new (log ++ Event event.Plain ∷ []) }
        ensures size { self.new.size ≡ self.old.size }
    {
        self.plain = true;
    }
}
