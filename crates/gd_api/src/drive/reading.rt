ghost use Rattle.std.specs.Prelude.{◌≡◌, List};
ghost use Rattle.gd_item.specs.Steps.{state_of};
ghost use Rattle.gd_item.specs.declared.step.Step.{Step};
ghost use Rattle.gd_api.specs.Drives.{Serves};
ghost use Rattle.gd_api.specs.Replies.{whole_answer};

use crate::drive::{Drive, make_reply, unserved};
use crate::{feed, reads};
use gd_item::{Address, ItemId, Reply, Request};
use gd_names::{NoMemory, Text};

impl Drive {
    ghost use Rattle.gd_api.specs.Drives.{Stands};

    pub(super) fn get(&self, at: &Address) -> Reply
        ensures answer { (log : List Step) → Stands self.now log
            → Serves self.now self.now log (Request.Get at.now) result (whole_answer (state_of log) self.now.size (Request.Get at.now)) }
    {
        make_reply(reads::get(&self.store, at))
    }

    pub(super) fn children(&self, at: &Address, after: &Option<Text>) -> Reply
        ensures answer { (log : List Step) → Stands self.now log
            → Serves self.now self.now log (Request.Children at.now after.now) result (whole_answer (state_of log) self.now.size (Request.Children at.now after.now)) }
    {
        make_reply(reads::children(&self.store, at, after.as_ref(), self.size))
    }

    pub(super) fn content(&self, at: &Address) -> Reply
        ensures answer { (log : List Step) → Stands self.now log
            → Serves self.now self.now log (Request.Content at.now) result (whole_answer (state_of log) self.now.size (Request.Content at.now)) }
        ensures served { (log : List Step) → Stands self.now log → result ≡ whole_answer (state_of log) self.now.size (Request.Content at.now) }
    {
        make_reply(reads::content(&self.store, at))
    }

    pub(super) fn download(&self, id: ItemId, version: u64) -> Reply
        ensures answer { (log : List Step) → Stands self.now log
            → Serves self.now self.now log (Request.Download id version) result (whole_answer (state_of log) self.now.size (Request.Download id version)) }
    {
        make_reply(reads::download(&self.store, id, version))
    }

    pub(super) fn delta(&self, token: &Option<Text>) -> Reply
        ensures answer { (log : List Step) → Stands self.now log
            → Serves self.now self.now log (Request.Delta token.now) result (whole_answer (state_of log) self.now.size (Request.Delta token.now)) }
    {
        match feed::delta(self.alloc, &self.store, token.as_ref(), self.size) {
            Ok(reply) => reply,
            Err(NoMemory) => unserved(),
        }
    }
}
