ghost use Rattle.std.specs.Prelude.{◌≡◌};

use crate::outside::Outside;
use gd_item::{Reply, Request};
use gd_names::{Bytes, List, Path};
use od_keeper::{Change, Image, Keeper, KeeperFault};
use od_remote::{AskFault, Remote, ServeFault, ask_again, ask_until_served};
use od_tree::{Aside, Entry, Tree, TreeFault};
use std::alloc::Global;

/// Three outside objects, lent as one.
#[derive(Drop)]
pub struct Bundle<'r, 't, 'k, R, T, K> {
    pub remote: &'r mut R,
    pub tree: &'t mut T,
    pub keeper: &'k mut K,
}

impl<'r, 't, 'k, R: Remote, T: Tree, K: Keeper> Outside for Bundle<'r, 't, 'k, R, T, K> {
    ghost use Rattle.std.proofs.Common.{◌≡◌, ◌∙◌, refl};
    ghost use Rattle.od_outside.specs.Bundles.{AllGo};
    ghost use Rattle.od_outside.specs.Seeing.{world_of};

    // that one goes on to the other says too that both hold the same three references: by that a caller that lends
    // them knows what they are afterwards
    ghost seen = { record {
      world = λ s. world_of (R.log s.remote.now) (T.log s.tree.now) (K.images s.keeper.now);
      counts = λ s. record { link = R.counts s.remote.now; tree = T.faults s.tree.now; keeper = K.faults s.keeper.now };
      reads = λ s. R.reads s.remote.now;
      goes = λ x y. AllGo
          ((y.remote.ghost_name ≡ x.remote.ghost_name) × R.goes x.remote.now y.remote.now)
          ((y.tree.ghost_name ≡ x.tree.ghost_name) × T.goes x.tree.now y.tree.now)
          ((y.keeper.ghost_name ≡ x.keeper.ghost_name) × K.goes x.keeper.now y.keeper.now);
    } };

    ghost laws = { record {
      goes_refl = λ x. record {
        remote = (refl, R.goes_refl x.remote.now);
        tree = (refl, T.goes_refl x.tree.now);
        keeper = (refl, K.goes_refl x.keeper.now);
      };
      goes_trans = λ x y z a b. record {
        remote = (b.remote.0 ∙ a.remote.0, R.goes_trans x.remote.now y.remote.now z.remote.now a.remote.1 b.remote.1);
        tree = (b.tree.0 ∙ a.tree.0, T.goes_trans x.tree.now y.tree.now z.tree.now a.tree.1 b.tree.1);
        keeper = (b.keeper.0 ∙ a.keeper.0, K.goes_trans x.keeper.now y.keeper.now z.keeper.now a.keeper.1 b.keeper.1);
      };
      goes_later = λ x y a. record {
        link = R.goes_later x.remote.now y.remote.now a.remote.1;
        tree = T.goes_later x.tree.now y.tree.now a.tree.1;
        keeper = K.goes_later x.keeper.now y.keeper.now a.keeper.1;
      };
      goes_reads = λ x y a. R.goes_reads x.remote.now y.remote.now a.remote.1;
    } };

    fn ask(&mut self, alloc: Global, request: &Request) -> Result<Reply, AskFault> {
        self.remote.ask(alloc, request)
    }

    fn ask_again(&mut self, alloc: Global, request: &Request) -> Result<Reply, AskFault> {
        ask_again(self.remote, alloc, request)
    }

    fn ask_until_served(&mut self, alloc: Global, request: &Request) -> Result<Reply, ServeFault> {
        ask_until_served(self.remote, alloc, request)
    }

    fn list(&mut self, alloc: Global, at: &Path) -> Result<List<Entry>, TreeFault> {
        self.tree.list(alloc, at)
    }

    fn read(&mut self, alloc: Global, at: &Path) -> Result<Bytes, TreeFault> {
        self.tree.read(alloc, at)
    }

    fn make_dir(&mut self, at: &Path) -> Result<(), TreeFault> {
        self.tree.make_dir(at)
    }

    fn place(&mut self, at: &Path, bytes: &[u8]) -> Result<(), TreeFault> {
        self.tree.place(at, bytes)
    }

    fn remove_dir(&mut self, at: &Path) -> Result<(), TreeFault> {
        self.tree.remove_dir(at)
    }

    fn rename(&mut self, from: &Path, to: &Path) -> Result<(), TreeFault> {
        self.tree.rename(from, to)
    }

    fn set_aside(&mut self, at: &Path) -> Result<u64, TreeFault> {
        self.tree.set_aside(at)
    }

    fn read_aside(&mut self, alloc: Global, aside: u64) -> Result<Bytes, TreeFault> {
        self.tree.read_aside(alloc, aside)
    }

    fn put_back(&mut self, aside: u64, to: &Path) -> Result<(), TreeFault> {
        self.tree.put_back(aside, to)
    }

    fn discard(&mut self, aside: u64) -> Result<(), TreeFault> {
        self.tree.discard(aside)
    }

    fn asides(&mut self, alloc: Global) -> Result<List<Aside>, TreeFault> {
        self.tree.asides(alloc)
    }

    fn load(&mut self, alloc: Global) -> Result<Image, KeeperFault> {
        self.keeper.load(alloc)
    }

    fn commit(&mut self, change: &Change) -> Result<(), KeeperFault> {
        self.keeper.commit(change)
    }
}
