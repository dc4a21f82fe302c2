ghost use Rattle.std.specs.Prelude.{◌≡◌, ◌≤◌, true, false, is_none, [], Some, None, IfOk, MatchBool};
ghost use Rattle.gd_names.specs.Streams.{Rose};
ghost use Rattle.od_keeper.specs.Called.{called, counts_of, is_stopped};
ghost use Rattle.od_keeper.specs.Images.{applied};
ghost use Rattle.od_keeper.specs.Keeping.{last_image};
ghost use Rattle.od_keeper.specs.Memory.{is_empty};

use crate::apply::{applied, empty_image};
use crate::fault::KeeperFault;
use crate::image::{Change, Image};
use crate::keeper::Keeper;
use gd_names::{List, NoMemory};
use std::alloc::Global;

/// A keeper in memory, that fails at the listed calls of both kinds, counted from 1, and from its stop on. A failing call
/// changes nothing.
#[derive(Debug, Drop)]
pub struct MemoryKeeper {
    alloc: Global,
    images: List<Image>,
    failing: List<u64>,
    stop: Option<u64>,
    calls: u64,
    faults: u64,
}

impl MemoryKeeper {
    ghost use Rattle.od_keeper.specs.Memory.{images_of, faults_of, failing_of, stop_of, calls_of};

    pub fn new(alloc: Global, failing: List<u64>) -> MemoryKeeper
        ensures images { images_of result ≡ Some [] }
        ensures faults { faults_of result ≡ 0 }
        ensures failing { failing_of result ≡ failing }
        ensures stop { stop_of result ≡ None }
        ensures calls { calls_of result ≡ 0 }
    {
        MemoryKeeper {
            alloc,
            images: List::new(alloc),
            failing,
            stop: None,
            calls: 0,
            faults: 0,
        }
    }

    /// Lists other calls as failing, and counts them anew. From the stop on every call fails.
    pub fn arm(&mut self, failing: List<u64>, stop: Option<u64>)
        ensures images { images_of self.new ≡ images_of self.old }
        ensures faults { faults_of self.new ≡ faults_of self.old }
        ensures failing { failing_of self.new ≡ failing }
        ensures stop { stop_of self.new ≡ stop }
        ensures calls { calls_of self.new ≡ 0 }
    {
        self.failing = failing;
        self.stop = stop;
        self.calls = 0;
    }

    /// Counts a call, and says whether it fails.
    fn fails(&mut self) -> bool
        ensures images { self.new.images ≡ self.old.images }
        ensures counts { counts_of self.new ≡ called self.old.failing self.old.stop (counts_of self.old) }
        ensures faults { MatchBool result (Rose self.old.faults self.new.faults) (self.new.faults ≡ self.old.faults) }
        ensures later { self.old.faults ≤ self.new.faults }
        ensures failing { self.new.failing ≡ self.old.failing }
        ensures stop { self.new.stop ≡ self.old.stop }
        ensures undisturbed { is_empty self.old.failing ≡ true → is_none self.old.stop ≡ true → result ≡ false }
    {
        self.calls = self.calls.saturating_add(1);
        if self.failing.as_slice().contains(&self.calls) || is_stopped(self.stop, self.calls) {
            self.faults = self.faults.saturating_add(1);
            return true;
        }
        false
    }
}

/// Whether so many calls have reached a stop.
fn is_stopped(stop: Option<u64>, calls: u64) -> bool
    ensures { result ≡ is_stopped stop calls }
{
    match stop {
        Some(stop) => stop <= calls,
        None => false,
    }
}

/// The last of the images, and the empty one where there is none.
fn last_of(alloc: Global, images: &[Image]) -> Result<Image, NoMemory>
    ensures { IfOk result (λ image. image ≡ last_image images.now) }
{
    match images {
        [.., image] => Ok(image.clone()?),
        [] => Ok(empty_image(alloc)),
    }
}

/// The last image with a change.
fn next_of(alloc: Global, change: &Change, images: &[Image]) -> Result<Image, NoMemory>
    ensures { IfOk result (λ image. image ≡ applied change.now (last_image images.now)) }
{
    match images {
        [.., image] => applied(alloc, change, image),
        [] => {
            let empty = empty_image(alloc);
            applied(alloc, change, &empty)
        }
    }
}

impl Keeper for MemoryKeeper {
    ghost use Rattle.od_keeper.specs.Called.{GoesOn};
    ghost use Rattle.od_keeper.specs.GoingOn.{going_nowhere, going_further, going_later};
    ghost use Rattle.od_keeper.specs.Memory.{images_of, faults_of, is_undisturbed};

    ghost images = { λ k. images_of k };

    ghost faults = { λ k. faults_of k };

    ghost undisturbed = { λ k. is_undisturbed k };

    ghost goes = { GoesOn };

    ghost goes_refl = { going_nowhere };

    ghost goes_trans = { going_further };

    ghost goes_later = { going_later };

    fn load(&mut self, alloc: Global) -> Result<Image, KeeperFault> {
        if self.fails() {
            return Err(KeeperFault::Failed);
        }
        let image = last_of(alloc, self.images.as_slice())?;
        Ok(image)
    }

    fn commit(&mut self, change: &Change) -> Result<(), KeeperFault> {
        if self.fails() {
            return Err(KeeperFault::Failed);
        }
        let image = next_of(self.alloc, change, self.images.as_slice())?;
        self.images.push(image)?;
        Ok(())
    }
}
