//! Laws of the definitions, each the contract of a function that does nothing.
ghost use Rattle.std.specs.Prelude.{◌≡◌, List, [], ◌++◌, None};
ghost use Rattle.gd_item.specs.declared.step.Step.{Step};
ghost use Rattle.od_keeper.specs.Called.{GoesOn};
ghost use Rattle.od_keeper.specs.Images.{empty_image};
ghost use Rattle.od_keeper.specs.Memory.{faults_of, failing_of, stop_of};
ghost use Rattle.od_keeper.specs.Sound.{IsSound};
ghost use Rattle.od_keeper.specs.declared.image.Image.{Image};
ghost use Rattle.od_keeper.specs.declared.memory.MemoryKeeper.{MemoryKeeper};

/// An image that is sound stays sound while the drive's log grows.
pub fn soundness_is_kept()
    ensures { (image : Image) (log more : List Step) → IsSound image log → IsSound image (log ++ more) }
{}

/// The image of a beginning is sound.
pub fn the_empty_image_is_sound()
    ensures { (log : List Step) → IsSound empty_image log }
{}

/// A keeper in memory for which no call is listed, and no stop, never fails.
pub fn unlisted_calls_never_fail()
    ensures { (before after : MemoryKeeper) → GoesOn before after → failing_of before ≡ [] → stop_of before ≡ None → faults_of after ≡ faults_of before }
{}
