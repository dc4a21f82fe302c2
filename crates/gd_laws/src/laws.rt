//! What holds in every log of a drive, each law the contract of a function that does nothing.
ghost use Rattle.std.specs.Prelude.{◌≡◌, List, [], ◌∷◌, ◌++◌};
ghost use Rattle.gd_item.specs.Sessions.{State};
ghost use Rattle.gd_item.specs.Steps.{effects_by, after_step, state_of};
ghost use Rattle.gd_laws.specs.EveryDrive.{EveryDrive};

use gd_item::Step;

/// Whatever the log of a drive: its items are a tree with good names, its numbers fit and are each of one item, and no
/// limit is passed.
pub fn every_drive_keeps_this()
    ensures { (log : List Step) → EveryDrive (state_of log) }
{}

/// The same from any state of which it holds, over one step.
pub fn a_step_keeps_this()
    ensures { (state : State) (step : Step) → EveryDrive state → EveryDrive (after_step state step) }
{}

/// The effects of a log are those of its steps, one after the other.
pub fn a_step_adds_its_effects()
    ensures { (log : List Step) (step : Step) → (state_of (log ++ step ∷ [])).effects ≡ (state_of log).effects ++ effects_by (state_of log) step }
{}
