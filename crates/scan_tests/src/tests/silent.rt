//! A drive that never answers.
ghost use Rattle.std.specs.Prelude.{◌≡◌};

use gd_item::{Reply, Request};
use od_remote::{AskFault, Remote};
use std::alloc::Global;

/// How often it was asked.
#[derive(Debug, Drop)]
pub struct Silent {
    pub faults: u64,
}

impl Remote for Silent {
    ghost use Rattle.std.proofs.Common.{le_refl, le_trans};
    ghost use Rattle.std.specs.Prelude.{◌≡◌, ◌≤◌, [], None};

    ghost log = { λ r. None };

    ghost counts = { λ r. record { faults = r.faults; answers = 0; in_row = r.faults; exchanges = None } };

    ghost reads = { λ r kind bytes reply. bytes ≡ [] };

    ghost goes = { λ x y. x.faults ≤ y.faults };

    fn ask(&mut self, _alloc: Global, _request: &Request) -> Result<Reply, AskFault> {
        self.faults = self.faults.saturating_add(1);
        Err(AskFault::Failed)
    }

    ghost goes_refl = { λ x. le_refl x.faults };

    ghost goes_trans = { λ x y z first more. le_trans first more };

    ghost goes_later = { λ x y goes. record { faults = goes; answers = le_refl 0; exchanges = λ old at. absurd (cc at) } };

    ghost goes_reads = { λ x y goes. record { still = λ kind bytes reply read. read; back = λ kind bytes reply read. read } };
}
