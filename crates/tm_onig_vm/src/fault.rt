//! Why a search ends without an answer.
use tm_defs::memory::OutOfMemory;

/// Why a search ended early.
#[derive(Clone, Copy, Debug, PartialEq, Eq)]
pub enum FindFault {
    /// The search costs more than the budget.
    Budget,
    OutOfMemory,
}

impl From<OutOfMemory> for FindFault {
    ghost use Rattle.std.specs.Prelude.{◌≡◌};
    ghost use Rattle.tm_onig_vm.specs.declared.fault.FindFault.{FindFault};

    ghost from_gives = { λ _ fault. fault ≡ FindFault.OutOfMemory };

    fn from(_refused: OutOfMemory) -> FindFault {
        FindFault::OutOfMemory
    }
}
