//! The C functions for a batch file.
#![tactic(auto, using(crate::proofs::Given::given), unfolding(crate::specs::Places::written))]

ghost use Rattle.std.specs.Prelude.{◌≡◌};
ghost use Rattle.fsrs6.specs.Losses.{GivesFile};
ghost use Rattle.fsrs6.specs.Why.{file_fault};

use crate::places::answer;
use crate::why::FaultNumbers;
use batch::fault::file_fault;
use batch::run_file;

pub fn fsrs_batch_file(file: &[u8], gw: &mut [f64], loss: &mut f64) -> u32
    ensures { GivesFile file.now result gw.old gw.new loss.old loss.new }
{
    answer(run_file(file, gw), loss)
}

// By value: there is nothing to write, so that a refused file writes nothing.
pub fn fsrs_batch_file_fault(file: &[u8]) -> FaultNumbers
    ensures { result ≡ file_fault file.now }
{
    FaultNumbers::from(file_fault(file))
}
