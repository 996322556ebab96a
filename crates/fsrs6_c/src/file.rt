//! The C functions for a batch file.
ghost use Rattle.std.specs.Prelude.{◌≡◌};
ghost use Rattle.fsrs6.specs.Losses.{GivesFile};
ghost use Rattle.fsrs6.specs.Why.{file_fault};

use fsrs6::why::FaultNumbers;

#[unsafe(no_mangle)]
pub extern "C" fn fsrs_batch_file(file: &[u8], gw: &mut [f64], loss: &mut f64) -> u32
    ensures { GivesFile file.now result gw.old gw.new loss.old loss.new }
{
    fsrs6::file::fsrs_batch_file(file, gw, loss)
}

#[unsafe(no_mangle)]
pub extern "C" fn fsrs_batch_file_fault(file: &[u8]) -> FaultNumbers
    ensures { result ≡ file_fault file.now }
{
    fsrs6::file::fsrs_batch_file_fault(file)
}
