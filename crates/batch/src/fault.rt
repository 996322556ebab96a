//! Why a batch file is refused: as `run_file` refuses it, and the place of the cell that is bad, where that is the reason.
ghost use Rattle.std.specs.Prelude.{◌≡◌};
ghost use Rattle.checks.specs.Faults.{PlacedWhere, fault_of};
ghost use Rattle.batch.specs.File.{call_fault_def, call_reads, file_fault_def, file_reads};

use crate::call::{Call, ROWS, SLOTS};
use crate::sections::{Kind, Sections};
use crate::words::WORDS;
use checks::fault::Fault;
use checks::places::{batch_loss_and_grad_fault, card_loss_and_grad_fault};

impl Call<'_> {
    ghost use Rattle.batch.specs.Sections.{header_at};

    #[tactic(auto, unfolding(crate::specs::File::call_fault_def, crate::specs::File::prefix_fault_in, crate::specs::File::card_fault_in))]
    fn check(&self) -> Result<(), Fault>
        ensures fault { fault_of result ≡ call_fault_def (header_at self.now.sections) self.now.cells.now self.now.lengths.now }
        ensures place { PlacedWhere (call_reads (header_at self.now.sections) self.now.cells.now self.now.lengths.now) result }
    {
        // Stays: two kinds with a function each; a trait over their decks would be longer than two arms.
        match self.sections.kind {
            Kind::Prefixes => {
                batch_loss_and_grad_fault(self.weights(), &self.prefixes(), SLOTS, ROWS)
            }
            Kind::Cards => {
                card_loss_and_grad_fault(self.weights(), &self.cards(), SLOTS, ROWS, ROWS)
            }
        }
    }
}

/// `Refusal::File` where the file is malformed; then the fault of the call that it holds, where 21 slots are lent.
#[tactic(auto, using(crate::proofs::Formed::refused_fault))]
pub fn file_fault(file: &[u8]) -> Result<(), Fault>
    ensures fault { fault_of result ≡ file_fault_def file.now }
    ensures place { PlacedWhere (file_reads file.now) result }
{
    let sections = Sections::read(file)?;
    // Stays: no heap (a rule of the project), as in `run_file`.
    let mut cells = [0.0; WORDS];
    let mut lengths = [0; WORDS];
    Call::read(file, sections, &mut cells, &mut lengths).check()
}
