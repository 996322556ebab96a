//! A batch file, run as the one call that it holds.
#![tactic(auto)]

mod call;
pub mod fault;
mod sections;
mod words;

ghost use Rattle.std.specs.Prelude.{◌≡◌, length};
ghost use Rattle.analytic_v6.specs.Results.{answered};
ghost use Rattle.batch.specs.File.{call_loss, call_slots, file_loss, file_slots_def};

use crate::call::{Call, ROWS};
use crate::sections::{Kind, Sections};
use crate::words::WORDS;
use analytic_v6::cards::grad::card_loss_and_grad;
use analytic_v6::prefixes::grad::batch_loss_and_grad;
use columns::step_records::{Steps, no_step};
use domain::refusal::Refusal;

impl Call<'_> {
    ghost use Rattle.batch.specs.Sections.{header_at};

    // The loss, and its gradient, added to the slots.
    #[tactic(auto, unfolding(crate::specs::File::call_loss, crate::specs::File::call_slots, crate::specs::File::prefix_loss_in, crate::specs::File::prefix_slots_in, crate::specs::File::card_loss_in_def, crate::specs::File::card_slots_in))]
    fn run(&self, gw: &mut [f64]) -> Result<f64, Refusal>
        ensures loss { answered result ≡ call_loss (header_at self.now.sections) self.now.cells.now self.now.lengths.now (length gw.old) }
        ensures slots { gw.new ≡ call_slots (header_at self.now.sections) self.now.cells.now self.now.lengths.now gw.old }
    {
        let mut records = [no_step(); ROWS];
        // Stays: two kinds with an entry each; a trait over their decks would be longer than two arms.
        match self.sections.kind {
            Kind::Prefixes => {
                batch_loss_and_grad::<Steps>(self.weights(), &self.prefixes(), gw, &mut records)
            }
            Kind::Cards => {
                let mut step_grads = [0.0; ROWS];
                card_loss_and_grad::<Steps>(
                    self.weights(),
                    &self.cards(),
                    gw,
                    &mut records,
                    &mut step_grads,
                )
            }
        }
    }
}

/// The loss of the call that the file holds, and its gradient, added to the 21 slots of `gw`. `Refusal::File` where the file is
/// malformed; then the refusals of the call. A refused file leaves `gw` as it was.
#[tactic(auto, using(crate::proofs::Formed::refused_loss))]
pub fn run_file(file: &[u8], gw: &mut [f64]) -> Result<f64, Refusal>
    ensures loss { answered result ≡ file_loss file.now (length gw.old) }
    ensures slots { gw.new ≡ file_slots_def file.now gw.old }
{
    let sections = Sections::read(file)?;
    // Stays: no heap (a rule of the project), so the words of the longest file have room here.
    let mut cells = [0.0; WORDS];
    let mut lengths = [0; WORDS];
    Call::read(file, sections, &mut cells, &mut lengths).run(gw)
}
