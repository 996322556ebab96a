// Runs the lists of test vectors in data/, one after another, and writes how many lines of each function passed. The scripts in
// tools/vectors made the lists, by arithmetic on whole numbers, and say what a line holds; the answers of the list `rust` are
// those of the Rust's own text over our kernels (`oracle/run --sample`). This program only compares.
#![tactic(auto)]

mod arithmetic;
mod counts;
mod digests;
mod explained;
mod given;
mod initial;
mod line;
mod list;
mod losses;
mod patterns;
mod penalty;
mod steps;
mod study;
mod words;

use crate::arithmetic::Arithmetic;
use crate::explained::Explained;
use crate::initial::Initial;
use crate::list::run_list;
use crate::losses::Losses;
use crate::penalty::Penalty;
use crate::steps::Steps;
use crate::study::Study;
use std::io;

fn main(rt: HostRuntime) -> io::Result<()> {
    let rt = &rt;
    run_list::<Arithmetic>(rt, "arithmetic")?;
    run_list::<Study>(rt, "study")?;
    run_list::<Steps>(rt, "step")?;
    run_list::<Losses>(rt, "losses")?;
    run_list::<Losses>(rt, "aligned")?;
    run_list::<Losses>(rt, "rust")?;
    run_list::<Penalty>(rt, "penalty")?;
    run_list::<Explained>(rt, "explain")?;
    run_list::<Initial>(rt, "initial")
}
