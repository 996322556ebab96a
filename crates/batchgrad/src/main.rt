//! Reads a batch file on standard input and prints the bits of its loss and of the 21 gradient slots, each started at +0.0: 22
//! lines of 16 hexadecimal digits; or `refused N`, and where a bad cell is the reason, its column and row on standard error, for
//! the script ./batchgrad, which tells them in words.
#![tactic(auto)]

ghost use Rattle.std.specs.Prelude.{◌≤◌, IfOk, length};

use batch::fault::file_fault;
use batch::run_file;
use checks::fault::{Fault, Place};
use std::io::{self, Read};

// One byte more than the longest file has, so that a longer one is seen to be.
const ROOM: usize = 65537;

fn print_bits(rt: &impl Print, x: f64) -> io::Result<()> {
    println!(rt; "{:016x}", std::num::f64_to_bits_with_nan(x))
}

fn print_slots(rt: &impl Print, gw: &[f64; 21]) -> io::Result<()> {
    for slot in gw {
        print_bits(rt, *slot)?;
    }
    Ok(())
}

// Both counted from 0.
fn print_place(rt: &impl Eprint, place: Place) -> io::Result<()> {
    let Place { column, row } = place;
    eprintln!(rt; "{column} {row}")
}

fn run(rt: &(impl Print + Eprint), file: &[u8]) -> io::Result<()> {
    let mut gw = [0.0; 21];
    match run_file(file, &mut gw) {
        Ok(loss) => {
            print_bits(rt, loss)?;
            print_slots(rt, &gw)
        }
        Err(refusal) => {
            println!(rt; "refused {}", refusal.number())?;
            match file_fault(file) {
                Err(
                    Fault {
                        place: Some(place),
                        ..
                    },
                ) => print_place(rt, place),
                _ => Ok(()),
            }
        }
    }
}

// Reads until the bytes are full or the input ends, and says how many came: they stand first.
// Stays: no plainer. std's `read_exact` fails where the input is shorter, and its readers to the end want a heap.
fn read_full(reader: &mut impl Read, bytes: &mut [u8]) -> io::Result<usize>
    ensures { IfOk result (λ n. n ≤ length bytes.new) }
{
    let mut n = 0;
    while n < bytes.len() {
        let count = reader.read(&mut bytes[n..])?;
        if count == 0 {
            break;
        }
        n += count;
    }
    Ok(n)
}

fn main(rt: HostRuntime) -> io::Result<()> {
    let mut bytes = [0u8; ROOM];
    let n = read_full(&mut rt.reader(), &mut bytes)?;
    run(&rt, &bytes[..n])
}
