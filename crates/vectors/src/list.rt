// A list of test vectors, and the run of one.
ghost use Rattle.std.specs.Prelude.{◌<◌, ◌≤◌, ◌^◌, IfOk, length};

use crate::counts::{Counts, Outcome};
use crate::given::Given;
use crate::line::read_words;
use crate::words::Words;
use std::fs::File;
use std::io::{self, Read};

// No list has so many bytes, and no line more words.
// Stays: a list and its words lie in fixed memory, since no program here has a heap.
const BYTES: usize = 524288;

const WORDS: usize = 640;

/// A call, the letter that its lines begin with, and the name that they are counted under.
#[derive(Clone, Copy, Debug)]
pub struct Row<C>(pub u8, pub &'static str, pub C);

/// A list, by what its lines call.
pub trait List: Copy + 'static {
    const ROWS: &'static [Row<Self>];

    /// Whether a line of this call has such words.
    fn is_call(self, words: &Words<'_>) -> bool;

    /// Whether the call answers what its line says.
    fn passes(self, words: &Words<'_>, given: &Given) -> bool;
}

fn run_line<L: List>(line: &[u8], given: &mut Given) -> Outcome {
    let Some(&letter) = line.first() else {
        return Outcome::Untried;
    };
    if letter == b'#' {
        return Outcome::Untried;
    }
    let mut numbers = [0u64; WORDS];
    let Some(words) = read_words(line, &mut numbers) else {
        return Outcome::Malformed;
    };
    if letter == b'w' && given.set_weights(&words) || letter == b'g' && given.set_slots(&words) {
        return Outcome::Untried;
    }
    for (row, Row(first, _, call)) in L::ROWS.iter().enumerate() {
        if *first == letter && call.is_call(&words) {
            let passed = call.passes(&words, given);
            return Outcome::Tried { row, passed };
        }
    }
    Outcome::Malformed
}

fn run_text<L: List>(rt: &impl Print, text: &[u8]) -> io::Result<()> {
    let mut given = Given::NONE;
    let mut counts = Counts::NONE;
    for (i, line) in text.split_inclusive(|b| *b == b'\n').enumerate() {
        counts.add(run_line::<L>(line, &mut given), i as u64 + 1);
    }
    counts.print(rt, L::ROWS)
}

// Reads until the bytes are full or the input ends, and says how many came: they stand first.
fn read_full(reader: &mut impl Read, bytes: &mut [u8]) -> io::Result<usize>
    ensures { IfOk result (λ n. n ≤ length bytes.new) }
{
    let mut n = 0;
    // Stays: a read may come short, and std's `read_to_end` takes a heap; batchgrad has it too, and a crate for one loop is no plainer.
    while n < bytes.len() {
        let count = reader.read(&mut bytes[n..])?;
        if count == 0 {
            break;
        }
        n += count;
    }
    Ok(n)
}

// Runs the list in a file of fewer than N bytes. Never inlined: where `main` takes one of its calls in, the room for that list's text stays on the stack below
// the others'.
#[inline(never)]
fn run_open<L: List, const N: usize>(rt: &impl Print, file: &mut impl Read) -> io::Result<()>
    requires { N < 2 ^ 63 }
{
    let mut text = [0u8; N];
    let n = read_full(file, &mut text)?;
    if n == N {
        return println!(rt; "failed: it is too long");
    }
    run_text::<L>(rt, &text[..n])
}

/// Runs the list in the file `name`.
pub fn run_list<L: List>(rt: &HostRuntime, name: &str) -> io::Result<()> {
    println!(rt; "{name}")?;
    match File::open(rt, name) {
        Err(_) => println!(rt; "failed: it cannot be opened"),
        Ok(mut file) => run_open::<L, BYTES>(rt, &mut file),
    }
}
